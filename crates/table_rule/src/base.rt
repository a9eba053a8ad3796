//! The versions that a table has when it is opened.
ghost use Rattle.std.specs.Prelude.{◌≡◌, [], IfOk};

use crate::content::Version;
use crate::steps::VersionPlan;
use atomic_table::{Badge, Table, TableRule};
use model_base::NoMemory;
use std::alloc::Global;
use std::collections::LinkedList;
use std::marker::{Model, PhantomData};

/// The versions that are in a table's trees when it is opened. Contracts see them; at run time it has no bytes.
///
/// It is the view of a seat of a table without words, which nobody else knows.
#[derive(Drop)]
pub struct Base {
    badge: Badge<LinkedList<Version>>,
}

impl Model for Base {
    ghost use Rattle.std.specs.Prelude.{List};
    ghost use Rattle.table_rule.specs.declared.content.Version.{Version};
    ghost use Rattle.table_rule.specs.Bases.{first_view};

    ghost Value = { List Version };

    ghost view = { λ b. first_view b.badge.views };
}

/// The rule of a table that is made only for its first seat. The plan says what that seat's view is.
struct NamingLaw<Plan> {
    marker: PhantomData<Plan>,
}

impl<Plan: VersionPlan> TableRule<(), LinkedList<Version>, ()> for NamingLaw<Plan> {
    ghost holds = { λ _ _. Unit {0} };

    ghost first = { λ _. Plan.versions };
}

impl Base {
    /// No versions. This takes no memory.
    pub fn none() -> Base
        ensures { result ≡ [] }
    {
        Base {
            badge: Badge::blank(),
        }
    }

    /// The plan's versions.
    pub fn of<Plan: VersionPlan>(alloc: Global) -> Result<Base, NoMemory>
        ensures { IfOk result (λ base. base ≡ Plan.versions) }
    {
        let made = Table::<(), LinkedList<Version>, (), NamingLaw<Plan>, Global>::of_words(
            alloc,
            &[],
            &(),
        );
        let Ok((_table, seat)) = made else {
            return Err(NoMemory);
        };
        Ok(Base {
            badge: seat.into_badge(),
        })
    }
}
