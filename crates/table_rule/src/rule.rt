//! The rule, and how seats are cut and joined.
ghost use Rattle.std.specs.Prelude.{[], ◌++◌};
ghost use Rattle.table_rule.specs.Rule.{IsConsistent, newcomers};
ghost use Rattle.model_base.specs.Halves.{all_but_first, first_only};

use crate::content::Content;
use crate::view::{Opening, TableView};
use atomic_table::{Join, Split, TableRule};

/// What holds versions, such as a tree or a member's nodes.
pub trait Versioned {
    ghost use Rattle.std.specs.Prelude.{List};
    ghost use Rattle.table_rule.specs.declared.content.Version.{Version};

    ghost versions: { Self → List Version };
}

/// What holds between any two steps.
pub struct TableLaw;

impl<ShardTree: Versioned, NodeList: Versioned> TableRule<
    Content<ShardTree, NodeList>,
    TableView,
    Opening,
> for TableLaw {
    ghost holds = { λ z. IsConsistent ShardTree.versions NodeList.versions z };

    ghost first = { λ z. newcomers z 1 z.clients };
}

/// Cuts the first state of a seat off.
pub struct First;

impl Split<TableView> for First {
    ghost left = { λ v. all_but_first v };

    ghost right = { λ v. first_only v };
}

/// Cuts all but the first state of a seat off.
pub struct AllButFirst;

impl Split<TableView> for AllButFirst {
    ghost left = { λ v. first_only v };

    ghost right = { λ v. all_but_first v };
}

/// Adds another seat's states.
pub struct Both;

impl Join<TableView> for Both {
    ghost both = { λ v w. v ++ w };

    ghost spent = { [] };
}
