//! The rule of the list, and what it asks of requests, replies, log and right.
ghost use Rattle.std.specs.Prelude.{◌≡◌, ℕ, List, [], ◌++◌};

use crate::content::{LineSlot, Start};
use crate::view::{Handling, LineView};
use atomic_table::{Join, Split, TableRule};
use std::marker::Brand;

/// What a log and a right say of what was handled, what is asked of the requests, and the log's number.
pub trait LogOfGroups<Request, Reply, Right> {
    /// What the law is about, besides the log.
    type About;

    ghost use Rattle.std.specs.Prelude.{ℕ, List};
    ghost use Rattle.line_rule.specs.declared.view.Handling.{Handling};

    ghost stands: { Self.About → Self → List (Handling Request Reply) → Type 0 };

    /// What holds of what was handled, wherever the log is.
    ghost kept: { Self.About → List (Handling Request Reply) → Type 0 };

    /// What the right covers, of the handled requests that were given runs.
    ghost serves: { Self.About → Right → List (Handling Request Reply) → Type 0 };

    /// What holds of a request, and of the reply with which its writer leaves the queue while writes are stalled.
    ghost drops: { Self.About → Request → Reply → Type 0 };

    /// What holds of each request that is in the list.
    ghost lawful: { Self.About → Request → Type 0 };

    ghost number_of: { Self → ℕ };

    fn number(&self) -> u64
        ensures { result ≡ Self.number_of self.now };
}

/// The run that a reply gives, by its first number and its count; the count is 0 where it gives none.
pub trait GivesRun {
    ghost use Rattle.std.specs.Prelude.{ℕ};

    ghost run_of: { Self → ℕ × ℕ };
}

/// What grouping sees of a request.
pub trait HasGroupingItem {
    ghost use Rattle.model_base.specs.declared.group.Item.{Item};

    ghost item_of: { Self → Item };
}

/// What the law of the log is about, and a number; the caller picks both. The number is that at opening, or a group's
/// bound.
pub trait PickedAbout<About> {
    ghost use Rattle.std.specs.Prelude.{ℕ, Option};

    ghost number: { ℕ };

    ghost about: { Option About };
}

impl<About> PickedAbout<About> for Brand {
    ghost use Rattle.std.specs.Prelude.{None};

    ghost number = { 0 };

    ghost about = { None };
}

/// Which of the handled requests were given runs; the caller picks them.
pub trait PickedGiven<Request, Reply> {
    ghost use Rattle.std.specs.Prelude.{List};
    ghost use Rattle.line_rule.specs.declared.view.Handling.{Handling};

    ghost given: { List (Handling Request Reply) };
}

impl<Request, Reply> PickedGiven<Request, Reply> for Brand {
    ghost use Rattle.std.specs.Prelude.{[]};

    ghost given = { [] };
}

/// What the law of the right is about, and which of the handled requests were given runs; the caller picks both.
pub trait PickedRight<Request, Reply, About> {
    ghost use Rattle.std.specs.Prelude.{List, Option};
    ghost use Rattle.line_rule.specs.declared.view.Handling.{Handling};

    ghost about: { Option About };

    ghost given: { List (Handling Request Reply) };
}

impl<Request, Reply, About> PickedRight<Request, Reply, About> for Brand {
    ghost use Rattle.std.specs.Prelude.{[], None};

    ghost about = { None };

    ghost given = { [] };
}

/// The rule: between any two steps `Listed` holds of the words, the slots and the seats.
pub struct ListRule;

impl<
    Request: HasGroupingItem,
    Reply: GivesRun,
    Log: LogOfGroups<Request, Reply, Right>,
    Right,
> TableRule<LineSlot<Request, Reply, Log, Right>, LineView<Request, Reply>, Start<Log::About>>
    for ListRule {
    ghost use Rattle.line_rule.specs.Laws.{laws_for};
    ghost use Rattle.line_rule.specs.Rule.{Listed, newcomers};

    ghost holds = { λ k. Listed (laws_for Request.item_of Reply.run_of Log.LogOfGroups k)
        k.clients };

    ghost first = { λ k. newcomers k.clients };
}

/// Cuts the first client off.
pub struct SplitFirst;

impl<Request, Reply> Split<LineView<Request, Reply>> for SplitFirst {
    ghost use Rattle.model_base.specs.Halves.{all_but_first, first_only};

    ghost left = { λ v. all_but_first v };

    ghost right = { λ v. first_only v };
}

/// Adds another seat's clients.
pub struct JoinClients;

impl<Request, Reply> Join<LineView<Request, Reply>> for JoinClients {
    ghost both = { λ v w. v ++ w };

    ghost spent = { [] };
}
