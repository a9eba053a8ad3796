//! What a group's leader holds.

ghost use Rattle.std.specs.Prelude.{◌≡◌, ◌⊎◌, None, Some};
ghost use Rattle.engine_groups.specs.Turns.{turn_of};

use engine_controller::{Controller, Note};
use engine_parts::{LogPath, OpenLog, SealedAnswer, SealedRequest};
use line_rule::LogOfGroups;
use line_writers::PipelinedRole;
use log_writer::GroupLog;
use std::snapshot::Snapshot;
use table_calls::Table;
use table_nodes::{Nodes, Parts};

/// The engine that a list of writers is for: its table, its controller, its log as it was opened, its numbers, and
/// whether its groups go into the table in a second stage.
#[derive(Drop)]
pub struct EngineAtOpening<Log: GroupLog, Versions, Time> {
    pub table: Snapshot<Versions>,
    pub controller: Snapshot<Controller<Time>>,
    pub opened: Snapshot<OpenLog<Log>>,
    pub start: u64,
    pub clients: u64,
    pub group_bytes: u64,
    pub pipelined: bool,
}

/// What a leader takes over from the leader before it: the path (the log, its last sequence, and where reads of it
/// begin) with the clock, the right to launch its group where there is one stage, and what the leader before it had
/// seen of the write controller.
/// Path and clock are in a box: a slot of the line is as large as the largest value that it may hold, and each
/// client's request and answer go through a slot.
pub struct Leadership<Log: GroupLog, Versions: Table<Nodes, Parts>, Time> {
    pub held: Box<Held<Log, Time>>,
    pub turn: Option<Versions::Turn>,
    pub asked: Note,
}

/// What goes from leader to leader in one box.
pub struct Held<Log: GroupLog, Time> {
    pub path: LogPath<Log>,
    pub clock: Time,
}

/// The right to launch groups, where that is a stage of its own.
pub struct Right<Versions: Table<Nodes, Parts>> {
    pub turn: Option<Versions::Turn>,
}

/// The right to launch that a leader of the second list was given.
pub(crate) fn turn_in<Log: GroupLog, Versions: Table<Nodes, Parts>, Time>(
    role: PipelinedRole<Leadership<Log, Versions, Time>, Right<Versions>, SealedAnswer>,
) -> Versions::Turn
    requires { (u : Versions.Turn) × (turn_of role ≡ Some u) }
    ensures { turn_of role ≡ Some result }
{
    match role {
        PipelinedRole::MemLeader(Right { turn: Some(turn) }) => turn,
        _ => unreachable!(),
    }
}

/// The right to launch, which is in exactly one of the two places.
pub(crate) fn one_turn<Turn>(with_log: Option<Turn>, apart: Option<Turn>) -> Turn
    requires { ((u : Turn) × (with_log ≡ Some u) × (apart ≡ None))
        ⊎ ((u : Turn) × (with_log ≡ None) × (apart ≡ Some u)) }
    ensures { ((with_log ≡ Some result) × (apart ≡ None)) ⊎ ((with_log ≡ None) × (apart ≡ Some result)) }
{
    match (with_log, apart) {
        (Some(turn), None) => turn,
        (None, Some(turn)) => turn,
        _ => unreachable!(),
    }
}

impl<Log: GroupLog, Versions: Table<Nodes, Parts>, Time> LogOfGroups<
    SealedRequest,
    SealedAnswer,
    Right<Versions>,
> for Leadership<Log, Versions, Time> {
    type About = EngineAtOpening<Log, Versions, Time>;

    ghost use Rattle.engine_parts.specs.Handled.{AreHandled, IsDropped, IsNoted};
    ghost use Rattle.engine_groups.specs.Law.{LeadershipCovers, RightStandsFor};

    ghost stands = { λ a l handled. LeadershipCovers Versions.Table a l handled };

    ghost kept = { λ a handled. AreHandled a.controller.value a.opened.value a.start handled };

    ghost serves = { λ a right served. RightStandsFor Versions.Table a right served };

    ghost drops = { λ a q p. IsDropped a.controller.value q p };

    ghost lawful = { λ a q. IsNoted a.controller.value q };

    ghost number_of = { λ l. l.held.value.path.last };

    fn number(&self) -> u64 {
        self.held.path.last
    }
}
