//! Takes out what is in a slot, where it is known which kind of slot it is.
ghost use Rattle.std.specs.Prelude.{◌≡◌};
ghost use Rattle.line_rule.specs.declared.content.LineSlot.TheVariants.{Empty, TheLog, TheRight};

use line_rule::LineSlot;

pub(crate) fn log_of<Request, Reply, Log, Right>(slot: LineSlot<Request, Reply, Log, Right>) -> Log
    requires { (l : Log) × (slot ≡ TheLog l) }
    ensures { slot ≡ TheLog result }
{
    match slot {
        LineSlot::TheLog(log) => log,
        _ => unreachable!(),
    }
}

pub(crate) fn right_of<Request, Reply, Log, Right>(
    slot: LineSlot<Request, Reply, Log, Right>,
) -> Right
    requires { (r : Right) × (slot ≡ TheRight r) }
    ensures { slot ≡ TheRight result }
{
    match slot {
        LineSlot::TheRight(right) => right,
        _ => unreachable!(),
    }
}

pub(crate) fn nothing_of<Request, Reply, Log, Right>(slot: LineSlot<Request, Reply, Log, Right>)
    requires { slot ≡ Empty }
{
    match slot {
        LineSlot::Empty => {}
        _ => unreachable!(),
    }
}
