//! The table of events.

ghost use Rattle.std.specs.Prelude.{◌≡◌, false};
ghost use Rattle.replay_core.specs.Shown.{plans_in};
ghost use Rattle.replay_core.specs.Replay.{Replays};
ghost use Rattle.replay_core.specs.Shows.{Takes};

use crate::state::State;
use model_base::Refusal;
use model_core::Event;

/// How many events of a list came, and how many were passed over.
#[derive(Clone, Copy, Debug, PartialEq, Eq)]
pub struct Counts {
    pub taken: u64,
    pub skipped: u64,
}

impl State<'_> {
    /// Takes an event, if it may come. If it may not, nothing changes, and the answer is false. The plans stay as they
    /// are. This takes no memory.
    pub fn step(&mut self, event: Event) -> bool
        // It takes an event exactly where the table of events lets it come, and then shows the state after it.
        ensures takes { Takes event self.old result self.new }
        // A skipped event changes nothing, not even what can't be seen.
        ensures unchanged { result ≡ false → self.new ≡ self.old }
        ensures plans { plans_in self.new ≡ plans_in self.old }
    {
        match event {
            Event::Link(client) => self.link(client),
            Event::Elect(client) => self.elect(client),
            Event::Build(client) => self.build(client),
            Event::Log(client) => self.log_group(client),
            Event::Fault(client) => self.fault(client),
            Event::Refuse {
                client,
                stops,
                delays,
                wait,
            } => self.refuse(
                client,
                Refusal::Incomplete {
                    stops,
                    delays,
                    wait,
                },
            ),
            Event::Stall(client) => self.stall(client),
            Event::Leave {
                client,
                stops,
                delays,
            } => self.leave_queue(
                client,
                Refusal::Incomplete {
                    stops,
                    delays,
                    wait: 0,
                },
            ),
            Event::Unstall(client) => self.unstall(client),
            Event::Boundary(client) => self.boundary(client),
            Event::Second(client) => self.to_second(client),
            Event::Next(client) => self.next(client),
            Event::Launch(client) => self.launch(client),
            Event::Insert(client) => self.insert(client),
            Event::Finish(client) => self.finish(client),
            Event::Publish(client) => self.publish(client),
            Event::Since(client) => self.read_log(client),
            Event::Exit(client) => self.exit(client),
            Event::Complete(client) => self.complete(client),
            Event::Read(client) => self.read(client),
        }
    }
}

impl Counts {
    ghost use Rattle.std.specs.Prelude.{◌+◌, ◌-◌, ◌^◌, ◌<◌};
    ghost use Rattle.replay_core.specs.Counted.{counts_after_event};

    /// The counts after one more event, which came or not.
    fn after_event(self, came: bool) -> Counts
        requires { self.taken + self.skipped < 2 ^ 64 - 1 }
        ensures { result ≡ counts_after_event came self }
    {
        if came {
            Counts {
                taken: self.taken + 1,
                skipped: self.skipped,
            }
        } else {
            Counts {
                taken: self.taken,
                skipped: self.skipped + 1,
            }
        }
    }
}

/// Takes events in order. Those that may not come are passed over.
pub fn replay(state: &mut State<'_>, events: &[Event]) -> Counts
    // How many events came, and what the state is after them.
    ensures replays { Replays events.now state.old result state.new }
    ensures unchanged { result.taken ≡ 0 → state.new ≡ state.old }
    ensures plans { plans_in state.new ≡ plans_in state.old }
{
    let mut counts = Counts {
        taken: 0,
        skipped: 0,
    };
    // The state is that after the events so far, and the counts say how many of these came.
    for event in events {
        let came = state.step(*event);
        counts = counts.after_event(came);
    }
    counts
}
