//! How a thread waits for a change that another thread makes. It checks again and again, and pauses in between: at
//! first it spins, then it yields, and from then on it sleeps on a bell.
//!
//! It yields as long as yields are quick, as threads do that wait for their turn in RocksDB's line (`AwaitState` in
//! its db/write_thread.cc), but at most 20 times in one wait. What threads that wait in one place learn of yields they
//! share (`Yields`): after a slow yield, which means that other threads want the processors, waits there are made
//! without a yield for a while: eight times as long as it took, and after each further slow yield twice as many times
//! as after the last one, up to 256. Each wait since then whose first yield was quick lowers the number that is doubled
//! by one. So yields take no more than a small part of the time, whatever the number of those that wait, and however
//! often they wait.
//!
//! A waiting thread sets its bell, checks once more, and then sleeps until the bell is rung, for a millisecond at
//! most. The thread that makes the change does so first, and then rings. Nothing is claimed of bells: a thread that
//! misses a ring wakes by itself and checks.
#![tactic(auto)]

mod bell;
mod bells;
mod pauses;
mod yields;

pub use bell::Bell;
pub use bells::Bells;
pub use pauses::Pauses;
pub use yields::Yields;
