//! What a table is opened with.

/// The right to launch groups, and each client's seat, that of client 1 first.
#[derive(Drop)]
pub struct Seats<S, U> {
    pub turn: U,
    pub clients: Vec<S>,
}
