//! The items that the tests' writers ask with, of the sizes at which the grouping rule decides.

ghost use Rattle.std.specs.Prelude.{◌≡◌};

use model_base::{Item, WriteOptions};

/// The bound of the grouping rule's worked examples.
pub const MAX: u64 = 1048576;

pub const UNFLAGGED: WriteOptions = WriteOptions {
    sync: false,
    no_log: false,
    no_slowdown: false,
};

/// A small item. As a leader its cap is its own 100 and an eighth of the bound.
pub const PLAIN: Item = Item {
    size: 100,
    options: UNFLAGGED,
    alone: false,
};

pub const SYNCED: Item = Item {
    options: WriteOptions {
        sync: true,
        ..UNFLAGGED
    },
    ..PLAIN
};

pub const UNLOGGED: Item = Item {
    options: WriteOptions {
        no_log: true,
        ..UNFLAGGED
    },
    ..PLAIN
};

pub const HASTY: Item = Item {
    options: WriteOptions {
        no_slowdown: true,
        ..UNFLAGGED
    },
    ..PLAIN
};

/// It wants a group of its own.
pub const LONE: Item = Item {
    alone: true,
    ..PLAIN
};

/// An eighth of the bound. A leader above this size is a larger one, whose cap is the bound.
pub const EIGHTH: Item = Item {
    size: 131072,
    ..PLAIN
};

pub const PAST_EIGHTH: Item = Item {
    size: 131073,
    ..PLAIN
};

/// What `PAST_EIGHTH` leaves of the bound.
pub const REST: Item = Item {
    size: 917503,
    ..PLAIN
};

pub const PAST_REST: Item = Item {
    size: 917504,
    ..PLAIN
};

/// A plain item of this size.
pub fn sized(size: u64) -> Item
    ensures { result.size ≡ size }
{
    Item { size, ..PLAIN }
}
