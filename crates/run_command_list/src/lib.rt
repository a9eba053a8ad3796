//! The commands of a client, kept as bytes one after another. They take little memory: a put takes nine bytes and
//! those of its key and its value, and no allocation of its own.
//!
//! Numbers have the lowest byte first. A word comes after its length, which has four bytes. The number of a family has
//! four bytes.
//!
//! | Tag | Command | After the tag |
//! |---|---|---|
//! | 1 | put | two words: the key and the value |
//! | 2 | delete | a word: the key |
//! | 3 | single delete | a word: the key |
//! | 4 | note | a word: the text |
//! | 5 | clear | nothing |
//! | 6 | commit | a byte: 1 for sync, 2 for no log and 4 for no slowdown, added up |
//! | 7 | get | the key's family, and a word: the key |
//! | 8 | get of several keys | the number of keys in four bytes, and for each its family and a word |
//! | 9 | scan | a family, and two words: where it begins, and what it stays below |
//! | 10 | stop | nothing |
//! | 11 | unstop | nothing |
//! | 12 | slow | the rate in eight bytes |
//! | 13 | unslow | nothing |
//! | 14 | put in a family that is named | the family, and two words: the key and the value |
//! | 15 | delete in a family that is named | the family, and a word: the key |
//! | 16 | single delete in a family that is named | the family, and a word: the key |
//! | 17 | updates | the sequence in eight bytes |
#![tactic(auto)]

mod command_kind;
mod command_view;
mod commands;
mod keys;
mod layout;
mod list;
mod reading;

pub use command_kind::CommandKind;
pub use command_view::CommandView;
pub use commands::Commands;
pub use keys::{KeyList, Keys};
pub use list::CommandList;
