//! An item as a number, as a word holds it.
ghost use Rattle.std.specs.Prelude.{◌≡◌, ℕ, ◌≤◌, ◌<◌, ◌^◌};
ghost use Rattle.line_rule.specs.Grouping.{code_of, item_of};
ghost use Rattle.model_base.specs.declared.group.Item.{Item};

use model_base::{Item, MAX_SIZE, WriteOptions};

/// The options' bits, 8 for an item that goes alone, and sixteen times the size.
pub fn code_of(item: Item) -> u64
    requires { item.size ≤ MAX_SIZE }
    ensures code { result ≡ code_of item }
    ensures small { result < 2 ^ 40 }
{
    u64::from(item.options.bits()) + 8 * u64::from(item.alone) + 16 * item.size
}

/// The item that a number represents.
pub fn item_of(code: u64) -> Item
    ensures { result ≡ item_of code }
{
    Item {
        size: code / 16,
        options: WriteOptions::of_bits(code),
        alone: code / 8 % 2 == 1,
    }
}

/// A number represents the item whose code it is.
pub fn codes_stand_for_items()
    ensures { (item : Item) → item_of (code_of item) ≡ item }
{}
