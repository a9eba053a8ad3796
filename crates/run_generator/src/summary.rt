//! The sum of the values that a run leaves.

ghost use Rattle.std.specs.Prelude.{◌≡◌, Some, None, if◌then◌else◌};
ghost use Rattle.run_generator.specs.Values.{have_numbers, sum_of_values};

use base_maps::FamilyMap;
use run_scripts::value_of_digits;

/// The sum of a map's values as numbers, if each of them is below `2^64`.
pub fn sum_of(map: &FamilyMap) -> Option<u128>
    // There is no sum where a value is no number below `2^64`. A sum may be greater than that.
    ensures { result ≡ (if have_numbers map.now then Some (sum_of_values map.now) else None) }
{
    // This many numbers below 2^64 have a sum below 2^128.
    let count = map.len();
    prove!(count <= usize::MAX);
    let mut sum: u128 = 0;
    // What is summed up and what is left make the whole sum, and each value so far is below 2^64.
    for (_, _, value) in map.iter() {
        sum += u128::from(value_of_digits(value)?);
    }
    Some(sum)
}
