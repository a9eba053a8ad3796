//! Checksums.

ghost use Rattle.std.specs.Prelude.{◌≡◌, [], ◌∷◌, codes};
ghost use Rattle.model_base.specs.Checksum.{crc32c, masked};

/// CRC-32C of the digits 1 to 9, which is the usual check value of a CRC, and its mask.
pub fn checksum_of_digits()
    ensures checksum { crc32c (codes "123456789") ≡ 0xe3069283 }
    ensures masked { masked 0xe3069283 ≡ 0xc78ab0e5 }
{}

/// The checksum of a log record of no bytes covers its type alone, which is 1.
pub fn checksum_of_empty_record()
    ensures checksum { crc32c (1 ∷ []) ≡ 0xa016d052 }
    ensures masked { masked 0xa016d052 ≡ 0x43282b05 }
{}
