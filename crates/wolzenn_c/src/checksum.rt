//! Checksums.

ghost use Rattle.std.specs.Prelude.{◌≡◌, ℕ, List, ◌++◌};
ghost use Rattle.model_base.specs.Checksum as checksum;

/// The CRC-32C of the bytes.
#[unsafe(no_mangle)]
pub extern "C" fn wz_crc32c(bytes: &[u8]) -> u32
    ensures { result ≡ checksum.crc32c bytes.now }
{
    base_bytes::crc32c(bytes)
}

/// The CRC-32C of some bytes followed by these bytes. `crc` is the CRC-32C of the first ones.
#[unsafe(no_mangle)]
pub extern "C" fn wz_crc32c_extend(crc: u32, bytes: &[u8]) -> u32
    ensures { (front : List ℕ) → checksum.crc32c front ≡ crc → result ≡ checksum.crc32c (front ++ bytes.now) }
{
    base_bytes::extend(crc, bytes)
}

/// The form that a checksum has in a log: it is masked.
#[unsafe(no_mangle)]
pub extern "C" fn wz_crc32c_mask(crc: u32) -> u32
    ensures { result ≡ checksum.masked crc }
{
    base_bytes::mask(crc)
}
