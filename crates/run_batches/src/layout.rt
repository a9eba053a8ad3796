//! How a batch is kept: a byte for its flag, and its own bytes.

ghost use Rattle.std.specs.Prelude.{◌≡◌};
ghost use Rattle.run_batches.specs.OneBatch.{IsBatchOf};
ghost use Rattle.run_batches.specs.Layout.{byte_of, flag_of};

use log_batch::Batch;
use model_base::Flag;

const LOG: u8 = 0;

const NO_LOG: u8 = 1;

const SYNC: u8 = 2;

pub fn byte_of(flag: Flag) -> u8
    ensures { result ≡ byte_of flag }
{
    match flag {
        Flag::Log => LOG,
        Flag::NoLog => NO_LOG,
        Flag::Sync => SYNC,
    }
}

pub fn flag_of(byte: u8) -> Flag
    ensures { result ≡ flag_of byte }
{
    match byte {
        LOG => Flag::Log,
        NO_LOG => Flag::NoLog,
        _ => Flag::Sync,
    }
}

/// The bytes of a batch, which determine it.
pub fn bytes_of(batch: &Batch) -> &[u8]
    ensures { IsBatchOf result.now batch.now }
{
    // From these calls the proof knows that the numbers of the header fit, and that the records can be read back.
    let _fit = (batch.sequence(), batch.count());
    drop(batch.records());
    batch.bytes()
}
