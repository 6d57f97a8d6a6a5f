ghost use Rattle.std.specs.Prelude.{◌≡◌, ◌<◌, ◌≤◌, length, IfOk, OnOk, IfSome, Err};
ghost use Rattle.anti_ids.specs.Counts.{Rose};
ghost use Rattle.anti_edge.specs.Outside.{IsEnd, TakesAtMost};
ghost use Rattle.anti_edge.specs.Streams.{TakesFront};

use crate::failed::Failed;
use crate::source::Source;
use anti_ids::{Bytes, NoMemory};
use std::alloc::Global;
use thiserror::Error;

/// Why a source was not read to its end.
#[derive(Clone, Copy, Debug, PartialEq, Eq, Error)]
pub enum ReadRefused {
    /// A read failed, and the count of faults of the source rose. No more than the limit were taken before.
    #[error("a read failed")]
    Fault,
    /// There are more bytes than the limit.
    #[error("there are more bytes than the limit")]
    TooLong,
    /// There was no memory for the bytes.
    #[error("no memory for the bytes")]
    NoMemory,
}

impl From<Failed> for ReadRefused {
    ghost use Rattle.anti_edge.specs.declared.whole_reads.ReadRefused.TheVariants as refused;

    ghost from_gives = { λ _ refusal. refusal ≡ refused.Fault };

    fn from(_: Failed) -> ReadRefused {
        ReadRefused::Fault
    }
}

impl From<NoMemory> for ReadRefused {
    ghost use Rattle.anti_edge.specs.declared.whole_reads.ReadRefused.TheVariants as refused;

    ghost from_gives = { λ _ refusal. refusal ≡ refused.NoMemory };

    fn from(_: NoMemory) -> ReadRefused {
        ReadRefused::NoMemory
    }
}

/// Reads the source to its end and answers all its bytes, of which there are at most `limit`.
pub fn read_all<S: Source>(alloc: Global, src: &mut S, limit: u32) -> Result<Bytes, ReadRefused>
    ensures all { IfOk result (λ bytes. IfSome (S.left src.old) (λ left. bytes.items ≡ left)) }
    ensures short { IfOk result (λ bytes. length bytes.items ≤ limit) }
    ensures end { OnOk result (IsEnd (S.left src.new)) }
    ensures too_long { result ≡ Err ReadRefused.TooLong → IfSome (S.left src.old) (λ left. limit < length left) }
    ensures fault { result ≡ Err ReadRefused.Fault → Rose (S.faults src.old) (S.faults src.new) }
    ensures early { result ≡ Err ReadRefused.Fault → TakesAtMost limit (S.left src.old) (S.left src.new) }

    // What stands after any answer.
    ensures front { TakesFront (S.left src.old) (S.left src.new) }
    ensures count { S.faults src.old ≤ S.faults src.new }
{
    let mut bytes = Bytes::new(alloc);
    let mut block = [0u8; 4096];
    loop {
        let count = src.read(&mut block)?;
        if count == 0 {
            return Ok(bytes);
        }
        if count > limit as usize - bytes.len() {
            return Err(ReadRefused::TooLong);
        }
        bytes.append(block.split_at(count).0)?;
    }
}
