ghost use Rattle.std.specs.Prelude.{◌≡◌, ◌≤◌, ◌^◌, length, IfOk, IfErr, OnOk, OnErr};
ghost use Rattle.sample_callers.specs.Headers.{HasWrite, IsCause, IsJoinCause, Joins, of_adding, of_reading};

use anti_baggage::{Baggage, BaggageFault, decode, encode};
use anti_ids::{Bytes, Copies, Lineage, LineageRefused, Name, NoMemory, WriteId};
use std::alloc::Global;
use thiserror::Error;

/// Why a header is not carried on.
#[derive(Clone, Copy, Debug, PartialEq, Eq, Error)]
pub enum HeaderFault {
    /// The header is no text of a lineage.
    #[error("the header is no lineage: {0}")]
    Unread(BaggageFault),
    /// The lineage would have more ids than one may have.
    #[error("the lineage would have too many ids")]
    Full,
    /// There was no memory.
    #[error("no memory")]
    NoMemory,
}

impl From<BaggageFault> for HeaderFault {
    ghost from_gives = { λ fault header. header ≡ of_reading fault };

    fn from(fault: BaggageFault) -> HeaderFault {
        match fault {
            BaggageFault::NoMemory => HeaderFault::NoMemory,
            fault => HeaderFault::Unread(fault),
        }
    }
}

impl From<LineageRefused> for HeaderFault {
    ghost from_gives = { λ refused header. header ≡ of_adding refused };

    fn from(refused: LineageRefused) -> HeaderFault {
        match refused {
            LineageRefused::Full => HeaderFault::Full,
            LineageRefused::NoMemory => HeaderFault::NoMemory,
        }
    }
}

impl From<NoMemory> for HeaderFault {
    ghost use Rattle.sample_callers.specs.declared.baggage.HeaderFault.TheVariants as faults;

    ghost from_gives = { λ _ header. header ≡ faults.NoMemory };

    fn from(_: NoMemory) -> HeaderFault {
        HeaderFault::NoMemory
    }
}

/// The header that goes on: what came states a lineage, and this program adds a write of its own.
pub fn with_write(
    alloc: Global,
    stores: &[Name],
    header: &[u8],
    id: WriteId,
) -> Result<Bytes, HeaderFault>
    requires stores { length stores.now ≤ 2 ^ 32 }
    requires written { 1 ≤ id.version }
    ensures text { IfOk result (λ text. HasWrite stores.now header.now id text) }
    ensures cause { IfErr result (λ fault. IsCause stores.now header.now id fault) }
{
    let mut lineage = decode(alloc, stores, header)?;
    lineage.append(id)?;
    let text = encode(alloc, stores, &lineage)?;
    Ok(text)
}

/// Adds what came with a message to what its receiver carries, which stays as it was on an error.
pub fn join(
    alloc: Global,
    stores: &[Name],
    came: &Baggage,
    carried: &mut Lineage,
) -> Result<(), HeaderFault>
    requires { length stores.now ≤ 2 ^ 32 }
    ensures joined { OnOk result (Joins stores.now came.now.items carried.old carried.new) }
    ensures cause { IfErr result (λ fault. IsJoinCause stores.now came.now.items carried.old fault) }
    ensures kept { OnErr result (carried.new ≡ carried.old) }
{
    let lineage = came.lineage(alloc, stores)?;
    carried.transfer(&lineage)?;
    Ok(())
}

/// The baggage of two messages, of a header that is passed on unread.
pub fn relay(alloc: Global, header: Bytes) -> Result<(Baggage, Baggage), NoMemory>
    ensures { IfOk result (λ both. (both.0 ≡ header) × (both.1 ≡ header)) }
{
    let first = Baggage::from_text(header);
    let second = first.copy(alloc)?;
    Ok((first, second))
}
