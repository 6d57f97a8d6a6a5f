use anti_ids::{NoMemory, WriteId};
use anti_kind::Refusal;
use thiserror::Error;

/// Why a call of a shim gives nothing.
#[derive(Clone, Copy, Debug, Error)]
pub enum ShimFault {
    /// The port refused the call.
    #[error("{0}")]
    Refused(Refusal),
    /// The look was made, and this id is the first that nobody wrote.
    #[error("nobody wrote version {} of store {}", .0.version, .0.store)]
    Unwritten(WriteId),
    /// The write was made, and with its id and what is kept beside it the lineage would have more
    /// ids than one can have. It is as it was.
    #[error("version {} of store {} was written, and the lineage is full", .0.version, .0.store)]
    LineageFull(WriteId),
    /// There was no memory.
    #[error("no memory")]
    NoMemory,
}

impl From<NoMemory> for ShimFault {
    ghost use Rattle.std.specs.Prelude.{◌≡◌};
    ghost use Rattle.anti_shim.specs.declared.fault.ShimFault.TheVariants as faults;

    ghost from_gives = { λ _ fault. fault ≡ faults.NoMemory };

    fn from(_: NoMemory) -> ShimFault {
        ShimFault::NoMemory
    }
}
