ghost use Rattle.std.specs.Prelude.{◌≡◌};
ghost use Rattle.anti_proc.specs.Trees.{end_as};

use anti_ids::NoMemory;
use thiserror::Error;

/// How a process ends by its body.
#[derive(Clone, Copy)]
pub enum BodyEnd {
    /// It came to the end of its body, or to `nack`.
    Fine,
    /// A call or a send was to be made, whose message would be too deep.
    Depth,
    /// What stands for a key was no key.
    BadKey,
    /// An id was to enter a lineage that has as many as a lineage may have.
    LineageFull,
}

/// How a process ends.
#[derive(Clone, Copy, PartialEq, Eq)]
pub enum End {
    /// It came to the end of its body, or to `nack`.
    Fine,
    /// A call or a send was to be made, whose message would be too deep.
    Depth,
    /// What stands for a key was no key.
    BadKey,
    /// An id was to enter a lineage that has as many as a lineage may have.
    LineageFull,
    /// Its next call did not fit on the object of this number.
    StoreFull(u32),
}

/// How a process ends that so ends by its body.
pub fn end_as(end: BodyEnd) -> End
    ensures { result ≡ end_as end }
{
    match end {
        BodyEnd::Fine => End::Fine,
        BodyEnd::Depth => End::Depth,
        BodyEnd::BadKey => End::BadKey,
        BodyEnd::LineageFull => End::LineageFull,
    }
}

/// Why a process took no message or reply.
#[derive(Clone, Copy, Debug, PartialEq, Eq, Error)]
pub enum ProcFault {
    /// The message, the row or the reply is none of the application's: the service has not the handler that is named, it is too deep, its
    /// baggage states no lineage, or an id in it is of no store.
    #[error("the message, the row or the reply is none of the application")]
    Foreign,
    /// There was no memory.
    #[error("no memory")]
    NoMemory,
}

impl From<NoMemory> for ProcFault {
    ghost use Rattle.anti_proc.specs.declared.end.ProcFault.TheVariants as faults;

    ghost from_gives = { λ _ fault. fault ≡ faults.NoMemory };

    fn from(_: NoMemory) -> ProcFault {
        ProcFault::NoMemory
    }
}
