use thiserror::Error;

/// A read or a write failed. The count of faults of the source or the sink rose with it.
#[derive(Clone, Copy, Debug, PartialEq, Eq, Error)]
#[error("a read or a write failed")]
pub struct Failed;
