use thiserror::Error;

/// Why bytes are no text of a lineage. Ids are counted from 1, and the first that is wrong decides; at one id the faults are tried
/// in this order.
#[derive(Clone, Copy, Debug, PartialEq, Eq, Error)]
pub enum BaggageFault {
    /// The bytes begin neither with `1;` nor with `2;`.
    #[error("the text begins neither with 1; nor with 2;")]
    BadHead,
    /// The text of this number is no id.
    #[error("id {0} of the text is none")]
    BadId(u32),
    /// No store has the name that this id gives.
    #[error("no store has the name that id {0} gives")]
    UnknownStore(u32),
    /// This id is not above the one before it, or it opens a group of the same store.
    #[error("id {0} is not above the one before it, or opens a group of the same store")]
    NotAscending(u32),
    /// This id is one more than a lineage may have.
    #[error("id {0} is one more than a lineage may have")]
    TooMany(u32),
    /// There was no memory.
    #[error("no memory")]
    NoMemory,
}
