//! What stands in the nodes of a list.

/// An item with the number of its ticket.
pub struct Held<T> {
    pub(crate) number: u64,
    pub(crate) item: T,
}
