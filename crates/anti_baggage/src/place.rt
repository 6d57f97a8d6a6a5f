/// Where a piece stands in a text.
#[derive(Clone, Copy)]
pub enum Place {
    /// In version 1, where each names its store.
    Alone,
    /// At the front of a group, whose store it names.
    First,
    /// Behind another of its group, whose store it has.
    Later,
}
