/// Why a line fails.
#[derive(Clone, Copy, PartialEq, Eq)]
pub enum Reason {
    /// It takes an id out of the lineage.
    Removed,
    /// It writes, and the id of the write never joins the lineage.
    Untracked,
    /// Rows were read before it and are not transferred: what they depend on would be lost.
    Untransferred,
    /// It reads, and no barrier waited for what is carried.
    Unsettled,
}
