/// Names one entry of a trace: no two entries of an object have the same place.
#[derive(Clone, Copy, Debug, PartialEq, Eq)]
pub struct Mark {
    /// The number of the object that the entry is on.
    pub object: u32,
    /// The place of the entry in the object's history, counted from 1.
    pub place: u32,
}
