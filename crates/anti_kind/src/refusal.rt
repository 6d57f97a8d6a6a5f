use thiserror::Error;

/// Why a call can't be made now. `NotYet` comes first, then `Full`, then `Spent`.
#[derive(Clone, Copy, Debug, PartialEq, Eq, Error)]
pub enum Refusal {
    /// The call is not ready.
    #[error("the call is not ready")]
    NotYet,
    /// It is ready, and the three numbers of units are together more than an object has.
    #[error("the object holds {held} units, owes {owed}, and the call needs {need}")]
    Full { held: u32, owed: u32, need: u32 },
    /// It is ready and fits, and the greater of the two clocks, the asker's and the object's, is the last stamp there is.
    #[error("no stamp is left after {clock}")]
    Spent { clock: u64 },
}
