use crate::reason::Reason;

/// What there is to say of a line of a handler.
#[derive(Clone, Copy)]
pub struct Remark {
    /// The number of the service, counted from 0.
    pub service: u32,
    /// The number of the handler in its service, counted from 0.
    pub handler: u32,
    /// The line in the body, counted from 1. The end of the body has the line behind its last one.
    pub line: u32,
    /// What is found there.
    pub finding: Finding,
}

/// What is found at a line.
#[derive(Clone, Copy)]
pub enum Finding {
    /// It fails, for this reason.
    Fails(Reason),
    /// It is a barrier, and on no way has it to wait.
    Superfluous,
}
