use crate::fault::Fault;

/// What is sought in a body.
#[derive(Clone, Copy)]
pub enum Sought {
    /// The lines that fail.
    Faults {
        /// Whether the handler is called.
        called: bool,
    },
    /// The barriers that have to wait for what is carried.
    Waits,
}

/// What is sought in a body, and where the search begins.
#[derive(Clone, Copy)]
pub struct Search {
    /// What is sought.
    pub sought: Sought,
    /// The fault behind which it is sought; `None` where all of the body is searched.
    pub after: Option<Fault>,
}
