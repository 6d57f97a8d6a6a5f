ghost use Rattle.std.specs.Prelude.{◌≡◌};

use crate::fault::TopFault;
use anti_app::{App, Waits};
use anti_trace::Trace;

/// A run of an application.
#[derive(Drop)]
pub struct RunKept {
    /// The application.
    pub app: App,
    /// What happened.
    pub trace: Trace,
    /// The numbers of the choices that had to wait, counted from 1.
    pub waits: Waits,
}

/// What a call came to.
#[derive(Drop)]
pub struct Outcome {
    /// The status that the program ends with.
    pub status: u8,
    /// The run, where one was played and a text was written, or begun.
    pub kept: Option<RunKept>,
    /// Why not all was written, where it was not.
    pub fault: Option<TopFault>,
}

impl Outcome {
    /// The status alone. The run is let go.
    pub fn into_status(self) -> u8
        ensures { result ≡ self.status }
    {
        self.status
    }
}
