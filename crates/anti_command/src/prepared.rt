use crate::outcome::RunKept;
use anti_ids::Bytes;

/// All that is made before the first byte is written: the run, where one was played, and the text to be written.
pub type Prepared = (Option<RunKept>, Bytes);
