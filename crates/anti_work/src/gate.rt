/// What each worker passes at the begin of each of its rounds. A test may hold some of them back there, so that their rounds meet.
pub trait Gate {
    /// The worker of a number begins its round of a number, counted from 1.
    fn pass(&self, worker: u32, round: u64);
}

/// A gate that holds no worker back.
#[derive(Drop)]
pub struct Open;

impl Gate for Open {
    fn pass(&self, _worker: u32, _round: u64) {}
}
