ghost use Rattle.std.specs.Prelude.{IsOk, OnErr, OnOk, ◌≡◌, ◌<◌};
ghost use Rattle.anti_ids.specs.ListCalls.{pushed};

use crate::list::List;
use crate::memory::NoMemory;

impl<T: Drop> List<T> {
    /// Adds an item at the end. Where there is no memory the item is given up; `push` gives it back.
    pub fn add(&mut self, item: T) -> Result<(), NoMemory>
        ensures ok { OnOk result (self.new ≡ pushed self.old item) }
        ensures err { OnErr result (self.new ≡ self.old) }
        ensures room { 0 < self.old.spare → IsOk result }
    {
        match self.push(item) {
            Ok(()) => Ok(()),
            Err((_, fault)) => Err(fault),
        }
    }
}
