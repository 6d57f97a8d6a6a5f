// What a thread of the crowd goes by, and what it counts.
ghost use Rattle.std.specs.Prelude.{◌<◌};

use anti_ids::{Name, Value, WriteId};
use rand_core::utils::NextWord;
use rand_pcg::Pcg32;
use std::alloc::Global;

// The seed of all threads.
const SEED: u64 = 41;

// The bytes of the longest value, which has two parts.
const TEXT: [u8; 100] = [b'v'; 100];

/// How many calls were asked, how many entries they made, and whether each was answered as it may be.
#[derive(Clone, Copy)]
pub struct Tally {
    pub asked: u32,
    pub made: u32,
    pub well: bool,
}

impl Tally {
    /// That of no call.
    pub fn none(well: bool) -> Tally {
        Tally {
            asked: 0,
            made: 0,
            well,
        }
    }

    /// Counts one more call, which made so many entries, or was answered as it may not be.
    pub fn count(&mut self, made: Option<u32>) {
        self.asked = self.asked.saturating_add(1);
        match made {
            Some(entries) => self.made = self.made.saturating_add(entries),
            None => self.well = false,
        }
    }

    /// Both together.
    pub fn with(self, other: Tally) -> Tally {
        Tally {
            asked: self.asked.saturating_add(other.asked),
            made: self.made.saturating_add(other.made),
            well: self.well && other.well,
        }
    }
}

/// The words that a thread draws, what it wrote last, and which version of the table it brings next to each region.
#[derive(Drop)]
pub struct Worker {
    words: Pcg32,
    last: Option<WriteId>,
    // the last version of the table that it knows of
    notes: u64,
    next: [u64; 2],
}

impl Worker {
    /// The thread of a number. Each draws other words.
    pub fn new(number: u64) -> Worker {
        Worker {
            words: Pcg32::new(SEED, number),
            last: None,
            notes: 0,
            next: [1, 1],
        }
    }

    /// A number below another.
    pub fn below(&mut self, end: u32) -> u32
        requires { 0 < end }
        ensures { result < end }
    {
        self.words.next_word() % end
    }

    // One of eight letters.
    fn letter(&mut self) -> u8 {
        b'a' + self.below(8) as u8
    }

    /// One of 64 keys.
    pub fn key(&mut self) -> Option<Name> {
        Name::new(&[self.letter(), self.letter()]).ok()
    }

    /// What one of eight of these keys begin with.
    pub fn prefix(&mut self) -> Option<Name> {
        Name::new(&[self.letter()]).ok()
    }

    /// A value of one part or of two.
    pub fn value(&mut self, alloc: Global) -> Option<Value> {
        let length = self.below(101) as usize;
        Value::new(alloc, &TEXT[..length]).ok()
    }

    /// Notes what was written.
    pub fn wrote(&mut self, id: WriteId) {
        if id.store == 1 {
            self.notes = self.notes.max(id.version);
        }
        self.last = Some(id);
    }

    /// A version of a store that may be brought in any order: in one of two cases what the thread wrote last, where that was to this store,
    /// and else one up to the number of that.
    pub fn version(&mut self, store: u32) -> u64 {
        let Some(last) = self.last else {
            return 1;
        };
        if last.store == store && self.below(2) == 0 {
            return last.version;
        }
        let end = last.version.max(1).min(4096) as u32;
        u64::from(self.below(end)) + 1
    }

    /// The version of the table that is to be brought next to a region. Those before it are there. The next time it is the one behind it,
    /// where this one was written, so that it is there then.
    pub fn next(&mut self, region: u32) -> u64
        requires { region < 2 }
    {
        let at = region as usize;
        let version = self.next[at];
        if version <= self.notes {
            self.next[at] = version.saturating_add(1);
        }
        version
    }
}
