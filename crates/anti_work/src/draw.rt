ghost use Rattle.std.specs.Prelude.{◌<◌};

use rand_core::utils::NextWord;
use rand_pcg::Pcg32;

// How many times at most a worker tries to bring or to deliver once more what came before.
const MOST_REPEATS: u32 = 16;

// What a worker draws from the seed of its document and its own number. It decides which of several calls the worker asks for, so that runs
// differ. Nothing that is promised rests on it.
#[derive(Drop)]
pub(crate) struct Draw {
    words: Pcg32,
    repeats: u32,
}

impl Draw {
    // The draws of the worker of a number.
    pub(crate) fn new(seed: u64, worker: u32) -> Draw {
        Draw {
            words: Pcg32::new(seed, u64::from(worker)),
            repeats: 0,
        }
    }

    // A number below another.
    pub(crate) fn below(&mut self, end: u32) -> u32
        requires { 0 < end }
        ensures { result < end }
    {
        self.words.next_word() % end
    }

    // How far behind the first: in no way three times in four, else by 1 to 3.
    pub(crate) fn behind(&mut self) -> u32
        ensures { result < 4 }
    {
        if self.below(4) > 0 {
            return 0;
        }
        self.below(3) + 1
    }

    // Whether to try once more what came before: one time in eight, until it was tried often enough.
    pub(crate) fn repeats(&mut self) -> bool {
        if self.repeats >= MOST_REPEATS {
            return false;
        }
        if self.below(8) > 0 {
            return false;
        }
        self.repeats = self.repeats.saturating_add(1);
        true
    }
}
