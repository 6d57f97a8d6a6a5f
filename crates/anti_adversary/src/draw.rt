ghost use Rattle.std.specs.Prelude.{◌<◌};

use crate::ranking::Ranking;
use crate::schedule::{Held, Schedule, Sieve};
use rand_core::utils::NextWord;
use rand_pcg::Pcg32;

// The stream of the generator.
const STREAM: u64 = 44;

/// Draws schedules from the seed of a document.
#[derive(Drop)]
pub(crate) struct Draw {
    words: Pcg32,
}

impl Draw {
    pub(crate) fn new(seed: u64) -> Draw {
        Draw {
            words: Pcg32::new(seed, STREAM),
        }
    }

    // A number below another.
    fn below(&mut self, end: u32) -> u32
        requires { 0 < end }
        ensures { result < end }
    {
        self.words.next_word() % end
    }

    fn coin(&mut self) -> bool {
        self.below(2) == 0
    }

    // The same services in any order.
    fn shuffled(&mut self, mut ranking: Ranking) -> Ranking {
        for place in 0..ranking.len() {
            let other = self.below(place.saturating_add(1));
            ranking.swap(place, other);
        }
        ranking
    }

    // The same services, but that two neighbours changed their places.
    fn with_changed(&mut self, mut ranking: Ranking) -> Ranking {
        let len = ranking.len();
        if len >= 2 {
            let place = self.below(len);
            ranking.swap(place, place.saturating_add(1));
        }
        ranking
    }

    // An order of services near one of these.
    fn ranking(&mut self, first: Ranking, second: Ranking) -> Ranking {
        let ranking = if self.coin() { first } else { second };
        match self.below(20) {
            0..=6 => self.shuffled(ranking),
            7..=11 => self.with_changed(ranking),
            12..=15 => {
                let once = self.with_changed(ranking);
                self.with_changed(once)
            }
            _ => ranking,
        }
    }

    // What is kept back.
    fn held(&mut self) -> Held {
        let high = u64::from(self.words.next_word());
        let low = u64::from(self.words.next_word());
        let eighths = match self.below(3) {
            0 => 1,
            1 => 2,
            _ => 4,
        };
        Held::Drawn(Sieve {
            salt: high.wrapping_mul(0x1_0000_0000) ^ low,
            eighths,
            each: self.coin(),
        })
    }

    /// A schedule near one of two orders of the services.
    pub(crate) fn schedule(&mut self, first: Ranking, second: Ranking) -> Schedule {
        Schedule {
            ranking: self.ranking(first, second),
            held: self.held(),
            ships_last: self.below(10) == 0,
            newest: self.coin(),
            takes_first: self.coin(),
        }
    }
}
