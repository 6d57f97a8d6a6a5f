use crate::ranking::Ranking;
use crate::touches::{Touch, Touches, may_be_same};
use anti_ids::{MOST_SERVICES, NoMemory};
use std::alloc::Global;

// How many places a table of pairs of services has.
const MOST_PAIRS: usize = MOST_SERVICES * MOST_SERVICES;

/// How often what one service reads may be what another writes.
#[derive(Drop)]
struct Matches {
    at: [u32; MOST_PAIRS],
}

// Where a pair stands.
fn pair(reader: u32, writer: u32) -> usize {
    (reader as usize)
        .saturating_mul(MOST_SERVICES)
        .saturating_add(writer as usize)
}

impl Matches {
    fn of(touches: &Touches) -> Matches {
        let mut matches = Matches {
            at: [0; MOST_PAIRS],
        };
        for read in touches.reads.iter() {
            matches.add_read(read, touches.writes.as_slice());
        }
        matches
    }

    // Counts the writes that a read may show.
    fn add_read(&mut self, read: &Touch, writes: &[Touch]) {
        for write in writes {
            if write.store == read.store && may_be_same(write.key, read.key) {
                self.add(read.service, write.service);
            }
        }
    }

    fn add(&mut self, reader: u32, writer: u32) {
        if let Some(count) = self.at.get_mut(pair(reader, writer)) {
            *count = count.saturating_add(1);
        }
    }

    fn count(&self, reader: u32, writer: u32) -> u32 {
        match self.at.get(pair(reader, writer)) {
            Some(count) => *count,
            None => 0,
        }
    }

    // How often what a service reads may be what others of these write.
    fn among(&self, reader: u32, left: &[u32]) -> u32 {
        let mut count: u32 = 0;
        for writer in left {
            if *writer != reader {
                count = count.saturating_add(self.count(reader, *writer));
            }
        }
        count
    }

    // The place among these of the one that depends on the others least.
    fn least(&self, left: &[u32]) -> usize {
        let mut least = 0;
        let mut fewest = u32::MAX;
        for (place, reader) in left.iter().enumerate() {
            let count = self.among(*reader, left);
            if count < fewest {
                fewest = count;
                least = place;
            }
        }
        least
    }
}

/// The services so that one which reads what another writes comes behind it, as far as this can be: again and again the one comes next whose
/// reads match the fewest writes of the others that are left.
pub(crate) fn by_dependency(
    alloc: Global,
    by_document: &Ranking,
    touches: &Touches,
) -> Result<Ranking, NoMemory> {
    let matches = Matches::of(touches);
    let mut left = Vec::new(alloc);
    left.extend_from_slice(by_document.services())?;
    let mut ranking = Ranking::new();
    for _ in 0..left.len() {
        if let Some(service) = next(&matches, &mut left) {
            ranking.add(service);
        }
    }
    Ok(ranking)
}

// Takes out the one that comes next.
fn next(matches: &Matches, left: &mut Vec<u32>) -> Option<u32> {
    let place = matches.least(left.as_slice());
    if place < left.len() {
        Some(left.remove(place))
    } else {
        None
    }
}
