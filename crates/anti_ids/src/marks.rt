// The marks of a block: words of 64 bits that say which of its ids are gone for one of its owners, by their indices.
ghost use Rattle.std.specs.Prelude.{◌≡◌, ◌≢◌, ℕ, ◌*◌, ◌<◌, ◌≤◌, ◌%◌, ◌^◌, true, false, count_ones, length};
ghost use Rattle.anti_ids.specs.inner.Left.{gone_in, is_gone};

use crate::limits::MOST_IDS;

// The words of a short block, which stand in what holds a lineage, and those of the longest.
pub(crate) const FEW_WORDS: usize = 2;

pub(crate) const WORDS: usize = MOST_IDS / 64;

// The most ids whose marks stand in few words.
pub(crate) const FEW_IDS: usize = 64 * FEW_WORDS;

// How many of the lowest bits of a word are set, of so many.
fn ones_among(word: u64, bits: usize) -> usize
    requires { bits ≤ 64 }
    ensures ones { result ≡ count_ones (word % 2 ^ bits) }
    ensures few { result ≤ 64 }
{
    if bits == 64 {
        return word.count_ones() as usize;
    }
    (word % (1 << bits)).count_ones() as usize
}

// Whether any id is gone. It asks once for all words, of which the machine takes several at a time.
pub(crate) fn is_any_gone(words: &[u64]) -> bool
    ensures { result ≡ false → (at : ℕ) → is_gone words.now at ≡ false }
{
    let mut bits = 0;
    for word in words {
        bits |= *word;
    }
    bits != 0
}

// Whether the id at an index is gone.
pub(crate) fn is_gone(words: &[u64], at: usize) -> bool
    requires { at < 64 * length words.now }
    ensures { result ≡ is_gone words.now at }
{
    (words[at / 64] >> (at % 64)) & 1 == 1
}

// How many of the first ids are gone, of so many. It counts a word at once. Not inlined, since most lineages have none that is gone.
#[inline(never)]
pub(crate) fn count_gone(words: &[u64], len: usize) -> usize
    requires few { len ≤ MOST_IDS }
    requires room { len ≤ 64 * length words.now }
    ensures { result ≡ gone_in words.now 0 len }
{
    let mut count = 0;
    let mut number = 0;
    while number * 64 < len {
        count += ones_among(words[number], (len - number * 64).min(64));
        number += 1;
    }
    count
}

// Marks the id at an index as gone, too.
pub(crate) fn mark(words: &mut [u64], at: usize)
    requires { at < 64 * length words.old }
    ensures gone { is_gone words.new at ≡ true }
    ensures others { (other : ℕ) → other ≢ at → is_gone words.new other ≡ is_gone words.old other }
    ensures room { length words.new ≡ length words.old }
{
    words[at / 64] |= 1 << (at % 64);
}

// Marks the id at an index as gone no more.
pub(crate) fn unmark(words: &mut [u64], at: usize)
    requires { at < 64 * length words.old }
    ensures back { is_gone words.new at ≡ false }
    ensures others { (other : ℕ) → other ≢ at → is_gone words.new other ≡ is_gone words.old other }
    ensures room { length words.new ≡ length words.old }
{
    words[at / 64] &= !(1 << (at % 64));
}
