ghost use Rattle.std.specs.Prelude.{ℕ, ◌≡◌, ◌-◌, ◌<◌, ◌≤◌, ◌^◌, ◌==◌, ◌&&◌, ◌||◌, false, not, nat_lt, cond, IfOk, IfNone, IfSome};
ghost use Rattle.std.specs.Int.{bit_at};
ghost use Rattle.anti_order.specs.inner.NumberSets.{IsRunFrom, has, is_bit, room, room_for};

use anti_ids::NoMemory;
use std::alloc::Global;
use std::marker::Model;

/// Some of the numbers below a count, by a bit for each. Contracts see the words of the bits.
#[derive(Drop)]
pub struct NumberSet {
    words: Vec<u64>,
}

impl Model for NumberSet {
    ghost use Rattle.std.specs.Prelude.{ℕ, ◌<◌, ◌^◌, List};
    ghost use Rattle.anti_order.specs.inner.NumberSets.{room};

    ghost Value = { List ℕ };

    ghost view = { λ set. set.words.items };

    ghost invariant = { λ set. room set.words.items < 2 ^ 33 };
}

/// Numbers one after another, from one up to another.
#[derive(Clone, Copy)]
pub struct NumberRun {
    pub from: usize,
    pub to: usize,
}

// A word with the bits of a set, or with those of the numbers that are not in it.
fn facing(word: u64, inside: bool) -> u64
    ensures { (i : ℕ) → i < 64 → bit_at result i ≡ cond inside (bit_at word i) (1 - bit_at word i) }
{
    if inside {
        return word;
    }
    !word
}

impl NumberSet {
    /// None of the numbers below a count.
    pub fn none(alloc: Global, count: usize) -> Result<NumberSet, NoMemory>
        requires { count < 2 ^ 32 }
        ensures none { (n : ℕ) → IfOk result (λ set. has set n ≡ false) }
        ensures room { IfOk result (λ set. room set ≡ room_for count) }
    {
        let words = vec![in alloc; 0; count / 64 + 1]?;
        Ok(NumberSet { words })
    }

    /// All of the numbers below a count.
    pub fn all(alloc: Global, count: usize) -> Result<NumberSet, NoMemory>
        requires { count < 2 ^ 32 }
        ensures all { (n : ℕ) → IfOk result (λ set. has set n ≡ nat_lt n count) }
        ensures room { IfOk result (λ set. room set ≡ room_for count) }
    {
        let mut words = vec![in alloc; u64::MAX; count / 64 + 1]?;
        words[count / 64] = (1 << (count % 64)) - 1;
        Ok(NumberSet { words })
    }

    /// Adds a number, where it has a bit.
    pub fn insert(&mut self, number: usize)
        ensures added { (n : ℕ) → n < room self.old → has self.new n ≡ (n == number || has self.old n) }
        ensures room { room self.new ≡ room self.old }
    {
        let index = number / 64;
        if index >= self.words.len() {
            return;
        }
        self.words[index] |= 1 << (number % 64);
    }

    /// Keeps the numbers that are in another set too.
    pub fn keep(&mut self, others: &NumberSet)
        requires { room self.old ≡ room others.now }
        ensures kept { (n : ℕ) → has self.new n ≡ (has self.old n && has others.now n) }
        ensures room { room self.new ≡ room self.old }
    {
        for index in 0..self.words.len() {
            self.words[index] &= others.words[index];
        }
    }

    /// Takes the numbers of another set out.
    pub fn remove(&mut self, others: &NumberSet)
        requires { room self.old ≡ room others.now }
        ensures kept { (n : ℕ) → has self.new n ≡ (has self.old n && not (has others.now n)) }
        ensures room { room self.new ≡ room self.old }
    {
        for index in 0..self.words.len() {
            self.words[index] &= facing(others.words[index], false);
        }
    }

    /// Takes the numbers of another set in.
    pub fn join(&mut self, others: &NumberSet)
        requires { room self.old ≡ room others.now }
        ensures joined { (n : ℕ) → has self.new n ≡ (has self.old n || has others.now n) }
        ensures room { room self.new ≡ room self.old }
    {
        for index in 0..self.words.len() {
            self.words[index] |= others.words[index];
        }
    }

    /// Whether a number is in the set.
    pub fn contains(&self, number: usize) -> bool
        ensures { result ≡ has self.now number }
    {
        match self.words.get(number / 64) {
            Some(word) => word >> (number % 64) & 1 == 1,
            None => false,
        }
    }

    /// An equal set. The only error is want of memory.
    pub fn copied(&self, alloc: Global) -> Result<NumberSet, NoMemory>
        ensures { IfOk result (λ set. set ≡ self.now) }
    {
        let words = Vec::from_slice(alloc, self.words.as_slice())?;
        Ok(NumberSet { words })
    }

    // The first number, from one on, that is in the set or that is not; where none has a bit, how many have one.
    fn next(&self, from: usize, inside: bool) -> usize
        requires { from ≤ room self.now }
        ensures behind { from ≤ result }
        ensures within { result ≤ room self.now }
        ensures passed { (n : ℕ) → from ≤ n → n < result → has self.now n ≡ not inside }
        ensures found { result < room self.now → has self.now result ≡ inside }
    {
        let mut at = from;
        while let Some(word) = self.words.get(at / 64) {
            let rest = facing(*word, inside) >> (at % 64);
            if rest != 0 {
                return at + rest.trailing_zeros() as usize;
            }
            at = (at / 64 + 1) * 64;
        }
        at
    }

    // The first run of its numbers from one on.
    pub(crate) fn run_from(&self, from: usize) -> Option<NumberRun>
        requires { from ≤ room self.now }
        ensures none { IfNone result ((n : ℕ) → from ≤ n → has self.now n ≡ false) }
        ensures some { IfSome result (IsRunFrom self.now from) }
    {
        let begin = self.next(from, true);
        if begin >= self.words.len() * 64 {
            return None;
        }
        Some(NumberRun {
            from: begin,
            to: self.next(begin, false),
        })
    }
}
