//! A set of sectors, a bit each.
ghost use Rattle.std.specs.Prelude.{◌≡◌, ◌≤◌, ◌<◌, ◌+◌, ◌-◌, ◌^◌, ◌==◌, ◌≢◌, ℕ, IfOk, MatchOption, length, replicate, slice_set, slice_index_or, true, false};
ghost use Rattle.std.specs.Int.{bit_at};
ghost use Rattle.aoe_mirror.specs.Marks.{IsClear, IsFirstRun, count_of, with_each};

use aoe_base::NoMemory;
use std::alloc::Global;
use std::marker::Model;

/// The most marks of a run.
pub(crate) const MOST_IN_RUN: usize = 64;

// A word with bit `k` set or cleared.
fn with_bit(word: u64, k: usize, value: bool) -> u64
    requires { k < 64 }
    ensures same { (bit_at result k == 1) ≡ value }
    ensures others { (i : ℕ) → i < 64 → i ≢ k → bit_at result i ≡ bit_at word i }
{
    let bit = 1u64 << k;
    if value { word | bit } else { word & !bit }
}

/// Marks of sectors, which contracts see as a list.
#[derive(Drop)]
pub struct Marks {
    words: Vec<u64>,
    len: usize,

    // How many are set.
    count: usize,

    // None below this one is set.
    lowest: usize,
}

impl Model for Marks {
    ghost use Rattle.std.specs.Prelude.{Bool, List};
    ghost use Rattle.aoe_mirror.specs.Marks.{AreMarks, bits_of};

    ghost Value = { List Bool };

    ghost view = { λ m. bits_of m.words.items m.len };

    ghost invariant = { λ m. AreMarks m.words.items m.len m.count m.lowest };
}

impl Marks {
    /// `len` marks, all of them set: an eighth of a byte each.
    pub(crate) fn all(alloc: Global, len: usize) -> Result<Marks, NoMemory>
        requires { len ≤ 2 ^ 40 }
        ensures { IfOk result (λ marks. marks ≡ replicate len true) }
    {
        let words = Vec::from_elem(alloc, u64::MAX, len.div_ceil(64))?;
        Ok(Marks {
            words,
            len,
            count: len,
            lowest: 0,
        })
    }

    /// `len` marks, none of them set.
    pub(crate) fn none(alloc: Global, len: usize) -> Result<Marks, NoMemory>
        requires { len ≤ 2 ^ 40 }
        ensures { IfOk result (λ marks. marks ≡ replicate len false) }
    {
        let words = Vec::from_elem(alloc, 0, len.div_ceil(64))?;
        Ok(Marks {
            words,
            len,
            count: 0,
            lowest: len,
        })
    }

    /// How many are set.
    pub(crate) fn count(&self) -> usize
        ensures count { result ≡ count_of self.now }
        ensures within { result ≤ length self.now }
    {
        self.count
    }

    /// Whether the mark of sector `s` is set.
    pub(crate) fn contains(&self, s: usize) -> bool
        requires { s < length self.now }
        ensures { result ≡ slice_index_or self.now s false }
    {
        self.words[s / 64] & (1u64 << (s % 64)) != 0
    }

    /// Whether one of `n` marks from sector `at` on is set.
    pub(crate) fn any_of(&self, at: usize, n: usize) -> bool
        requires bound { length self.now ≤ 2 ^ 40 }
        requires within { at + n ≤ length self.now }
        ensures some { result ≡ true → IsClear self.now at n → ⊥ }
        ensures none { result ≡ false → IsClear self.now at n }
    {
        'any: for s in at..at + n {
            if self.contains(s) {
                return true;
            }
        }
        false
    }

    /// Sets all of them.
    pub(crate) fn set_all(&mut self)
        ensures { self.new ≡ replicate (length self.old) true }
    {
        self.words.fill(u64::MAX);
        self.count = self.len;
        self.lowest = 0;
    }

    // Sets or clears the mark of sector `s`.
    fn put(&mut self, s: usize, value: bool)
        requires { s < length self.old }
        ensures { self.new ≡ slice_set self.old s value }
    {
        let was = self.contains(s);
        self.words[s / 64] = with_bit(self.words[s / 64], s % 64, value);
        self.count = self.count + usize::from(value) - usize::from(was);
        if value {
            self.lowest = self.lowest.min(s);
        }
    }

    /// Sets or clears `n` marks from sector `at` on.
    pub(crate) fn put_each(&mut self, at: usize, n: usize, value: bool)
        requires bound { length self.old ≤ 2 ^ 40 }
        requires within { at + n ≤ length self.old }
        ensures { self.new ≡ with_each self.old at n value }
    {
        'each: for s in at..at + n {
            self.put(s, value);
        }
        if !value && at <= self.lowest {
            self.lowest = self.lowest.max(at + n);
        }
    }

    // The first mark from sector `from` on that is set, or their number where none is. A word with
    // none is passed at once.
    fn first_from(&self, from: usize) -> usize
        requires { from ≤ length self.now }
        ensures from { from ≤ result }
        ensures within { result ≤ length self.now }
        ensures clear { IsClear self.now from (result - from) }
        ensures set { result < length self.now → slice_index_or self.now result false ≡ true }
    {
        let mut s = from;
        'marks: while s < self.len {
            if s % 64 == 0 && self.words[s / 64] == 0 {
                s += 64;
            } else if self.contains(s) {
                return s;
            } else {
                s += 1;
            }
        }
        self.len
    }

    // How many marks from sector `at` on are set one after another, up to 64.
    fn run_from(&self, at: usize) -> usize
        requires { at ≤ length self.now }
        ensures most { result ≤ 64 }
        ensures within { at + result ≤ length self.now }
        ensures set { (s : ℕ) → at ≤ s → s < at + result → slice_index_or self.now s false ≡ true }
        ensures longest { result < 64 → slice_index_or self.now (at + result) false ≡ false }
    {
        let mut n = 0;
        'run: while n < MOST_IN_RUN && at + n < self.len && self.contains(at + n) {
            n += 1;
        }
        n
    }

    /// The first run of marks that are set from sector `from` on, of 64 at most: where it begins,
    /// and how long it is.
    pub(crate) fn first_run(&self, from: usize) -> Option<(usize, usize)>
        ensures { MatchOption result (IsClear self.now from (length self.now))
            (λ run. IsFirstRun self.now from run.0 run.1) }
    {
        let at = self.first_from(self.lowest.max(from).min(self.len));
        if at == self.len {
            return None;
        }
        Some((at, self.run_from(at)))
    }
}
