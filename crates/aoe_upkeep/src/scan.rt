//! How two sides are gone through, and each run of sectors that differ is told.
ghost use Rattle.std.specs.Prelude.{◌≡◌, ◌≤◌, ◌<◌, ◌+◌, ◌-◌, ◌/◌, ◌%◌, ◌^◌, ◌++◌, OnOk, length, decimal, is_err, true};
ghost use Rattle.arrayvec.specs.ArrayVec.{array_vec_len};
ghost use Rattle.aoe_base.specs.Faults.{Blamed};
ghost use Rattle.aoe_upkeep.specs.Comparing.{last_line, run_line};
ghost use Rattle.aoe_upkeep.specs.Scanning.{ClosesOn, GoesOn, IsScan};

use aoe_base::{Failed, SECTOR_LEN, append};
use aoe_io::{Sink, give_all};
use arrayvec::ArrayVec;
use itoa::Buffer;

/// A line: two numbers of at most 20 digits, and 20 bytes of words.
pub(crate) type Line = ArrayVec<u8, 60>;

/// Adds a number.
fn put_number(out: &mut Line, n: u64)
    requires { length out.old.items ≤ 40 }
    ensures put { out.new.items ≡ out.old.items ++ decimal n }
    ensures few { length out.new.items ≤ length out.old.items + 20 }
{
    let mut digits = Buffer::new();
    append(out, digits.format(n).as_bytes());
}

/// The line of a run of sectors that differ.
fn run_line(at: u64, end: u64) -> Line
    requires { at < end }
    ensures { result.items ≡ run_line (record { at = at; end = end }) }
{
    let mut out = Line::new();
    if end == at + 1 {
        append(&mut out, b"sector ");
        put_number(&mut out, at);
        append(&mut out, b" differs\n");
        return out;
    }
    append(&mut out, b"sectors ");
    put_number(&mut out, at);
    append(&mut out, b" to ");
    put_number(&mut out, end - 1);
    append(&mut out, b" differ\n");
    out
}

/// The line with the number of sectors that differ, and of all.
pub(crate) fn last_line(count: u64, sectors: u64) -> Line
    ensures { result.items ≡ last_line count sectors }
{
    let mut out = Line::new();
    put_number(&mut out, count);
    append(&mut out, b" of ");
    put_number(&mut out, sectors);
    append(&mut out, b" sectors differ\n");
    out
}

/// How far two sides were compared.
#[derive(Clone, Copy)]
pub(crate) struct Scan {
    /// The first sector that wasn't compared yet.
    pub(crate) at: u64,

    /// From which sector on all that were compared differ.
    pub(crate) start: u64,

    /// How many differ.
    pub(crate) count: u64,
}

impl Scan {
    /// Nothing was compared.
    pub(crate) fn new() -> Scan
        ensures { result ≡ record { at = 0; start = 0; count = 0 } }
    {
        Scan {
            at: 0,
            start: 0,
            count: 0,
        }
    }

    /// Tells the run that ends before the next sector, where there is one.
    pub(crate) fn close<K: Sink>(&self, sink: &mut K) -> Result<(), Failed>
        requires { IsScan self.now }
        ensures closes { ClosesOn result self.now (K.held sink.old) (K.held sink.new) }
        ensures sink { Blamed (is_err result ≡ true) (K.faults sink.old) (K.faults sink.new) }
    {
        if self.start == self.at {
            return Ok(());
        }
        give_all(sink, run_line(self.start, self.at).as_slice())
    }

    /// Passes sectors that are equal.
    fn pass_equal<K: Sink>(&mut self, sectors: usize, sink: &mut K) -> Result<(), Failed>
        requires scan { IsScan self.old }
        requires room { self.old.at + sectors ≤ 2 ^ 40 }
        ensures scan { self.new ≡ record {
          at = self.old.at + sectors;
          start = self.old.at + sectors;
          count = self.old.count;
        } }
        ensures closes { ClosesOn result self.old (K.held sink.old) (K.held sink.new) }
        ensures sink { Blamed (is_err result ≡ true) (K.faults sink.old) (K.faults sink.new) }
    {
        let closed = self.close(sink);
        self.at += sectors as u64;
        self.start = self.at;
        closed
    }

    /// Passes a sector of each side.
    fn pass_one<K: Sink>(&mut self, one: &[u8], two: &[u8], sink: &mut K) -> Result<(), Failed>
        requires scan { IsScan self.old }
        requires room { self.old.at < 2 ^ 40 }
        requires one { length one.now ≡ 512 }
        requires two { length two.now ≡ 512 }
        ensures scan { IsScan self.new }
        ensures at { self.new.at ≡ self.old.at + 1 }
        ensures goes { GoesOn result one.now two.now self.old self.new (K.held sink.old)
            (K.held sink.new) }
        ensures sink { Blamed (is_err result ≡ true) (K.faults sink.old) (K.faults sink.new) }
    {
        if one == two {
            return self.pass_equal(1, sink);
        }
        self.at += 1;
        self.count += 1;
        Ok(())
    }

    /// Passes the sectors of a piece of each side one by one.
    fn pass_each<K: Sink>(&mut self, one: &[u8], two: &[u8], sink: &mut K) -> Result<(), Failed>
        requires scan { IsScan self.old }
        requires whole { length one.now % 512 ≡ 0 }
        requires long { length two.now ≡ length one.now }
        requires room { self.old.at + length one.now / 512 ≤ 2 ^ 40 }
        ensures scan { IsScan self.new }
        ensures at { OnOk result (self.new.at ≡ self.old.at + length one.now / 512) }
        ensures goes { GoesOn result one.now two.now self.old self.new (K.held sink.old)
            (K.held sink.new) }
        ensures sink { Blamed (is_err result ≡ true) (K.faults sink.old) (K.faults sink.new) }
    {
        'sectors: for k in 0..one.len() / SECTOR_LEN {
            let from = SECTOR_LEN * k;
            let to = from + SECTOR_LEN;
            match self.pass_one(&one[from..to], &two[from..to], sink) {
                Ok(()) => {}
                Err(Failed) => return Err(Failed),
            }
        }
        Ok(())
    }

    /// Passes a piece of each side, which is gone through only where they aren't equal.
    pub(crate) fn pass<K: Sink>(
        &mut self,
        one: &[u8],
        two: &[u8],
        sink: &mut K,
    ) -> Result<(), Failed>
        requires scan { IsScan self.old }
        requires some { 0 < length one.now }
        requires whole { length one.now % 512 ≡ 0 }
        requires long { length two.now ≡ length one.now }
        requires room { self.old.at + length one.now / 512 ≤ 2 ^ 40 }
        ensures scan { IsScan self.new }
        ensures at { OnOk result (self.new.at ≡ self.old.at + length one.now / 512) }
        ensures goes { GoesOn result one.now two.now self.old self.new (K.held sink.old)
            (K.held sink.new) }
        ensures sink { Blamed (is_err result ≡ true) (K.faults sink.old) (K.faults sink.new) }
    {
        if one == two {
            return self.pass_equal(one.len() / SECTOR_LEN, sink);
        }
        self.pass_each(one, two, sink)
    }
}
