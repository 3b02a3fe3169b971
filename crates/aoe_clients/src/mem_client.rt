//! A client in memory.
ghost use Rattle.std.specs.Prelude.{◌≡◌, ◌+◌, ◌-◌, ◌≤◌, false, true, drop, take, length, min, IfOk};
ghost use Rattle.aoe_clients.specs.ClientMemory.{is_leaving};

use aoe_base::NoMemory;
use std::alloc::Global;
use std::marker::Model;

/// A client whose words are known before.
#[derive(Drop)]
pub struct MemClient {
    says: Vec<u8>,

    /// How many of the bytes it has said.
    said: usize,

    /// How many bytes it takes yet.
    takes: usize,

    stays: bool,
}

impl Model for MemClient {
    ghost use Rattle.std.specs.Prelude.{◌≤◌, drop, length};
    ghost use Rattle.aoe_clients.specs.ClientMemory.{Caller};

    ghost Value = { Caller };

    ghost view = { λ c. record { says = drop c.said c.says.items; takes = c.takes; stays = c.stays } };

    ghost invariant = { λ c. c.said ≤ length c.says.items };
}

impl MemClient {
    /// A client that says these bytes, takes so many, and leaves once it has said and taken all.
    pub fn of(alloc: Global, says: &[u8], takes: usize) -> Result<MemClient, NoMemory>
        ensures { IfOk result
            (λ c. c ≡ record { says = says.now; takes = takes; stays = false }) }
    {
        let says = Vec::from_slice(alloc, says)?;
        Ok(MemClient {
            says,
            said: 0,
            takes,
            stays: false,
        })
    }

    /// Lets the client stay until it is closed.
    pub fn stay(&mut self)
        ensures { self.new ≡ record self.old { stays = true } }
    {
        self.stays = true;
    }

    /// Whether it leaves.
    pub(crate) fn is_leaving(&self) -> bool
        ensures { result ≡ is_leaving self.now }
    {
        !self.stays && self.said == self.says.len() && self.takes == 0
    }

    /// Says the next bytes, so many at most and as many as there is room for: how many.
    pub(crate) fn say(&mut self, most: usize, out: &mut [u8]) -> usize
        ensures count { result ≡ min (length self.old.says) (min (length out.old) most) }
        ensures said { self.new ≡ record self.old { says = drop result self.old.says } }
        ensures bytes { take result out.new ≡ take result self.old.says }
        ensures length { length out.new ≡ length out.old }
    {
        let left = &self.says.as_slice()[self.said..];
        let n = left.len().min(out.len().min(most));
        out[..n].copy_from_slice(&left[..n]);
        self.said += n;
        n
    }

    /// Takes so many bytes of a piece at most: how many.
    pub(crate) fn take(&mut self, most: usize, piece: &[u8]) -> usize
        ensures count { result ≡ length (take (min self.old.takes most) piece.now) }
        ensures took { self.new ≡ record self.old { takes = self.old.takes - result } }
    {
        let n = piece.len().min(self.takes.min(most));
        self.takes -= n;
        n
    }
}
