//! A store whose writes last.
use crate::Store;
use aoe_base::Failed;
use std::marker::Model;

/// A store that syncs behind each write: a write that is Ok is on the medium, and no loss of power
/// changes what it wrote.
///
/// A sync settles all that lies under the store, so it makes no difference which sectors were written
/// before. Contracts see the store below.
#[derive(Drop)]
pub struct Durable<S: Store> {
    store: S,
}

impl<S: Store> Model for Durable<S> {
    ghost Value = { S };

    ghost view = { λ d. d.store };
}

impl<S: Store> Durable<S> {
    ghost use Rattle.std.specs.Prelude.{◌≡◌};

    /// The store, with a sync behind each write from now on.
    pub fn new(store: S) -> Self
        ensures { result ≡ store }
    {
        Durable { store }
    }

    /// The store.
    pub fn close(self) -> S
        ensures { result ≡ self }
    {
        self.store
    }
}

impl<S: Store> Store for Durable<S> {
    ghost use Rattle.std.specs.Prelude.{None, length, true};
    ghost use Rattle.aoe_disk.specs.Calls.{IsRange, Reads, SyncsTo};
    ghost use Rattle.aoe_store.specs.Lasting.{LastsTo, WritesAndSyncs, outline};

    ghost state = { λ s. outline (S.state s) };

    ghost lasts = { true };

    ghost under = { λ s. None };

    fn sectors(&self) -> u64 {
        self.store.sectors()
    }

    fn read(&mut self, at: u64, out: &mut [u8]) -> Result<(), Failed>
        requires { IsRange at (length out.old) (outline (S.state self.old)).sectors }
        ensures reads { Reads at (length out.old) result out.new
            (outline (S.state self.old)) (outline (S.state self.new)) }
        ensures store { Reads at (length out.old) result out.new (S.state self.old)
            (S.state self.new) }
    {
        self.store.read(at, out)
    }

    fn write(&mut self, at: u64, piece: &[u8]) -> Result<(), Failed>
        requires { IsRange at (length piece.now) (outline (S.state self.old)).sectors }
        ensures stores { LastsTo at piece.now result (outline (S.state self.old))
            (outline (S.state self.new)) }
        ensures store { WritesAndSyncs S.lasts at piece.now result (S.state self.old)
            (S.state self.new) }
    {
        match self.store.write(at, piece) {
            Ok(()) => self.store.sync(),
            Err(Failed) => Err(Failed),
        }
    }

    fn sync(&mut self) -> Result<(), Failed>
        ensures syncs { SyncsTo result (outline (S.state self.old)) (outline (S.state self.new)) }
        ensures store { SyncsTo result (S.state self.old) (S.state self.new) }
    {
        self.store.sync()
    }
}
