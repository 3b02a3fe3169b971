//! Turns with clients, a host and a link, until the end is asked for.
ghost use Rattle.std.specs.Prelude.{◌≡◌, ◌*◌, ◌<◌, ◌≤◌, ℕ, false, is_some};
ghost use Rattle.aoe_base.specs.Faults.{Blamed};
ghost use Rattle.aoe_block.specs.Steps.{new_start};
ghost use Rattle.aoe_nbd_serve.specs.Account.{ServeSeen, Setting};
ghost use Rattle.aoe_nbd_serve.specs.Ends.{IsNew, IsServed};
ghost use Rattle.aoe_nbd_serve.specs.Serving.{seen_by, IsFit, Serves};

use crate::serving::Serving;
use crate::terms::{Asked, Ending, ServeEnd, Served, Terms};
use aoe_base::Millis;
use aoe_clients::{Bell, Clients};
use aoe_desk::Desk;
use aoe_initiator::Initiator;
use aoe_io::{Clock, Link};
use std::alloc::Global;

/// The longest wait, in milliseconds: the end that is asked for is seen by then.
const LONGEST_WAIT: u64 = 100;

impl Serving<'_> {
    /// Asks whether to end, where that wasn't asked a short while ago.
    fn ask<E: Ending>(&mut self, ending: &mut E)
        requires { IsFit self.old }
        ensures fit { IsFit self.new }
        ensures conversation { self.new.conversation ≡ self.old.conversation }
        ensures asks { (c : Setting) (seen : ServeSeen) (most : ℕ)
            → Serves c (record seen { asked = E.answers ending.old }) most self.old
            → Serves c (record seen { asked = E.answers ending.new }) most self.new }
    {
        if self.asked.is_some() || self.time.0 < self.look {
            return;
        }
        self.look = self.time.0.saturating_add(LONGEST_WAIT);
        if !ending.is_asked_for() {
            return;
        }
        self.asked = Some(Asked::Stop);
    }

    /// How long may be waited.
    fn wait_of(&self) -> Millis
        ensures { result.0 ≤ 100 }
    {
        let mut until = self.time.0.saturating_add(LONGEST_WAIT);
        if let Some(time) = self.host.next_time() {
            until = until.min(time.0);
        }
        let rested = self.first.0.saturating_add(self.terms.quarantine.0);
        if self.time.0 < rested {
            until = until.min(rested);
        }
        if let Some(conversation) = &self.conversation
            && let Some(limit) = conversation.limit()
        {
            until = until.min(limit);
        }
        Millis(until.saturating_sub(self.time.0))
    }

    /// Waits, and counts that where no client is there.
    fn wait<B: Bell>(&mut self, bell: &mut B)
        requires { IsFit self.old }
        ensures fit { IsFit self.new }
        ensures conversation { self.new.conversation ≡ self.old.conversation }
        ensures waits { (c : Setting) (seen : ServeSeen) (most : ℕ)
            → Serves c (record seen { waits = B.waits bell.old }) most self.old
            → Serves c (record seen { waits = B.waits bell.new }) most self.new }
    {
        bell.wait(self.wait_of());
        if self.conversation.is_some() {
            return;
        }
        self.waits = self.waits.saturating_add(1);
        if self.asked.is_some() || self.terms.idle == 0 || self.waits < self.terms.idle {
            return;
        }
        self.asked = Some(Asked::Idle);
    }

    /// Takes turns until all ended.
    fn run<L: Link, K: Clock, C: Clients, B: Bell, E: Ending>(
        &mut self,
        link: &mut L,
        clock: &mut K,
        clients: &mut C,
        bell: &mut B,
        ending: &mut E,
    ) -> ServeEnd
        requires fit { IsFit self.old }
        requires here { C.connected clients.old ≡ is_some self.old.conversation }
        ensures here { C.connected clients.new ≡ is_some self.new.conversation }
        ensures runs { (c : Setting) (most : ℕ)
            → Serves c (seen_by (L.turns link.old) (L.given link.old) (L.taken link.old) (K.answers clock.old) (C.told clients.old) (B.waits bell.old) (E.answers ending.old)) most self.old
            → IsServed result self.new.served (is_some self.new.conversation) c
            (seen_by (L.turns link.new) (L.given link.new) (L.taken link.new) (K.answers clock.new) (C.told clients.new) (B.waits bell.new) (E.answers ending.new)) }
        ensures link_count { L.faults link.old ≤ L.faults link.new }
        ensures link { Blamed (result ≡ ServeEnd.LinkFault) (L.faults link.old) (L.faults link.new) }
        ensures clients_count { C.faults clients.old ≤ C.faults clients.new }
        ensures clients { Blamed (result ≡ ServeEnd.ClientFault) (C.faults clients.old) (C.faults clients.new) }
    {
        'turns: for _ in 0..u64::MAX {
            self.tick(Millis(clock.now()));
            self.ask(ending);
            let has_moved = match self.turn(link, clients) {
                Ok(has_moved) => has_moved,
                Err(end) => return end,
            };
            if !has_moved {
                self.wait(bell);
            }
        }
        ServeEnd::NoMemory
    }
}

/// Serves clients until the end is asked for. `host` is attached to the one device, which has the
/// sectors of the export.
pub fn serve<L: Link, K: Clock, C: Clients, B: Bell, E: Ending>(
    alloc: Global,
    terms: &Terms,
    host: Initiator,
    link: &mut L,
    clock: &mut K,
    clients: &mut C,
    bell: &mut B,
    ending: &mut E,
) -> (ServeEnd, Served)
    requires new { IsNew terms.now host }
    requires some { 0 < terms.now.max }
    requires most { terms.now.max ≤ 17 }
    requires size { terms.now.export.size ≡ 512 * terms.now.total }
    requires nobody { C.connected clients.old ≡ false }
    ensures served { IsServed result.0 result.1 (C.connected clients.new)
        (record { start = new_start host; terms = terms.now; before = seen_by (L.turns link.old) (L.given link.old) (L.taken link.old) (K.answers clock.old) (C.told clients.old) (B.waits bell.old) (E.answers ending.old) })
        (seen_by (L.turns link.new) (L.given link.new) (L.taken link.new) (K.answers clock.new) (C.told clients.new) (B.waits bell.new) (E.answers ending.new)) }

    // A fault is told exactly where the object that it is told of failed.
    ensures link_count { L.faults link.old ≤ L.faults link.new }
    ensures link { Blamed (result.0 ≡ ServeEnd.LinkFault) (L.faults link.old) (L.faults link.new) }
    ensures clients_count { C.faults clients.old ≤ C.faults clients.new }
    ensures clients { Blamed (result.0 ≡ ServeEnd.ClientFault) (C.faults clients.old) (C.faults clients.new) }
{
    let Ok(desk) = Desk::new(alloc, terms.total, terms.max) else {
        let served = Served {
            clients: 0,
            commands: 0,
        };
        return (ServeEnd::NoMemory, served);
    };
    let first = Millis(clock.now());
    let mut serving = Serving::new(alloc, terms, host, desk, first);
    let end = serving.run(link, clock, clients, bell, ending);
    (end, serving.served)
}
