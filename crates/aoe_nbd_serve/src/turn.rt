//! The frames of a turn, and the whole of it.
ghost use Rattle.std.specs.Prelude.{◌≡◌, ◌≢◌, ◌+◌, ◌<◌, ◌≤◌, ℕ, Err, is_some, is_err, true};
ghost use Rattle.aoe_base.specs.Faults.{Blamed};
ghost use Rattle.aoe_nbd_serve.specs.Account.{ServeSeen, Setting};
ghost use Rattle.aoe_nbd_serve.specs.Serving.{at_link, GoesOn, IsFit, IsHeard, IsSent, Serves};

use crate::serving::Serving;
use crate::terms::ServeEnd;
use crate::window::{FRAMES, hear, room, send_again, send_next};
use aoe_base::Failed;
use aoe_clients::Clients;
use aoe_io::{Got, Link};

impl Serving<'_> {
    /// Sends a frame, of those that are sent again or of all: whether there was one.
    fn send_one<L: Link>(&mut self, link: &mut L, again: bool) -> Result<bool, Failed>
        requires { IsFit self.old }
        ensures fit { IsFit self.new }
        ensures conversation { self.new.conversation ≡ self.old.conversation }
        ensures sends { (c : Setting) (seen : ServeSeen) (most : ℕ) → most < 128
            → Serves c (at_link seen (L.turns link.old) (L.given link.old) (L.taken link.old)) most self.old
            → IsSent result c (at_link seen (L.turns link.new) (L.given link.new) (L.taken link.new)) (most + 1) self.new }
        ensures count { L.faults link.old ≤ L.faults link.new }
        ensures link { Blamed (is_err result ≡ true) (L.faults link.old) (L.faults link.new) }
    {
        if again {
            send_again(&mut self.host, link, &mut self.frame)
        } else {
            send_next(&mut self.host, link, &mut self.frame)
        }
    }

    /// Sends as many frames as may be, but no more than a number, with as many before: how many.
    fn send_up_to<L: Link>(&mut self, link: &mut L, again: bool, most: u64) -> Result<u64, Failed>
        requires fit { IsFit self.old }
        requires few { most ≤ 64 }
        ensures fit { IsFit self.new }
        ensures conversation { self.new.conversation ≡ self.old.conversation }
        ensures sends { (c : Setting) (seen : ServeSeen) (before : ℕ) → before ≤ 64
            → Serves c (at_link seen (L.turns link.old) (L.given link.old) (L.taken link.old)) before self.old
            → IsSent result c (at_link seen (L.turns link.new) (L.given link.new) (L.taken link.new)) (before + 64) self.new }
        ensures count { L.faults link.old ≤ L.faults link.new }
        ensures link { Blamed (is_err result ≡ true) (L.faults link.old) (L.faults link.new) }
    {
        let mut sent = 0;
        'frames: for _ in 0..most {
            match self.send_one(link, again) {
                Ok(true) => sent += 1,
                Ok(false) => return Ok(sent),
                Err(Failed) => return Err(Failed),
            }
        }
        Ok(sent)
    }

    /// Sends what is due, repeats before anything else: whether something was sent.
    fn send_some<L: Link>(&mut self, link: &mut L) -> Result<bool, Failed>
        requires { IsFit self.old }
        ensures fit { IsFit self.new }
        ensures conversation { self.new.conversation ≡ self.old.conversation }
        ensures sends { (c : Setting) (seen : ServeSeen)
            → Serves c (at_link seen (L.turns link.old) (L.given link.old) (L.taken link.old)) 0 self.old
            → IsSent result c (at_link seen (L.turns link.new) (L.given link.new) (L.taken link.new)) 128 self.new }
        ensures count { L.faults link.old ≤ L.faults link.new }
        ensures link { Blamed (is_err result ≡ true) (L.faults link.old) (L.faults link.new) }
    {
        let again = match self.send_up_to(link, true, FRAMES) {
            Ok(again) => again,
            Err(Failed) => return Err(Failed),
        };
        // While a repeat is due it would come before a command that is sent for the first time.
        if again == FRAMES {
            return Ok(true);
        }
        let room = room(&self.host, self.terms.max);
        match self.send_up_to(link, false, room) {
            Ok(first) => Ok(again > 0 || first > 0),
            Err(Failed) => Err(Failed),
        }
    }

    /// Takes what one turn of the link brings.
    fn hear_one<L: Link>(&mut self, link: &mut L) -> Result<Got, Failed>
        requires { IsFit self.old }
        ensures fit { IsFit self.new }
        ensures conversation { self.new.conversation ≡ self.old.conversation }
        ensures hears { (c : Setting) (seen : ServeSeen) (most : ℕ)
            → Serves c (at_link seen (L.turns link.old) (L.given link.old) (L.taken link.old)) most self.old
            → IsHeard result c (at_link seen (L.turns link.new) (L.given link.new) (L.taken link.new)) most self.new }
        ensures count { L.faults link.old ≤ L.faults link.new }
        ensures link { Blamed (is_err result ≡ true) (L.faults link.old) (L.faults link.new) }
    {
        hear(&mut self.host, link, &mut self.frame)
    }

    /// Takes the frames that came, a turn's at most: whether there were some.
    fn hear_some<L: Link>(&mut self, link: &mut L) -> Result<bool, ServeEnd>
        requires { IsFit self.old }
        ensures fit { IsFit self.new }
        ensures conversation { self.new.conversation ≡ self.old.conversation }
        ensures hears { (c : Setting) (seen : ServeSeen) (most : ℕ)
            → Serves c (at_link seen (L.turns link.old) (L.given link.old) (L.taken link.old)) most self.old
            → GoesOn result c (at_link seen (L.turns link.new) (L.given link.new) (L.taken link.new)) most self.new }
        ensures count { L.faults link.old ≤ L.faults link.new }
        ensures link { Blamed (result ≡ Err ServeEnd.LinkFault) (L.faults link.old) (L.faults link.new) }
        ensures clients { result ≢ Err ServeEnd.ClientFault }
    {
        let mut has_heard = false;
        'frames: for _ in 0..FRAMES {
            match self.hear_one(link) {
                Ok(Got::Frame) => has_heard = true,
                Ok(Got::Quiet) => return Ok(has_heard),
                Ok(Got::Ended) => return Err(ServeEnd::LinkEnded),
                Err(Failed) => return Err(ServeEnd::LinkFault),
            }
        }
        Ok(has_heard)
    }

    /// The second part of a turn: frames go out and come in.
    fn exchange<L: Link>(&mut self, link: &mut L) -> Result<bool, ServeEnd>
        requires { IsFit self.old }
        ensures fit { IsFit self.new }
        ensures conversation { self.new.conversation ≡ self.old.conversation }
        ensures exchanges { (c : Setting) (seen : ServeSeen)
            → Serves c (at_link seen (L.turns link.old) (L.given link.old) (L.taken link.old)) 0 self.old
            → GoesOn result c (at_link seen (L.turns link.new) (L.given link.new) (L.taken link.new)) 128 self.new }
        ensures count { L.faults link.old ≤ L.faults link.new }
        ensures link { Blamed (result ≡ Err ServeEnd.LinkFault) (L.faults link.old) (L.faults link.new) }
        ensures clients { result ≢ Err ServeEnd.ClientFault }
    {
        let is_sent = match self.send_some(link) {
            Ok(is_sent) => is_sent,
            Err(Failed) => return Err(ServeEnd::LinkFault),
        };
        match self.hear_some(link) {
            Ok(has_heard) => Ok(is_sent || has_heard),
            Err(end) => Err(end),
        }
    }

    /// The first part of a turn: outcomes are taken, requests come, operations are submitted.
    fn attend<C: Clients>(&mut self, clients: &mut C) -> Result<bool, ServeEnd>
        requires fit { IsFit self.old }
        requires here { C.connected clients.old ≡ is_some self.old.conversation }
        ensures fit { IsFit self.new }
        ensures here { C.connected clients.new ≡ is_some self.new.conversation }
        ensures attends { (c : Setting) (seen : ServeSeen) (most : ℕ)
            → Serves c (record seen { told = C.told clients.old }) most self.old
            → GoesOn result c (record seen { told = C.told clients.new }) most self.new }
        ensures count { C.faults clients.old ≤ C.faults clients.new }
        ensures clients { Blamed (result ≡ Err ServeEnd.ClientFault) (C.faults clients.old) (C.faults clients.new) }
        ensures link { result ≢ Err ServeEnd.LinkFault }
    {
        let is_settled = match self.settle_some() {
            Ok(is_settled) => is_settled,
            Err(outcome) => return Err(self.end_of(outcome)),
        };
        let has_come = match self.accept(clients) {
            Ok(has_come) => has_come,
            Err(Failed) => return Err(ServeEnd::ClientFault),
        };
        let has_moved = self.converse(clients);
        let is_submitted = self.submit_some();
        match self.end() {
            Ok(()) => Ok(is_settled || has_come || has_moved || is_submitted),
            Err(end) => Err(end),
        }
    }

    /// A turn, behind a look at the clock: whether it did something, or how all ended.
    pub(crate) fn turn<L: Link, C: Clients>(
        &mut self,
        link: &mut L,
        clients: &mut C,
    ) -> Result<bool, ServeEnd>
        requires fit { IsFit self.old }
        requires here { C.connected clients.old ≡ is_some self.old.conversation }
        ensures fit { IsFit self.new }
        ensures here { C.connected clients.new ≡ is_some self.new.conversation }
        ensures turns { (c : Setting) (seen : ServeSeen)
            → Serves c (at_link (record seen { told = C.told clients.old }) (L.turns link.old) (L.given link.old) (L.taken link.old)) 0 self.old
            → GoesOn result c (at_link (record seen { told = C.told clients.new }) (L.turns link.new) (L.given link.new) (L.taken link.new)) 128 self.new }
        ensures link_count { L.faults link.old ≤ L.faults link.new }
        ensures link { Blamed (result ≡ Err ServeEnd.LinkFault) (L.faults link.old) (L.faults link.new) }
        ensures clients_count { C.faults clients.old ≤ C.faults clients.new }
        ensures clients { Blamed (result ≡ Err ServeEnd.ClientFault) (C.faults clients.old) (C.faults clients.new) }
    {
        match self.attend(clients) {
            Ok(has_attended) => match self.exchange(link) {
                Ok(has_exchanged) => Ok(has_attended || has_exchanged),
                Err(end) => Err(end),
            },
            Err(end) => Err(end),
        }
    }
}
