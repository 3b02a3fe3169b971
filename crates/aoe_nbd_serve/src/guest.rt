//! What a server does with its client.
ghost use Rattle.std.specs.Prelude.{◌≡◌, ◌≤◌, ◌∷◌, ℕ, List, [], Option, None, is_some, is_err, true};
ghost use Rattle.aoe_base.specs.Faults.{Blamed};
ghost use Rattle.aoe_clients.specs.Clients.{accepted, ClientEvent};
ghost use Rattle.aoe_io.specs.Link.{Added};
ghost use Rattle.aoe_nbd_serve.specs.Account.{begins_as, HasGone, IsAnswered, ServeSeen, Setting};
ghost use Rattle.aoe_nbd_serve.specs.Deeds.Deed.{leaves};
ghost use Rattle.aoe_block.specs.Steps.{owns};
ghost use Rattle.aoe_nbd_serve.specs.Serving.{IsFit, Serves};

use crate::conversation::Conversation;
use crate::serving::Serving;
use crate::terms::Asked;
use aoe_base::{Failed, NoMemory};
use aoe_clients::Clients;

/// Reads nothing more of a client once the end is asked for.
fn end_if(conversation: &mut Conversation<'_>, asked: Option<Asked>)
    ensures { conversation.new ≡ begins_as asked conversation.old }
{
    match asked {
        Some(_) => conversation.end(),
        None => {}
    }
}

impl Serving<'_> {
    /// Accepts a client where none is there and the end isn't asked for: whether one came.
    pub(crate) fn accept<C: Clients>(&mut self, clients: &mut C) -> Result<bool, Failed>
        requires fit { IsFit self.old }
        requires here { C.connected clients.old ≡ is_some self.old.conversation }
        ensures fit { IsFit self.new }
        ensures here { C.connected clients.new ≡ is_some self.new.conversation }
        ensures accepts { (c : Setting) (seen : ServeSeen) (most : ℕ)
            → Serves c (record seen { told = C.told clients.old }) most self.old
            → Serves c (record seen { told = C.told clients.new }) most self.new }
        ensures count { C.faults clients.old ≤ C.faults clients.new }
        ensures listener { Blamed (is_err result ≡ true) (C.faults clients.old) (C.faults clients.new) }
    {
        // Nothing that an earlier client asked for is answered to this one.
        if self.conversation.is_some() || self.asked.is_some() || !self.desk.is_answered() {
            return Ok(false);
        }
        match clients.accept() {
            Ok(true) => {
                self.greet(clients);
                Ok(true)
            }
            Ok(false) => Ok(false),
            Err(Failed) => Err(Failed),
        }
    }

    /// Begins the conversation with the client that came, if there is memory for it; another may come
    /// when there is.
    fn greet<C: Clients>(&mut self, clients: &mut C)
        requires fit { IsFit self.old }
        requires nobody { self.old.conversation ≡ None }
        requires goes_on { self.old.asked ≡ None }
        requires answered { IsAnswered self.old.desk }
        requires here { C.connected clients.old ≡ true }
        ensures fit { IsFit self.new }
        ensures here { C.connected clients.new ≡ is_some self.new.conversation }
        ensures greets { (c : Setting) (seen : ServeSeen) (before : Option (List ClientEvent)) (most : ℕ)
            → Added before (C.told clients.old) (accepted ∷ [])
            → Serves c (record seen { told = before }) most self.old
            → Serves c (record seen { told = C.told clients.new }) most self.new }
        ensures no_fault { C.faults clients.new ≡ C.faults clients.old }
    {
        self.served.clients = self.served.clients.saturating_add(1);
        self.waits = 0;
        match Conversation::new(self.alloc, &self.terms.export, self.time) {
            Ok(conversation) => self.conversation = Some(conversation),
            Err(NoMemory) => clients.close(),
        }
    }

    /// One turn with the client that is there: whether something moved.
    pub(crate) fn converse<C: Clients>(&mut self, clients: &mut C) -> bool
        requires fit { IsFit self.old }
        requires here { C.connected clients.old ≡ is_some self.old.conversation }
        ensures fit { IsFit self.new }
        ensures here { C.connected clients.new ≡ is_some self.new.conversation }
        ensures talks { (c : Setting) (seen : ServeSeen) (most : ℕ)
            → Serves c (record seen { told = C.told clients.old }) most self.old
            → Serves c (record seen { told = C.told clients.new }) most self.new }
        ensures no_fault { C.faults clients.new ≡ C.faults clients.old }
    {
        let Some(conversation) = &mut self.conversation else {
            return false;
        };
        end_if(conversation, self.asked);
        self.waits = 0;
        match conversation.converse(clients, &mut self.desk, self.time) {
            Ok(moved) => moved,
            Err(_) => {
                let was_through = conversation.is_through();
                self.conversation = None;
                self.leave(was_through);
                true
            }
        }
    }

    /// Notes that the client has gone, with which a conversation came to transmission or not.
    fn leave(&mut self, was_through: bool)
        requires fit { IsFit self.old }
        requires nobody { self.old.conversation ≡ None }
        ensures fit { IsFit self.new }
        ensures nobody { self.new.conversation ≡ None }
        ensures leaves { (c : Setting) (seen : ServeSeen) (most : ℕ) (s : Serves c seen most self.old)
            → (was_through ≡ true → HasGone (leaves ∷ owns s.steps))
            → Serves c seen most self.new }
    {
        self.desk.leave();
        if self.terms.once && was_through && self.asked.is_none() {
            self.asked = Some(Asked::Once);
        }
    }
}
