//! Clients that come one after another.
ghost use Rattle.std.specs.Prelude.{◌≡◌, ◌≢◌, ◌<◌, ◌≤◌, ◌+◌, ◌∷◌, ℕ, Bool, true, false, List, [], Option, length, IfOk, OnErr, OnOk};
ghost use Rattle.aoe_base.specs.Faults.{Rose};
ghost use Rattle.aoe_io.specs.Bytes.{Gave};
ghost use Rattle.aoe_io.specs.Link.{Added};
ghost use Rattle.aoe_clients.specs.Clients.{ClientEvent, IfBytes, accepted_of, closed, front_of, received_of, sent_of, stays};

use aoe_base::Failed;

/// What a call that reads or writes came to.
#[derive(Clone, Copy, Debug, PartialEq, Eq)]
pub enum Moved {
    /// So many bytes were moved.
    Bytes(usize),

    /// None can be moved now.
    Nothing,

    /// The client has left: none is there any more.
    Left,
}

/// Clients that come one after another: one is there at a time. No call waits for anything.
pub trait Clients {
    // What passed, the latest first, where it is told.
    ghost told: { Self → Option (List ClientEvent) };

    // What the client that is there says from now on, where it is told.
    ghost coming: { Self → Option (List ℕ) };

    // Whether a client is there: one that was accepted, and has neither left nor been closed.
    ghost connected: { Self → Bool };

    // How many calls of the listener have failed.
    ghost faults: { Self → ℕ };

    /// Whether a client is there.
    fn is_connected(&self) -> bool
        ensures { result ≡ connected self.now };

    /// Accepts the next client, where one waits, and says whether one did.
    fn accept(&mut self) -> Result<bool, Failed>
        requires { connected self.old ≡ false }
        ensures told { IfOk result
            (λ came. Added (told self.old) (told self.new) (accepted_of came)) }
        ensures connected { IfOk result (λ came. connected self.new ≡ came) }
        ensures err_told { OnErr result (told self.new ≡ told self.old) }
        ensures err_connected { OnErr result (connected self.new ≡ false) }
        ensures count { faults self.old ≤ faults self.new }
        ensures cause { OnErr result (Rose (faults self.old) (faults self.new)) }
        ensures no_fault { OnOk result (faults self.new ≡ faults self.old) }
        ensures one_fault { faults self.new ≤ faults self.old + 1 };

    /// Makes a front of `out` the next bytes that the client said; the rest may hold any bytes. A
    /// connection that breaks is a client that leaves.
    fn read(&mut self, out: &mut [u8]) -> Moved
        requires connected { connected self.old ≡ true }
        requires room { 0 < length out.old }
        ensures some { IfBytes result (λ n. 0 < n) }
        ensures within { IfBytes result (λ n. n ≤ length out.old) }
        ensures told { Added (told self.old) (told self.new) (received_of result out.new) }
        ensures gave { result ≢ Moved.Left
            → Gave (coming self.old) (coming self.new) (front_of result out.new) }
        ensures connected { connected self.new ≡ stays result }
        ensures no_fault { faults self.new ≡ faults self.old };

    /// Sends a front of `piece` to the client.
    fn write(&mut self, piece: &[u8]) -> Moved
        requires connected { connected self.old ≡ true }
        requires piece { 0 < length piece.now }
        ensures some { IfBytes result (λ n. 0 < n) }
        ensures within { IfBytes result (λ n. n ≤ length piece.now) }
        ensures told { Added (told self.old) (told self.new) (sent_of result piece.now) }
        ensures coming { result ≢ Moved.Left → coming self.new ≡ coming self.old }
        ensures connected { connected self.new ≡ stays result }
        ensures no_fault { faults self.new ≡ faults self.old };

    /// Ends the connection. What the client said and wasn't read yet is lost.
    fn close(&mut self)
        requires { connected self.old ≡ true }
        ensures told { Added (told self.old) (told self.new) (closed ∷ []) }
        ensures connected { connected self.new ≡ false }
        ensures no_fault { faults self.new ≡ faults self.old };
}
