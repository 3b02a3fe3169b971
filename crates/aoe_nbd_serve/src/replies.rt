//! Replies of the desk, as they are sent.
ghost use Rattle.std.specs.Prelude.{◌≡◌, ◌+◌, ◌≤◌, ◌<◌, ◌++◌, ℕ, List, [], drop, length, true};
ghost use Rattle.aoe_clients.specs.Clients.{stays};
ghost use Rattle.aoe_nbd_serve.specs.Conversations.{bytes_of};
ghost use Rattle.aoe_nbd_serve.specs.Moves.{SendsPiece};

use aoe_clients::{Clients, Moved};
use aoe_desk::Reply;
use aoe_nbd::{REPLY_LEN, reply_head};

/// What is left of a reply's head, or else of its payload, where so many bytes were sent.
fn left_of<'a>(head: &'a [u8; REPLY_LEN], payload: &'a [u8], sent: usize) -> &'a [u8]
    ensures front { (rest : List ℕ)
        × (drop sent (head.now ++ payload.now) ≡ result.now ++ rest) }
    ensures within { 0 < length result.now → sent + length result.now ≤ 16 + length payload.now }
{
    if sent < REPLY_LEN {
        return &head[sent..];
    }
    let at = sent - REPLY_LEN;
    if at > payload.len() {
        return &[];
    }
    &payload[at..]
}

/// How many bytes a reply has.
pub(crate) fn len_of(reply: &Reply) -> usize
    ensures { result ≡ length (bytes_of reply.now) }
{
    REPLY_LEN + reply.payload.bytes().len()
}

/// Sends some of what is left of a reply, of which so many bytes were sent.
pub(crate) fn send_piece<C: Clients>(reply: &Reply, sent: &mut usize, clients: &mut C) -> Moved
    requires { C.connected clients.old ≡ true }
    ensures sends { SendsPiece (C.told clients.old) (C.told clients.new) result
        (bytes_of reply.now) sent.old sent.new }
    ensures connected { C.connected clients.new ≡ stays result }
    ensures no_fault { C.faults clients.new ≡ C.faults clients.old }
{
    let head = reply_head(reply.error, reply.handle);
    let left = left_of(&head, reply.payload.bytes(), *sent);
    if left.is_empty() {
        return Moved::Nothing;
    }
    match clients.write(left) {
        Moved::Bytes(n) => {
            *sent += n;
            Moved::Bytes(n)
        }
        Moved::Nothing => Moved::Nothing,
        Moved::Left => Moved::Left,
    }
}
