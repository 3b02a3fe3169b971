//! The texts of addresses.
ghost use Rattle.std.specs.Prelude.{◌≡◌, ◌==◌, ◌⊎◌, ◌++◌, ◌∷◌, [], false, true, None, Some, Err, OnErr, OnOk, OnSome, IfOk, IfSome, length};
ghost use Rattle.std.specs.List.{slice_split};
ghost use Rattle.std.specs.Net.Grammar.{IsSocketText};
ghost use Rattle.aoe_udp.specs.Addresses.{ArePeers, AreRead, IsAddress, all_different, are_of_family, is_of_family};

use crate::errors::OpenRefusal;
use std::alloc::Global;
use std::net::SocketAddr;

/// The address that a text `address:port` spells, with an IPv6 address in brackets.
pub(crate) fn read_address(text: &[u8]) -> Option<SocketAddr>
    ensures read { IfSome result (IsSocketText text.now) }
    ensures spelled { OnSome result (IsAddress text.now) }
    ensures refused { result ≡ None → ¬ IsAddress text.now }
{
    SocketAddr::parse_ascii(text).ok()
}

/// Appends an address where there was room for all before, and says whether there is room for it too.
fn keep(addresses: &mut Vec<SocketAddr>, address: SocketAddr, has_room: bool) -> bool
    ensures { result ≡ true → (has_room ≡ true)
        × (addresses.new.items ≡ addresses.old.items ++ address ∷ []) }
{
    has_room && addresses.push(address).is_ok()
}

/// The addresses that a text spells, joined by commas. All of it is read, so that want of memory
/// never hides a text that spells none.
#[tactic(auto, using(crate::proofs::AddressLemmas::none_read))]
pub(crate) fn read_peers(alloc: Global, text: &[u8]) -> Result<Vec<SocketAddr>, OpenRefusal>
    ensures spelled { OnOk result (ArePeers text.now) }
    ensures read { IfOk result
        (λ peers. AreRead (slice_split (λ c. c == 44) text.now) peers.items) }
    ensures each { IfOk result (λ peers. length peers.items
        ≡ length (slice_split (λ c. c == 44) text.now)) }
    ensures refused { result ≡ Err OpenRefusal.Peers → ¬ ArePeers text.now }
    ensures memory { result ≡ Err OpenRefusal.NoMemory → ArePeers text.now }
    ensures kinds { OnErr result
        ((result ≡ Err OpenRefusal.Peers) ⊎ (result ≡ Err OpenRefusal.NoMemory)) }
{
    let mut addresses = Vec::new(alloc);
    let mut has_room = true;
    'pieces: for piece in text.split(|byte| *byte == b',') {
        let Some(address) = read_address(piece) else {
            return Err(OpenRefusal::Peers);
        };
        has_room = keep(&mut addresses, address, has_room);
    }
    if has_room {
        Ok(addresses)
    } else {
        Err(OpenRefusal::NoMemory)
    }
}

/// Whether no address stands twice.
fn all_different(addresses: &[SocketAddr]) -> bool
    ensures { result ≡ all_different addresses.now }
{
    match addresses {
        [first, rest @ ..] => !rest.contains(first) && all_different(rest),
        [] => true,
    }
}

/// Whether an address is of the family of this one.
fn is_of_family(local: SocketAddr, address: SocketAddr) -> bool
    ensures { result ≡ is_of_family local address }
{
    if local.is_ipv4() {
        address.is_ipv4()
    } else {
        address.is_ipv6()
    }
}

/// Whether all these addresses are of the family of this one.
fn are_of_family(local: SocketAddr, peers: &[SocketAddr]) -> bool
    ensures { result ≡ are_of_family local peers.now }
{
    peers.iter().all(|peer| is_of_family(local, *peer))
}

/// Why these are no ends of a link, if they aren't: a peer is named twice, or one is of another family.
pub(crate) fn ends_refusal(local: SocketAddr, peers: &[SocketAddr]) -> Option<OpenRefusal>
    ensures repeated { result ≡ Some OpenRefusal.Repeated → all_different peers.now ≡ false }
    ensures families { result ≡ Some OpenRefusal.Families → are_of_family local peers.now ≡ false }
    ensures good { result ≡ None
        → (all_different peers.now ≡ true) × (are_of_family local peers.now ≡ true) }
    ensures kinds { IfSome result
        (λ r. (r ≡ OpenRefusal.Repeated) ⊎ (r ≡ OpenRefusal.Families)) }
{
    if !all_different(peers) {
        return Some(OpenRefusal::Repeated);
    }
    if !are_of_family(local, peers) {
        return Some(OpenRefusal::Families);
    }
    None
}
