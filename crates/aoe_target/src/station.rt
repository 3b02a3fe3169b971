//! The constant part of a target: its name, ports and size.
ghost use Rattle.std.specs.Prelude.{◌≡◌, ◌<◌, ◌≤◌, ◌-◌, ◌/◌, ◌^◌, All, IfSome, length, slice_range};
ghost use Rattle.std.specs.Int.{w16, w32, from_be_bytes};
ghost use Rattle.aoe_base.specs.Addresses.{holds, same_address};
ghost use Rattle.aoe_frame.specs.declared.header.Header.{Header};
ghost use Rattle.aoe_target.specs.Verdict.{is_heard, facts};
ghost use Rattle.aoe_target.specs.Reply.{reply_port};

use aoe_base::{BROADCAST, Mac, Ports, SECTOR_LEN, TargetId};
use aoe_frame::{HeaderView, RESPONSE_FLAG};
use aoe_lists::Facts;

/// The major that stands for every shelf (AoEr11, "Major").
const ANY_SHELF: u16 = 0xffff;

/// The minor that stands for every slot (AoEr11, "Minor").
const ANY_SLOT: u8 = 0xff;

/// How many requests a target holds at a time, as it announces (AoEr11, "Buffer Count").
const BUFFER_COUNT: u16 = 16;

/// The version of a target's firmware, as it announces.
const FIRMWARE_VERSION: u16 = 1;

/// The most sectors of one command, where a frame carries `mtu` bytes: header and registers take 36 of
/// them.
pub fn max_sectors(mtu: u32) -> u32
    requires { 36 ≤ mtu }
    ensures { result ≡ (mtu - 36) / 512 }
{
    (mtu - 36) / SECTOR_LEN as u32
}

/// What of a target never changes.
#[derive(Drop)]
pub struct Station {
    /// Its name.
    pub id: TargetId,

    /// The addresses of its shelf. The first is the source of replies to frames for all stations.
    pub ports: Ports,

    /// The most sectors of one command.
    pub max: u8,

    /// How many sectors its store has.
    pub sectors: u64,
}

/// The first four bytes of an address as a number.
#[inline(always)]
fn front_of(address: Mac) -> u32
    ensures value { result ≡ from_be_bytes w32 (slice_range address.0 0 4) }
    ensures len { length address.0 ≡ 6 }
    ensures small { All (λ b. b < 2 ^ 8) (slice_range address.0 0 4) }
{
    match address.0[..4].first_chunk::<4>() {
        Some(bytes) => u32::from_be_bytes(*bytes),
        None => unreachable!(),
    }
}

/// The last two bytes of an address as a number.
#[inline(always)]
fn back_of(address: Mac) -> u16
    ensures value { result ≡ from_be_bytes w16 (slice_range address.0 4 6) }
    ensures small { All (λ b. b < 2 ^ 8) (slice_range address.0 4 6) }
{
    match address.0[4..6].first_chunk::<2>() {
        Some(bytes) => u16::from_be_bytes(*bytes),
        None => unreachable!(),
    }
}

/// Whether two addresses are one. Two numbers are compared sooner than six bytes.
#[inline(always)]
#[tactic(auto, using(crate::proofs::AddressNumbers::numbers_tell))]
fn is_same(one: Mac, other: Mac) -> bool
    ensures { result ≡ same_address one other }
{
    let is_front = front_of(one) == front_of(other);
    let is_back = back_of(one) == back_of(other);
    is_front & is_back
}

/// Whether an address is one of several ports.
#[cold]
#[inline(never)]
fn is_among(ports: &[Mac], address: Mac) -> bool
    ensures { result ≡ holds ports.now address }
{
    ports.contains(&address)
}

impl Station {
    /// Whether a request went to a port of the shelf. Most shelves have one, with which one comparison
    /// does.
    #[inline(always)]
    fn has_port(&self, header: &HeaderView<'_>) -> bool
        ensures { result ≡ holds self.now.ports.items header.now.dst }
    {
        match self.ports.as_slice() {
            [port] => is_same(*port, header.dst()),
            ports => is_among(ports, header.dst()),
        }
    }

    /// Whether a request is for the target: it went to a port of the shelf or to all stations, is no
    /// response, and names the target, its shelf or its slot with every other, or all targets.
    #[inline(always)]
    pub(crate) fn hears(&self, header: &HeaderView<'_>) -> bool
        ensures { result ≡ is_heard self.now header.now }
    {
        let id = header.id();
        (self.has_port(header) || is_same(header.dst(), BROADCAST))
            && header.flags() < RESPONSE_FLAG
            && (id.major == self.id.major || id.major == ANY_SHELF)
            && (id.minor == self.id.minor || id.minor == ANY_SLOT)
    }

    /// The port of a shelf that has one, from which each of its replies comes.
    #[inline(always)]
    pub(crate) fn only_port(&self) -> Option<Mac>
        ensures { IfSome result (λ port. (h : Header) → reply_port self.now h ≡ port) }
    {
        match self.ports.as_slice() {
            [port] => Some(*port),
            _ => None,
        }
    }

    /// The port that a reply comes from: the one that the request went to, and the first where it
    /// went to all stations.
    pub(crate) fn reply_port(&self, header: &HeaderView<'_>) -> Mac
        ensures { result ≡ reply_port self.now header.now }
    {
        let dst = header.dst();
        if is_among(self.ports.as_slice(), dst) {
            return dst;
        }
        match self.ports.first() {
            Some(port) => *port,
            None => dst,
        }
    }

    /// What the target says of itself in each config reply.
    pub(crate) fn facts(&self) -> Facts
        ensures { result ≡ facts self.now }
    {
        Facts {
            buffers: BUFFER_COUNT,
            firmware: FIRMWARE_VERSION,
            max: self.max,
        }
    }
}
