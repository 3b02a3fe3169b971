//! The tag of a frame (IEEE 802.1Q): four bytes behind the two addresses.
//!
//! | Byte | Size | Field |
//! |---|---|---|
//! | 12 | 2 | 0x8100 |
//! | 14 | 2 | priority and drop mark (4 bits), number of the VLAN (12 bits) |
ghost use Rattle.std.specs.Prelude.{drop, take, ◌≡◌, ◌≤◌, ◌<◌, ◌+◌, ◌++◌, ◌&&◌, length, nat_le, true, if◌then◌else◌};
ghost use Rattle.aoe_base.specs.Sizes.{longest_frame};
ghost use Rattle.aoe_vlan.specs.Tag.{bare, control, destination_of, has_tag, is_frame, mark, tag_number, tagged};
ghost use Rattle.aoe_base.specs.Addresses.{source_of};
ghost use Rattle.arrayvec.specs.ArrayVec.{array_vec_len};

use aoe_base::{Mac, append};
use arrayvec::ArrayVec;

/// The longest frame without a tag, as on an untagged link.
const MAX_BARE: usize = 9018;

/// The longest frame with a tag.
pub const MAX_TAGGED: usize = 9022;

/// A frame, with a tag or without one.
pub type Tagged = ArrayVec<u8, MAX_TAGGED>;

/// Where the tag stands: behind the addresses.
const TAG_AT: usize = 12;

/// How many bytes the tag has.
pub(crate) const TAG_LEN: usize = 4;

/// The least length of a frame without a tag: two addresses and a type.
pub(crate) const MIN_BARE: usize = 14;

/// Whether a tag stands behind the addresses.
fn has_tag(frame: &[u8]) -> bool
    requires { 14 ≤ length frame.now }
    ensures { result ≡ has_tag frame.now }
{
    frame[TAG_AT] == 0x81 && frame[TAG_AT + 1] == 0
}

/// The two bytes of the tag behind its type.
fn control(frame: &[u8]) -> u16
    requires { 16 ≤ length frame.now }
    ensures { result ≡ control frame.now }
{
    u16::from(frame[TAG_AT + 2]) * 256 + u16::from(frame[TAG_AT + 3])
}

/// The destination.
pub(crate) fn destination(frame: &[u8]) -> Mac
    requires { 14 ≤ length frame.now }
    ensures { result ≡ destination_of frame.now }
{
    Mac([frame[0], frame[1], frame[2], frame[3], frame[4], frame[5]])
}

/// The source.
pub(crate) fn source(frame: &[u8]) -> Mac
    requires { 14 ≤ length frame.now }
    ensures { result ≡ source_of frame.now }
{
    Mac([frame[6], frame[7], frame[8], frame[9], frame[10], frame[11]])
}

/// Whether the lengths of a frame and of its tag are in order.
fn has_length(frame: &[u8]) -> bool
    requires { 14 ≤ length frame.now }
    ensures { result ≡ (nat_le (if has_tag frame.now then 18 else 14) (length frame.now)
        && nat_le (length (bare frame.now)) longest_frame) }
{
    if has_tag(frame) {
        frame.len() >= MIN_BARE + TAG_LEN && frame.len() <= MAX_TAGGED
    } else {
        frame.len() <= MAX_BARE
    }
}

/// Whether a switch takes the frame: no part is missing, its source is one station, and without a
/// tag it has at most 9018 bytes.
#[tactic(auto, unfolding(crate::specs::Tag::is_frame))]
pub(crate) fn is_frame(frame: &[u8]) -> bool
    ensures { result ≡ is_frame frame.now }
{
    frame.len() >= MIN_BARE && has_length(frame) && source(frame).is_individual()
}

/// The number in the tag, where there is a tag.
#[tactic(auto, unfolding(crate::specs::Tag::is_frame))]
pub(crate) fn tag_number(frame: &[u8]) -> Option<u16>
    requires { is_frame frame.now ≡ true }
    ensures { result ≡ tag_number frame.now }
{
    if has_tag(frame) {
        Some(control(frame) % 4096)
    } else {
        None
    }
}

/// How many bytes the frame has without its tag.
#[tactic(auto, unfolding(crate::specs::Tag::is_frame))]
pub(crate) fn bare_len(frame: &[u8]) -> usize
    requires { is_frame frame.now ≡ true }
    ensures len { result ≡ length (bare frame.now) }
    ensures short { result ≤ longest_frame }
{
    if has_tag(frame) {
        frame.len() - TAG_LEN
    } else {
        frame.len()
    }
}

/// Appends the frame without its tag.
#[tactic(auto, unfolding(crate::specs::Tag::is_frame))]
pub(crate) fn put_bare<const CAP: usize>(frame: &[u8], out: &mut ArrayVec<u8, CAP>)
    requires frame { is_frame frame.now ≡ true }
    requires room { array_vec_len out.old + longest_frame ≤ CAP }
    ensures { out.new.items ≡ out.old.items ++ bare frame.now }
{
    if has_tag(frame) {
        append(out, &frame[..TAG_AT]);
        append(out, &frame[TAG_AT + TAG_LEN..]);
    } else {
        append(out, frame);
    }
}

/// The priority and the drop mark of the frame, and where what follows its addresses begins that is
/// no tag.
#[tactic(auto, unfolding(crate::specs::Tag::is_frame))]
fn mark_and_rest(frame: &[u8]) -> (u16, usize)
    requires frame { is_frame frame.now ≡ true }
    ensures mark { result.0 ≡ mark frame.now }
    ensures small { result.0 < 16 }
    ensures rest { drop result.1 frame.now ≡ drop 12 (bare frame.now) }
    ensures addresses { take 12 frame.now ≡ take 12 (bare frame.now) }
    ensures within { result.1 ≤ length frame.now }
    ensures long { 12 ≤ length frame.now }
    ensures short { length frame.now ≤ 9006 + result.1 }
{
    if has_tag(frame) {
        (control(frame) / 4096, TAG_AT + TAG_LEN)
    } else {
        (0, TAG_AT)
    }
}

/// Appends the frame with a tag that has this number, and the priority and the drop mark that it
/// has.
pub(crate) fn put_tagged<const CAP: usize>(vid: u16, frame: &[u8], out: &mut ArrayVec<u8, CAP>)
    requires number { vid < 4096 }
    requires frame { is_frame frame.now ≡ true }
    requires room { array_vec_len out.old + 9022 ≤ CAP }
    ensures { out.new.items ≡ out.old.items ++ tagged (mark frame.now) vid (bare frame.now) }
{
    let (mark, rest) = mark_and_rest(frame);
    let [high, low] = (mark * 4096 + vid).to_be_bytes();
    append(out, &frame[..TAG_AT]);
    append(out, &[0x81, 0, high, low]);
    append(out, &frame[rest..]);
}
