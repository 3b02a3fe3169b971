//! The header of a frame (AoEr11, "Common AoE header").
ghost use Rattle.aoe_frame.specs.declared.header.Header.{Header};
ghost use Rattle.std.specs.Int.{w16, w32, to_be_bytes};
ghost use Rattle.std.specs.Prelude.{List, ℕ, [], ◌∷◌, ◌≡◌, ◌+◌, ◌%◌, ◌^◌, ◌<◌, ◌≤◌, ◌++◌, All, drop, length, is_some, slice_index, slice_range, take, true};
ghost use Rattle.aoe_frame.specs.Header.{head, header_bytes, is_response, reply_header, Fits, IsFlags};

use crate::Frame;
use crate::frame::refill;
use aoe_base::{Mac, TargetId};
use std::marker::Model;

/// The EtherType of AoE.
pub const AOE_TYPE: [u8; 2] = [0x88, 0xa2];

/// How many bytes the header has.
pub const HEADER_LEN: usize = 24;

/// The flag of a response.
pub const RESPONSE_FLAG: u8 = 0x8;

/// The flag of a response that bears an error.
pub const ERROR_FLAG: u8 = 0x4;

/// What the first 24 bytes of a frame say.
///
/// | Offset | Size | Field |
/// |---|---|---|
/// | 0 | 6 | destination |
/// | 6 | 6 | source |
/// | 12 | 2 | type, 0x88A2 |
/// | 14 | 1 | version (high 4 bits), flags (low 4 bits, of which two are reserved) |
/// | 15 | 1 | error |
/// | 16 | 2 | major |
/// | 18 | 1 | minor |
/// | 19 | 1 | command |
/// | 20 | 4 | tag |
///
/// Numbers of several bytes are big-endian.
#[derive(Clone, Copy, PartialEq, Eq)]
pub struct Header {
    pub dst: Mac,
    pub src: Mac,
    pub version: u8,
    pub flags: u8,
    pub error: u8,
    pub id: TargetId,
    pub command: u8,
    pub tag: u32,
}

/// Whether a frame is a response. Every other frame is a request, one that is too short to have
/// flags among them, and its type doesn't matter.
pub fn is_response(frame: &[u8]) -> bool
    ensures { result ≡ is_response frame.now }
{
    frame.len() >= 15 && frame[14] & RESPONSE_FLAG != 0
}

/// Whether there are 24 bytes, and the type is that of AoE.
#[inline(always)]
fn has_header(bytes: &[u8]) -> bool
    ensures there { result ≡ is_some (head bytes.now) }
    ensures len { result ≡ true → 24 ≤ length bytes.now }
{
    bytes.len() >= HEADER_LEN && bytes[12] == AOE_TYPE[0] && bytes[13] == AOE_TYPE[1]
}

/// The `N` bytes from `at` on.
#[inline(always)]
fn array_at<const N: usize>(bytes: &[u8], at: usize) -> [u8; N]
    requires { at + N ≤ length bytes.now }
    ensures { result ≡ slice_range bytes.now at (at + N) }
{
    match bytes[at..at + N].first_chunk::<N>() {
        Some(array) => *array,
        None => unreachable!(),
    }
}

/// The header, or `None` where there are fewer than 24 bytes or the type is another one. Reserved
/// flags are read as zero.
pub fn read_header(bytes: &[u8]) -> Option<Header>
    ensures { result ≡ head bytes.now }
{
    if !has_header(bytes) {
        return None;
    }
    Some(Header {
        dst: Mac(array_at::<6>(bytes, 0)),
        src: Mac(array_at::<6>(bytes, 6)),
        version: bytes[14] / 16,
        flags: bytes[14] & (RESPONSE_FLAG | ERROR_FLAG),
        error: bytes[15],
        id: TargetId {
            major: u16::from_be_bytes(array_at::<2>(bytes, 16)),
            minor: bytes[18],
        },
        command: bytes[19],
        tag: u32::from_be_bytes(array_at::<4>(bytes, 20)),
    })
}

/// The header of a frame, read where it stands: a call reads the field that it gives, and no other.
/// Contracts see it as the [`Header`] that [`read_header`] gives.
#[derive(Drop)]
pub struct HeaderView<'a> {
    frame: &'a [u8],
}

impl<'a> Model for HeaderView<'a> {
    ghost use Rattle.std.specs.Prelude.{◌≤◌, length};
    ghost use Rattle.aoe_frame.specs.Header.{fields};
    ghost use Rattle.aoe_frame.specs.declared.header.Header.{Header};

    ghost Value = { Header };

    ghost view = { λ v. fields v.frame.now };

    ghost invariant = { λ v. 24 ≤ length v.frame.now };
}

impl<'a> HeaderView<'a> {
    ghost use Rattle.std.specs.Prelude.{◌≡◌, ◌≤◌, ◌∷◌, IfSome, is_some, length};
    ghost use Rattle.std.specs.Int.{w32, to_be_bytes};
    ghost use Rattle.aoe_frame.specs.Header.{fields, head};

    /// The header, or `None` where [`read_header`] gives none.
    #[inline(always)]
    pub fn of(frame: &'a [u8]) -> Option<HeaderView<'a>>
        ensures there { is_some result ≡ is_some (head frame.now) }
        ensures fields { IfSome result (λ view. view ≡ fields frame.now) }
        ensures len { IfSome result (λ view. 24 ≤ length frame.now) }
    {
        if has_header(frame) {
            Some(HeaderView { frame })
        } else {
            None
        }
    }

    /// The same view once more. What stands in a function of its own gets a copy, so that the view itself
    /// needn't stand in memory for it.
    #[inline(always)]
    pub fn copy(&self) -> HeaderView<'a>
        ensures { result ≡ self.now }
    {
        HeaderView { frame: self.frame }
    }

    /// The destination.
    #[inline(always)]
    pub fn dst(&self) -> Mac
        ensures { result ≡ self.now.dst }
    {
        Mac(array_at::<6>(self.frame, 0))
    }

    /// The source.
    #[inline(always)]
    pub fn src(&self) -> Mac
        ensures { result ≡ self.now.src }
    {
        Mac(array_at::<6>(self.frame, 6))
    }

    #[inline(always)]
    pub fn version(&self) -> u8
        ensures { result ≡ self.now.version }
    {
        self.frame[14] / 16
    }

    #[inline(always)]
    pub fn flags(&self) -> u8
        ensures { result ≡ self.now.flags }
    {
        self.frame[14] & (RESPONSE_FLAG | ERROR_FLAG)
    }

    #[inline(always)]
    pub fn id(&self) -> TargetId
        ensures { result ≡ self.now.id }
    {
        TargetId {
            major: u16::from_be_bytes(array_at::<2>(self.frame, 16)),
            minor: self.frame[18],
        }
    }

    #[inline(always)]
    pub fn command(&self) -> u8
        ensures { result ≡ self.now.command }
    {
        self.frame[19]
    }

    /// The bytes of the command and the tag, which a reply repeats.
    #[inline(always)]
    #[tactic(auto, using(crate::proofs::HeaderLemmas::command_and_tag))]
    fn ending(&self) -> [u8; 5]
        ensures { result ≡ self.now.command ∷ to_be_bytes w32 self.now.tag }
    {
        array_at::<5>(self.frame, 19)
    }
}

/// Writes the fields of a header over a place of 24 bytes, with the bytes of the command and the tag
/// at its end. The addresses come by reference, so that each is copied once.
#[inline(always)]
fn put_fields(
    dst: &Mac,
    src: &Mac,
    shared: u8,
    error: u8,
    id: TargetId,
    ending: &[u8; 5],
    out: &mut [u8],
)
    requires { length out.old ≡ 24 }
    ensures bytes { out.new ≡ dst.now.0 ++ src.now.0 ++ (136 ∷ 162 ∷ []) ++ (shared ∷ error ∷ [])
        ++ to_be_bytes w16 id.major ++ (id.minor ∷ []) ++ ending.now }
    ensures dst { length dst.now.0 ≡ 6 }
    ensures src { length src.now.0 ≡ 6 }
{
    let [type_high, type_low] = AOE_TYPE;
    let (dst_place, out) = out.split_at_mut(6);
    let (src_place, out) = out.split_at_mut(6);
    let (type_place, out) = out.split_at_mut(2);
    let (shared_place, out) = out.split_at_mut(2);
    let (major_place, out) = out.split_at_mut(2);
    let (minor_place, end_place) = out.split_at_mut(1);
    dst_place.copy_from_slice(&dst.0);
    src_place.copy_from_slice(&src.0);
    type_place.copy_from_slice(&[type_high, type_low]);
    shared_place.copy_from_slice(&[shared, error]);
    major_place.copy_from_slice(&id.major.to_be_bytes());
    minor_place.copy_from_slice(&[id.minor]);
    end_place.copy_from_slice(ending);
}

/// Writes the header over a place of 24 bytes.
#[inline(always)]
fn put_header(header: &Header, out: &mut [u8])
    requires version { header.now.version < 16 }
    requires flags { IsFlags header.now.flags }
    requires place { length out.old ≡ 24 }
    ensures bytes { out.new ≡ header_bytes header.now }
    ensures fits { Fits header.now }
{
    let shared = header.version * 16 + header.flags;
    let [a, b, c, d] = header.tag.to_be_bytes();
    put_fields(
        &header.dst,
        &header.src,
        shared,
        header.error,
        header.id,
        &[header.command, a, b, c, d],
        out,
    );
}

/// Writes the header of the reply that [`turn_round`] makes over a place of 24 bytes.
#[inline(always)]
pub fn put_turned(
    request: &HeaderView<'_>,
    id: TargetId,
    port: &Mac,
    error: Option<u8>,
    out: &mut [u8],
)
    requires { length out.old ≡ 24 }
    ensures { out.new ≡ header_bytes (reply_header request.now id port.now error) }
{
    let flags = if error.is_some() {
        RESPONSE_FLAG | ERROR_FLAG
    } else {
        RESPONSE_FLAG
    };
    put_fields(
        &request.src(),
        port,
        16 + flags,
        error.unwrap_or(0),
        id,
        &request.ending(),
        out,
    );
}

/// The 24 bytes of the header.
fn header_array(header: &Header) -> [u8; 24]
    requires version { header.now.version < 16 }
    requires flags { IsFlags header.now.flags }
    ensures bytes { result ≡ header_bytes header.now }
    ensures fits { Fits header.now }
{
    let mut bytes = [0; HEADER_LEN];
    put_header(header, &mut bytes);
    bytes
}

/// Makes `out` the 24 bytes of the header.
pub fn write_header(header: &Header, out: &mut Frame)
    requires version { header.now.version < 16 }
    requires flags { IsFlags header.now.flags }
    ensures bytes { out.new.items ≡ header_bytes header.now }
    ensures read { head out.new.items ≡ Some header.now }
    ensures len { length out.new.items ≡ 24 }
{
    refill(out, &header_array(header));
}

/// The header of the reply that the target `id` gives to a request, with `port` as its source.
pub fn turn_round(request: &Header, id: TargetId, port: Mac, error: Option<u8>) -> Header
    ensures { result ≡ reply_header request.now id port error }
{
    Header {
        dst: request.src,
        src: port,
        version: 1,
        flags: if error.is_some() {
            RESPONSE_FLAG | ERROR_FLAG
        } else {
            RESPONSE_FLAG
        },
        error: error.unwrap_or(0),
        id,
        command: request.command,
        tag: request.tag,
    }
}

/// A law: what is written as a header is read as it, whatever follows.
pub fn header_reads_back()
    ensures { (h : Header) (rest : List ℕ) → Fits h → head (header_bytes h ++ rest) ≡ Some h }
{}

/// A law: a frame that is read as a header begins with its one spelling, reserved flags aside.
pub fn header_spelling_is_one()
    ensures { (h : Header) (f : List ℕ) → All (λ b. b < 2 ^ 8) f → slice_index f 14 % 4 ≡ 0
        → head f ≡ Some h → take 24 f ≡ header_bytes h }
{}
