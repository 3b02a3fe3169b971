//! The bytes behind a frame's header.
ghost use Rattle.std.specs.Prelude.{◌≡◌, ◌*◌, ◌≤◌, ◌<◌, length};
ghost use Rattle.std.specs.Simd.{first_chunks};

use arrayvec::ArrayVec;

/// The most bytes of a reply's arguments: room for a config string with its 8 bytes, and for as many
/// directives of a mask list as its field Dir Count can say.
pub const MAX_ARGS: usize = 2048;

/// The arguments of a reply: the bytes of its frame from byte 24 on.
pub type Args = ArrayVec<u8, MAX_ARGS>;

/// The first `count` pieces of `N` bytes each.
pub(crate) fn pieces<const N: usize>(bytes: &[u8], count: usize) -> &[[u8; N]]
    requires some { 0 < N }
    requires there { N * count ≤ length bytes.now }
    ensures value { result.now ≡ first_chunks N count bytes.now }
    ensures len { length result.now ≡ count }
{
    &bytes.as_chunks::<N>().0[..count]
}
