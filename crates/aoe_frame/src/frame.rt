//! The bytes of a frame.
ghost use Rattle.std.specs.Prelude.{◌≡◌, ◌+◌, ◌≤◌, ◌++◌, drop, length};
ghost use Rattle.arrayvec.specs.ArrayVec.{array_vec_len};
ghost use Rattle.aoe_base.specs.Sizes.{longest_frame};
ghost use Rattle.aoe_frame.specs.Header.{padded, stretched};

use aoe_base::append;
use arrayvec::ArrayVec;

/// A frame, from its destination address on and without the check sequence: up to 9018 bytes, a
/// header of Ethernet and 9000 bytes behind it, and 4 bytes to spare.
pub type Frame = ArrayVec<u8, 9018>;

/// The least length that a frame is sent with: Ethernet's 64 bytes without their check sequence.
pub const MIN_FRAME: usize = 60;

/// The longest frame.
pub const MAX_FRAME: usize = 9018;

/// Zeros for the bytes that a frame grows by.
static ZEROS: [u8; MAX_FRAME] = [0; MAX_FRAME];

/// Makes `out` `len` bytes long, where it has another length.
#[cold]
#[inline(never)]
fn change_len(out: &mut Frame, len: usize)
    requires { len ≤ longest_frame }
    ensures bytes { out.new.items ≡ stretched len out.old.items }
    ensures len { length out.new.items ≡ len }
{
    if out.len() > len {
        out.truncate(len);
    } else if out.len() < len {
        let missing = len - out.len();
        append(out, &ZEROS[..missing]);
    }
}

/// Makes `out` `len` bytes long. They are what stood there, and zeros behind it. A frame of that
/// length isn't written to.
#[inline(always)]
pub fn stretch(out: &mut Frame, len: usize)
    requires { len ≤ longest_frame }
    ensures bytes { out.new.items ≡ stretched len out.old.items }
    ensures len { length out.new.items ≡ len }
{
    if out.len() != len {
        change_len(out, len);
    }
}

/// Writes `bytes` over the front of `out`.
fn put_first(out: &mut [u8], bytes: &[u8])
    requires { length bytes.now ≤ length out.old }
    ensures { out.new ≡ bytes.now ++ drop (length bytes.now) out.old }
{
    out[..bytes.len()].copy_from_slice(bytes);
}

/// Writes `bytes` over the front of a frame that is at least as long.
pub fn overwrite(out: &mut Frame, bytes: &[u8])
    requires { length bytes.now ≤ array_vec_len out.old }
    ensures { out.new.items ≡ bytes.now ++ drop (length bytes.now) out.old.items }
{
    put_first(out.as_mut_slice(), bytes);
}

/// Makes `out` these bytes. Where it has as many, nothing is cleared before.
pub fn refill(out: &mut Frame, bytes: &[u8])
    requires { length bytes.now ≤ longest_frame }
    ensures { out.new.items ≡ bytes.now }
{
    stretch(out, bytes.len());
    overwrite(out, bytes);
}

/// Adds zeros up to 60 bytes. A frame of 60 bytes and more stays as it was.
pub fn pad(out: &mut Frame)
    ensures { out.new.items ≡ padded out.old.items }
{
    if out.len() < MIN_FRAME {
        let missing = MIN_FRAME - out.len();
        append(out, &ZEROS[..missing]);
    }
}
