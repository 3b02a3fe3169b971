//! The registers of an ATA command (AoEr11, "ATA command", the fields before the data).
ghost use Rattle.aoe_base.specs.Sizes.{longest_frame};
ghost use Rattle.aoe_ata.specs.declared.args.AtaArgs.{AtaArgs};
ghost use Rattle.std.specs.Prelude.{List, ℕ, ◌≡◌, ◌+◌, ◌^◌, ◌<◌, ◌≤◌, ◌++◌, All, IfSome, Some, length, slice_index, take};
ghost use Rattle.arrayvec.specs.ArrayVec.{array_vec_len};
ghost use Rattle.aoe_ata.specs.Args.{address_of, args_of, args_bytes};

use aoe_base::append;
use aoe_frame::Frame;

/// How many bytes the registers have, from byte 24 of a frame on.
pub const ARGS_LEN: usize = 12;

/// AFlags: the address has 48 bits.
pub const AFLAG_EXTENDED: u8 = 0x40;

/// AFlags: the bit of the device register that chooses the device.
pub const AFLAG_DEVICE: u8 = 0x10;

/// AFlags: a write may be answered before it is done.
pub const AFLAG_ASYNC: u8 = 0x02;

/// AFlags: data goes to the device.
pub const AFLAG_WRITE: u8 = 0x01;

/// The registers, whose names are those of a request.
///
/// | Offset | Size | In a request | In a reply |
/// |---|---|---|---|
/// | 0 | 1 | AFlags | the same |
/// | 1 | 1 | feature | error |
/// | 2 | 1 | sector count | sector count |
/// | 3 | 1 | command code | status |
/// | 4 | 6 | lba0 to lba5, lba0 least significant | the same |
/// | 10 | 2 | reserved | zero |
///
/// The address `lba` is below 2^48.
#[derive(Clone, Copy, PartialEq, Eq, Hash)]
pub struct AtaArgs {
    pub aflags: u8,
    pub feature: u8,
    pub count: u8,
    pub code: u8,
    pub lba: u64,
}

/// The address in the six bytes lba0 to lba5.
fn read_address(bytes: &[u8]) -> u64
    requires { length bytes.now ≡ 6 }
    ensures value { result ≡ address_of bytes.now }
    ensures bound { result < 2 ^ 48 }
{
    let mut wide = [0; 8];
    wide[..6].copy_from_slice(bytes);
    u64::from_le_bytes(wide)
}

/// The registers that the bytes begin with, or `None` where there are fewer than 12 bytes. The
/// reserved bytes may have any value.
pub fn read_args(bytes: &[u8]) -> Option<AtaArgs>
    ensures args { result ≡ args_of bytes.now }
    ensures address { IfSome result (λ args. args.lba < 2 ^ 48) }
{
    if bytes.len() < ARGS_LEN {
        return None;
    }
    Some(AtaArgs {
        aflags: bytes[0],
        feature: bytes[1],
        count: bytes[2],
        code: bytes[3],
        lba: read_address(&bytes[4..10]),
    })
}

/// The 12 bytes of the registers.
pub fn args_array(args: &AtaArgs) -> [u8; 12]
    ensures { result ≡ args_bytes args.now }
{
    let AtaArgs {
        aflags,
        feature,
        count,
        code,
        lba,
    } = *args;
    let mut bytes = [aflags, feature, count, code, 0, 0, 0, 0, 0, 0, 0, 0];
    bytes[4..10].copy_from_slice(&lba.to_le_bytes()[..6]);
    bytes
}

/// Appends the 12 bytes of the registers, for which there is room.
pub fn write_args(args: &AtaArgs, out: &mut Frame)
    requires room { array_vec_len out.old + 12 ≤ longest_frame }
    requires address { args.now.lba < 2 ^ 48 }
    ensures bytes { out.new.items ≡ out.old.items ++ args_bytes args.now }
    ensures read { args_of (args_bytes args.now) ≡ Some args.now }
    ensures len { length (args_bytes args.now) ≡ 12 }
{
    append(out, &args_array(args));
}

/// A law: the bits of AFlags (AoEr11, "ATA command").
pub fn aflags_law()
    ensures extended { AFLAG_EXTENDED ≡ 2 ^ 6 }
    ensures device { AFLAG_DEVICE ≡ 2 ^ 4 }
    ensures write_later { AFLAG_ASYNC ≡ 2 ^ 1 }
    ensures write { AFLAG_WRITE ≡ 2 ^ 0 }
{}

/// A law: what is written as registers is read as them, whatever follows.
pub fn args_read_back()
    ensures { (args : AtaArgs) (rest : List ℕ) → args.lba < 2 ^ 48
        → args_of (args_bytes args ++ rest) ≡ Some args }
{}

/// A law: bytes that are read as registers begin with their one spelling, reserved bytes aside.
pub fn args_spelling_is_one()
    ensures { (args : AtaArgs) (bytes : List ℕ) → All (λ b. b < 2 ^ 8) bytes → slice_index bytes 10 ≡ 0 → slice_index bytes 11 ≡ 0
        → args_of bytes ≡ Some args → take 12 bytes ≡ args_bytes args }
{}
