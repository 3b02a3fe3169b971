//! The serial number that a device tells in its identify page.
ghost use Rattle.std.specs.Prelude.{◌≡◌, ◌+◌, ◌≤◌, ◌++◌, length};
ghost use Rattle.arrayvec.specs.ArrayVec.{array_vec_len};
ghost use Rattle.aoe_base.specs.Names.{device_text};
ghost use Rattle.aoe_ata.specs.Serial.{filled};

use aoe_base::TargetId;
use arrayvec::ArrayVec;
use itoa::Buffer;

/// How many bytes the serial number has.
const SERIAL_LEN: usize = 20;

/// Appends a text, for which there is room.
fn append(name: &mut ArrayVec<u8, SERIAL_LEN>, text: &[u8])
    requires { array_vec_len name.old + length text.now ≤ 20 }
    ensures { name.new.items ≡ name.old.items ++ text.now }
{
    let _ = name.try_extend_from_slice(text);
}

/// The name of a device, as `e1.0`, filled with spaces.
pub fn serial_number(id: TargetId) -> [u8; 20]
    ensures { result ≡ filled 20 (device_text id) }
{
    let mut name = ArrayVec::<u8, SERIAL_LEN>::new();
    let mut digits = Buffer::new();
    append(&mut name, b"e");
    append(&mut name, digits.format(id.major).as_bytes());
    append(&mut name, b".");
    append(&mut name, digits.format(id.minor).as_bytes());

    let mut serial = [b' '; SERIAL_LEN];
    serial[..name.len()].copy_from_slice(name.as_slice());
    serial
}
