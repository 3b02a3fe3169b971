//! The registers of ATA over Ethernet, what a request asks, and the page of a device.
ghost use Rattle.std.specs.Prelude.{◌≤◌, ◌<◌, ◌^◌};

use aoe_ata::{
    AFLAG_EXTENDED, AFLAG_WRITE, AtaAnswer, AtaArgs, CommandCode, ERROR_ABRT, ERROR_IDNF,
    ERROR_UNC, STATUS_DF, STATUS_DRDY, STATUS_DRQ, STATUS_ERR, decide, identify_page, read_args,
    read_identify, write_args,
};
use aoe_base::{AoeError, Span};
use aoe_frame::Frame;

/// Whether registers are written as these bytes, and read from them and two more, but not from fewer.
fn go_both_ways(args: &AtaArgs, bytes: &[u8; 12]) -> bool
    requires { args.now.lba < 2 ^ 48 }
{
    let mut out = Frame::new();
    write_args(args, &mut out);
    let mut reserved = *bytes;
    reserved[10] = 0xee;
    reserved[11] = 0xee;
    let (short, _) = reserved.split_at(11);
    out.as_slice() == bytes.as_slice()
        && read_args(&reserved) == Some(*args)
        && read_args(short).is_none()
}

#[test]
fn registers_go_both_ways(rt: HostRuntime) {
    let args = AtaArgs {
        aflags: AFLAG_EXTENDED | AFLAG_WRITE,
        feature: 0,
        count: 2,
        code: CommandCode::WriteSectorsExt.code(),
        lba: 0x0a0b_0c0d_0e0f,
    };
    let bytes = [0x41, 0, 2, 0x34, 0x0f, 0x0e, 0x0d, 0x0c, 0x0b, 0x0a, 0, 0];
    assert!(rt; go_both_ways(&args, &bytes));
}

/// The bits of the status, and those of the error register, as the standard has them.
#[test]
fn bits_of_registers(rt: HostRuntime) {
    let status = [STATUS_ERR, STATUS_DRQ, STATUS_DF, STATUS_DRDY];
    let error = [ERROR_ABRT, ERROR_IDNF, ERROR_UNC];
    assert!(rt; status == [0x01, 0x08, 0x20, 0x40] && error == [0x04, 0x10, 0x40]);
}

/// A page that has these bytes from these places on, and zeros else.
fn page_of(pieces: &[(usize, &[u8])]) -> [u8; 512] {
    let mut page = [0; 512];
    for (at, bytes) in pieces {
        for (i, byte) in bytes.iter().enumerate() {
            if let Some(place) = page.get_mut(at.saturating_add(i)) {
                *place = *byte;
            }
        }
    }
    page
}

/// The page of a device with so many sectors.
fn own_page(total: u64) -> [u8; 512]
    requires { total ≤ 2 ^ 40 }
{
    let mut page = [0xff; 512];
    identify_page(total, b"e1.0                ", &mut page);
    page
}

/// Whether the page of a device with so many sectors is the stated one, with these words for the short
/// and for the long count, and tells that count.
fn tells<'a>(total: u64, short: &'a [u8; 4], long: &'a [u8; 8]) -> bool
    requires { total ≤ 2 ^ 40 }
{
    let page = own_page(total);
    let wanted = page_of(&[
        (20, b"1e0.                "),
        (46, b"OA1E    "),
        (54, b"oA Ehsle f                              "),
        (98, &[0x00, 0x02]),
        (120, short),
        (166, &[0x00, 0x74]),
        (172, &[0x00, 0x34]),
        (200, long),
    ]);
    page == wanted && read_identify(&page) == Some(total)
}

#[test]
fn pages_of_its_own(rt: HostRuntime) {
    let (short, long) = ([0x10, 0, 0, 0], [0x10, 0, 0, 0, 0, 0, 0, 0]);
    assert!(rt; tells(16, &short, &long));
    let (short, long) = (
        [0xff, 0xff, 0xff, 0x0f],
        [0x00, 0xa3, 0xe1, 0x11, 0, 0, 0, 0],
    );
    assert!(rt; tells(300_000_000, &short, &long));
}

/// What 16 sectors, at most 2 in a command, answer to twelve bytes and at most 1024 zeros of data.
fn answer_to(args: &[u8; 12], len: usize) -> Result<AtaAnswer, AoeError> {
    let zeros = [0; 1024];
    let mut bytes = Frame::new();
    let _ = bytes.try_extend_from_slice(args);
    let _ = bytes.try_extend_from_slice(zeros.get(..len).unwrap_or(&zeros));
    match decide(16, 2, bytes.as_slice()) {
        Ok(decision) => Ok(decision.answer),
        Err(error) => Err(error),
    }
}

/// Registers with an address of all ones.
fn anywhere(code: u8) -> [u8; 12] {
    [0, 0, 0, code, 0xff, 0xff, 0xff, 0xff, 0xff, 0xff, 0, 0]
}

#[test]
fn answers_by_registers(rt: HostRuntime) {
    let last = Span { at: 15, count: 1 };
    let low = Span { at: 5, count: 2 };
    let one = b"\x41\x00\x01\x34\x0f\x00\x00\x00\x00\x00\x00\x00";
    let two = b"\x41\x00\x02\x34\x0f\x00\x00\x00\x00\x00\x00\x00";
    // The low 28 bits of an address.
    let read = b"\x00\x00\x02\x20\x05\x00\x00\xe0\x00\x00\x00\x00";
    let verify = b"\x00\x00\x02\x40\x05\x00\x00\xe0\x00\x00\x00\x00";
    let cases = [
        (*one, 512, Ok(AtaAnswer::Put(last))),
        (*two, 1024, Ok(AtaAnswer::NotFound)),
        (*two, 1023, Err(AoeError::BadArgument)),
        (*read, 24, Ok(AtaAnswer::Give(low))),
        (*verify, 24, Ok(AtaAnswer::Verify(low))),
        (anywhere(0xec), 0, Ok(AtaAnswer::Page)),
        (anywhere(0xe5), 0, Ok(AtaAnswer::Mode)),
        (anywhere(0xe7), 0, Ok(AtaAnswer::Sync)),
        (anywhere(0xea), 0, Ok(AtaAnswer::Sync)),
        (anywhere(0xb0), 0, Ok(AtaAnswer::Abort)),
    ];
    for (args, len, answer) in &cases {
        assert!(rt; answer_to(args, *len) == *answer);
    }
}
