//! The NBD protocol: each row of its tables, and one conversation cut at each offset.
ghost use Rattle.std.specs.Prelude.{◌≤◌, length};

use crate::checks::holds;
use aoe_base::Span;
use aoe_nbd::{
    Action, Event, Export, ExportName, Handshake, HandshakeEvent, NbdError, OptionReply, Request,
    Transmission, greeting, reply_head,
};
use arrayvec::ArrayVec;
use std::test::Fail;

/// The handle of the requests below.
const HANDLE: u64 = 0x0102_0304_0506_0708;

/// 65,536 sectors, 32 MiB.
const SIZE: u64 = 33_554_432;

/// Data of writes.
static DATA: [u8; 65_536] = [7; 65_536];

/// The export that is named e1.0.
fn export(read_only: bool, flushes: bool) -> Export {
    let mut name = ExportName::new();
    let _ = name.try_extend_from_slice(b"e1.0");
    Export {
        name,
        size: SIZE,
        read_only,
        flushes,
    }
}

/// A request's flags, type, offset and length.
#[derive(Clone, Copy)]
struct Asked(u16, u16, u64, u32);

/// The bytes of its head.
fn head(asked: Asked) -> [u8; 28] {
    let [a, b] = asked.0.to_be_bytes();
    let [c, d] = asked.1.to_be_bytes();
    let [e, f, g, h, i, j, k, l] = asked.2.to_be_bytes();
    let [m, n, o, p] = asked.3.to_be_bytes();
    [
        0x25, 0x60, 0x95, 0x13, a, b, c, d, 1, 2, 3, 4, 5, 6, 7, 8, e, f, g, h, i, j, k, l, m, n,
        o, p,
    ]
}

/// What comes of a request once its data came, and how many bytes of that were taken.
fn end_of(export: &Export, asked: Asked) -> (Event, u64) {
    let mut transmission = Transmission::new();
    let mut event = transmission.take(export, &head(asked)).event;
    let mut skipped = 0u64;
    for _ in 0..70_000 {
        if !matches!(&event, Event::Begins(_) | Event::Data | Event::Skipped) {
            break;
        }
        let taken = transmission.take(export, &DATA);
        skipped = skipped.saturating_add(taken.len as u64);
        event = taken.event;
    }
    (event, skipped)
}

/// A request that is carried out.
fn came(action: Action) -> Event {
    Event::Came(Request {
        handle: HANDLE,
        action,
    })
}

/// A request that is refused.
fn refused(error: NbdError) -> Event {
    Event::Refused {
        error,
        handle: HANDLE,
    }
}

/// Sectors.
fn span(at: u64, count: u32) -> Span {
    Span { at, count }
}

/// A write of sectors.
fn write(at: u64, count: u32, lasts: bool) -> Event {
    came(Action::Write {
        span: span(at, count),
        lasts,
    })
}

/// Each case comes to its event, once so many bytes of data were taken.
fn come(export: &Export, rows: &[(Asked, Event, u64)]) -> bool {
    rows.iter()
        .all(|row| end_of(export, row.0) == (row.1, row.2))
}

#[test]
fn requests_are_carried_out(rt: HostRuntime) -> Result<(), Fail> {
    let rows = [
        (
            Asked(0, 0, 0, 512),
            came(Action::Read { span: span(0, 1) }),
            0,
        ),
        (
            Asked(1, 0, 512, 1024),
            came(Action::Read { span: span(1, 2) }),
            0,
        ),
        (
            Asked(0, 0, 0, 16_777_216),
            came(Action::Read {
                span: span(0, 32_768),
            }),
            0,
        ),
        (Asked(0, 1, 0, 131_072), write(0, 256, false), 131_072),
        (Asked(1, 1, 33_553_920, 512), write(65_535, 1, true), 512),
        (Asked(0, 3, 7, 9), came(Action::Flush), 0),
        (Asked(1, 3, 0, 0), came(Action::Flush), 0),
        (Asked(0, 2, 0, 0), Event::Disconnected, 0),
        (Asked(9, 2, 1, 1), Event::Disconnected, 0),
    ];
    holds(&rt, come(&export(false, true), &rows), "requests");
    Ok(())
}

#[test]
fn requests_are_refused(rt: HostRuntime) -> Result<(), Fail> {
    let invalid = refused(NbdError::Invalid);
    let full = refused(NbdError::NoSpace);
    let rows = [
        (Asked(0, 4, 0, 512), invalid, 0),
        (Asked(0, 5, 0, 512), invalid, 0),
        (Asked(0, 6, 0, 512), invalid, 0),
        (Asked(0, 7, 0, 512), invalid, 0),
        (Asked(2, 0, 0, 512), invalid, 0),
        (Asked(3, 1, 0, 512), invalid, 512),
        (Asked(0, 0, 0, 0), invalid, 0),
        (Asked(0, 1, 0, 0), invalid, 0),
        (Asked(0, 0, 0, 513), invalid, 0),
        (Asked(0, 0, 1, 512), invalid, 0),
        (Asked(0, 0, 0, 16_777_728), invalid, 0),
        (Asked(0, 1, 0, 16_777_728), invalid, 16_777_728),
        (Asked(0, 1, 0, u32::MAX), invalid, 4_294_967_295),
        (Asked(0, 0, SIZE, 512), invalid, 0),
        (Asked(0, 0, 33_553_920, 1024), invalid, 0),
        (Asked(0, 0, 0xffff_ffff_ffff_fe00, 512), invalid, 0),
        (Asked(0, 1, SIZE, 512), full, 512),
        (Asked(0, 1, 0xffff_ffff_ffff_fe00, 512), full, 512),
    ];
    holds(&rt, come(&export(false, true), &rows), "refused requests");
    let denied = [
        (Asked(0, 1, 0, 513), refused(NbdError::NotPermitted), 513),
        (Asked(0, 0, SIZE, 512), invalid, 0),
        (Asked(2, 1, 0, 512), invalid, 512),
    ];
    holds(
        &rt,
        come(&export(true, true), &denied),
        "an export that can only be read",
    );
    let unflushed = [
        (Asked(0, 3, 0, 0), invalid, 0),
        (Asked(1, 0, 0, 512), invalid, 0),
        (Asked(1, 1, SIZE, 512), invalid, 512),
        (Asked(0, 1, 0, 512), write(0, 1, false), 512),
    ];
    holds(
        &rt,
        come(&export(false, false), &unflushed),
        "an export without flushes",
    );
    Ok(())
}

/// What comes of an option behind the client's flags, and what is said to it.
fn answered(
    export: &Export,
    flags: &[u8],
    option: &[u8],
    reply: &[u8],
    event: HandshakeEvent,
) -> bool {
    let mut handshake = Handshake::new();
    let mut out = OptionReply::new();
    let first = handshake.take(export, flags, &mut out);
    let is_silent = first.event == HandshakeEvent::Flags && out.is_empty();
    let taken = handshake.take(export, option, &mut out);
    is_silent && taken.event == event && out.as_slice() == reply
}

/// The client's flags FIXED_NEWSTYLE and NO_ZEROES.
const FLAGS: &[u8] = b"\0\0\0\x03";

/// The size and the transmission flags of the export.
const SIZE_AND_FLAGS: &[u8; 10] = b"\0\0\0\0\x02\0\0\0\0\x0d";

/// What INFO gets that isn't refused.
const INFOS: &[u8] =
    b"\0\x03\xe8\x89\x04\x55\x65\xa9\0\0\0\x06\0\0\0\x03\0\0\0\x0c\0\0\0\0\0\0\x02\0\0\0\0\x0d\
\0\x03\xe8\x89\x04\x55\x65\xa9\0\0\0\x06\0\0\0\x03\0\0\0\x0e\0\x03\0\0\x02\0\0\0\x10\0\x01\0\0\0\
\0\x03\xe8\x89\x04\x55\x65\xa9\0\0\0\x06\0\0\0\x01\0\0\0\0";

#[test]
fn options_are_answered(rt: HostRuntime) -> Result<(), Fail> {
    let rows: [(&[u8], &[u8], HandshakeEvent); 15] = [
        (
            b"IHAVEOPT\0\0\0\x01\0\0\0\x04e1.0",
            SIZE_AND_FLAGS,
            HandshakeEvent::Begins,
        ),
        (
            b"IHAVEOPT\0\0\0\x01\0\0\0\0",
            SIZE_AND_FLAGS,
            HandshakeEvent::Begins,
        ),
        (
            b"IHAVEOPT\0\0\0\x01\0\0\0\x04e1.1",
            b"",
            HandshakeEvent::Unknown,
        ),
        (
            b"IHAVEOPT\0\0\0\x02\0\0\0\0",
            b"\0\x03\xe8\x89\x04\x55\x65\xa9\0\0\0\x02\0\0\0\x01\0\0\0\0",
            HandshakeEvent::Leaves,
        ),
        (
            b"IHAVEOPT\0\0\0\x03\0\0\0\0",
            b"\0\x03\xe8\x89\x04\x55\x65\xa9\0\0\0\x03\0\0\0\x02\0\0\0\x08\0\0\0\x04e1.0\
\0\x03\xe8\x89\x04\x55\x65\xa9\0\0\0\x03\0\0\0\x01\0\0\0\0",
            HandshakeEvent::Answered,
        ),
        (
            b"IHAVEOPT\0\0\0\x03\0\0\0\x01.",
            b"\0\x03\xe8\x89\x04\x55\x65\xa9\0\0\0\x03\x80\0\0\x03\0\0\0\0",
            HandshakeEvent::Answered,
        ),
        (
            b"IHAVEOPT\0\0\0\x06\0\0\0\x06\0\0\0\0\0\0",
            INFOS,
            HandshakeEvent::Answered,
        ),
        (
            b"IHAVEOPT\0\0\0\x06\0\0\0\x0e\0\0\0\x04e1.0\0\x02\0\x01\0\x02",
            INFOS,
            HandshakeEvent::Answered,
        ),
        (
            b"IHAVEOPT\0\0\0\x06\0\0\0\x07\0\0\0\0\0\0.",
            b"\0\x03\xe8\x89\x04\x55\x65\xa9\0\0\0\x06\x80\0\0\x03\0\0\0\0",
            HandshakeEvent::Answered,
        ),
        (
            b"IHAVEOPT\0\0\0\x07\0\0\0\x06\xff\xff\xff\xff\0\0",
            b"\0\x03\xe8\x89\x04\x55\x65\xa9\0\0\0\x07\x80\0\0\x03\0\0\0\0",
            HandshakeEvent::Answered,
        ),
        (
            b"IHAVEOPT\0\0\0\x07\0\0\0\x09\0\0\0\x03e1.\0\0",
            b"\0\x03\xe8\x89\x04\x55\x65\xa9\0\0\0\x07\x80\0\0\x06\0\0\0\0",
            HandshakeEvent::Answered,
        ),
        (
            b"IHAVEOPT\0\0\0\x05\0\0\0\0",
            b"\0\x03\xe8\x89\x04\x55\x65\xa9\0\0\0\x05\x80\0\0\x01\0\0\0\0",
            HandshakeEvent::Answered,
        ),
        (b"IHAVEOPS\0\0\0\x07\0\0\0\0", b"", HandshakeEvent::Broken),
        (
            b"IHAVEOPT\0\0\0\x07\0\0\x20\x01",
            b"",
            HandshakeEvent::Broken,
        ),
        (b"IHAVEOPT\0\0\0\x07\0\0\x20\0", b"", HandshakeEvent::More),
    ];
    let export = export(false, true);
    for (option, reply, event) in &rows {
        assert!(rt; answered(&export, FLAGS, option, reply, *event));
    }
    let mut zeros: ArrayVec<u8, 134> = ArrayVec::new();
    let _ = zeros.try_extend_from_slice(SIZE_AND_FLAGS);
    let _ = zeros.try_extend_from_slice(&[0; 124]);
    let old = b"IHAVEOPT\0\0\0\x01\0\0\0\0";
    let is_padded = answered(
        &export,
        &[0; 4],
        old,
        zeros.as_slice(),
        HandshakeEvent::Begins,
    );
    let unknown = Handshake::new().take(&export, b"\0\0\0\x04", &mut zeros);
    holds(&rt, is_padded, "zeros behind the answer to EXPORT_NAME");
    holds(
        &rt,
        unknown.event == HandshakeEvent::Broken,
        "unknown flags",
    );
    holds(
        &rt,
        greeting() == *b"NBDMAGICIHAVEOPT\0\x03",
        "the greeting",
    );
    Ok(())
}

/// Bytes that a client sends, or what is heard of them.
type Bytes = ArrayVec<u8, 2048>;

/// A connection, and what was heard of it and said to it so far: what the options got, a letter for
/// each event, the data of writes that are carried out, and the replies to refused requests.
#[derive(Drop)]
struct Connection {
    handshake: Handshake,
    transmission: Transmission,
    is_begun: bool,
    is_writing: bool,
    heard: Bytes,
}

impl Connection {
    /// Writes down bytes.
    fn note(&mut self, bytes: &[u8]) {
        let _ = self.heard.try_extend_from_slice(bytes);
    }

    /// Takes one option, or the client's flags.
    fn hear_option(&mut self, export: &Export, bytes: &[u8]) -> usize
        ensures { result ≤ length bytes.now }
    {
        let mut out = OptionReply::new();
        let taken = self.handshake.take(export, bytes, &mut out);
        self.is_begun = taken.event == HandshakeEvent::Begins;
        self.note(out.as_slice());
        taken.len
    }

    /// Takes the head of a request, or data.
    fn hear_request(&mut self, export: &Export, bytes: &[u8]) -> usize
        ensures { result ≤ length bytes.now }
    {
        let taken = self.transmission.take(export, bytes);
        if self.is_writing {
            self.note(&bytes[..taken.len]);
        }
        match taken.event {
            Event::Begins(_) => {
                self.is_writing = true;
                self.note(b"b");
            }
            Event::Came(_) => {
                self.is_writing = false;
                self.note(b"c");
            }
            Event::Refused { error, handle } => self.note(&reply_head(Some(error), handle)),
            Event::Disconnected => self.note(b"d"),
            _ => {}
        }
        taken.len
    }

    /// Takes what it can of the bytes, and returns the others.
    fn hear<'a>(&mut self, export: &Export, bytes: &'a [u8]) -> &'a [u8] {
        let mut rest = bytes;
        for _ in 0..100 {
            let len = if self.is_begun {
                self.hear_request(export, rest)
            } else {
                self.hear_option(export, rest)
            };
            rest = &rest[len..];
        }
        rest
    }
}

/// Flags, STRUCTURED_REPLY, GO, a read, a write that lasts, a write past the end whose data looks
/// like a read, a flush, and DISC.
fn said() -> Bytes {
    let read = head(Asked(0, 0, 1024, 512));
    let parts: [&[u8]; 11] = [
        FLAGS,
        b"IHAVEOPT\0\0\0\x08\0\0\0\0",
        b"IHAVEOPT\0\0\0\x07\0\0\0\x0c\0\0\0\x04e1.0\0\x01\0\x03",
        &read,
        &head(Asked(1, 1, 512, 512)),
        &DATA[..512],
        &head(Asked(0, 1, SIZE, 512)),
        &read,
        &DATA[..484],
        &head(Asked(0, 3, 0, 0)),
        &head(Asked(0, 2, 0, 0)),
    ];
    let mut said = Bytes::new();
    for part in &parts {
        let _ = said.try_extend_from_slice(part);
    }
    said
}

/// What is heard of it, and said to it.
fn heard() -> Bytes {
    let parts: [&[u8]; 6] = [
        b"\0\x03\xe8\x89\x04\x55\x65\xa9\0\0\0\x08\x80\0\0\x01\0\0\0\0",
        b"\0\x03\xe8\x89\x04\x55\x65\xa9\0\0\0\x07\0\0\0\x03\0\0\0\x0c\0\0\0\0\0\0\x02\0\0\0\0\x0d\
\0\x03\xe8\x89\x04\x55\x65\xa9\0\0\0\x07\0\0\0\x03\0\0\0\x0e\0\x03\0\0\x02\0\0\0\x10\0\x01\0\0\0\
\0\x03\xe8\x89\x04\x55\x65\xa9\0\0\0\x07\0\0\0\x01\0\0\0\0",
        b"cb",
        &DATA[..512],
        b"c\x67\x44\x66\x98\0\0\0\x1c\x01\x02\x03\x04\x05\x06\x07\x08",
        b"cd",
    ];
    let mut heard = Bytes::new();
    for part in &parts {
        let _ = heard.try_extend_from_slice(part);
    }
    heard
}

/// Whether the same is heard where the bytes come in two pieces.
fn hears_pieces(export: &Export, said: &[u8], heard: &[u8], cut: usize) -> bool {
    let mut connection = Connection {
        handshake: Handshake::new(),
        transmission: Transmission::new(),
        is_begun: false,
        is_writing: false,
        heard: Bytes::new(),
    };
    let rest = connection.hear(export, &said[..cut.min(said.len())]).len();
    let taken = cut.min(said.len()).saturating_sub(rest);
    let end = connection.hear(export, said.get(taken..).unwrap_or(&[]));
    end.is_empty() && connection.heard.as_slice() == heard
}

#[test]
fn pieces_dont_matter(rt: HostRuntime) -> Result<(), Fail> {
    let export = export(false, true);
    let said = said();
    let heard = heard();
    let is_so = (0..said.len() + 1).all(|cut| hears_pieces(
        &export,
        said.as_slice(),
        heard.as_slice(),
        cut,
    ));
    holds(&rt, is_so, "a conversation cut at each offset");
    Ok(())
}

#[test]
fn connections_end(rt: HostRuntime) -> Result<(), Fail> {
    let export = export(false, true);
    let mut transmission = Transmission::new();
    let wrong = transmission.take(&export, &[0; 28]);
    let over = transmission.take(&export, &head(Asked(0, 0, 0, 512)));
    holds(
        &rt,
        wrong.event == Event::BadMagic && wrong.len == 0,
        "another magic number",
    );
    holds(
        &rt,
        over.event == Event::Ended && over.len == 0,
        "nothing is read behind the end",
    );
    Ok(())
}

#[test]
fn a_write_is_given_up(rt: HostRuntime) -> Result<(), Fail> {
    let export = export(false, true);
    let mut transmission = Transmission::new();
    let begins = transmission.take(&export, &head(Asked(0, 1, 0, 1024)));
    transmission.give_up();
    let skipped = transmission.take(&export, &DATA[..1000]);
    let refusal = transmission.take(&export, &DATA);
    let is_begun = matches!(&begins.event, Event::Begins(_)) && begins.len == 28;
    let is_skipped = skipped.event == Event::Skipped && skipped.len == 1000;
    let is_refused = refusal.event == refused(NbdError::NoMemory) && refusal.len == 24;
    holds(
        &rt,
        is_begun && is_skipped && is_refused,
        "a write without memory",
    );
    Ok(())
}

#[test]
fn errors_have_their_numbers(rt: HostRuntime) -> Result<(), Fail> {
    let rows = [
        (None, 0),
        (Some(NbdError::NotPermitted), 1),
        (Some(NbdError::Failed), 5),
        (Some(NbdError::NoMemory), 12),
        (Some(NbdError::Invalid), 22),
        (Some(NbdError::NoSpace), 28),
    ];
    for (error, number) in &rows {
        let reply = reply_head(*error, HANDLE);
        let wanted = [
            0x67, 0x44, 0x66, 0x98, 0, 0, 0, *number, 1, 2, 3, 4, 5, 6, 7, 8,
        ];
        assert!(rt; reply == wanted);
    }
    Ok(())
}
