//! The handshake: what a client says up to the transmission, whichever way its bytes are cut.
ghost use Rattle.std.specs.Prelude.{◌≡◌};
ghost use Rattle.aoe_nbd.specs.Handshakes.{stage_behind};
ghost use Rattle.aoe_nbd.specs.Options.{greeting};

use crate::Export;
use crate::bytes::array_at;
use crate::option::{MAX_OPTION, OPTION_HEAD_LEN, OptionReply, answer, read_option_head};
use std::marker::Model;

/// How many bytes the client's flags have.
const FLAGS_LEN: usize = 4;

/// The client's flag that wants no zeros behind the answer to EXPORT_NAME, and its greatest flags.
const NO_ZEROES: u32 = 2;

const ALL_FLAGS: u32 = 3;

/// Where a connection stands.
#[derive(Clone, Copy)]
pub enum HandshakeStage {
    /// The client's flags come next.
    Flags,

    /// An option comes next.
    Options { no_zeroes: bool },

    /// Nothing more is read: the transmission begins, or the connection ends.
    Over,
}

/// What the bytes that were taken said.
#[derive(Clone, Copy, PartialEq, Eq)]
pub enum HandshakeEvent {
    /// Nothing: none were taken, and more are needed.
    More,

    /// The client's flags.
    Flags,

    /// An option that has its answer, and others may follow.
    Answered,

    /// An option behind whose answer the transmission begins.
    Begins,

    /// The client leaves. It needn't read the answer.
    Leaves,

    /// EXPORT_NAME with another name, which has no answer: the connection ends.
    Unknown,

    /// Flags that aren't known, no option, or one that is too long: the connection ends. None were
    /// taken.
    Broken,

    /// Nothing: the end was told before.
    Ended,
}

/// How many bytes were taken off the front, and what they said.
#[derive(Clone, Copy, PartialEq, Eq)]
pub struct HandshakeTaken {
    pub len: usize,
    pub event: HandshakeEvent,
}

/// A connection in its handshake. Contracts see where it stands.
#[derive(Drop)]
pub struct Handshake {
    stage: HandshakeStage,
}

impl Model for Handshake {
    ghost use Rattle.aoe_nbd.specs.declared.handshake.HandshakeStage.{HandshakeStage};

    ghost Value = { HandshakeStage };

    ghost view = { λ h. h.stage };
}

/// What the server says first.
pub fn greeting() -> [u8; 18]
    ensures { result ≡ greeting }
{
    *b"NBDMAGICIHAVEOPT\0\x03"
}

/// Where a connection stands behind an option.
fn stage_behind(event: HandshakeEvent, no_zeroes: bool) -> HandshakeStage
    ensures { result ≡ stage_behind event no_zeroes }
{
    match event {
        HandshakeEvent::Answered => HandshakeStage::Options { no_zeroes },
        _ => HandshakeStage::Over,
    }
}

impl Handshake {
    ghost use Rattle.std.specs.Prelude.{◌≡◌, ◌≤◌, [], length};
    ghost use Rattle.aoe_nbd.specs.declared.export.Export.{Export};
    ghost use Rattle.aoe_nbd.specs.Handshakes.{LeadsTo, Proceeds, Talk, greeted};

    /// A connection to which the greeting was said, and nothing else.
    pub fn new() -> Handshake
        ensures stage { result ≡ HandshakeStage.Flags }
        ensures leads { (e : Export) → LeadsTo e greeted result }
    {
        Handshake {
            stage: HandshakeStage::Flags,
        }
    }

    /// Takes what stands at the front of the bytes that came and weren't taken yet: the client's
    /// flags, or an option; and makes `out` what is said to it.
    pub fn take(&mut self, export: &Export, bytes: &[u8], out: &mut OptionReply) -> HandshakeTaken
        ensures len { result.len ≤ length bytes.now }
        ensures proceeds { (talk : Talk) → LeadsTo export.now talk self.old
            → Proceeds export.now talk self.old bytes.now result.len result.event out.new.items
            self.new }
    {
        out.clear();
        match self.stage {
            HandshakeStage::Flags => self.take_flags(bytes),
            HandshakeStage::Options { no_zeroes } => {
                self.take_option(export, no_zeroes, bytes, out)
            }
            HandshakeStage::Over => HandshakeTaken {
                len: 0,
                event: HandshakeEvent::Ended,
            },
        }
    }

    /// The same where the client's flags come next.
    fn take_flags(&mut self, bytes: &[u8]) -> HandshakeTaken
        requires { self.old ≡ HandshakeStage.Flags }
        ensures len { result.len ≤ length bytes.now }
        ensures proceeds { (e : Export) (talk : Talk) → LeadsTo e talk self.old
            → Proceeds e talk self.old bytes.now result.len result.event [] self.new }
    {
        if bytes.len() < FLAGS_LEN {
            return HandshakeTaken {
                len: 0,
                event: HandshakeEvent::More,
            };
        }
        let flags = u32::from_be_bytes(array_at::<4>(bytes, 0));
        if flags > ALL_FLAGS {
            return self.end();
        }
        self.stage = HandshakeStage::Options {
            no_zeroes: flags >= NO_ZEROES,
        };
        HandshakeTaken {
            len: FLAGS_LEN,
            event: HandshakeEvent::Flags,
        }
    }

    /// The same where an option comes next, and `out` is empty.
    fn take_option(
        &mut self,
        export: &Export,
        no_zeroes: bool,
        bytes: &[u8],
        out: &mut OptionReply,
    ) -> HandshakeTaken
        requires stage { self.old ≡ HandshakeStage.Options no_zeroes }
        requires out { out.old.items ≡ [] }
        ensures len { result.len ≤ length bytes.now }
        ensures proceeds { (talk : Talk) → LeadsTo export.now talk self.old
            → Proceeds export.now talk self.old bytes.now result.len result.event out.new.items
            self.new }
    {
        if bytes.len() < OPTION_HEAD_LEN {
            return HandshakeTaken {
                len: 0,
                event: HandshakeEvent::More,
            };
        }
        let Some(head) = read_option_head(bytes) else {
            return self.end();
        };
        if head.len > MAX_OPTION {
            return self.end();
        }
        let len = OPTION_HEAD_LEN + head.len as usize;
        if bytes.len() < len {
            return HandshakeTaken {
                len: 0,
                event: HandshakeEvent::More,
            };
        }
        let event = answer(
            export,
            no_zeroes,
            head.code,
            &bytes[OPTION_HEAD_LEN..len],
            out,
        );
        self.stage = stage_behind(event, no_zeroes);
        HandshakeTaken { len, event }
    }

    /// Ends the connection, for bytes that aren't taken.
    fn end(&mut self) -> HandshakeTaken
        ensures heard { result ≡ record { len = 0; event = HandshakeEvent.Broken } }
        ensures stage { self.new ≡ HandshakeStage.Over }
    {
        self.stage = HandshakeStage::Over;
        HandshakeTaken {
            len: 0,
            event: HandshakeEvent::Broken,
        }
    }
}
