//! The transmission phase: what a client says once the handshake is over, whichever way its bytes
//! are cut.
ghost use Rattle.std.specs.Prelude.{◌≡◌};
ghost use Rattle.aoe_nbd.specs.Steps.{data_event, head_event, stage_of, whole_event};

use crate::request::{DISC, HEAD_LEN};
use crate::{Export, NbdError, Request, RequestHead, read_head};
use std::marker::Model;

/// Where a connection stands.
#[derive(Clone, Copy)]
pub enum Stage {
    /// A request comes next.
    Head,

    /// Of the data of a request so many bytes are missing. It is refused by the error.
    Data {
        head: RequestHead,
        refused: Option<NbdError>,
        missing: u32,
    },

    /// Nothing more is read.
    Ended,
}

/// What the bytes that were taken said.
#[derive(Clone, Copy, PartialEq, Eq)]
pub enum Event {
    /// Nothing: none were taken, and more are needed.
    More,

    /// The head of a write, whose data follows.
    Begins(Request),

    /// They are data of that write, and not the last.
    Data,

    /// They are of a write that is refused, and not the last.
    Skipped,

    /// The last of a request. Of a write they are the last of its data.
    Came(Request),

    /// The last of a request that is refused. Now it is answered.
    Refused { error: NbdError, handle: u64 },

    /// The client leaves: what came before is still carried out and answered.
    Disconnected,

    /// Nobody knows where the next request begins: the connection ends. None were taken.
    BadMagic,

    /// Nothing: the end was told before.
    Ended,
}

/// How many bytes were taken off the front, and what they said.
#[derive(Clone, Copy, PartialEq, Eq)]
pub struct Taken {
    pub len: usize,
    pub event: Event,
}

/// A connection in its transmission phase. Contracts see where it stands.
#[derive(Drop)]
pub struct Transmission {
    stage: Stage,
}

impl Model for Transmission {
    ghost use Rattle.aoe_nbd.specs.declared.transmission.Stage.{Stage};

    ghost Value = { Stage };

    ghost view = { λ t. t.stage };
}

/// Where a connection stands when so many bytes of a request's data are missing.
fn stage_of(head: RequestHead, refused: Option<NbdError>, missing: u32) -> Stage
    ensures { result ≡ stage_of head refused missing }
{
    if missing == 0 {
        Stage::Head
    } else {
        Stage::Data {
            head,
            refused,
            missing,
        }
    }
}

/// The event at the last byte of a request.
fn whole_event(head: &RequestHead, refused: Option<NbdError>) -> Event
    ensures { result ≡ whole_event head.now refused }
{
    match refused {
        None => Event::Came(head.request()),
        Some(error) => Event::Refused {
            error,
            handle: head.handle,
        },
    }
}

/// The event at the head of a request.
fn head_event(head: &RequestHead, refused: Option<NbdError>, missing: u32) -> Event
    ensures { result ≡ head_event head.now refused missing }
{
    if missing == 0 {
        return whole_event(head, refused);
    }
    match refused {
        None => Event::Begins(head.request()),
        Some(_) => Event::Skipped,
    }
}

/// The event at a piece of a request's data, behind which so many bytes are missing.
fn data_event(head: &RequestHead, refused: Option<NbdError>, missing: u32) -> Event
    ensures { result ≡ data_event head.now refused missing }
{
    if missing == 0 {
        return whole_event(head, refused);
    }
    match refused {
        None => Event::Data,
        Some(_) => Event::Skipped,
    }
}

impl Transmission {
    ghost use Rattle.std.specs.Prelude.{◌≡◌, ◌≤◌, length};
    ghost use Rattle.aoe_nbd.specs.declared.export.Export.{Export};
    ghost use Rattle.aoe_nbd.specs.declared.request.RequestHead.{RequestHead};
    ghost use Rattle.aoe_nbd.specs.declared.error.NbdError.{NbdError};
    ghost use Rattle.aoe_nbd.specs.Steps.{given_up};
    ghost use Rattle.aoe_nbd.specs.Streams.{Follows, Past, StandsAt, nothing_past};

    /// A connection whose handshake is over.
    pub fn new() -> Transmission
        ensures stage { result ≡ Stage.Head }
        ensures stands { (e : Export) → StandsAt e nothing_past result }
    {
        Transmission { stage: Stage::Head }
    }

    /// Takes what stands at the front of the bytes that came and weren't taken yet: a request's
    /// head, or data.
    pub fn take(&mut self, export: &Export, bytes: &[u8]) -> Taken
        ensures len { result.len ≤ length bytes.now }
        ensures follows { (past : Past) → StandsAt export.now past self.old
            → Follows export.now past self.old bytes.now result.len result.event self.new }
    {
        match self.stage {
            Stage::Head => self.take_head(export, bytes),
            Stage::Data {
                head,
                refused,
                missing,
            } => self.take_data(head, refused, missing, bytes),
            Stage::Ended => Taken {
                len: 0,
                event: Event::Ended,
            },
        }
    }

    /// The same where a request comes next.
    fn take_head(&mut self, export: &Export, bytes: &[u8]) -> Taken
        requires { self.old ≡ Stage.Head }
        ensures len { result.len ≤ length bytes.now }
        ensures follows { (past : Past) → StandsAt export.now past self.old
            → Follows export.now past self.old bytes.now result.len result.event self.new }
    {
        if bytes.len() < HEAD_LEN {
            return Taken {
                len: 0,
                event: Event::More,
            };
        }
        let Some(head) = read_head(bytes) else {
            self.stage = Stage::Ended;
            return Taken {
                len: 0,
                event: Event::BadMagic,
            };
        };
        if head.kind == DISC {
            self.stage = Stage::Ended;
            return Taken {
                len: HEAD_LEN,
                event: Event::Disconnected,
            };
        }
        let refused = export.refusal(&head);
        let missing = head.data_len();
        self.stage = stage_of(head, refused, missing);
        Taken {
            len: HEAD_LEN,
            event: head_event(&head, refused, missing),
        }
    }

    /// The same where data comes next.
    fn take_data(
        &mut self,
        head: RequestHead,
        refused: Option<NbdError>,
        missing: u32,
        bytes: &[u8],
    ) -> Taken
        requires { self.old ≡ Stage.Data head refused missing }
        ensures len { result.len ≤ length bytes.now }
        ensures follows { (e : Export) (past : Past) → StandsAt e past self.old
            → Follows e past self.old bytes.now result.len result.event self.new }
    {
        if bytes.is_empty() {
            return Taken {
                len: 0,
                event: Event::More,
            };
        }
        let len = bytes.len().min(missing as usize);
        let left = missing - len as u32;
        self.stage = stage_of(head, refused, left);
        Taken {
            len,
            event: data_event(&head, refused, left),
        }
    }

    /// Gives up the write whose data comes, for which there is no memory: its data is skipped, and
    /// then it is refused. Where no write is carried out nothing changes.
    pub fn give_up(&mut self)
        ensures stage { self.new ≡ given_up self.old }
        ensures stands { (e : Export) (past : Past) → StandsAt e past self.old
            → StandsAt e past self.new }
    {
        if let Stage::Data {
            head,
            refused: None,
            missing,
        } = self.stage
        {
            self.stage = Stage::Data {
                head,
                refused: Some(NbdError::NoMemory),
                missing,
            };
        }
    }
}
