//! What a tool asks for, and which frames answer it.
ghost use Rattle.std.specs.Prelude.{◌≡◌, ◌≤◌, IfSome};
ghost use Rattle.aoe_initiator.specs.Op.{command_of};
ghost use Rattle.aoe_initiator.specs.Response.{told, CanFill};
ghost use Rattle.aoe_tools.specs.Asking.{answer_to, counted, is_meant, is_response, list_answer, op_of, reply_by, tag_of, CanRead};

use aoe_base::{Mac, TargetId};
use aoe_frame::{ERROR_FLAG, HEADER_LEN, Header, RESPONSE_FLAG, read_header};
use aoe_initiator::{Answer, Op, config_args_len, mask_args_len, read_answer, reserve_args_len};

/// Who asks, and how long it listens.
#[derive(Clone, Copy, PartialEq, Eq)]
pub struct Ask {
    /// The address that the requests come from, and that responses go to.
    pub port: Mac,

    /// How many turns a request waits: one for each turn of the link without a frame, and one for each
    /// 64 with one.
    pub turns: u32,
}

impl Ask {
    /// The question of a tool's request number `i`, from 0, by the clock's first answer.
    pub(crate) fn question(
        &self,
        subject: Subject,
        id: Option<TargetId>,
        first: u64,
        i: u64,
    ) -> Question
        ensures { result ≡ record { subject = subject; id = id; port = self.now.port; tag = tag_of first i } }
    {
        Question {
            subject,
            id,
            port: self.port,
            tag: tag_of(first, i),
        }
    }
}

/// What a request asks for.
#[derive(Clone, Copy)]
pub(crate) enum Subject {
    /// The config string.
    Config,

    /// The mask list.
    Masks,

    /// The reserve list.
    Reserve,

    /// The identify page.
    Page,
}

impl Subject {
    /// The command of the frame's header (AoEr11, "Command").
    pub(crate) fn command(self) -> u8
        ensures { result ≡ command_of (op_of self) }
    {
        match self {
            Subject::Page => 0,
            Subject::Config => 1,
            Subject::Masks => 2,
            Subject::Reserve => 3,
        }
    }
}

/// What was asked, as far as a response must agree with it.
#[derive(Clone, Copy)]
pub(crate) struct Question {
    pub(crate) subject: Subject,

    /// The device, where one was asked.
    pub(crate) id: Option<TargetId>,

    pub(crate) port: Mac,
    pub(crate) tag: u32,
}

/// A response that counts.
#[derive(Clone, Copy)]
pub(crate) struct Reply {
    pub(crate) id: TargetId,
    pub(crate) source: Mac,
    pub(crate) answer: Answer,
}

/// The tag of a tool's request number `i`, from 0, by the clock's first answer. An initiator's tags
/// begin at 1, so that those of a copy never come near.
fn tag_of(first: u64, i: u64) -> u32
    ensures { result ≡ tag_of first i }
{
    let low = (u128::from(first) + u128::from(i)) % 0x8000_0000;
    0x8000_0000 + low as u32
}

/// The arguments, where they are all there.
fn told(len: Option<usize>, args: &[u8]) -> Option<Answer>
    requires { IfSome len (λ n. n ≤ 2048) }
    ensures value { result ≡ told len args.now }
    ensures here { IfSome result (λ answer. CanFill answer args.now 512) }
{
    let len = len?;
    if len > args.len() {
        return None;
    }
    Some(Answer::Told { len })
}

/// What a response with arguments of this length says.
fn list_answer(header: &Header, len: Option<usize>, args: &[u8]) -> Option<Answer>
    requires { IfSome len (λ n. n ≤ 2048) }
    ensures value { result ≡ list_answer header.now len args.now }
    ensures here { IfSome result (λ answer. CanFill answer args.now 512) }
{
    if header.flags & ERROR_FLAG != 0 {
        return Some(Answer::AoeError(header.error));
    }
    told(len, args)
}

impl Question {
    /// What a response says, by its header and the bytes behind it; `None` where it isn't well formed.
    #[tactic(auto, unfolding(aoe_initiator::specs::Response::answer))]
    fn answer(&self, header: &Header, args: &[u8]) -> Option<Answer>
        ensures value { result ≡ answer_to self.now.subject header.now args.now }
        ensures here { IfSome result (λ answer. CanFill answer args.now 512) }
    {
        match self.subject {
            Subject::Page => read_answer(&Op::Identify, header, args),
            Subject::Config => list_answer(header, config_args_len(args), args),
            Subject::Masks => list_answer(header, mask_args_len(args), args),
            Subject::Reserve => list_answer(header, reserve_args_len(args), args),
        }
    }

    /// Whether the device is one that was asked.
    fn is_meant(&self, id: TargetId) -> bool
        ensures { result ≡ is_meant self.now.id id }
    {
        match self.id {
            None => true,
            Some(asked) => id == asked,
        }
    }

    /// Whether a header is that of a version 1 response to this question.
    fn is_response(&self, header: &Header) -> bool
        ensures { result ≡ is_response self.now header.now }
    {
        header.version == 1
            && header.flags & RESPONSE_FLAG != 0
            && header.dst == self.port
            && header.tag == self.tag
            && header.command == self.subject.command()
            && self.is_meant(header.id)
    }

    /// The response with this header and these bytes behind it, where it is well formed.
    fn reply_by(&self, header: &Header, args: &[u8]) -> Option<Reply>
        ensures value { result ≡ reply_by self.now header.now args.now }
        ensures here { IfSome result (λ r. CanFill r.answer args.now 512) }
    {
        match self.answer(header, args) {
            Some(answer) => Some(Reply {
                id: header.id,
                source: header.src,
                answer,
            }),
            None => None,
        }
    }

    /// The response that a frame is, where it counts.
    #[tactic(auto, unfolding(crate::specs::Asking::counted))]
    pub(crate) fn reply(&self, frame: &[u8]) -> Option<Reply>
        ensures value { result ≡ counted self.now frame.now }
        ensures here { IfSome result (λ r. CanRead r.answer frame.now) }
    {
        let header = read_header(frame)?;
        if self.is_response(&header) {
            self.reply_by(&header, &frame[HEADER_LEN..])
        } else {
            None
        }
    }
}
