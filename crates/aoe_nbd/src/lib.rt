//! NBD, the protocol of network block devices, on the server's side: what a client says, and what
//! is said to it. There is no socket and no device in it.
//!
//! The server says [`greeting`]. Then [`Handshake::take`] takes the client's flags and one option
//! after the other off the front of the bytes that came, and makes the answer to each, until
//! [`HandshakeEvent::Begins`]. Behind that [`Transmission::take`] takes requests and says what
//! came, an [`Event`]: a write's data leaves piece by piece, as the bytes that were taken, and
//! [`Transmission::give_up`] refuses a write for which there is no memory. [`reply_head`] and the
//! data of a read are a reply. [`Export`] is what is served. The caller keeps the bytes that
//! weren't taken, and hands them in again with those that came since.
//!
//! It has no structured replies, TLS, TRIM or WRITE_ZEROES, and counts no requests. No call takes
//! memory.
//!
//! Promised: `take` of both does what `Proceeds` and `Follows` say, whatever came before: what a
//! client said, and the answers to its options (`answer_of`), are functions of its bytes, however
//! they are cut (`one_handshake_says_one_thing`, `pieces_of_a_handshake_do_not_matter`,
//! `one_stream_says_one_thing`, `pieces_of_requests_do_not_matter`). A request is refused exactly
//! where `refusal` says or where it was given up, and that is told with the last of its data; what
//! isn't refused lies in the export (`what_is_carried_out`). Requests and replies have one spelling
//! (`request_reads_back`, `request_spelling_is_one`, `one_stream_has_one_list_of_replies`), and
//! the name in the data of INFO and GO reads back (`info_data_reads_back`).
//!
//! Only tested: each row of the tables, and a conversation cut at each offset (`aoe_program_tests`,
//! nbd). No clause says that no call takes memory.
#![tactic(auto)]

mod bytes;
mod error;
mod export;
mod handshake;
mod laws;
mod option;
mod reply;
mod request;
mod transmission;

pub use error::NbdError;
pub use export::{Export, ExportName, MAX_DATA};
pub use handshake::{Handshake, HandshakeEvent, HandshakeStage, HandshakeTaken, greeting};
pub use laws::{
    info_data_reads_back, one_handshake_says_one_thing, one_stream_has_one_list_of_replies,
    one_stream_says_one_thing, pieces_of_a_handshake_do_not_matter,
    pieces_of_requests_do_not_matter, request_reads_back, request_spelling_is_one,
    what_is_carried_out,
};
pub use option::{MAX_OPTION, OPTION_HEAD_LEN, OptionHead, OptionReply, read_option_head};
pub use reply::{REPLY_LEN, reply_head};
pub use request::{Action, HEAD_LEN, Request, RequestHead, read_head};
pub use transmission::{Event, Stage, Taken, Transmission};
