//! A frame in fixed room, the header that all AoE frames begin with, and the padding behind it.
//!
//! A [`Frame`] holds the bytes from the destination address on. [`read_header`] returns the fields
//! of a [`Header`], and a [`HeaderView`] reads them where they are; [`turn_round`] makes that of a
//! reply of it, and [`write_header`] writes one. [`is_response`] tells the kind of any frame.
//! [`stretch`], [`overwrite`] and [`refill`] put bytes behind it, and [`pad`] comes last.
//!
//! No call takes memory. It knows neither what is behind a header (`aoe_ata`, `aoe_lists`) nor
//! who may send a frame, and has no check sequence.
//!
//! Promised: `read_header` and `HeaderView` say what `head` says of the bytes, and `None` exactly
//! where they are fewer than 24 or of another type. A header that `Fits` reads back, whatever
//! follows it (`header_reads_back`), and has one spelling where no reserved flag is set
//! (`header_spelling_is_one`). `turn_round` and `put_turned` make `reply_header`: the request's
//! command and tag, and its source as destination. `is_response` says of every frame which kind it
//! is. `pad` puts zeros up to 60 bytes, and `stretch`, `overwrite` and `refill` leave exactly the
//! defined bytes.
//!
//! Only tested: the bytes of whole frames, worked out by hand (tests/streams, by tests/check).
#![tactic(auto)]

mod frame;
mod header;

pub use frame::{Frame, MAX_FRAME, MIN_FRAME, overwrite, pad, refill, stretch};
pub use header::{
    AOE_TYPE, ERROR_FLAG, HEADER_LEN, Header, HeaderView, RESPONSE_FLAG, header_reads_back,
    header_spelling_is_one, is_response, put_turned, read_header, turn_round, write_header,
};
