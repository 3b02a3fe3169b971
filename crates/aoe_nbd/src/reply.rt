//! Replies of the transmission phase.
ghost use Rattle.std.specs.Prelude.{◌≡◌};
ghost use Rattle.aoe_nbd.specs.Errors.{error_number};
ghost use Rattle.aoe_nbd.specs.Replies.{reply_head};

use crate::NbdError;

/// How many bytes a reply has in front of the data of a read.
pub const REPLY_LEN: usize = 16;

/// The bytes of a reply, behind which the data of a read stands that wasn't refused.
pub fn reply_head(error: Option<NbdError>, handle: u64) -> [u8; REPLY_LEN]
    ensures { result ≡ reply_head (error_number error) handle }
{
    let number = match error {
        Some(error) => error.number(),
        None => 0,
    };
    let [a, b, c, d] = number.to_be_bytes();
    let [e, f, g, h, i, j, k, l] = handle.to_be_bytes();
    [0x67, 0x44, 0x66, 0x98, a, b, c, d, e, f, g, h, i, j, k, l]
}
