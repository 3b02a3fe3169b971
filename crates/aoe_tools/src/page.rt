//! The page of a device, in a response to the request for it.
ghost use Rattle.std.specs.Prelude.{◌≡◌, ◌<◌, ◌^◌, IfNone, IfSome, None, Some};
ghost use Rattle.aoe_ata.specs.Identify.{has_bit, word};
ghost use Rattle.aoe_initiator.specs.Response.{CanFill};
ghost use Rattle.aoe_tools.specs.Page.{flush_command, flush_in, page_in, total_in};

use aoe_ata::read_identify;
use aoe_initiator::{Answer, FlushCommand};

/// The registers stand before the page (AoEr11, "ATA Command").
const REGISTERS_LEN: usize = 12;

/// The word of the page that says which feature sets are there (ATA/ATAPI Command Set, "IDENTIFY
/// DEVICE data").
const SUPPORTED: usize = 83;

/// In this word: FLUSH CACHE EXT.
const HAS_FLUSH_EXT: u32 = 13;

/// The feature sets that are there.
fn supported(page: &[u8; 512]) -> u16
    ensures { result ≡ word page.now 83 }
{
    u16::from_le_bytes([page[2 * SUPPORTED], page[2 * SUPPORTED + 1]])
}

fn bit_is_set(word: u16, bit: u32) -> bool
    requires { bit < 16 }
    ensures { result ≡ has_bit word bit }
{
    word >> bit & 1 == 1
}

/// The command by which a device with this page is flushed: FLUSH CACHE EXT where word 83 is valid
/// and says that this is supported, else FLUSH CACHE.
pub fn flush_command(page: &[u8; 512]) -> FlushCommand
    ensures { result ≡ flush_command page.now }
{
    let word = supported(page);
    if !bit_is_set(word, 15) && bit_is_set(word, 14) && bit_is_set(word, HAS_FLUSH_EXT) {
        FlushCommand::CacheExt
    } else {
        FlushCommand::Cache
    }
}

/// The page that a response has.
fn page_in(answer: Answer, args: &[u8]) -> Option<&[u8; 512]>
    requires { CanFill answer args.now 512 }
    ensures page { IfSome result (λ page. page_in answer args.now ≡ Some page.now) }
    ensures none { IfNone result (page_in answer args.now ≡ None) }
{
    match answer {
        Answer::Data { .. } => match args[REGISTERS_LEN..].first_chunk::<512>() {
            Some(page) => Some(page),
            None => None,
        },
        Answer::Told { .. }
        | Answer::Written
        | Answer::Flushed
        | Answer::AtaError { .. }
        | Answer::AoeError(_) => None,
    }
}

/// How many sectors the page of a response declares.
pub(crate) fn total_in(answer: Answer, args: &[u8]) -> Option<u64>
    requires { CanFill answer args.now 512 }
    ensures value { result ≡ total_in answer args.now }
    ensures bound { IfSome result (λ total. total < 2 ^ 48) }
{
    match page_in(answer, args) {
        Some(page) => read_identify(page),
        None => None,
    }
}

/// The command by which the device of a response is flushed: FLUSH CACHE where there is no page.
pub(crate) fn flush_in(answer: Answer, args: &[u8]) -> FlushCommand
    requires { CanFill answer args.now 512 }
    ensures { result ≡ flush_in answer args.now }
{
    match page_in(answer, args) {
        Some(page) => flush_command(page),
        None => FlushCommand::Cache,
    }
}
