//! The identify page (ATA/ATAPI Command Set, "IDENTIFY DEVICE data").
ghost use Rattle.std.specs.Prelude.{List, ℕ, ◌≡◌, ◌+◌, ◌*◌, ◌%◌, ◌^◌, ◌<◌, ◌≤◌, IfSome, Some, length};
ghost use Rattle.aoe_ata.specs.Identify.{word, word_bytes, text_words, has_bit, declared, laid, page};

/// How many bytes the page has: 256 words of two.
const PAGE_LEN: usize = 512;

/// The word of the serial number, 20 bytes of text.
const SERIAL: usize = 10;

/// The word of the firmware's name, 8 bytes of text.
const FIRMWARE: usize = 23;

/// The word of the model's name, 40 bytes of text.
const MODEL: usize = 27;

/// The word of the capabilities.
const CAPABILITIES: usize = 49;

/// The first word of the number of sectors that a 28-bit address reaches, the low word first.
const SECTORS_28: usize = 60;

/// The word of the feature sets that are there.
const SUPPORTED: usize = 83;

/// The word of the feature sets that are switched on.
const ENABLED: usize = 86;

/// The first word of the number of sectors, the low word first.
const SECTORS_48: usize = 100;

/// In the capabilities: sectors have addresses.
const HAS_ADDRESSES: u32 = 9;

/// In the feature sets: addresses of 48 bits.
const HAS_48_BITS: u32 = 10;

/// The greatest number of sectors that a 28-bit address reaches.
const MOST_28: u64 = 0x0fff_ffff;

/// Sectors have addresses (bit 9).
const CAPABILITIES_WORD: u16 = 0x0200;

/// The word is valid (bit 14); FLUSH CACHE, FLUSH CACHE EXT and addresses of 48 bits are there
/// (bits 12, 13 and 10).
const SUPPORTED_WORD: u16 = 0x7400;

/// The same feature sets are switched on.
const ENABLED_WORD: u16 = 0x3400;

/// Lays bytes over the page from a word on.
fn put(page: &mut [u8; PAGE_LEN], word: usize, bytes: &[u8])
    requires { 2 * word + length bytes.now ≤ 512 }
    ensures { page.new ≡ laid page.old (2 * word) bytes.now }
{
    page[2 * word..2 * word + bytes.len()].copy_from_slice(bytes);
}

/// Lays a text over the page from a word on. In each word the first byte of the text is the high
/// one.
fn put_text(page: &mut [u8; PAGE_LEN], word: usize, text: &[u8])
    requires room { 2 * word + length text.now ≤ 512 }
    requires even { length text.now % 2 ≡ 0 }
    ensures { page.new ≡ laid page.old (2 * word) (word_bytes (text_words text.now)) }
{
    'pairs: for pair in 0..text.len() / 2 {
        put(page, word + pair, &[text[2 * pair + 1], text[2 * pair]]);
    }
}

/// Makes `out` the page of a device of `total` sectors. The serial number is a text, filled with
/// spaces.
pub fn identify_page(total: u64, serial: &[u8; 20], out: &mut [u8; 512])
    requires { total ≤ 2 ^ 40 }
    ensures page { out.new ≡ page total serial.now }
    ensures declares { declared out.new ≡ Some total }
{
    *out = [0; PAGE_LEN];
    put_text(out, SERIAL, serial);
    put_text(out, FIRMWARE, b"AOE1    ");
    put_text(out, MODEL, b"AoE shelf                               ");
    put(out, CAPABILITIES, &CAPABILITIES_WORD.to_le_bytes());
    put(out, SECTORS_28, &(total.min(MOST_28) as u32).to_le_bytes());
    put(out, SUPPORTED, &SUPPORTED_WORD.to_le_bytes());
    put(out, ENABLED, &ENABLED_WORD.to_le_bytes());
    put(out, SECTORS_48, &total.to_le_bytes());
}

/// A word of the page.
fn word_at(page: &[u8; PAGE_LEN], n: usize) -> u16
    requires { n < 256 }
    ensures { result ≡ word page.now n }
{
    u16::from_le_bytes([page[2 * n], page[2 * n + 1]])
}

fn bit_is_set(word: u16, bit: u32) -> bool
    requires { bit < 16 }
    ensures { result ≡ has_bit word bit }
{
    word >> bit & 1 == 1
}

/// The number of sectors that a page declares: of the words 100 to 102 where word 83 is valid and
/// says that addresses have 48 bits, else of the words 60 and 61 where word 49 says that there are
/// addresses, else `None`.
#[tactic(auto, unfolding(crate::specs::Identify::declared))]
pub fn read_identify(page: &[u8; 512]) -> Option<u64>
    ensures declared { result ≡ declared page.now }
    ensures bound { IfSome result (λ total. total < 2 ^ 48) }
{
    let supported = word_at(page, SUPPORTED);
    if !bit_is_set(supported, 15)
        && bit_is_set(supported, 14)
        && bit_is_set(supported, HAS_48_BITS)
    {
        let low = u64::from(word_at(page, SECTORS_48));
        let middle = u64::from(word_at(page, SECTORS_48 + 1));
        let high = u64::from(word_at(page, SECTORS_48 + 2));
        return Some(low + middle * 0x1_0000 + high * 0x1_0000_0000);
    }
    if bit_is_set(word_at(page, CAPABILITIES), HAS_ADDRESSES) {
        let low = u64::from(word_at(page, SECTORS_28));
        let high = u64::from(word_at(page, SECTORS_28 + 1));
        return Some(low + high * 0x1_0000);
    }
    None
}

/// A law: the page of a number of sectors declares it.
pub fn page_reads_back()
    ensures { (total : ℕ) (serial : List ℕ) → total ≤ 2 ^ 40 → length serial ≡ 20
        → declared (page total serial) ≡ Some total }
{}
