//! How lists are spelled in a slot's body.
//!
//! | Byte | Size | Field |
//! |---|---|---|
//! | 0 | 4 | `AoEK` |
//! | 4 | 1 | number of the format |
//! | 5 | 1 | turn, 0 to 2 |
//! | 6 | 2 | length of the config string, at most 1024, the high byte first |
//! | 8 | 1 | number of masks, at most 64 in format 1 and 180 in format 2 |
//! | 9 | 1 | number of reserves, as many at most |
//! | 10 | 1 | in format 2: 1 read-only, 0 not. In format 1 this byte is the first of what follows |
//! | 11 | | config string, then masks, then reserves, six bytes to an address |
//! | | | zeros to byte 3584 |
ghost use Rattle.std.specs.Prelude.{◌≡◌, ◌≤◌, ◌<◌, ◌+◌, ◌-◌, ◌*◌, ◌++◌, ◌==◌, ◌↔◌, ℕ, List, [], IfSome, None, Some, true, false, drop, length, replicate, MatchOption};
ghost use Rattle.std.specs.List.{All, flat_map, list_all};
ghost use Rattle.std.specs.Simd.{first_chunks};
ghost use Rattle.aoe_base.specs.Addresses.{all_unique, holds};
ghost use Rattle.aoe_lists.specs.Reserves.{addresses};
ghost use Rattle.aoe_lists.specs.Settings.{Settings, max_addresses, max_config};
ghost use Rattle.aoe_keep.specs.declared.body.Format.{Format};
ghost use Rattle.aoe_keep.specs.declared.body.Written.{Written};
ghost use Rattle.aoe_keep.specs.Body.{decode, decode_by, format_2, format_named, spelling, head_len, head_of, fields_of, is_valid, mark_in, sizes_fit, Fits, HasFault, IsFormat};

use aoe_base::Mac;
use aoe_lists::{AddressList, Lists, MAX_ADDRESSES, MAX_CONFIG};
use arrayvec::ArrayVec;

/// How many bytes a body has: seven sectors.
pub(crate) const BODY: usize = 3584;

/// A body's bytes.
pub(crate) type Body = ArrayVec<u8, BODY>;

/// What every body begins with.
pub(crate) const MARK: [u8; 4] = [b'A', b'o', b'E', b'K'];

/// The last turn.
const LAST_TURN: u8 = 2;

/// A format of bodies.
#[derive(Clone, Copy)]
pub(crate) struct Format {
    /// Its number.
    number: u8,

    /// The most addresses that a list has.
    most: usize,

    /// Whether a byte says that the device is read-only.
    has_mark: bool,
}

/// The number of the format that is written.
pub(crate) const WRITTEN: u8 = 2;

/// The format of keeps that were written before lists had a mark.
const FORMAT_1: Format = Format {
    number: 1,
    most: 64,
    has_mark: false,
};

/// The format that is written.
const FORMAT_2: Format = Format {
    number: WRITTEN,
    most: MAX_ADDRESSES,
    has_mark: true,
};

/// What a body spells.
#[derive(Drop)]
pub(crate) struct Written {
    pub(crate) format: u8,
    pub(crate) turn: u8,
    pub(crate) lists: Lists,
}

/// Appends bytes, for which there is room.
fn append(body: &mut Body, bytes: &[u8])
    requires { length body.old.items + length bytes.now ≤ 3584 }
    ensures { body.new.items ≡ body.old.items ++ bytes.now }
{
    let _ = body.try_extend_from_slice(bytes);
}

/// Appends addresses, for which there is room.
fn append_addresses(body: &mut Body, list: &[Mac])
    requires { length body.old.items + 6 * length list.now ≤ 3584 }
    ensures items { body.new.items ≡ body.old.items ++ flat_map (λ a. a.0) list.now }
    ensures len { length body.new.items ≡ length body.old.items + 6 * length list.now }
    ensures six { All (λ a. length a.0 ≡ 6) list.now }
{
    for address in list {
        append(body, &address.0);
    }
}

/// Appends the bytes before the fields.
fn append_head(body: &mut Body, turn: u8, lists: &Lists)
    requires { body.old.items ≡ [] }
    ensures items { body.new.items ≡ head_of format_2 turn lists.now }
    ensures config { length lists.now.config ≤ max_config }
    ensures masks { length lists.now.masks ≤ max_addresses }
    ensures reserves { length lists.now.reserves ≤ max_addresses }
{
    append(body, &MARK);
    append(body, &[WRITTEN, turn]);
    append(body, &(lists.config.len() as u16).to_be_bytes());
    let mark = if lists.read_only { 1 } else { 0 };
    append(
        body,
        &[lists.masks.len() as u8, lists.reserves.len() as u8, mark],
    );
}

/// Appends zeros to the end.
fn append_zeros(body: &mut Body)
    ensures items { body.new.items ≡ body.old.items ++ replicate (3584 - length body.old.items) 0 }
    ensures len { length body.new.items ≡ 3584 }
{
    'zeros: while body.len() < BODY {
        body.push(0);
    }
}

/// The body that spells these lists with a turn.
pub(crate) fn spell(turn: u8, lists: &Lists) -> Body
    requires { turn < 3 }
    ensures items { result.items ≡ spelling format_2 turn lists.now }
    ensures len { length result.items ≡ 3584 }
    ensures read { decode result.items
        ≡ Some (record { format = 2; turn = turn; lists = lists.now }) }
{
    let mut body = Body::new();
    append_head(&mut body, turn, lists);
    append(&mut body, lists.config.as_slice());
    append_addresses(&mut body, lists.masks.as_slice());
    append_addresses(&mut body, lists.reserves.as_slice());
    append_zeros(&mut body);
    body
}

/// The first `count` pieces of six bytes.
fn sixes(bytes: &[u8], count: usize) -> &[[u8; 6]]
    requires { 6 * count ≤ length bytes.now }
    ensures value { result.now ≡ first_chunks 6 count bytes.now }
    ensures len { length result.now ≡ count }
{
    &bytes.as_chunks::<6>().0[..count]
}

/// Whether an address stands in a list.
fn is_there(list: &AddressList, address: &Mac) -> bool
    ensures { result ≡ holds list.now.items address.now }
{
    list.contains(address)
}

/// The first `count` addresses, if none of them stands twice.
fn read_addresses(bytes: &[u8], count: usize) -> Option<AddressList>
    requires room { 6 * count ≤ length bytes.now }
    requires count { count ≤ max_addresses }
    ensures { MatchOption result (all_unique (addresses (first_chunks 6 count bytes.now)) ≡ false)
        (λ list. (list.items ≡ addresses (first_chunks 6 count bytes.now)) × (all_unique list.items ≡ true)) }
{
    let mut list = AddressList::new();
    for six in sixes(bytes, count) {
        let address = Mac(*six);
        if is_there(&list, &address) {
            return None;
        }
        list.push(address);
    }
    Some(list)
}

/// Whether the numbers before the fields have values of the format.
fn are_sizes(
    format: Format,
    turn: u8,
    config: usize,
    masks: usize,
    reserves: usize,
    mark: u8,
) -> bool
    ensures value { result ≡ sizes_fit format turn config masks reserves mark }
    ensures config { result ≡ true → config ≤ max_config }
    ensures masks { result ≡ true → masks ≤ format.most }
    ensures reserves { result ≡ true → reserves ≤ format.most }
{
    turn <= LAST_TURN
        && config <= MAX_CONFIG
        && masks <= format.most
        && reserves <= format.most
        && mark <= 1
}

/// Whether all bytes are zero.
pub(crate) fn are_zeros(bytes: &[u8]) -> bool
    ensures { result ≡ list_all (λ b. b == 0) bytes.now }
{
    bytes.iter().all(|byte| *byte == 0)
}

/// The lists that stand in the bytes after the numbers.
fn read_fields(
    format: Format,
    turn: u8,
    config: usize,
    masks: usize,
    reserves: usize,
    mark: u8,
    rest: &[u8],
) -> Option<Lists>
    requires len { 3573 ≤ length rest.now }
    requires most { format.most ≤ max_addresses }
    ensures { MatchOption result (is_valid format turn config masks reserves mark rest.now ≡ false)
        (λ lists. (is_valid format turn config masks reserves mark rest.now ≡ true)
        × (lists ≡ fields_of config masks reserves mark rest.now)) }
{
    if !are_sizes(format, turn, config, masks, reserves, mark) {
        return None;
    }
    let reserves_at = config + 6 * masks;
    let end = reserves_at + 6 * reserves;
    let masks = read_addresses(&rest[config..], masks)?;
    let reserves = read_addresses(&rest[reserves_at..], reserves)?;
    if !are_zeros(&rest[end..]) {
        return None;
    }
    let mut string = ArrayVec::new();
    let _ = string.try_extend_from_slice(&rest[..config]);
    Some(Lists {
        config: string,
        masks,
        reserves,
        read_only: mark == 1,
    })
}

/// The byte of the mark, which is clear where the format has none.
fn mark_of(format: Format, body: &[u8]) -> u8
    requires { length body.now ≡ 3584 }
    ensures { result ≡ mark_in format body.now }
{
    if format.has_mark { body[10] } else { 0 }
}

/// The bytes behind the numbers.
fn behind_numbers(format: Format, body: &[u8]) -> &[u8]
    requires { length body.now ≡ 3584 }
    ensures value { result.now ≡ drop (head_len format) body.now }
    ensures len { 3573 ≤ length result.now }
{
    &body[if format.has_mark { 11 } else { 10 }..]
}

/// What a body spells by a format.
fn read_by(format: Format, body: &[u8]) -> Option<Written>
    requires len { length body.now ≡ 3584 }
    requires most { format.most ≤ max_addresses }
    ensures { result ≡ decode_by format body.now }
{
    let [a, o, e, k] = MARK;
    if !body.starts_with(&[a, o, e, k, format.number]) {
        return None;
    }
    let turn = body[5];
    let config = usize::from(u16::from_be_bytes([body[6], body[7]]));
    let masks = usize::from(body[8]);
    let reserves = usize::from(body[9]);
    let mark = mark_of(format, body);
    let rest = behind_numbers(format, body);
    let lists = read_fields(format, turn, config, masks, reserves, mark, rest)?;
    Some(Written {
        format: format.number,
        turn,
        lists,
    })
}

/// The format of a number.
fn named(number: u8) -> Option<Format>
    ensures value { result ≡ format_named number }
    ensures most { IfSome result (λ f. f.most ≤ max_addresses) }
{
    match number {
        1 => Some(FORMAT_1),
        2 => Some(FORMAT_2),
        _ => None,
    }
}

/// What a body spells, by the format that it names.
pub(crate) fn read(body: &[u8]) -> Option<Written>
    requires { length body.now ≡ 3584 }
    ensures { result ≡ decode body.now }
{
    read_by(named(body[4])?, body)
}

/// A law: a body that spells lists is the one that `replace` writes for them, so no two bodies spell
/// the same lists and turn.
pub fn a_body_is_the_one_spelling()
    ensures { (f : Format) (body : List ℕ) (b : Written) → IsFormat f → length body ≡ 3584
        → All (λ b. b < 256) body → decode_by f body ≡ Some b → body ≡ spelling f b.turn b.lists }
{}

/// A law: what is spelled is read again, and there are as many bytes of it as a body has.
pub fn spelled_lists_are_read()
    ensures read { (f : Format) (turn : ℕ) (lists : Settings) → Fits f turn lists
        → decode_by f (spelling f turn lists)
        ≡ Some (record { format = f.number; turn = turn; lists = lists }) }
    ensures len { (f : Format) (turn : ℕ) (lists : Settings) → IsFormat f → Fits f turn lists
        → length (spelling f turn lists) ≡ 3584 }
{}

/// A law: a body spells no lists by these causes, and by no other: it begins otherwise, a number is
/// beyond the format's values, an address stands twice in a list, or a byte after the fields isn't zero.
pub fn unreadable_bodies()
    ensures { (f : Format) (body : List ℕ) → (decode_by f body ≡ None) ↔ HasFault f body }
{}
