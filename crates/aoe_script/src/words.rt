//! The words of a line.
ghost use Rattle.std.specs.Prelude.{◌≡◌, ◌==◌, ◌<◌, ◌≤◌, ℕ, [], ◌∷◌, List, length, map, not, IfNone, IfSome};
ghost use Rattle.std.specs.List.{position_or_len};
ghost use Rattle.aoe_base.specs.Names.{device_of};
ghost use Rattle.aoe_script.specs.Classes.{name_of, number};
ghost use Rattle.aoe_script.specs.Words.{few_words, word_at, words};

use crate::classes::number;
use crate::cuts::{from, run, until};
use crate::setup::Name;
use aoe_base::{TargetId, read_device};
use arrayvec::ArrayVec;
use std::marker::Model;

/// How many words are kept: one more than any line of the grammar has.
const MOST_WORDS: usize = 7;

/// The first word of a line, and what follows it.
fn next_word(line: &[u8]) -> Option<(&[u8], &[u8])>
    ensures none { IfNone result (words line.now ≡ []) }
    ensures word { IfSome result (λ r. words line.now ≡ r.0.now ∷ words r.1.now) }
    ensures shorter { IfSome result (λ r. length r.1.now < length line.now) }
{
    let rest = from(line, run(line, b' '));
    if rest.is_empty() {
        return None;
    }
    let end = until(rest, b' ');
    Some((&rest[..end], from(rest, end)))
}

/// The words of a line, the first seven at most.
#[derive(Drop)]
pub(crate) struct Words<'a> {
    list: ArrayVec<&'a [u8], MOST_WORDS>,
}

impl<'a> Model for Words<'a> {
    ghost Value = { List (List ℕ) };

    ghost view = { λ w. map (λ word. word.now) w.list.items };

    ghost invariant = { λ w. length w.list.items ≤ 7 };
}

impl<'a> Words<'a> {
    /// The words of this line.
    pub(crate) fn of(line: &'a [u8]) -> Words<'a>
        ensures { result ≡ few_words line.entry.now }
    {
        let mut list = ArrayVec::new();
        let mut rest = line;
        'words: while let Some((word, next)) = next_word(rest) {
            if list.is_full() {
                break;
            }
            list.push(word);
            rest = next;
        }
        Words { list }
    }

    /// How many there are.
    pub(crate) fn len(&self) -> usize
        ensures { result ≡ length self.now }
    {
        self.list.len()
    }

    /// The word at a place, from 0; an empty one where there is none.
    pub(crate) fn at(&self, i: usize) -> &'a [u8]
        ensures { result.now ≡ word_at self.now i }
    {
        let list = self.list.as_slice();
        if i < list.len() { list[i] } else { &[] }
    }

    /// The number at a place.
    pub(crate) fn number(&self, i: usize) -> Option<u64>
        ensures { result ≡ number (word_at self.now i) }
    {
        number(self.at(i))
    }

    /// The name at a place.
    pub(crate) fn name(&self, i: usize) -> Option<Name>
        ensures { result ≡ name_of (word_at self.now i) }
    {
        let mut name = Name::new();
        match name.try_extend_from_slice(self.at(i)) {
            Ok(()) => Some(name),
            Err(_) => None,
        }
    }

    /// The device at a place.
    pub(crate) fn device(&self, i: usize) -> Option<TargetId>
        ensures { result ≡ device_of (word_at self.now i) }
    {
        read_device(self.at(i))
    }
}
