//! What is said of words that are no command.
use crate::ports::read_port;
use crate::slip::{Slip, Wanted, Wrong, title};
use std::fmt;

/// A slip as it is said: which argument or word it is about, why, and which name may be meant.
#[derive(Drop)]
pub struct SlipText<'a> {
    pub slip: Slip,

    /// The words that are no command.
    pub words: &'a [String],

    /// The name of an option or a command that may be meant.
    pub meant: Option<&'static str>,
}

/// What a word gives to its argument: an option what stands behind its `=`.
fn value(word: &str) -> &str {
    match word.split_once('=') {
        Some((option, value)) if option.starts_with('-') => value,
        _ => word,
    }
}

/// The first part of a list of addresses that is none.
fn bad_port(list: &str) -> Option<&str> {
    list.split(',')
        .find(|part| read_port(part.as_bytes()).is_none())
}

/// Writes why a text isn't what its argument has to be.
fn write_unfit<W: fmt::Write>(
    f: &mut fmt::Formatter<W>,
    argument: &'static str,
    wanted: Wanted,
    text: &str,
) -> fmt::Result {
    let title = title(&argument);
    match wanted {
        Wanted::Ports => match bad_port(text) {
            Some(part) if !part.is_empty() => write!(f, "--ports: {part} isn't {}", Wanted::Port),
            _ => write!(f, "--ports: {text} isn't {wanted}"),
        },
        _ => write!(f, "{title}: {text} isn't {wanted}"),
    }
}

impl fmt::Display for SlipText<'_> {
    fn fmt<W: fmt::Write>(&self, f: &mut fmt::Formatter<W>) -> fmt::Result {
        let wrong = self.slip.wrong;
        let word = match self.slip.word {
            Some(place) => self.words.get(place),
            None => None,
        };
        match (word, wrong) {
            (None, _) | (_, Wrong::Empty) => write!(f, "{wrong}")?,
            (Some(word), Wrong::Unfit(argument, wanted)) => {
                write_unfit(f, argument, wanted, value(word.as_str()))?;
            }
            (Some(word), Wrong::Behind(_)) => write!(f, "{wrong} behind {word}")?,
            (Some(word), _) => write!(f, "{word}: {wrong}")?,
        }
        match (self.meant, wrong) {
            (Some(name), Wrong::Option) => write!(f, ": did you mean --{name}?"),
            (Some(name), _) => write!(f, ": did you mean {name}?"),
            (None, _) => Ok(()),
        }
    }
}
