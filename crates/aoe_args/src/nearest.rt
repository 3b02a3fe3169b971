//! Names that may be meant by words that are none.
ghost use Rattle.std.specs.Prelude.{◌≡◌, is_some, map, string_bytes, true, IfOk, IfSome};
ghost use Rattle.aoe_args.specs.Apps.{form as told_form};
ghost use Rattle.aoe_args.specs.Places.{option_named};
ghost use Rattle.aoe_args.specs.Slips.{IsMeant, is_command_name};

use crate::app::{FORMS, Form};
use crate::slip::{Slip, Wrong, form_by, form_of, option_in};
use aoe_base::NoMemory;
use std::alloc::Global;
use strsim::levenshtein;

/// The most edits that lead from a word to the name that may be meant.
const MOST_EDITS: usize = 2;

/// A name, and how many edits lead to it.
type Near = (usize, &'static str);

/// The nearer of this name and the one that is the nearest so far, if any is near enough: fewer edits
/// lead to it than half the bytes of the word, and two at most.
fn nearer(
    alloc: Global,
    word: &str,
    name: &'static str,
    nearest: Option<Near>,
) -> Result<Option<Near>, NoMemory> {
    let edits = levenshtein(alloc, word, name)?;
    let least = match nearest {
        Some((least, _)) => least,
        None => (word.len() / 2).min(MOST_EDITS + 1),
    };
    Ok(if edits < least {
        Some((edits, name))
    } else {
        nearest
    })
}

/// The option of a command that may be meant by this name.
fn nearest_option(alloc: Global, form: Form, word: &str) -> Result<Option<&'static str>, NoMemory>
    ensures { IfOk result (λ name. IfSome name
        (λ n. is_some (option_named (told_form form.entry).1 n.now) ≡ true)) }
{
    let mut nearest = None;
    'arguments: for (name, _) in form.1 {
        if option_in(form, name.as_bytes()).is_some() {
            nearest = nearer(alloc, word, name, nearest)?;
        }
    }
    let Some((_, name)) = nearest else {
        return Ok(None);
    };
    Ok(if option_in(form, name.as_bytes()).is_some() {
        Some(name)
    } else {
        None
    })
}

/// The command that may be meant by this name.
fn nearest_command(alloc: Global, word: &str) -> Result<Option<&'static str>, NoMemory>
    ensures { IfOk result (λ name. IfSome name (λ n. is_command_name n.now ≡ true)) }
{
    let mut nearest = None;
    'forms: for form in &FORMS {
        nearest = nearer(alloc, word, form.0, nearest)?;
    }
    let Some((_, name)) = nearest else {
        return Ok(None);
    };
    Ok(if form_of(name).is_some() {
        Some(name)
    } else {
        None
    })
}

/// The name in a word that begins with hyphens, which may have a value behind an `=`.
fn name_in(word: &str) -> &str {
    let name = word.trim_start_matches('-');
    match name.split_once('=') {
        Some((name, _)) => name,
        None => name,
    }
}

/// The name that may be meant by the word of this slip: an option's where the word is no option of
/// the command, and a command's where it is the name of none.
pub fn meant(alloc: Global, words: &[String], slip: Slip) -> Result<Option<&'static str>, NoMemory>
    ensures { IfOk result (λ name. IfSome name
        (λ n. IsMeant (map string_bytes words.now) slip.wrong n.now)) }
{
    let Some(place) = slip.word else {
        return Ok(None);
    };
    let Some(word) = words.get(place) else {
        return Ok(None);
    };
    match (slip.wrong, form_by(words)) {
        (Wrong::Command, _) => nearest_command(alloc, word.as_str()),
        (Wrong::Option, Some(form)) => nearest_option(alloc, form, name_in(word.as_str())),
        _ => Ok(None),
    }
}
