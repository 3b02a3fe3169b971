//! The words that the program is run with: its arguments, and what the environment adds to them.
use std::env::VarError;
use std::io::ErrorKind;
use std::{env, io};

/// The ends of a link: the option of each, and the variable of the environment that stands for it.
const ENDS: [(&str, &str); 2] = [("--local", "AOE_LOCAL"), ("--peers", "AOE_PEERS")];

/// Whether a word is this option, or this option with its value.
fn is_option(word: &str, option: &str) -> bool {
    match word.strip_prefix(option) {
        Some(rest) => rest.is_empty() || rest.as_bytes()[0] == b'=',
        None => false,
    }
}

fn gives(words: &[String], option: &str) -> bool {
    words.iter().any(|word| is_option(word.as_str(), option))
}

/// Whether the command of these words has one link. A mirror has one where an end of it is given.
fn has_link(words: &[String]) -> bool {
    let Some(name) = words.first() else {
        return false;
    };
    match name.as_str() {
        "serve"
        | "nbd"
        | "discover"
        | "stat"
        | "cfg"
        | "mask"
        | "reserve"
        | "flush"
        | "get"
        | "put" => true,
        "mirror" => ENDS.iter().any(|(end, _)| gives(words, end)),
        _ => false,
    }
}

/// What a variable of the environment holds, where it is set and holds something.
fn variable(rt: &HostRuntime, name: &str) -> io::Result<Option<String>> {
    match env::var(rt, name) {
        Ok(value) if !value.is_empty() => Ok(Some(value)),
        Err(VarError::OutOfMemory) => Err(io::Error::from(ErrorKind::OutOfMemory)),
        Ok(_) | Err(VarError::NotPresent | VarError::NotUnicode) => Ok(None),
    }
}

/// Adds the ends of the link that aren't given, from the environment, where the command has a link that isn't
/// a tap file.
fn add_ends(rt: &HostRuntime, words: &mut Vec<String>) -> io::Result<()> {
    if !has_link(words.as_slice()) || gives(words.as_slice(), "--tap") {
        return Ok(());
    }
    'ends: for (option, name) in ENDS {
        if gives(words.as_slice(), option) {
            continue;
        }
        if let Some(value) = variable(rt, name)? {
            words.push(format!(in rt.alloc(); "{option}")?)?;
            words.push(value)?;
        }
    }
    Ok(())
}

/// The arguments alone.
fn arguments(rt: &HostRuntime) -> io::Result<Vec<String>> {
    let mut words = Vec::new(rt.alloc());
    for word in env::args(rt)?.skip(1) {
        words.push(word)?;
    }
    Ok(words)
}

/// The words.
pub fn words(rt: &HostRuntime) -> io::Result<Vec<String>> {
    let mut words = arguments(rt)?;
    add_ends(rt, &mut words)?;
    Ok(words)
}

/// The variable of the environment that gives this end of a link, `--local` or `--peers`, where no
/// argument does.
pub fn variable_of(rt: &HostRuntime, option: &str) -> Option<&'static str> {
    let words = arguments(rt).ok()?;
    if !has_link(words.as_slice()) || gives(words.as_slice(), option) {
        return None;
    }
    let (_, variable) = ENDS.iter().find(|(end, _)| *end == option)?;
    Some(*variable)
}
