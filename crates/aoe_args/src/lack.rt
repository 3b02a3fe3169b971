//! What is wrong with the words of a command each of which is right by itself.
ghost use Rattle.std.specs.Prelude.{◌≡◌, ◌<◌, ◌≤◌, false, length, map, option_map, string_bytes, true, IfSome, Some};
ghost use Rattle.std.specs.Str.{bytes_eq};
ghost use Rattle.aoe_args.specs.Apps.{form as told_form};
ghost use Rattle.aoe_args.specs.Lacks.{AreExclusive, IsAlone, IsLastPlain, IsUnlinked, IsUnset, action_follower, follower, mirror_follower, most_words, plain_count};
ghost use Rattle.aoe_args.specs.Places.{argument_behind, is_given, is_needed, needed_count};
ghost use Rattle.aoe_args.specs.Slips.{IsSlipIn, IsWrongTogether};

use crate::app::{Form, Place};
use crate::slip::{Slip, Wrong, argument, at, is_given, option_in};
use crate::tools::{ccmd_with_text, rcmd_with_list};

/// Whether a word has to go to an argument.
fn is_needed(place: Place) -> bool
    ensures { result ≡ is_needed place }
{
    matches!(place, Place::Needed | Place::Several)
}

/// How many arguments need a word.
fn needed_count(form: Form) -> usize
    ensures { result ≡ needed_count (told_form form.entry).1 }
{
    let mut count = 0;
    'arguments: for argument in form.1 {
        if is_needed(argument.1) {
            count += 1;
        }
    }
    count
}

/// The name of the argument that needs a word and gets none, where so many words go by their place.
pub(crate) fn lacking(form: Form, before: usize) -> Option<&'static str>
    ensures few { IfSome result (λ name. before < needed_count (told_form form.entry).1) }
    ensures next { IfSome result (λ name. argument_behind (told_form form.entry).1 before ≡ Some name.now) }
{
    if before < needed_count(form) {
        argument(form, before)
    } else {
        None
    }
}

/// The name of what is missing behind so many words of `mirror`.
fn mirror_follower(count: usize) -> Option<&'static str>
    ensures { option_map (λ name. name.now) result ≡ mirror_follower count }
{
    match count {
        3 => Some("files"),
        4 => Some("mark"),
        5 => Some("keep"),
        _ => None,
    }
}

/// The name of what is missing behind an action of a command.
#[tactic(auto, unfolding(crate::specs::Lacks::action_follower))]
fn action_follower(command: &str, action: &str) -> Option<&'static str>
    ensures { option_map (λ name. name.now) result ≡ action_follower command.now action.now }
{
    match command {
        "cfg" if ccmd_with_text(action).is_some() => Some("text"),
        "mask" if action == "edit" => Some("dirs"),
        "reserve" if rcmd_with_list(action).is_some() => Some("macs"),
        "keep" if action == "clear" => Some("list"),
        _ => None,
    }
}

/// The name of what is missing behind so many words that go by their place, the last of which is
/// this one.
#[tactic(auto, unfolding(crate::specs::Lacks::follower))]
fn follower(command: &str, count: usize, word: &str) -> Option<&'static str>
    ensures { option_map (λ name. name.now) result ≡ follower command.now count word.now }
{
    match command {
        "answer" | "capture" if count == 3 => Some("keep"),
        "answer" | "capture" => None,
        "serve" if count % 2 == 0 => Some("keep"),
        "serve" => None,
        "mirror" => mirror_follower(count),
        "switch" if count == 1 => Some("ports"),
        "switch" => None,
        _ if count == 2 => action_follower(command, word),
        _ => None,
    }
}

/// The most words that go by their place, and how that is said, where it isn't one for each argument.
#[tactic(auto, unfolding(crate::specs::Lacks::most_words))]
fn most_words(command: &str) -> Option<(usize, &'static str)>
    ensures { option_map (λ most. most.0) result ≡ most_words command.now }
{
    match command {
        "answer" | "capture" => Some((4, "SHELF SLOT FILE KEEP")),
        "serve" => Some((33, "16 pairs of FILE and KEEP")),
        "mirror" => Some((6, "SHELF SLOT FILE FILE MARK KEEP")),
        "switch" => Some((16, "16 ports")),
        "mask" | "reserve" => Some((66, "64 addresses")),
        _ => None,
    }
}

/// What is wrong with the number of words that go by their place, the last of which is at this one.
pub(crate) fn count_slip(form: Form, words: &[String], place: usize, count: usize) -> Option<Slip>
    requires place { (1 ≤ place) × (place < length words.now) }
    requires last { IsLastPlain (told_form form) (map string_bytes words.now) place }
    requires count { count ≡ plain_count (told_form form) (map string_bytes words.now) }
    ensures { IfSome result (IsSlipIn (told_form form.entry) (map string_bytes words.now)) }
{
    if let Some(name) = follower(form.0, count, words[place].as_str()) {
        return Some(at(place, Wrong::Behind(name)));
    }
    let (most, limit) = most_words(form.0)?;
    if most < count {
        Some(at(place, Wrong::TooMany(limit)))
    } else {
        None
    }
}

/// Whether both of these options are given.
fn are_given(words: &[String], one: &str, other: &str) -> bool
    ensures one { result ≡ true → is_given one.now (map string_bytes words.now) ≡ true }
    ensures other { result ≡ true → is_given other.now (map string_bytes words.now) ≡ true }
{
    is_given(words, one) && is_given(words, other)
}

/// Whether only the first of these options is given.
fn is_alone(words: &[String], one: &str, other: &str) -> bool
    ensures one { result ≡ true → is_given one.now (map string_bytes words.now) ≡ true }
    ensures other { result ≡ true → is_given other.now (map string_bytes words.now) ≡ false }
{
    is_given(words, one) && !is_given(words, other)
}

/// Two options that are given and exclude each other.
fn exclusive(words: &[String]) -> Option<(&'static str, &'static str)>
    ensures { IfSome result (λ pair. AreExclusive (map string_bytes words.now) pair.0.now pair.1.now) }
{
    let pair = if are_given(words, "cache", "durable") {
        ("cache", "durable")
    } else if are_given(words, "tap", "local") {
        ("tap", "local")
    } else if are_given(words, "tap", "peers") {
        ("tap", "peers")
    } else if are_given(words, "tap", "vxlan") {
        ("tap", "vxlan")
    } else if are_given(words, "one-tap", "one") {
        ("one-tap", "one")
    } else if are_given(words, "one-tap", "two") {
        ("one-tap", "two")
    } else if are_given(words, "one-tap", "vxlan") {
        ("one-tap", "vxlan")
    } else if are_given(words, "two-tap", "one") {
        ("two-tap", "one")
    } else if are_given(words, "two-tap", "two") {
        ("two-tap", "two")
    } else if are_given(words, "two-tap", "vxlan") {
        ("two-tap", "vxlan")
    } else {
        return None;
    };
    Some(pair)
}

/// An option that is given, and the one that it needs beside it and that isn't.
fn alone(words: &[String]) -> Option<(&'static str, &'static str)>
    ensures { IfSome result (λ pair. IsAlone (map string_bytes words.now) pair.0.now pair.1.now) }
{
    let pair = if is_alone(words, "local", "peers") {
        ("local", "peers")
    } else if is_alone(words, "peers", "local") {
        ("peers", "local")
    } else if is_alone(words, "one", "two") {
        ("one", "two")
    } else if is_alone(words, "two", "one") {
        ("two", "one")
    } else if is_alone(words, "one-tap", "two-tap") {
        ("one-tap", "two-tap")
    } else if is_alone(words, "two-tap", "one-tap") {
        ("two-tap", "one-tap")
    } else if is_alone(words, "skip", "input") {
        ("skip", "input")
    } else if is_alone(words, "count", "input") {
        ("count", "input")
    } else {
        return None;
    };
    Some(pair)
}

/// Whether a command is over a link that the first two of these options name, or the third, and none
/// of the three is given.
fn is_unlinked(form: Form, words: &[String], local: &str, peers: &str, tap: &str) -> bool
    ensures { result ≡ true → IsUnlinked (told_form form.entry) (map string_bytes words.now)
        local.now peers.now tap.now }
{
    option_in(form, tap.as_bytes()).is_some()
        && !is_given(words, local)
        && !is_given(words, peers)
        && !is_given(words, tap)
}

/// Whether a command has this option, which isn't given.
fn is_unset(form: Form, words: &[String], name: &str) -> bool
    ensures { result ≡ true → IsUnset (told_form form.entry) (map string_bytes words.now) name.now }
{
    option_in(form, name.as_bytes()).is_some() && !is_given(words, name)
}

/// What is wrong with the options of words among which nothing else is.
pub(crate) fn options_wrong(form: Form, words: &[String]) -> Wrong
    ensures { IsWrongTogether (told_form form.entry) (map string_bytes words.now) result }
{
    if let Some((one, other)) = exclusive(words) {
        return Wrong::Exclusive(one, other);
    }
    if let Some((one, other)) = alone(words) {
        return Wrong::Alone(one, other);
    }
    if is_unlinked(form, words, "local", "peers", "tap") {
        return Wrong::NoLink;
    }
    if is_unlinked(form, words, "one", "two", "one-tap") {
        return Wrong::NoLinks;
    }
    if is_unset(form, words, "socket") {
        return Wrong::NoSocket;
    }
    Wrong::Together
}
