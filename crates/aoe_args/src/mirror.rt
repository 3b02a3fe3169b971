//! The words of `mirror`, and those of its check.
ghost use Rattle.std.specs.Prelude.{◌≡◌, ◌≤◌, ◌∷◌, [], length, map, option_map, string_bytes, IfOk, IfSome, None, Some};
ghost use Rattle.clap.specs.Words.{found_of, rows_of};
ghost use Rattle.aoe_args.specs.Words.{CanMirror, Fits, alone_at, alone_command, alone_words, compare_of, compared, compared_with, file_at, files, has_hyphen, has_link_option, has_mirror_option, has_no_name, has_option, has_sides, is_gone, is_served, lacks_link, mirror_files, mirror_of, mirrored_of, side_of};

use crate::bounds::MTU;
use crate::link::link;
use crate::read::{DEFAULT_MTU, copies};
use crate::values::{
    DEFAULT_PORT, idle_of, is_set, number, number_or, port_or_default, text, texts,
};
use crate::word::is_hyphen;
use crate::{Alone, Answer, Command, Mirror, Serve};
use aoe_base::{LAST_MAJOR, LAST_MINOR, NoMemory, Ports, TargetId};
use clap::ArgMatches;
use std::alloc::Global;

/// Which of its files a mirror has MARK in.
const MARK: usize = 2;

/// Which of its files a mirror has KEEP in.
const KEEP: usize = 3;

/// The file of this number; an empty name where there is none.
fn file_at<'a>(found: &ArgMatches<'a>, number: usize) -> &'a str
    ensures { result.now ≡ file_at number (rows_of (found_of found.now)) }
{
    let Some(files) = texts(found, "files") else {
        return "";
    };
    match files.get(number) {
        Some(name) => name,
        None => "",
    }
}

/// Whether the file of this number is gone.
fn is_gone(found: &ArgMatches, number: usize) -> bool
    ensures { result ≡ is_gone number (rows_of (found_of found.now)) }
{
    is_hyphen(file_at(found, number).as_bytes())
}

/// How many files are named.
fn file_count(found: &ArgMatches) -> usize
    ensures { result ≡ length (files (rows_of (found_of found.now))) }
{
    match texts(found, "files") {
        Some(files) => files.len(),
        None => 0,
    }
}

/// Whether two files, a MARK and a KEEP are named, of which one of the files may be gone.
fn has_sides(found: &ArgMatches) -> bool
    ensures { result ≡ has_sides (rows_of (found_of found.now)) }
{
    file_count(found) == 4
        && !(is_gone(found, 0) && is_gone(found, 1))
        && !is_gone(found, MARK)
        && !is_gone(found, KEEP)
}

/// The side that is there where the other one is gone.
pub(crate) fn side_of(found: &ArgMatches) -> Option<u8>
    ensures value { result ≡ side_of (rows_of (found_of found.now)) }
    ensures range { IfSome result (λ side. side ≤ 1) }
{
    if is_gone(found, 0) {
        Some(1)
    } else if is_gone(found, 1) {
        Some(0)
    } else {
        None
    }
}

/// Whether an option with a value is given.
fn has_option(found: &ArgMatches, id: &str) -> bool
    ensures { result ≡ has_option id.now (rows_of (found_of found.now)) }
{
    text(found, id).is_some()
}

/// Whether the value of an option is one hyphen.
fn has_hyphen(found: &ArgMatches, id: &str) -> bool
    ensures { result ≡ has_hyphen id.now (rows_of (found_of found.now)) }
{
    match text(found, id) {
        Some(text) => is_hyphen(text.as_bytes()),
        None => false,
    }
}

/// Whether a name beside those of the files is one hyphen.
fn has_no_name(found: &ArgMatches) -> bool
    ensures { result ≡ has_no_name (rows_of (found_of found.now)) }
{
    has_hyphen(found, "local")
        || has_hyphen(found, "peers")
        || has_hyphen(found, "tap")
        || has_hyphen(found, "stop")
}

/// Whether an option is given that says something of a link.
fn has_link_option(found: &ArgMatches) -> bool
    ensures { result ≡ has_link_option (rows_of (found_of found.now)) }
{
    has_option(found, "local")
        || has_option(found, "peers")
        || has_option(found, "vxlan")
        || has_option(found, "tap")
        || has_option(found, "idle")
        || has_option(found, "stop")
}

/// Whether a link is named.
fn is_served(found: &ArgMatches) -> bool
    ensures { result ≡ is_served (rows_of (found_of found.now)) }
{
    link(found).is_some()
}

/// Whether an option is given that goes with a link, and none is named.
fn lacks_link(found: &ArgMatches) -> bool
    ensures { result ≡ lacks_link (rows_of (found_of found.now)) }
{
    has_link_option(found) && !is_served(found)
}

/// What the arguments of `mirror` ask for without its check.
#[tactic(auto, unfolding(crate::specs::Words::mirror_of))]
fn mirror_of(found: &ArgMatches) -> Option<Mirror>
    ensures value { result ≡ mirror_of (rows_of (found_of found.now)) }
    ensures range { IfSome result CanMirror }
    ensures sides { IfSome result (λ asked. length (files (rows_of (found_of found.now))) ≡ 4) }
    ensures served { IfSome result (λ asked. asked.is_served ≡ is_served (rows_of (found_of found.now))) }
{
    if !has_sides(found) || has_no_name(found) || lacks_link(found) {
        return None;
    }
    Some(Mirror {
        id: TargetId {
            major: number(found, "shelf", LAST_MAJOR)? as u16,
            minor: number(found, "slot", LAST_MINOR)? as u8,
        },
        port: port_or_default(found, "port", DEFAULT_PORT)?,
        mtu: number_or(found, "mtu", MTU, DEFAULT_MTU)?,
        is_served: is_served(found),
        idle: idle_of(found)?,
    })
}

/// What a mirror one of whose files is gone asks for: the other one by itself.
pub(crate) fn alone_command(asked: Mirror) -> Command
    ensures { result ≡ alone_command asked }
{
    if !asked.is_served {
        return Command::Answer(Answer {
            id: asked.id,
            port: asked.port,
            mtu: asked.mtu,
            cache: 0,
            captures: false,
            durable: false,
        });
    }
    let mut ports = Ports::new();
    ports.push(asked.port);
    Command::Serve(Serve {
        shelf: asked.id.major,
        slot: asked.id.minor,
        slots: 1,
        ports,
        mtu: asked.mtu,
        cache: 0,
        durable: false,
        frames: None,
        idle: asked.idle,
    })
}

/// The names of the files of a mirror: those that are named, or the one that is there and KEEP.
pub(crate) fn mirror_files(alloc: Global, found: &ArgMatches) -> Result<Vec<String>, NoMemory>
    ensures { IfOk result (λ names. map string_bytes names.items
        ≡ mirror_files (rows_of (found_of found.now))) }
{
    if let Some(side) = side_of(found) {
        return copies(
            alloc,
            &[file_at(found, usize::from(side)), file_at(found, KEEP)],
        );
    }
    match texts(found, "files") {
        Some(files) => copies(alloc, files),
        None => Ok(Vec::new(alloc)),
    }
}

/// The name of MARK of a mirror one of whose files is gone, and the side that is there.
pub(crate) fn mirror_alone(alloc: Global, found: &ArgMatches) -> Result<Option<Alone>, NoMemory>
    ensures value { IfOk result (λ alone. option_map alone_words alone
        ≡ alone_at (rows_of (found_of found.now))) }
    ensures side { IfOk result (λ alone. IfSome alone (λ a. a.side ≤ 1)) }
{
    match side_of(found) {
        Some(side) => Ok(Some(Alone {
            mark: String::from_str(alloc, file_at(found, MARK))?,
            side,
        })),
        None => Ok(None),
    }
}

/// The three names of a check, none of which is one hyphen.
fn compared_with<'a>(
    one: &'a str,
    two: &'a str,
    files: &[&'a str],
) -> Option<(&'a str, &'a str, &'a str)>
    ensures { option_map (λ names. names.0.now ∷ names.1.now ∷ names.2.now ∷ []) result
        ≡ compared_with one.entry.now two.entry.now (map (λ name. name.now) files.now) }
{
    let [mark] = files else {
        return None;
    };
    if is_hyphen(one.as_bytes()) || is_hyphen(two.as_bytes()) || is_hyphen(mark.as_bytes()) {
        return None;
    }
    Some((one, two, mark))
}

/// The names of what a check compares: two files and MARK, which stand where a mirror has SHELF, SLOT
/// and FILE.
pub(crate) fn compared<'a>(found: &ArgMatches<'a>) -> Option<(&'a str, &'a str, &'a str)>
    ensures { option_map (λ names. names.0.now ∷ names.1.now ∷ names.2.now ∷ []) result
        ≡ compared (rows_of (found_of found.now)) }
{
    let one = text(found, "shelf")?;
    let two = text(found, "slot")?;
    compared_with(one, two, texts(found, "files")?)
}

/// Whether an option of a mirror is given, which has no meaning for a check.
fn has_mirror_option(found: &ArgMatches) -> bool
    ensures { result ≡ has_mirror_option (rows_of (found_of found.now)) }
{
    has_link_option(found)
        || has_option(found, "port")
        || has_option(found, "mtu")
        || is_set(found, "lead-other")
}

/// What the arguments of `mirror --check` ask for.
#[tactic(auto, unfolding(crate::specs::Words::compare_of))]
fn compare_of(found: &ArgMatches) -> Option<Command>
    ensures value { result ≡ compare_of (rows_of (found_of found.now)) }
    ensures fits { IfSome result (Fits (rows_of (found_of found.now))) }
{
    if has_mirror_option(found) {
        return None;
    }
    let _names = compared(found)?;
    Some(Command::Compare)
}

/// What the arguments of `mirror` ask for.
#[tactic(auto, unfolding(crate::specs::Words::mirrored_of))]
pub(crate) fn mirrored_of(found: &ArgMatches) -> Option<Command>
    ensures value { result ≡ mirrored_of (rows_of (found_of found.now)) }
    ensures fits { IfSome result (Fits (rows_of (found_of found.now))) }
{
    if is_set(found, "check") {
        compare_of(found)
    } else {
        Some(Command::Mirror(mirror_of(found)?))
    }
}
