//! The files that a copy names in place of standard input and output.
ghost use Rattle.std.specs.Prelude.{◌≡◌, option_map, IfOk, IfSome};
ghost use Rattle.clap.specs.Words.{found_of, rows_of};
ghost use Rattle.aoe_args.specs.Tools.{IsPart, has_part, input, part_of, part_text, part_words};

use crate::InputFile;
use crate::tools::{sector_count, sector_or_first};
use crate::values::text;
use aoe_base::NoMemory;
use clap::ArgMatches;
use std::alloc::Global;

/// The part of a file that is read: its name, how many sectors are left out before the first of it, and
/// how many it has.
#[derive(Clone, Copy)]
pub(crate) struct Part<'a> {
    name: &'a str,
    skip: u64,
    count: Option<u64>,
}

/// Whether an option is given that says which part of a file is read.
fn has_part(found: &ArgMatches) -> bool
    ensures { result ≡ has_part (rows_of (found_of found.now)) }
{
    text(found, "skip").is_some() || text(found, "count").is_some()
}

/// The part of a file that `put` reads, where it reads one.
#[tactic(auto, unfolding(crate::specs::Tools::part_of))]
pub(crate) fn part_of<'a>(found: &ArgMatches<'a>) -> Option<Option<Part<'a>>>
    ensures value { option_map (option_map part_text) result ≡ part_of (rows_of (found_of found.now)) }
    ensures part { IfSome result (λ part. IfSome part (λ part. IsPart part.skip part.count)) }
{
    let skip = sector_or_first(found, "skip")?;
    let count = sector_count(found, "count")?;
    match text(found, "input") {
        Some(name) => Some(Some(Part { name, skip, count })),
        None if has_part(found) => None,
        None => Some(None),
    }
}

/// The part of a file that `put` reads, as the command line has it.
pub(crate) fn input_file(alloc: Global, found: &ArgMatches) -> Result<Option<InputFile>, NoMemory>
    ensures value { IfOk result (λ file. option_map part_words file
        ≡ input (rows_of (found_of found.now))) }
    ensures part { IfOk result (λ file. IfSome file (λ f. IsPart f.skip f.count)) }
{
    let Some(Some(part)) = part_of(found) else {
        return Ok(None);
    };
    Ok(Some(InputFile {
        name: String::from_str(alloc, part.name)?,
        skip: part.skip,
        count: part.count,
    }))
}
