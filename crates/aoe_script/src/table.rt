//! The table of lines: what any line says.
ghost use Rattle.std.specs.Prelude.{◌≡◌, IfOk, OnErr, length, ◌==◌, ◌||◌, slice_index, true, Some};
ghost use Rattle.aoe_script.specs.Forms.{asks, declares, has_bytes, line_of, row_of, said, takes_memory};
ghost use Rattle.aoe_script.specs.Words.{few_words, word_at};

use crate::event::Event;
use crate::forms::{attach_of, host_of, life_of, readonly_of, shelf_of, slot_of};
use crate::keyword::{Keyword, keyword_of};
use crate::line::Line;
use crate::network::{
    crash_of, deliver_of, fail_of, inject_of, names_disk, pass_of, skip_of, stop_of, tick_of,
};
use crate::refusal::Why;
use crate::setup::Setup;
use crate::submissions::{
    config_of, flush_of, has_config_shape, has_masks_shape, has_reserve_shape, identify_of,
    masks_of, read_of, reserve_of, write_of,
};
use crate::words::Words;
use aoe_base::NoMemory;
use std::alloc::Global;

/// What a setup line says, where it is `shaped`: it has as many words as it must have.
fn declares(shaped: bool, setup: Option<Setup>) -> Line
    ensures { result ≡ declares shaped setup }
{
    if !shaped {
        return Line::Bad(Why::Word);
    }
    match setup {
        Some(setup) => Line::Declares(setup),
        None => Line::Bad(Why::Value),
    }
}

/// What an event line says, where it is `shaped`: it has as many words as it must have, and its
/// fixed words.
fn asks(shaped: bool, event: Option<Event>) -> Line
    ensures { result ≡ asks shaped event }
{
    if !shaped {
        return Line::Bad(Why::Word);
    }
    match event {
        Some(event) => Line::Asks(event),
        None => Line::Bad(Why::Value),
    }
}

/// What the row of a first word says.
fn row_of(alloc: Global, keyword: Keyword, words: &Words) -> Result<Line, NoMemory>
    ensures line { IfOk result (λ line. line ≡ row_of keyword words.now) }
    ensures memory { OnErr result (has_bytes (Some keyword) ≡ true) }
{
    let count = words.len();
    let line = match keyword {
        Keyword::Life => declares(count == 2 || count == 3, life_of(words)),
        Keyword::Shelf => declares(count == 5, shelf_of(words)),
        Keyword::Slot => declares(count == 4 || count == 5, slot_of(words)),
        Keyword::Host => declares(count == 3 || count == 5, host_of(words)),
        Keyword::Attach => declares(count == 4, attach_of(words)),
        Keyword::Readonly => declares(count == 3, readonly_of(words)),
        Keyword::Read => asks(count == 5, read_of(words)),
        Keyword::Write => asks(count == 6, write_of(words)),
        Keyword::Flush => asks(count == 3, flush_of(words)),
        Keyword::Identify => asks(count == 3, identify_of(words)),
        Keyword::Config => asks(has_config_shape(words), config_of(alloc, words)?),
        Keyword::Masks => asks(has_masks_shape(words), masks_of(words)),
        Keyword::Reserve => asks(has_reserve_shape(words), reserve_of(words)),
        Keyword::Tick => asks(count == 2, tick_of(words)),
        Keyword::Deliver => asks(count == 3, deliver_of(words)),
        Keyword::Pass => asks(count == 2, pass_of(words)),
        Keyword::Skip => asks(count == 2, skip_of(words)),
        Keyword::Again => asks(count == 1, Some(Event::Again)),
        Keyword::Inject => asks(count == 2, inject_of(alloc, words)?),
        Keyword::Fail => asks(count == 4 && names_disk(words), fail_of(words)),
        Keyword::Stop => asks(count == 5 && names_disk(words), stop_of(words)),
        Keyword::Crash => asks(count == 3, crash_of(words)),
    };
    Ok(line)
}

/// Whether the words say nothing.
fn is_blank(words: &Words) -> bool
    ensures { result ≡ (length words.now == 0 || slice_index (word_at words.now 0) 0 == 35) }
{
    let first = words.at(0);
    words.len() == 0 || (!first.is_empty() && first[0] == b'#')
}

/// What words say.
#[tactic(auto, unfolding(crate::specs::Forms::said))]
fn said(alloc: Global, words: &Words) -> Result<Line, NoMemory>
    ensures said { IfOk result (λ line. line ≡ said words.now) }
    ensures memory { OnErr result (takes_memory words.now ≡ true) }
{
    if is_blank(words) {
        return Ok(Line::Blank);
    }
    match keyword_of(words.at(0)) {
        Some(keyword) => row_of(alloc, keyword, words),
        None => Ok(Line::Bad(Why::Word)),
    }
}

/// What a line says, whatever stands before it.
pub fn read_line(alloc: Global, line: &[u8]) -> Result<Line, NoMemory>
    ensures said { IfOk result (λ said. said ≡ line_of line.now) }
    ensures memory { OnErr result (takes_memory (few_words line.now) ≡ true) }
{
    said(alloc, &Words::of(line))
}
