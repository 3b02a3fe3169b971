//! The forms of lines on time, on frames of the network, and on faults.
ghost use Rattle.std.specs.Prelude.{◌≡◌, IfOk, is_some};
ghost use Rattle.aoe_script.specs.Classes.{which_of};
ghost use Rattle.aoe_script.specs.Forms.{crash_of, deliver_of, fail_of, inject_of, pass_of, skip_of, stop_of, tick_of};
ghost use Rattle.aoe_script.specs.Words.{word_at};

use crate::classes::{bytes_of, mode_of, which_of};
use crate::event::Event;
use crate::words::Words;
use aoe_base::NoMemory;
use std::alloc::Global;

/// `tick MS`
pub(crate) fn tick_of(words: &Words) -> Option<Event>
    ensures { result ≡ tick_of words.now }
{
    Some(Event::Tick {
        ms: words.number(1)?,
    })
}

/// `pass N`
pub(crate) fn pass_of(words: &Words) -> Option<Event>
    ensures { result ≡ pass_of words.now }
{
    Some(Event::Pass {
        n: words.number(1)?,
    })
}

/// `skip N`
pub(crate) fn skip_of(words: &Words) -> Option<Event>
    ensures { result ≡ skip_of words.now }
{
    Some(Event::Skip {
        n: words.number(1)?,
    })
}

/// `deliver K STATION`
pub(crate) fn deliver_of(words: &Words) -> Option<Event>
    ensures { result ≡ deliver_of words.now }
{
    Some(Event::Deliver {
        frame: words.number(1)?,
        station: words.name(2)?,
    })
}

/// `inject HEX`
pub(crate) fn inject_of(alloc: Global, words: &Words) -> Result<Option<Event>, NoMemory>
    ensures { IfOk result (λ r. r ≡ inject_of words.now) }
{
    match bytes_of(alloc, words.at(1))? {
        Some(bytes) => Ok(Some(Event::Inject { bytes })),
        None => Ok(None),
    }
}

/// `fail DEV store K`, `fail DEV keep K`
pub(crate) fn fail_of(words: &Words) -> Option<Event>
    ensures { result ≡ fail_of words.now }
{
    Some(Event::Fail {
        dev: words.device(1)?,
        which: which_of(words.at(2))?,
        k: words.number(3)?,
    })
}

/// `stop DEV store K MODE`, `stop DEV keep K MODE`
pub(crate) fn stop_of(words: &Words) -> Option<Event>
    ensures { result ≡ stop_of words.now }
{
    Some(Event::Stop {
        dev: words.device(1)?,
        which: which_of(words.at(2))?,
        k: words.number(3)?,
        mode: mode_of(words.at(4))?,
    })
}

/// `crash SHELF MODE`
pub(crate) fn crash_of(words: &Words) -> Option<Event>
    ensures { result ≡ crash_of words.now }
{
    Some(Event::Crash {
        shelf: words.name(1)?,
        mode: mode_of(words.at(2))?,
    })
}

/// Whether the third word names a disk.
pub(crate) fn names_disk(words: &Words) -> bool
    ensures { result ≡ is_some (which_of (word_at words.now 2)) }
{
    which_of(words.at(2)).is_some()
}
