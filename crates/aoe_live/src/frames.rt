//! The frames of a history: who sent them, and which of them a link gives back.
ghost use Rattle.std.specs.Prelude.{◌≡◌, option_map};
ghost use Rattle.aoe_live.specs.Frames.{frame_by, matching, ms_of, newest, number_of};

use aoe_history::{Entry, Fate, History};
use aoe_initiator::LIFETIMES;

/// Who sent a frame.
#[derive(Clone, Copy, PartialEq, Eq)]
pub(crate) enum Sender {
    Shelf,
    Host,
}

/// The frame that a sender sent, where the entry is that of its sending.
pub(crate) fn frame_by(sender: Sender, entry: &Entry) -> Option<&[u8]>
    ensures { option_map (λ bytes. bytes.now) result
        ≡ option_map (λ f. f.bytes) (frame_by sender entry.now) }
{
    match sender {
        Sender::Host => match entry {
            Entry::Sent { bytes, .. } => Some(bytes.bytes()),
            _ => None,
        },
        Sender::Shelf => match entry {
            Entry::Arrived {
                fate: Fate::Replied { bytes, .. },
                ..
            } => Some(bytes.bytes()),
            _ => None,
        },
    }
}

/// The number of that frame.
fn number_of(entry: &Entry) -> u64
    ensures { result ≡ number_of entry.now }
{
    match entry {
        Entry::Sent { frame, .. } => *frame,
        Entry::Arrived {
            fate: Fate::Replied { frame, .. },
            ..
        } => *frame,
        _ => 0,
    }
}

/// How much time goes by with an entry, in milliseconds.
fn ms_of(entry: &Entry) -> u64
    ensures { result ≡ ms_of entry.now }
{
    match entry {
        Entry::Ticked { ms } => *ms,
        _ => 0,
    }
}

/// The number of the frame that a sender sent, where the entry is that of its sending and these are
/// its bytes.
fn matching(sender: Sender, entry: &Entry, frame: &[u8]) -> Option<u64>
    ensures { result ≡ matching frame.now (frame_by sender entry.now) }
{
    let bytes = match frame_by(sender, entry) {
        Some(bytes) => bytes,
        None => return None,
    };
    if bytes == frame {
        Some(number_of(entry))
    } else {
        None
    }
}

/// The number of the newest frame of the sender with these bytes, where it can still be handed over:
/// frames of both kinds can for as long, as the setup lines say. It looks at none that can't.
pub(crate) fn newest(history: &History, sender: Sender, frame: &[u8]) -> Option<u64>
    ensures { result ≡ newest sender 2000 history.now frame.now }
{
    let mut left = LIFETIMES.requests.0;
    'entries: for back in 0..history.count() {
        let entry = history.entry(history.count() - 1 - back);
        match matching(sender, entry, frame) {
            Some(number) => return Some(number),
            None => {}
        }
        let ms = ms_of(entry);
        if ms > left {
            return None;
        }
        left -= ms;
    }
    None
}
