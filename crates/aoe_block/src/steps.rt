//! The steps of a block, over its fields.
ghost use Rattle.std.specs.Prelude.{◌≡◌, ℕ, ◌+◌, ◌-◌, ◌*◌, ◌<◌, ◌≤◌, ◌^◌, ◌↔◌, IfNone, IfSome, IsTrue, false, length, min, set, true};
ghost use Rattle.aoe_block.specs.Calls.{is_success};
ghost use Rattle.aoe_block.specs.Fields.{laid, CanLay, NoneBefore, PendingFrom};
ghost use Rattle.aoe_block.specs.Stages.{is_handed, stage_at};

use crate::stage::Stage;
use aoe_base::{Blob, SECTOR_LEN, Span, Ticket};
use aoe_initiator::Outcome;

/// Whether a device of `total` sectors has the `count` ones from `at` on.
pub fn is_within(total: u64, at: u64, count: u32) -> bool
    ensures { IsTrue result ↔ (at + count ≤ total) }
{
    at <= total && u64::from(count) <= total - at
}

/// The sectors of the `k`-th part.
pub fn part_span(at: u64, max: u32, count: u32, k: usize) -> Span
    requires some { 0 < max }
    requires part { k * max < count }
    requires range { at + count < 2 ^ 64 }
    ensures { result ≡ record { at = at + k * max; count = min max (count - k * max) } }
{
    let before = k as u32 * max;
    Span {
        at: at + u64::from(before),
        count: max.min(count - before),
    }
}

/// The first part from the `first` on that is under way, or `next` where none before that is.
pub fn first_under_way(stages: &[Stage], first: usize, next: usize) -> usize
    requires past { NoneBefore stages.now first }
    requires ordered { first ≤ next }
    requires within { next ≤ length stages.now }
    ensures past { NoneBefore stages.now result }
    ensures ordered { result ≤ next }
{
    let mut k = first;
    'parts: while k < next && !stages[k].is_under_way() {
        k += 1;
    }
    k
}

/// The part that is under way with a ticket.
pub fn find_handed(stages: &[Stage], first: usize, next: usize, ticket: Ticket) -> Option<usize>
    requires past { NoneBefore stages.now first }
    requires waiting { PendingFrom stages.now next }
    requires within { next ≤ length stages.now }
    ensures found { IfSome result (λ k. is_handed ticket.0 (stage_at stages.now k) ≡ true) }
    ensures none { IfNone result ((k : ℕ) → is_handed ticket.0 (stage_at stages.now k) ≡ false) }
{
    let mut k = first;
    'parts: while k < next {
        if stages[k].is_handed(ticket) {
            return Some(k);
        }
        k += 1;
    }
    None
}

/// Whether a part of `count` sectors was read or written.
pub fn is_success(write: bool, count: u32, outcome: &Outcome) -> bool
    requires { count ≤ 17 }
    ensures { result ≡ is_success write count outcome.now }
{
    match outcome {
        Outcome::Read(data) => !write && data.bytes().len() == SECTOR_LEN * count as usize,
        Outcome::Written => write,
        Outcome::Flushed
        | Outcome::Told(_)
        | Outcome::AtaError { .. }
        | Outcome::AoeError(_)
        | Outcome::GaveUp { .. } => false,
    }
}

/// Puts the data of a read in their place.
pub fn lay(bytes: &mut Blob, start: usize, outcome: &Outcome)
    requires { CanLay bytes.old start outcome.now }
    ensures { bytes.new ≡ laid bytes.old start outcome.now }
{
    match outcome {
        Outcome::Read(data) => bytes.overwrite(start, data.bytes()),
        Outcome::Written
        | Outcome::Flushed
        | Outcome::Told(_)
        | Outcome::AtaError { .. }
        | Outcome::AoeError(_)
        | Outcome::GaveUp { .. } => {}
    }
}

/// Notes how far a part is.
pub fn mark(stages: &mut Vec<Stage>, k: usize, stage: Stage)
    requires { k < length stages.old.items }
    ensures { stages.new.items ≡ set stages.old.items k stage }
{
    stages[k] = stage;
}
