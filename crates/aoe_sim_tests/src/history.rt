use aoe_base::NoMemory;
use aoe_history::{Entry, History};
use std::test::Fail;

fn is_ticked(entry: &Entry) -> bool {
    matches!(entry, Entry::Ticked { ms: 5 })
}

fn is_lost(entry: &Entry) -> bool {
    matches!(entry, Entry::Lost { frame: 1 })
}

/// Pushes a tick and then a frame that is lost.
fn push_both(history: &mut History) -> Result<(), NoMemory> {
    history.push(Entry::Ticked { ms: 5 })?;
    history.push(Entry::Lost { frame: 1 })
}

/// Whether these two stand in their order.
fn has_both(history: &History) -> bool {
    history.count() == 2 && is_ticked(history.entry(0)) && is_lost(history.entry(1))
}

/// Whether the frame that is lost is taken back.
fn pops_lost(history: &mut History) -> bool {
    match history.pop() {
        Some(entry) => is_lost(&entry),
        None => false,
    }
}

#[test]
fn keeps_its_entries_in_order(rt: HostRuntime) -> Result<(), Fail> {
    let mut history = History::new(rt.alloc());
    push_both(&mut history)?;
    assert!(rt; has_both(&history) && pops_lost(&mut history) && history.count() == 1);
    Ok(())
}
