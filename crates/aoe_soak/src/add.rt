//! Events at the end of a script that takes them.
ghost use Rattle.std.specs.Prelude.{◌≡◌, ◌+◌, ◌<◌, ◌≤◌, ◌++◌, ◌∷◌, [], All, None, OnOk, length};
ghost use Rattle.aoe_script.specs.Lines.{most_events};
ghost use Rattle.aoe_script.specs.Rules.{event_why};
ghost use Rattle.aoe_soak.specs.Adds.{Takes, with_events};

use aoe_base::NoMemory;
use aoe_script::{Event, Script};

/// Adds an event with which nothing is wrong.
pub(crate) fn add(script: &mut Script, event: Event) -> Result<(), NoMemory>
    requires good { event_why script.old.setups event ≡ None }
    requires room { length script.old.events < most_events }
    ensures { OnOk result (script.new ≡ with_events script.old (event ∷ [])) }
{
    match script.push(event) {
        Ok(()) => Ok(()),
        Err(refusal) => Err(refusal.memory_alone()),
    }
}

/// Adds events with which nothing is wrong.
pub(crate) fn add_all<const N: usize>(
    script: &mut Script,
    events: [Event; N],
) -> Result<(), NoMemory>
    requires good { All (Takes script.old) events }
    requires room { length script.old.events + N ≤ most_events }
    ensures { OnOk result (script.new ≡ with_events script.old events.entry) }
{
    'events: for event in events {
        add(script, event)?;
    }
    Ok(())
}
