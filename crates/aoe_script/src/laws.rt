//! The laws that the text of a script meets.
ghost use Rattle.std.specs.Prelude.{◌≡◌, ◌≤◌, true, length, None};
ghost use Rattle.aoe_script.specs.declared.event.Event.{Event};
ghost use Rattle.aoe_script.specs.declared.line.Line.TheVariants.{Asks, Declares};
ghost use Rattle.aoe_script.specs.declared.setup.Setup.{Setup};
ghost use Rattle.aoe_script.specs.Forms.{line_of};
ghost use Rattle.aoe_script.specs.Lines.{most_script_bytes, refusal, script_of, IsScript, ScriptLines};
ghost use Rattle.aoe_script.specs.Print.{event_words, script_text, setup_words, spelled};
ghost use Rattle.aoe_script.specs.Rules.{is_event, is_setup};
ghost use Rattle.aoe_script.specs.Types.{FitsEvent, FitsSetup};

use aoe_base::{device_law, mac_reads_back};

/// A law: a printed line whose words are in their ranges says what it was printed for. Its end is no
/// part of it.
pub fn printed_line_reads_back()
    ensures setup { (setup : Setup) → is_setup setup ≡ true → FitsSetup setup
        → line_of (spelled (setup_words setup)) ≡ Declares setup }
    ensures event { (event : Event) → is_event event ≡ true → FitsEvent event
        → line_of (spelled (event_words event)) ≡ Asks event }
{
    mac_reads_back();
    device_law();
}

/// A law: a script is read from its text, which is refused for nothing but its length. Every
/// [`Script`](crate::Script) is one of these.
pub fn printed_script_reads_back()
    ensures reads { (script : ScriptLines) → IsScript script
        → script_of (script_text script) ≡ script }
    ensures accepted { (script : ScriptLines) → IsScript script
        → length (script_text script) ≤ most_script_bytes → refusal (script_text script) ≡ None }
{
    mac_reads_back();
    device_law();
}
