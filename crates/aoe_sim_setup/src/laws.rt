//! What holds of the stations that a script declares.
ghost use Rattle.std.specs.Prelude.{◌≡◌, [], List, None, true};
ghost use Rattle.aoe_history.specs.Setup.{IsSetup};
ghost use Rattle.aoe_sim_setup.specs.Example.{expected, expected_marked, lines, marked_lines};
ghost use Rattle.aoe_sim_setup.specs.Layout.{setup_of};
ghost use Rattle.aoe_sim_setup.specs.Stations.{CanCome, HasHosts, HasRanges, HasShelves, HasStations};
ghost use Rattle.aoe_script.specs.declared.event.Event.{Event};
ghost use Rattle.aoe_script.specs.Lines.{IsScript, ScriptLines};
ghost use Rattle.aoe_script.specs.Rules.{event_why, is_event};

/// A law: the setup lines of every script declare stations of which each has an address and a name
/// of its own, and attach hosts to slots that are there.
pub fn layout_law()
    ensures setup { (script : ScriptLines) → IsScript script → IsSetup (setup_of script.setups) }
    ensures hosts { (script : ScriptLines) → IsScript script
        → HasHosts script.setups (setup_of script.setups) }
    ensures shelves { (script : ScriptLines) → IsScript script
        → HasShelves script.setups (setup_of script.setups) }
    ensures ranges { (script : ScriptLines) → IsScript script → HasRanges (setup_of script.setups) }
    ensures stations { (script : ScriptLines) → IsScript script → HasStations script.setups }
{}

/// A law: an event line in which nothing is wrong behind the setup lines of a script speaks of
/// stations and devices that are there, and its words are in their ranges.
pub fn events_law()
    ensures comes { (script : ScriptLines) (event : Event) → IsScript script
        → event_why script.setups event ≡ None
        → CanCome script.setups (setup_of script.setups) event }
    ensures ranges { (script : ScriptLines) (event : Event) → event_why script.setups event ≡ None
        → is_event event ≡ true }
{}

/// The setup of the worked cases is that of these lines, and a script can have them. With a line that
/// marks the slot behind them, the slot begins with the mark.
pub fn worked_layout()
    ensures setup { setup_of lines ≡ expected }
    ensures marked { setup_of marked_lines ≡ expected_marked }
    ensures script { IsScript (record { setups = lines; events = [] }) }
{}
