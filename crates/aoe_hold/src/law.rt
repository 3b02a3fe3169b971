//! The law that a clear command meets.
ghost use Rattle.std.specs.Prelude.{◌≡◌, ℕ, ◌↔◌, List, true};
ghost use Rattle.aoe_hold.specs.Commands.{is_clear, IsClear};
ghost use Rattle.aoe_hold.specs.declared.command.Command.{Command};

/// A clear command was never sent, each earlier command in conflict with it is finished, and,
/// where it writes, flushes or edits, no frame of an earlier write or edit in conflict can arrive
/// any more; and a command of which all that is true is clear.
pub fn clear_law()
    ensures { (life now : ℕ) (entered : List Command) (c : Command)
        → (is_clear life now entered c ≡ true) ↔ (IsClear life now entered c) }
{}
