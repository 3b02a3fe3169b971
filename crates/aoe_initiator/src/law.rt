//! What the tables of a host say of all that it did.
ghost use Rattle.std.specs.Prelude.{◌≡◌, ◌<◌, ℕ, List, length};
ghost use Rattle.aoe_hold.specs.Commands.{unsent_count};
ghost use Rattle.aoe_initiator.specs.Host.{Host, Matches};
ghost use Rattle.aoe_initiator.specs.HostLaw.{held_at};
ghost use Rattle.aoe_initiator.specs.HostLog.{commands, entered_at, Event};

/// A law: as many commands are held at a device as were submitted to it and never sent.
pub fn held_law()
    ensures { (log : List Event) (host : Host) (n : ℕ) → Matches log host → n < length host.devices
        → held_at host n ≡ unsent_count (entered_at n (commands log)) }
{}
