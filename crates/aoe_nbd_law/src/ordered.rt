//! What a host reads of a sector that it wrote, by the order of its commands.
ghost use Rattle.std.specs.Prelude.{ℕ, ◌≡◌, ◌<◌, ◌∷◌, List, Some, true, Contains};
ghost use Rattle.aoe_base.specs.declared.address.TargetId.{TargetId};
ghost use Rattle.aoe_base.specs.declared.sectors.Span.{Span};
ghost use Rattle.aoe_disk.specs.declared.loss.Loss.{Loss};
ghost use Rattle.aoe_initiator.specs.declared.op.Op.TheVariants.{Flush, Read};
ghost use Rattle.aoe_initiator.specs.declared.outcome.Outcome.TheVariants as outcome;
ghost use Rattle.aoe_lists.specs.Settings.{Settings};
ghost use Rattle.aoe_target.specs.Sectors.{in_span, value_in};
ghost use Rattle.aoe_history.specs.declared.entry.Entry.{Entry};
ghost use Rattle.aoe_history.specs.declared.entry.Entry.TheVariants.{Crashed};
ghost use Rattle.aoe_history.specs.Commands.{submission};
ghost use Rattle.aoe_history.specs.CommandView.{AsksAt};
ghost use Rattle.aoe_history.specs.Lawful.{HasHost};
ghost use Rattle.aoe_history.specs.Reading.{allowed, alone};
ghost use Rattle.aoe_history.specs.Setup.{HostSetup, Setup, SlotSetup};
ghost use Rattle.aoe_nbd_law.specs.Outcomes.{is_sure, HasEnded, IsAcknowledged, IsLastWriteBefore, IsWholeSince, IsWriteSince};

use aoe_history::{host_commands_law, read_law};

/// A law: in every lawful history a read gives, of each sector in which the host is alone and that no
/// fault and no crash left in doubt, the value of the last write of it that was submitted before the
/// read and acknowledged, or of a later one that was submitted before the read.
pub fn ordered_reads_law()
    ensures { (s : Setup) (host : HostSetup) (slot : SlotSetup) (h : List Entry) → HasHost s host h → Contains s.slots slot
        → (sector c w : ℕ) (span : Span) (bytes : List ℕ) → (x : HasEnded host h c (outcome.Read bytes))
        → AsksAt slot (submission host h c) (Read span) → in_span span sector ≡ true
        → alone host slot h sector ≡ true → is_sure host slot x.earlier sector ≡ true
        → IsAcknowledged host slot h sector w → w < c
        → IsWriteSince host slot h sector w c (value_in span bytes sector) }
{
    host_commands_law();
    read_law();
}

/// A law: in every lawful history, once a flush is acknowledged, and as long as no write of a sector
/// that was submitted behind it is sent, no crash leaves the sector in doubt: what may be read of it
/// stays what it is. So a sector that wasn't in doubt at the flush isn't afterwards, unless a write of
/// the slot failed or was cut off.
pub fn flushed_sectors_law()
    ensures keeps { (s : Setup) (host : HostSetup) (slot : SlotSetup) (h : List Entry) → HasHost s host h
        → (sector c : ℕ) → HasEnded host h c outcome.Flushed → AsksAt slot (submission host h c) Flush
        → IsLastWriteBefore host slot h sector c
        → (dev : TargetId) (lists : Settings) (how : Loss)
        → allowed host slot (Crashed dev lists how ∷ h) sector ≡ allowed host slot h sector }
    ensures sure { (s : Setup) (host : HostSetup) (slot : SlotSetup) (h : List Entry) → HasHost s host h
        → (sector c : ℕ) → (x : HasEnded host h c outcome.Flushed) → AsksAt slot (submission host h c) Flush
        → IsLastWriteBefore host slot h sector c
        → is_sure host slot x.earlier sector ≡ true → IsWholeSince slot sector x
        → is_sure host slot h sector ≡ true }
{
    host_commands_law();
}
