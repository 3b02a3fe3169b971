//! What the clients of a server read, and what of theirs outlives a crash.
ghost use Rattle.std.specs.Prelude.{ℕ, ◌≡◌, List, false, true};
ghost use Rattle.aoe_block.specs.Steps.{owns};
ghost use Rattle.aoe_desk.specs.declared.reply.Reply.{Reply};
ghost use Rattle.aoe_history.specs.declared.entry.Entry.{Entry};
ghost use Rattle.aoe_history.specs.Reading.{alone};
ghost use Rattle.aoe_history.specs.Setup.{HostSetup, Setup, SlotSetup};
ghost use Rattle.aoe_nbd_serve.specs.Account.{ServeStep, Setting};
ghost use Rattle.aoe_nbd_serve.specs.Deeds.{calls_of};
ghost use Rattle.aoe_target.specs.Sectors.{in_span, value_in};
ghost use Rattle.aoe_nbd_law.specs.Clients.{IsReadBehind, OutlivesCrashes, IsHostOf};
ghost use Rattle.aoe_nbd_law.specs.Requests.{span_asked, Answers};

use crate::ordered::{flushed_sectors_law, ordered_reads_law};
use aoe_history::host_commands_law;

/// A law: in every lawful history of a host that serves clients, a READ that was answered without an
/// error gives, of each sector in which the host is alone and that isn't in doubt, what a WRITE wrote
/// that was answered without an error before the READ came, or what a later command of the server
/// wrote. Behind a FLUSH, or a WRITE with FUA, that was answered without an error no crash changes what
/// may be read of the sectors that were so written before it came, until a later write of them.
pub fn client_law()
    ensures reads { (s : Setup) (host : HostSetup) (slot : SlotSetup) (h : List Entry) (c : Setting) (steps : List ServeStep)
        → IsHostOf s host slot h c steps → (reply earlier : Reply) (sector : ℕ) → alone host slot h sector ≡ true
        → (x : Answers c.terms.total c.terms.max (calls_of (owns steps)) reply)
        → (reads : x.asked.reads ≡ true) → (asked : in_span (span_asked x.asked) sector ≡ true)
        → (y : Answers c.terms.total c.terms.max x.come.earlier earlier)
        → (writes : y.asked.reads ≡ false) → (wrote : in_span (span_asked y.asked) sector ≡ true)
        → IsReadBehind host slot h sector (y.written writes sector wrote).ticket.0 (x.read reads sector asked).ticket.0
        (value_in (span_asked y.asked) y.asked.bytes sector) (value_in (span_asked x.asked) reply.payload sector) }
    ensures outlives { (s : Setup) (host : HostSetup) (slot : SlotSetup) (h : List Entry) (c : Setting) (steps : List ServeStep)
        → IsHostOf s host slot h c steps → (reply earlier : Reply) (sector : ℕ)
        → (x : Answers c.terms.total c.terms.max (calls_of (owns steps)) reply) → (lasts : x.asked.lasts ≡ true)
        → (y : Answers c.terms.total c.terms.max x.come.earlier earlier)
        → (writes : y.asked.reads ≡ false) → (wrote : in_span (span_asked y.asked) sector ≡ true)
        → OutlivesCrashes host slot h sector (y.written writes sector wrote).ticket.0 (x.flushed lasts).ticket.0
        (value_in (span_asked y.asked) y.asked.bytes sector) }
    ensures lasting { (s : Setup) (host : HostSetup) (slot : SlotSetup) (h : List Entry) (c : Setting) (steps : List ServeStep)
        → IsHostOf s host slot h c steps → (reply : Reply) (sector : ℕ)
        → (x : Answers c.terms.total c.terms.max (calls_of (owns steps)) reply) → (lasts : x.asked.lasts ≡ true)
        → (writes : x.asked.reads ≡ false) → (wrote : in_span (span_asked x.asked) sector ≡ true)
        → OutlivesCrashes host slot h sector (x.written writes sector wrote).ticket.0 (x.flushed lasts).ticket.0
        (value_in (span_asked x.asked) x.asked.bytes sector) }
{
    host_commands_law();
    ordered_reads_law();
    flushed_sectors_law();
}
