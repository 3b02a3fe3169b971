//! The call that the program makes.
ghost use Rattle.std.specs.Prelude.{◌≡◌, ◌≢◌, ◌≤◌, ◌<◌, ◌+◌, ◌↔◌, List, ℕ, false, true, All, length, IfSome, IsSome, None, Some};
ghost use Rattle.aoe_io.specs.Stream.{stream, IsFrame};
ghost use Rattle.aoe_lists.specs.Settings.{Settings};
ghost use Rattle.aoe_base.specs.Sizes.{most_streamed};
ghost use Rattle.aoe_serve.specs.Exporting.{AtFirst, CanExport};
ghost use Rattle.aoe_world.specs.Replay.{IsFaultless};
ghost use Rattle.aoe_script.specs.Lines.{refusal, script_of};
ghost use Rattle.aoe_soak.specs.Soak.{soaked};
ghost use Rattle.aoe_tools.specs.Runs.{told};
ghost use Rattle.aoe_args.specs.Words.{CanSoak, IsInRange, file_count, link_count};
ghost use Rattle.aoe_args.specs.declared.command.Answer.{Answer as Answers};
ghost use Rattle.aoe_args.specs.declared.command.Audit.{Audit as Audits};
ghost use Rattle.aoe_args.specs.declared.command.Serve.{Serve as Serves};
ghost use Rattle.aoe_args.specs.declared.command.Get.{Get as Gets};
ghost use Rattle.aoe_args.specs.declared.command.KeepAction.{KeepAction};
ghost use Rattle.aoe_args.specs.declared.command.Live.{Live as Lives};
ghost use Rattle.aoe_args.specs.declared.command.Mirror.{Mirror as Mirrors};
ghost use Rattle.aoe_args.specs.declared.command.Nbd.{Nbd as Nbds};
ghost use Rattle.aoe_args.specs.declared.command.Put.{Put as Puts};
ghost use Rattle.aoe_args.specs.declared.command.Soak.{Soak as Soaks};
ghost use Rattle.aoe_args.specs.declared.command.Tool.{Tool};
ghost use Rattle.aoe_base.specs.Faults.{Blamed, Rose};
ghost use Rattle.aoe.specs.Auditing.{RunsAudit};
ghost use Rattle.aoe.specs.Commands.{exports, has_sides, is_get, is_live, is_mirror, is_nbd, is_over_keep, reads_input, uses_clock};
ghost use Rattle.aoe.specs.Comparing.{RunsCompare};
ghost use Rattle.aoe.specs.Keeping.{RunsKeep};
ghost use Rattle.aoe.specs.Live.{AreBlamed, AtBoth, RunsLive, ends};
ghost use Rattle.aoe.specs.Ending.{file_at, keep_at, refused_slot};
ghost use Rattle.aoe.specs.Mirror.{AreTold, RunsMirror};
ghost use Rattle.aoe.specs.Serving.{door_seen};
ghost use Rattle.aoe.specs.Run.{Asked, HasLists, HasReplayed, IsBad, IsExportedTo, IsGot, IsPut, IsSmall, NothingLoose, OnSlot, Ran, RanFiles, RanScript, RanSoak, Refused};

use crate::audit::run_audit;
use crate::compare::run_compare;
use crate::door::Door;
use crate::live::run_live;
use crate::mirror::run_mirror;
use crate::nbd::run_nbd;
use crate::plan::{answer_plan, refused_as, replayed_as, serve_plan, status_of};
use crate::status::Status;
use crate::switch::run_switch;
use crate::tools::{run_get, run_put, run_tool};
use crate::upkeep::run_keep;
use aoe_args::{Command, Soak};
use aoe_clients::{Bell, Clients};
use aoe_copy::Watch;
use aoe_disk::Disk;
use aoe_io::{Clock, Link, Sink, Source};
use aoe_mirror::MirrorWatch;
use aoe_nbd_serve::Ending;
use aoe_serve::{ExportOptions, ExportRefusal, Plan, export};
use aoe_world::{replay, soak};
use std::alloc::Global;

/// Runs a plan over files and links.
fn run_files<S: Source, K: Sink, D: Disk + Drop, L: Link>(
    alloc: Global,
    options: ExportOptions,
    plan: Plan,
    source: &mut S,
    sink: &mut K,
    disks: &mut [Option<D>],
    links: &mut [L],
) -> Status
    requires possible { CanExport options plan (length disks.old) (length links.old) }
    requires there { All IsSome disks.old }
    ensures run { refused_slot result ≡ None → result ≢ Status.NoMemory → RanFiles D.state options plan
        record { left = S.left; held = K.held; turns = L.turns; given = L.given; taken = L.taken } result
        record { source = source.old; sink = sink.old; links = links.old } record { source = source.new; sink = sink.new; links = links.new }
        disks.old disks.new }
    ensures refused { (slot : ℕ) → refused_slot result ≡ Some slot
        → Refused D.state result slot disks.old disks.new }
    ensures unread { IsSome (refused_slot result)
        → (source.new ≡ source.old) × (sink.new ≡ sink.old) × (links.new ≡ links.old) }
    ensures memory { result ≡ Status.NoMemory → (source.new ≡ source.old) × (sink.new ≡ sink.old)
        × (disks.new ≡ disks.old) × (links.new ≡ links.old) }
    ensures usage { result ≢ Status.Usage }
    ensures unheard { result ≢ Status.ClientFault }
    ensures there { All IsSome disks.new }
    ensures source { Blamed (result ≡ Status.SourceFault) (S.faults source.old)
        (S.faults source.new) }
    ensures sink { Blamed (result ≡ Status.SinkFault) (K.faults sink.old) (K.faults sink.new) }
    ensures first { AtFirst (λ a b. Blamed (result ≡ Status.LinkFault 0) (L.faults a)
        (L.faults b)) links.old links.new }
    ensures alone { (link : ℕ) → result ≡ Status.LinkFault link → link ≡ 0 }
{
    match export(alloc, options, plan, source, sink, disks, links) {
        Ok(exported) => status_of(exported),
        Err(ExportRefusal::NoMemory) => Status::NoMemory,
        Err(ExportRefusal::Keep { slot, refusal }) => refused_as(slot, refusal),
    }
}

/// Runs the script that the source gives.
fn run_script<S: Source, K: Sink>(alloc: Global, source: &mut S, sink: &mut K) -> Status
    ensures run { RanScript S.left K.held result source.old source.new sink.old sink.new }
    ensures unrefused { refused_slot result ≡ None }
    ensures disks { (disk : ℕ) → result ≢ Status.DiskFault disk }
    ensures links { (link : ℕ) → result ≢ Status.LinkFault link }
    ensures usage { result ≢ Status.Usage }
    ensures unheard { result ≢ Status.ClientFault }
    ensures memory { result ≡ Status.NoMemory → sink.new ≡ sink.old }
    ensures source { Blamed (result ≡ Status.SourceFault) (S.faults source.old)
        (S.faults source.new) }
    ensures sink { Blamed (result ≡ Status.SinkFault) (K.faults sink.old) (K.faults sink.new) }
    ensures replays { (text : List ℕ) → S.left source.old ≡ Some text → refusal text ≡ None
        → IsFaultless (S.faults source.old) (S.faults source.new) → IsFaultless (K.faults sink.old) (K.faults sink.new) → HasReplayed (script_of text) result }
{
    replayed_as(replay(alloc, source, sink))
}

/// Runs the script that a number makes.
fn run_soak<K: Sink>(alloc: Global, asked: Soak, sink: &mut K) -> Status
    requires { CanSoak asked }
    ensures run { RanSoak K.held asked result sink.old sink.new }
    ensures unrefused { refused_slot result ≡ None }
    ensures disks { (disk : ℕ) → result ≢ Status.DiskFault disk }
    ensures links { (link : ℕ) → result ≢ Status.LinkFault link }
    ensures usage { result ≢ Status.Usage }
    ensures unheard { result ≢ Status.ClientFault }
    ensures source { result ≢ Status.SourceFault }
    ensures memory { result ≡ Status.NoMemory → sink.new ≡ sink.old }
    ensures sink { Blamed (result ≡ Status.SinkFault) (K.faults sink.old) (K.faults sink.new) }
    ensures soaks { IsFaultless (K.faults sink.old) (K.faults sink.new)
        → HasReplayed (soaked asked.seed asked.count) result }
{
    replayed_as(soak(alloc, asked.seed, asked.count, sink))
}

/// Runs a command: over its files and links, or the script that the source gives.
fn run_command<
    S: Source,
    K: Sink,
    D: Disk + Drop,
    L: Link,
    C: Clock,
    W: Watch,
    M: MirrorWatch + Drop,
    P: Clients,
    B: Bell,
    E: Ending,
>(
    alloc: Global,
    command: &Command,
    source: &mut S,
    sink: &mut K,
    disks: &mut [Option<D>],
    links: &mut [L],
    clock: &mut C,
    watch: &mut W,
    sides: M,
    door: &mut Door<P, B, E>,
) -> Status
    requires range { IsInRange command.now }
    requires count { length disks.old ≡ file_count command.now }
    requires there { All IsSome disks.old }
    requires links { length links.old ≡ link_count command.now }
    requires told { is_mirror command.now ≡ true → AreTold D.state disks.old }
    requires nobody { is_nbd command.now ≡ true → P.connected door.old.clients ≡ false }
    ensures run { refused_slot result ≡ None → result ≢ Status.NoMemory → Ran D.state command.now
        record { left = S.left; held = K.held; turns = L.turns; given = L.given; taken = L.taken } result
        record { source = source.old; sink = sink.old; links = links.old } record { source = source.new; sink = sink.new; links = links.new }
        disks.old disks.new }
    ensures refused { has_sides command.now ≡ false → (slot : ℕ) → refused_slot result ≡ Some slot
        → Refused D.state result slot disks.old disks.new }
    ensures unread { has_sides command.now ≡ false → IsSome (refused_slot result)
        → (source.new ≡ source.old) × (sink.new ≡ sink.old) × (links.new ≡ links.old) }
    ensures mirrors { (asked : Mirrors) → command.now ≡ Command.Mirror asked → RunsMirror D.state asked
        record { left = S.left; held = K.held; turns = L.turns; given = L.given; taken = L.taken } result
        record { source = source.old; sink = sink.old; links = links.old } record { source = source.new; sink = sink.new; links = links.new }
        disks.old disks.new }
    ensures keeps { (action : KeepAction) → command.now ≡ Command.Keep action
        → RunsKeep D.state action result (K.held sink.old) (K.held sink.new) disks.old disks.new }
    ensures audits { (asked : Audits) → command.now ≡ Command.Audit asked
        → RunsAudit D.state asked result (S.left source.old) (S.left source.new) (K.held sink.old)
        (K.held sink.new) disks.old disks.new }
    ensures compares { command.now ≡ Command.Compare
        → RunsCompare D.state result (K.held sink.old) (K.held sink.new) disks.old disks.new
        × (source.new ≡ source.old) × (links.new ≡ links.old) }
    ensures memory { result ≡ Status.NoMemory → (reads_input command.now ≡ false
        → source.new ≡ source.old) × (is_get command.now ≡ false → sink.new ≡ sink.old)
        × (has_sides command.now ≡ false → is_over_keep command.now ≡ false → disks.new ≡ disks.old) × (uses_clock command.now ≡ false → links.new ≡ links.old) }
    ensures asks { (tool : Tool) → command.now ≡ Command.Ask tool → Asked K.held (λ a b. told C.least C.answers L.turns L.given L.taken clock.old clock.new a b) tool result sink.old sink.new links.old links.new }
    ensures gets { (asked : Gets) → command.now ≡ Command.Get asked → IsGot K.held (λ a b. told C.least C.answers L.turns L.given L.taken clock.old clock.new a b) asked result sink.old sink.new links.old links.new }
    ensures puts { (asked : Puts) → command.now ≡ Command.Put asked → IsPut S.left (λ a b. told C.least C.answers L.turns L.given L.taken clock.old clock.new a b) asked result source.old source.new links.old links.new }
    ensures nbds { (asked : Nbds) → command.now ≡ Command.Nbd asked → IsExportedTo (door_seen P.told P.connected B.waits E.answers) (λ a b. told C.least C.answers L.turns L.given L.taken clock.old clock.new a b) asked result door.old door.new links.old links.new }
    ensures door { is_nbd command.now ≡ false → door.new ≡ door.old }
    ensures lives { (asked : Lives) → command.now ≡ Command.Live asked → AtBoth (λ one one' two two'. RunsLive asked result (K.held sink.old) (K.held sink.new)
        (ends C.answers L.turns L.given L.taken one two clock.old) (ends C.answers L.turns L.given L.taken one' two' clock.new)
        × AreBlamed result (L.faults one) (L.faults one') (L.faults two) (L.faults two')) links.old links.new }
    ensures clock { uses_clock command.now ≡ false → clock.new ≡ clock.old }
    ensures usage { result ≢ Status.Usage }
    ensures there { All IsSome disks.new }
    ensures source { Blamed (result ≡ Status.SourceFault) (S.faults source.old)
        (S.faults source.new) }
    ensures sink { Blamed (result ≡ Status.SinkFault) (K.faults sink.old) (K.faults sink.new) }
    ensures clients { Blamed (result ≡ Status.ClientFault) (P.faults door.old.clients)
        (P.faults door.new.clients) }
    ensures first { is_live command.now ≡ false
        → AtFirst (λ a b. Blamed (result ≡ Status.LinkFault 0) (L.faults a)
        (L.faults b)) links.old links.new }
    ensures alone { is_live command.now ≡ false → (link : ℕ) → result ≡ Status.LinkFault link
        → link ≡ 0 }
    ensures soaks { (asked : Soaks) → command.now ≡ Command.Soak asked
        → IsFaultless (K.faults sink.old) (K.faults sink.new)
        → HasReplayed (soaked asked.seed asked.count) result }
    ensures replays { (text : List ℕ) → command.now ≡ Command.Replay → S.left source.old ≡ Some text → refusal text ≡ None
        → IsFaultless (S.faults source.old) (S.faults source.new) → IsFaultless (K.faults sink.old) (K.faults sink.new) → HasReplayed (script_of text) result }
{
    match command {
        Command::Answer(answer) => {
            let (options, plan) = answer_plan(*answer);
            run_files(alloc, options, plan, source, sink, disks, links)
        }
        Command::Serve(serve) => {
            let (options, plan) = serve_plan(serve);
            run_files(alloc, options, plan, source, sink, disks, links)
        }
        Command::Mirror(asked) => run_mirror(alloc, *asked, source, sink, disks, links, sides),
        Command::Replay => run_script(alloc, source, sink),
        Command::Soak(asked) => run_soak(alloc, *asked, sink),
        Command::Live(asked) => {
            let (one, two) = links.split_at_mut(1);
            run_live(alloc, asked, sink, &mut one[0], &mut two[0], clock)
        }
        Command::Switch(asked) => run_switch(alloc, asked.ports.as_slice(), source, sink),
        Command::Ask(tool) => run_tool(alloc, tool, sink, &mut links[0], clock),
        Command::Get(asked) => run_get(alloc, asked, sink, &mut links[0], clock, watch),
        Command::Put(asked) => run_put(alloc, asked, source, &mut links[0], clock, watch),
        Command::Nbd(asked) => run_nbd(alloc, asked, &mut links[0], clock, watch, door),
        Command::Keep(action) => run_keep(alloc, *action, sink, disks),
        Command::Compare => run_compare(alloc, sink, disks),
        Command::Audit(asked) => run_audit(alloc, asked, source, sink, disks),
    }
}

/// Runs a command over its files and links, the standard streams and the clock.
///
/// `answer SHELF SLOT FILE KEEP` answers each frame that the source's stream brings, as the target
/// SHELF.SLOT over the first disk and behind the port that `--port` names, with at most one frame on
/// the sink's stream. `serve SHELF FILE KEEP ..` answers each frame that the first link brings, as
/// the targets SHELF.0, SHELF.1 and so on over the pairs of disks (or from another slot on, as `Serve`
/// says) and behind the ports that `--ports` names, until `--frames` frames came or `--idle` consecutive
/// turns brought none. A frame carries as much as `--mtu` says. Each target holds back as many sectors
/// that were written as `--cache` says, until it has no room or its store is synced. With `--durable`
/// each write is synced before it is answered, and what it wrote outlives every loss of power until a
/// later write to it.
///
/// `mirror SHELF SLOT FILE FILE MARK KEEP` answers as `answer` does, or where it has a link as `serve`
/// does, over two sides, the first two disks, either of which may fail. The third says which of them
/// leads, and the fourth is the keep. The sides are made equal before the first frame is read, and at the
/// end of a run that went well. When one fails, leads in the place of the other or has all sectors again,
/// `sides` is told. `mirror --check FILE FILE MARK` compares the sides: which of them leads, which sectors
/// differ and how many goes to the sink as text; no sector is changed.
///
/// The tools ask over the first link and the clock: `discover` and `stat` which targets there are, with
/// their sizes and states, `cfg`, `mask` and `reserve` one target for a list or a change of it; what they
/// are told goes to the sink as text. `get` copies sectors of a target to the sink, each as soon as all
/// before it came, and `put` what the source gives to sectors, up to 32,768 of them once all are read and
/// more of them as they are read; `--no-flush` leaves out the flush at its end. `--lifetime` is how long a
/// frame can be on its way. How far a copy has come the watch is told. `--port` is who asks, and `--turns`
/// how long each listens.
///
/// `nbd DEV` looks a target up as the tools do, and serves it as a disk to the clients of the door, one
/// after another, until the end is asked for: by the door, by `--once` or by `--idle`. It submits nothing
/// for twice `--lifetime`. At the end each request that came whole has its outcome, and a flush follows if a
/// write was acknowledged, but for `--no-flush`. The watch is told how many sectors the target has.
///
/// `replay` reads the source to its end as a script, runs the events of the script through shelves
/// and hosts in memory, and puts the text of what happened on the sink. Whatever a schedule loses,
/// repeats, delays within the frame lifetime, injects, fails or crashes, in the printed history a
/// source outside a nonempty mask list gets silence and changes nothing, ATA commands from outside a
/// nonempty reserve list get error 6 and change nothing, other requests get the written answer, and a
/// host alone in its range reads only what its writes, their acknowledgements, flushes, faults and
/// crashes allow. Nothing is written before the last event is done, and where the run doesn't come to
/// it, nothing is. `soak SEED N` does so with a script that it makes, and puts the last line of the text
/// on the sink.
///
/// `switch PORT PORT ..` reads frames from the source's stream, each behind the number of the port at
/// which it comes in, and writes on the sink's what the ports give of it, before it reads the next. A
/// port is of one VLAN or, as a trunk, of several; a frame goes to the port of its destination where
/// that was a source in its VLAN, to the VLAN's other ports where it wasn't, and never to a port of
/// another VLAN.
///
/// `keep KEEP ACTION` mounts a keep that no shelf serves, as the first disk. `show` puts a line on the
/// sink with the lists that it holds and the number of their format; no sector is changed. `upgrade`
/// writes the lists in the format that is written now, and `lock` and `unlock` set and clear their
/// read-only mark: every crash finds them so afterwards, and where a call of the disk fails it finds
/// them as they were or so.
///
/// `audit SHELF SLOT SECTORS KEEP` mounts the keep of a target, as the first disk, and judges the capture
/// that the source gives of its wire: the target had the lists of the keep when the capture began, and
/// SECTORS sectors of which nothing is known. Where each of its replies is a written answer to its request
/// and none is missing, a line with the counts goes to the sink.
///
/// Of `answer` and `serve` the second disk of each pair is the keep of the target's lists. All keeps are mounted first, and
/// where one is refused nothing is read, written or sent. At the end each store is synced, however
/// the run ended.
///
/// Memory is taken for the shelf and its stores before the first keep is mounted; then no more. A replay
/// takes memory until its text is written, and so does a tool; `keep` takes it for its line.
pub fn aoe<
    S: Source,
    K: Sink,
    D: Disk + Drop,
    L: Link,
    C: Clock,
    W: Watch,
    M: MirrorWatch + Drop,
    P: Clients,
    B: Bell,
    E: Ending,
>(
    alloc: Global,
    command: &Command,
    source: &mut S,
    sink: &mut K,
    disks: &mut [Option<D>],
    links: &mut [L],
    clock: &mut C,
    watch: &mut W,
    sides: M,
    door: &mut Door<P, B, E>,
) -> Status
    requires range { IsInRange command.now }
    requires count { length disks.old ≡ file_count command.now }
    requires there { All IsSome disks.old }
    requires links { length links.old ≡ link_count command.now }
    requires told { is_mirror command.now ≡ true → AreTold D.state disks.old }
    requires nobody { is_nbd command.now ≡ true → P.connected door.old.clients ≡ false }
    ensures usage { result ≢ Status.Usage }

    // A keep is refused, or the run is one of the shelf law, or the history of a script is lawful and read as was written.
    ensures refused { has_sides command.now ≡ false → (slot : ℕ) → refused_slot result ≡ Some slot
        → Refused D.state result slot disks.old disks.new }
    ensures unread { has_sides command.now ≡ false → IsSome (refused_slot result)
        → (source.new ≡ source.old) × (sink.new ≡ sink.old) × (links.new ≡ links.old) }
    ensures run { refused_slot result ≡ None → result ≢ Status.NoMemory → Ran D.state command.now
        record { left = S.left; held = K.held; turns = L.turns; given = L.given; taken = L.taken } result
        record { source = source.old; sink = sink.old; links = links.old } record { source = source.new; sink = sink.new; links = links.new }
        disks.old disks.new }
    ensures settled { exports command.now ≡ true → (slot : ℕ) → result ≡ Status.Ok
        → OnSlot (λ _ file' _ _. IfSome (D.state file').contents NothingLoose) slot disks.old disks.new }
    ensures there { All IsSome disks.new }

    // A mirror of two sides is the store of one slot.
    ensures mirrors { (asked : Mirrors) → command.now ≡ Command.Mirror asked → RunsMirror D.state asked
        record { left = S.left; held = K.held; turns = L.turns; given = L.given; taken = L.taken } result
        record { source = source.old; sink = sink.old; links = links.old } record { source = source.new; sink = sink.new; links = links.new }
        disks.old disks.new }

    // A keep is shown or changed while no shelf runs over it.
    ensures keeps { (action : KeepAction) → command.now ≡ Command.Keep action
        → RunsKeep D.state action result (K.held sink.old) (K.held sink.new) disks.old disks.new }

    // A capture of a target's wire is judged by the lists of its keep.
    ensures audits { (asked : Audits) → command.now ≡ Command.Audit asked
        → RunsAudit D.state asked result (S.left source.old) (S.left source.new) (K.held sink.old)
        (K.held sink.new) disks.old disks.new }

    // The sides of a mirror are compared, and stay as they are.
    ensures compares { command.now ≡ Command.Compare
        → RunsCompare D.state result (K.held sink.old) (K.held sink.new) disks.old disks.new
        × (source.new ≡ source.old) × (links.new ≡ links.old) }

    // When a fault is told: an object whose fault isn't told had none, and one whose fault is told had one, since the first trouble ends
    // the run. Of a command that exports files as slots, the faults of files and keeps, and when a keep is refused.
    ensures source { Blamed (result ≡ Status.SourceFault) (S.faults source.old)
        (S.faults source.new) }
    ensures sink { Blamed (result ≡ Status.SinkFault) (K.faults sink.old) (K.faults sink.new) }
    ensures clients { Blamed (result ≡ Status.ClientFault) (P.faults door.old.clients)
        (P.faults door.new.clients) }
    ensures link { is_live command.now ≡ false
        → AtFirst (λ a b. Blamed (result ≡ Status.LinkFault 0) (L.faults a) (L.faults b)) links.old links.new }
    ensures one_link { is_live command.now ≡ false → (link : ℕ) → result ≡ Status.LinkFault link
        → link ≡ 0 }
    ensures disk_fault { (disk : ℕ) → result ≡ Status.DiskFault disk → disk < length disks.old }
    ensures file_fault { exports command.now ≡ true → (slot : ℕ) → result ≡ Status.DiskFault (file_at slot)
        → OnSlot (λ file file' _ _. Rose (D.state file).faults (D.state file').faults) slot disks.old disks.new }
    ensures keep_fault { exports command.now ≡ true → (slot : ℕ) → result ≡ Status.DiskFault (keep_at slot)
        → OnSlot (λ _ _ keep keep'. Rose (D.state keep).faults (D.state keep').faults) slot disks.old disks.new }
    ensures keep_small { exports command.now ≡ true → (slot sectors : ℕ)
        → OnSlot (λ _ _ keep _. (result ≡ Status.KeepSmall (keep_at slot) sectors) ↔ IsSmall (D.state keep) result slot sectors) slot disks.old disks.new }
    ensures keep_bad { exports command.now ≡ true → (slot bad : ℕ) → OnSlot (λ _ _ keep _. IfSome (D.state keep).contents (λ c.
        (result ≡ Status.KeepBad (keep_at slot) bad) ↔ IsBad (D.state keep) c result slot bad)) slot disks.old disks.new }
    ensures memory { result ≡ Status.NoMemory → (reads_input command.now ≡ false → source.new ≡ source.old)
        × (is_get command.now ≡ false → sink.new ≡ sink.old)
        × (has_sides command.now ≡ false → is_over_keep command.now ≡ false → disks.new ≡ disks.old)
        × (uses_clock command.now ≡ false → links.new ≡ links.old) }

    // What a tool asks, when it ends and what it says; and what clients are served.
    ensures asks { (tool : Tool) → command.now ≡ Command.Ask tool → Asked K.held (λ a b. told C.least C.answers L.turns L.given L.taken clock.old clock.new a b) tool result sink.old sink.new links.old links.new }
    ensures gets { (asked : Gets) → command.now ≡ Command.Get asked → IsGot K.held (λ a b. told C.least C.answers L.turns L.given L.taken clock.old clock.new a b) asked result sink.old sink.new links.old links.new }
    ensures puts { (asked : Puts) → command.now ≡ Command.Put asked → IsPut S.left (λ a b. told C.least C.answers L.turns L.given L.taken clock.old clock.new a b) asked result source.old source.new links.old links.new }
    ensures nbds { (asked : Nbds) → command.now ≡ Command.Nbd asked → IsExportedTo (door_seen P.told P.connected B.waits E.answers) (λ a b. told C.least C.answers L.turns L.given L.taken clock.old clock.new a b) asked result door.old door.new links.old links.new }
    ensures door { is_nbd command.now ≡ false → door.new ≡ door.old }
    ensures lives { (asked : Lives) → command.now ≡ Command.Live asked → AtBoth (λ one one' two two'. RunsLive asked result (K.held sink.old) (K.held sink.new)
        (ends C.answers L.turns L.given L.taken one two clock.old) (ends C.answers L.turns L.given L.taken one' two' clock.new)
        × AreBlamed result (L.faults one) (L.faults one') (L.faults two) (L.faults two')) links.old links.new }
    ensures clock { uses_clock command.now ≡ false → clock.new ≡ clock.old }

    // With no fault keeps that hold lists are mounted, and then a stream of frames is answered to its end, and a link is served;
    // and a script with no bad line is run.
    ensures mounted { exports command.now ≡ true → (slot : ℕ) (lists : Settings) → OnSlot (λ _ _ keep keep'. HasLists (D.state keep) lists
        → IsFaultless (D.state keep).faults (D.state keep').faults → refused_slot result ≢ Some slot) slot disks.old disks.new }
    ensures answers { (asked : Answers) (frames : List (List ℕ)) → command.now ≡ Command.Answer asked → refused_slot result ≡ None → result ≢ Status.NoMemory
        → S.left source.old ≡ Some (stream frames) → All IsFrame frames → length frames < most_streamed
        → IsFaultless (S.faults source.old) (S.faults source.new) → IsFaultless (K.faults sink.old) (K.faults sink.new)
        → ((slot : ℕ) → OnSlot (λ file file' _ _. IsFaultless (D.state file).faults (D.state file').faults) slot disks.old disks.new)
        → result ≡ Status.Ok }
    ensures serves { (asked : Serves) → command.now ≡ Command.Serve asked → refused_slot result ≡ None → result ≢ Status.NoMemory
        → AtFirst (λ a b. IsFaultless (L.faults a) (L.faults b)) links.old links.new
        → ((slot : ℕ) → OnSlot (λ file file' _ _. IsFaultless (D.state file).faults (D.state file').faults) slot disks.old disks.new)
        → result ≡ Status.Ok }
    ensures soaks { (asked : Soaks) → command.now ≡ Command.Soak asked
        → IsFaultless (K.faults sink.old) (K.faults sink.new)
        → HasReplayed (soaked asked.seed asked.count) result }
    ensures replays { (text : List ℕ) → command.now ≡ Command.Replay → S.left source.old ≡ Some text → refusal text ≡ None
        → IsFaultless (S.faults source.old) (S.faults source.new) → IsFaultless (K.faults sink.old) (K.faults sink.new) → HasReplayed (script_of text) result }
{
    run_command(
        alloc, command, source, sink, disks, links, clock, watch, sides, door,
    )
}
