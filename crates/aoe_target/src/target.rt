//! A target: what it is told and what becomes of each frame.
ghost use Rattle.std.specs.Prelude.{◌≡◌, ◌≢◌, ◌≤◌, [], true, false, is_err, length, IfSome, OnErr, OnOk};
ghost use Rattle.std.specs.Bool.{OnTrue};
ghost use Rattle.aoe_base.specs.Faults.{Rose};
ghost use Rattle.aoe_disk.specs.Calls.{IsRun};
ghost use Rattle.aoe_keep.specs.Calls.{ReplacesBy};
ghost use Rattle.aoe_keep.specs.Found.{AlwaysFinds, FindsOffered};
ghost use Rattle.aoe_keep.specs.Keep.{KeepsOthers};
ghost use Rattle.aoe_frame.specs.Header.{fields};
ghost use Rattle.aoe_lists.specs.Step.{reply_of};
ghost use Rattle.aoe_target.specs.Admission.{AdmitsAs};
ghost use Rattle.aoe_target.specs.Law.{AllowsStep, step_of};
ghost use Rattle.aoe_target.specs.Receive.{fate_of, is_change, is_faulty, is_unkept, KeepsStep, Replaces};

use crate::admission::Admission;
use crate::ata::serve;
use crate::heard::{Told, heard_of, tell_of};
use crate::reply::{refuse, reply, reply_step};
use crate::scratch::Scratch;
use crate::verdict::{args_of, header_of, judge, step};
use crate::{Effect, Heard, ListCommand, Station, Verdict, max_sectors};
use aoe_base::{AoeError, Failed, Ports, Span, TargetId};
use aoe_disk::{Arm, Armed, Disk};
use aoe_frame::{Frame, HeaderView};
use aoe_keep::Keep;
use aoe_lists::{Answer, Lists, empty_config_args};
use aoe_store::{ArmedStore, Store};
use std::marker::Model;

/// One device of a shelf: its store, and the keep of its lists.
///
/// Contracts see what never changes of it, its lists with their disk, and its store.
#[derive(Drop)]
pub struct Target<S: Store, D: Disk> {
    station: Station,
    keep: Keep<D>,
    store: S,

    /// Whom the lists of the keep let in.
    admission: Admission,

    /// What the last request to the lists wrote, kept so that the next needs no new room.
    scratch: Scratch,
}

impl<S: Store, D: Disk> Model for Target<S, D> {
    ghost use Rattle.aoe_target.specs.Admission.{AdmitsAs};
    ghost use Rattle.aoe_target.specs.Mounted.{Mounted, FitsStore};

    ghost Value = { Mounted S D };

    ghost view = { λ t. record { station = t.station; keep = t.keep; store = t.store } };

    ghost invariant = { λ t. FitsStore t.station (S.state t.store)
        × AdmitsAs t.admission t.keep.lists };
}

/// Makes `next` the lists of the keep. It stands apart, so that other requests don't make room for
/// its pages.
#[cold]
#[inline(never)]
fn replace<D: Disk>(
    keep: &mut Keep<D>,
    admission: &mut Admission,
    next: &Lists,
) -> Result<(), Failed>
    ensures admits { OnOk result (AdmitsAs admission.new next.now) }
    ensures admits_as { OnErr result (admission.new ≡ admission.old) }
    ensures lists { OnOk result (keep.new.lists ≡ next.now) }
    ensures finds { OnOk result (AlwaysFinds (D.state keep.new.disk) next.now) }
    ensures stays { OnErr result (keep.new.lists ≡ keep.old.lists) }
    ensures offered { OnErr result (FindsOffered (D.state keep.old.disk)
        (D.state keep.new.disk) keep.old.lists next.now) }
    ensures others { KeepsOthers (D.state keep.old.disk) (D.state keep.new.disk) }
    ensures run { IsRun 6 (is_err result) (D.state keep.old.disk) (D.state keep.new.disk) }
    ensures calls { ReplacesBy D.state next.now (is_err result) keep.old keep.new }
{
    match keep.replace(next) {
        Ok(()) => {
            *admission = Admission::of(next);
            Ok(())
        }
        Err(Failed) => Err(Failed),
    }
}

/// Does what a request comes to that reads or changes the lists, by a step.
#[inline(never)]
fn tell_step<D: Disk>(
    station: &Station,
    keep: &mut Keep<D>,
    admission: &mut Admission,
    header: &HeaderView<'_>,
    frame: &[u8],
    command: ListCommand,
    scratch: &mut Scratch,
    out: &mut Frame,
) -> Heard
    requires header { header.now ≡ fields frame.now }
    requires len { 24 ≤ length frame.now }
    requires admits { AdmitsAs admission.old keep.old.lists }
    ensures admits { AdmitsAs admission.new keep.new.lists }
    ensures allowed { AllowsStep station.now frame.now (step_of station.now keep.old.lists frame.now command)
        (fate_of result out.new.items) }
    ensures keeps { KeepsStep (step_of station.now keep.old.lists frame.now command) result
        keep.old.lists keep.new.lists (D.state keep.old.disk) (D.state keep.new.disk) }
    ensures no_fault { is_faulty result ≡ false }
    ensures heard { result ≢ Heard.Ignored }
    ensures empty { result ≡ Heard.Silent → out.new.items ≡ [] }
    ensures edit { OnTrue (is_change (step_of station.now keep.old.lists frame.now command))
        (Replaces (is_unkept result) (D.state keep.old.disk) (D.state keep.new.disk)) }
    ensures idle { is_change (step_of station.now keep.old.lists frame.now command) ≡ false
        → keep.new ≡ keep.old }
    ensures unkept { is_unkept result ≡ true → Rose (D.state keep.old.disk).faults
        (D.state keep.new.disk).faults }
{
    let answer = step(
        station,
        keep.lists(),
        header.src(),
        args_of(frame),
        command,
        scratch,
    );
    let args = scratch.args.as_slice();
    match answer {
        Answer::Silent => {
            out.clear();
            Heard::Silent
        }
        Answer::Reply(error) => {
            reply_step(station, header, frame, error, args, out);
            Heard::Replied {
                effect: Effect::None,
            }
        }
        Answer::Change => match replace(keep, admission, &scratch.next) {
            Ok(()) => {
                reply(station, header, None, args, out);
                Heard::Replied {
                    effect: Effect::Edited,
                }
            }
            Err(Failed) => {
                refuse(station, header, frame, AoeError::DeviceUnavailable, out);
                Heard::Replied {
                    effect: Effect::EditFault,
                }
            }
        },
    }
}

/// The arguments of the reply to a query of an empty config string, which needs no step.
#[inline(always)]
fn empty_string(
    station: &Station,
    lists: &Lists,
    frame: &[u8],
    command: ListCommand,
) -> Option<[u8; 8]>
    requires { 24 ≤ length frame.now }
    ensures { IfSome result (λ args. step_of station.now lists.now frame.now command
        ≡ reply_of args) }
{
    match command {
        ListCommand::Config => empty_config_args(lists, &station.facts(), args_of(frame)),
        ListCommand::Masks | ListCommand::Reserves => None,
    }
}

/// Does what a request comes to that reads or changes the lists.
#[inline(always)]
fn tell<D: Disk>(
    station: &Station,
    keep: &mut Keep<D>,
    admission: &mut Admission,
    header: &HeaderView<'_>,
    frame: &[u8],
    command: ListCommand,
    scratch: &mut Scratch,
    out: &mut Frame,
) -> Heard
    requires header { header.now ≡ fields frame.now }
    requires len { 24 ≤ length frame.now }
    requires admits { AdmitsAs admission.old keep.old.lists }
    ensures admits { AdmitsAs admission.new keep.new.lists }
    ensures allowed { AllowsStep station.now frame.now (step_of station.now keep.old.lists frame.now command)
        (fate_of result out.new.items) }
    ensures keeps { KeepsStep (step_of station.now keep.old.lists frame.now command) result
        keep.old.lists keep.new.lists (D.state keep.old.disk) (D.state keep.new.disk) }
    ensures no_fault { is_faulty result ≡ false }
    ensures heard { result ≢ Heard.Ignored }
    ensures empty { result ≡ Heard.Silent → out.new.items ≡ [] }
    ensures edit { OnTrue (is_change (step_of station.now keep.old.lists frame.now command))
        (Replaces (is_unkept result) (D.state keep.old.disk) (D.state keep.new.disk)) }
    ensures idle { is_change (step_of station.now keep.old.lists frame.now command) ≡ false
        → keep.new ≡ keep.old }
    ensures unkept { is_unkept result ≡ true → Rose (D.state keep.old.disk).faults
        (D.state keep.new.disk).faults }
{
    match empty_string(station, keep.lists(), frame, command) {
        Some(args) => {
            reply(station, header, None, &args, out);
            Heard::Replied {
                effect: Effect::None,
            }
        }
        None => tell_step(
            station,
            keep,
            admission,
            &header.copy(),
            frame,
            command,
            scratch,
            out,
        ),
    }
}

impl<S: Store, D: Disk> Target<S, D> {
    ghost use Rattle.std.specs.Prelude.{◌≡◌, ◌≤◌, ◌<◌, [], true, false, length};
    ghost use Rattle.std.specs.Bool.{OnTrue};
    ghost use Rattle.aoe_base.specs.Faults.{Rose};
    ghost use Rattle.aoe_disk.specs.Calls.{IsRun, Logs, SyncsTo};
    ghost use Rattle.aoe_target.specs.Device.{State, Holds};
    ghost use Rattle.aoe_target.specs.Law.{IsStep};
    ghost use Rattle.aoe_target.specs.Receive.{calls_store, store_calls, edits, fate_of, is_faulty, is_unkept, MovesUnder, Replaces};
    ghost use Rattle.aoe_target.specs.Mounted.{device_of, station_of};
    ghost use Rattle.aoe_target.specs.Lasting.{TurnsFirm};
    ghost use Rattle.aoe_target.specs.Told.{heard_as, NamesIn};
    ghost use Rattle.aoe_target.specs.Turn.{Receives, TurnsDisk};
    ghost use Rattle.aoe_target.specs.Verdict.{verdict};

    /// A target named `id`, behind the ports of its shelf, whose frames carry up to `mtu` bytes. Its
    /// lists are those of the keep.
    pub fn mount(store: S, keep: Keep<D>, id: TargetId, ports: Ports, mtu: u32) -> Self
        requires ports { 1 ≤ length ports.items }
        requires shortest { 1500 ≤ mtu }
        requires longest { mtu ≤ 9000 }
        requires shelf { id.major < 65535 }
        requires slot { id.minor < 255 }
        ensures { result ≡ record {
          station = station_of id ports.items mtu (S.state store).sectors;
          keep = keep;
          store = store;
        } }
    {
        let sectors = store.sectors();
        Target {
            station: Station {
                id,
                ports,
                max: max_sectors(mtu) as u8,
                sectors,
            },
            admission: Admission::of(keep.lists()),
            keep,
            store,
            scratch: Scratch::new(),
        }
    }

    /// Its name.
    pub fn id(&self) -> TargetId
        ensures { result ≡ self.now.station.id }
    {
        self.station.id
    }

    /// Does what a frame asks for, and makes `out` the reply; where there is none `out` is empty.
    ///
    /// The first of these checks that applies decides.
    ///
    /// 1. The frame has no AoE header, isn't for this target, or is a response: it is ignored.
    /// 2. The mask list has stations and not its source: silence.
    /// 3. Its version isn't 1: the error "unsupported version".
    /// 4. Its command is unknown: the error "unrecognized command code".
    /// 5. It is an ATA command, and the reserve list has stations and not its source: the error
    ///    "target is reserved".
    /// 6. The arguments can't be taken: the error "bad argument parameter".
    /// 7. The answer of the lists, or of the registers; or the store is called, once, or the lists of
    ///    the keep are replaced. A read that fails is answered by UNC, a write or a sync that fails by
    ///    ABRT, and lists that can't be kept by the error "device unavailable".
    #[inline(always)]
    pub fn receive(&mut self, frame: &[u8], out: &mut Frame) -> Heard
        ensures step { (k : State) → Holds (device_of S.state D.state self.old) k
            → IsStep self.old.station k frame.now (fate_of result out.new.items) (device_of S.state D.state self.new) }
        ensures station { self.new.station ≡ self.old.station }
        ensures silent { result ≡ Heard.Silent → out.new.items ≡ [] }
        ensures ignored { result ≡ Heard.Ignored → out.new.items ≡ [] }

        // The store is called where the verdict says so, and then once, for the sectors of the command.
        ensures call { OnTrue (calls_store (verdict self.old.station self.old.keep.lists frame.now))
            (IsRun 1 (is_faulty result) (S.state self.old.store) (S.state self.new.store)) }
        ensures log { Logs (store_calls frame.now (verdict self.old.station self.old.keep.lists frame.now))
            (S.state self.old.store) (S.state self.new.store) }
        ensures idle { calls_store (verdict self.old.station self.old.keep.lists frame.now) ≡ false
            → self.new.store ≡ self.old.store }
        ensures fault { is_faulty result ≡ true
            → Rose (S.state self.old.store).faults (S.state self.new.store).faults }
        ensures under { MovesUnder (verdict self.old.station self.old.keep.lists frame.now) (is_faulty result)
            (S.state self.old.store).contents (S.under self.old.store) (S.under self.new.store) }
        ensures firm { TurnsFirm S.lasts S.state result out.new.items self.new }

        // The lists of the keep are replaced where the verdict says so, and then once.
        ensures edit { OnTrue (edits self.old.station self.old.keep.lists frame.now (verdict self.old.station self.old.keep.lists frame.now))
            (Replaces (is_unkept result) (D.state self.old.keep.disk) (D.state self.new.keep.disk)) }
        ensures unedited { edits self.old.station self.old.keep.lists frame.now (verdict self.old.station self.old.keep.lists frame.now) ≡ false
            → self.new.keep ≡ self.old.keep }
        ensures edit_fault { is_unkept result ≡ true
            → Rose (D.state self.old.keep.disk).faults (D.state self.new.keep.disk).faults }
    {
        let mut span = Span { at: 0, count: 0 };
        heard_of(self.receive_apart(frame, out, &mut span), span)
    }

    /// The same in a function of its own, whose result is a small one, for which the caller makes no
    /// room. The sectors of a write are put into `span`.
    #[inline(never)]
    fn receive_apart(&mut self, frame: &[u8], out: &mut Frame, span: &mut Span) -> Told
        ensures receives { Receives S.state D.state self.old self.new frame.now
            (heard_as result span.new) out.new.items }
        ensures under { TurnsDisk S.state S.under frame.now
            (heard_as result span.new) self.old self.new }
        ensures firm { TurnsFirm S.lasts S.state (heard_as result span.new) out.new.items self.new }
    {
        let heard = self.hear(frame, out, span);
        tell_of(heard)
    }

    /// Does what a frame asks for, and puts the sectors of a write into `span`.
    #[inline(always)]
    fn hear(&mut self, frame: &[u8], out: &mut Frame, span: &mut Span) -> Heard
        ensures receives { Receives S.state D.state self.old self.new frame.now result out.new.items }
        ensures under { TurnsDisk S.state S.under frame.now result self.old self.new }
        ensures firm { TurnsFirm S.lasts S.state result out.new.items self.new }
        ensures names { NamesIn result span.new }
    {
        let Some(header) = header_of(frame) else {
            out.clear();
            return Heard::Ignored;
        };
        let kept = self.keep.lists();
        let verdict = judge(
            &self.station,
            kept,
            Some(&self.admission),
            &header,
            args_of(frame),
        );
        match verdict {
            Verdict::Ignored => {
                out.clear();
                Heard::Ignored
            }
            Verdict::Silent => {
                out.clear();
                Heard::Silent
            }
            Verdict::Refused(error) => {
                refuse(&self.station, &header.copy(), frame, error, out);
                Heard::Replied {
                    effect: Effect::None,
                }
            }
            Verdict::Lists(command) => {
                tell(
                    &self.station,
                    &mut self.keep,
                    &mut self.admission,
                    &header,
                    frame,
                    command,
                    &mut self.scratch,
                    out,
                )
            }
            Verdict::Ata(decision) => {
                let effect = serve(
                    &mut self.store,
                    &self.station,
                    &header,
                    frame,
                    decision,
                    kept.read_only,
                    span,
                    out,
                );
                Heard::Replied { effect }
            }
        }
    }

    /// The lists.
    pub fn lists(&self) -> &Lists
        ensures { result.now ≡ self.now.keep.lists }
    {
        self.keep.lists()
    }

    /// Syncs the store.
    pub fn sync(&mut self) -> Result<(), Failed>
        ensures syncs { SyncsTo result (S.state self.old.store) (S.state self.new.store) }
        ensures rest { self.new ≡ record self.old { store = self.new.store } }
    {
        self.store.sync()
    }

    /// The store and the keep.
    pub fn close(self) -> (S, Keep<D>)
        ensures store { result.0 ≡ self.store }
        ensures keep { result.1 ≡ self.keep }
    {
        (self.store, self.keep)
    }
}

impl<S: ArmedStore, D: Armed> Target<S, D> {
    ghost use Rattle.std.specs.Prelude.{◌≡◌, ◌<◌, IfSome};
    ghost use Rattle.aoe_disk.specs.Arming.{number_of, ArmsTo};
    ghost use Rattle.aoe_disk.specs.State.{BothTell};
    ghost use Rattle.aoe_store.specs.Under.{ArmsUnder};

    /// Arms the store's disk, in place of what was armed before.
    pub fn arm_store(&mut self, arm: Arm)
        requires { 0 < number_of arm }
        ensures arms { ArmsTo arm (S.state self.old.store) (S.state self.new.store) }
        ensures under { BothTell (ArmsUnder arm) (S.under self.old.store) (S.under self.new.store) }
        ensures rest { self.new ≡ record self.old { store = self.new.store } }
    {
        self.store.arm(arm);
    }

    /// Arms the keep's disk, in place of what was armed before.
    pub fn arm_keep(&mut self, arm: Arm)
        requires { 0 < number_of arm }
        ensures arms { ArmsTo arm (D.state self.old.keep.disk) (D.state self.new.keep.disk) }
        ensures lists { self.new.keep.lists ≡ self.old.keep.lists }
        ensures rest { self.new ≡ record self.old { keep = self.new.keep } }
    {
        self.keep.arm(arm);
    }

    /// Whether the store's disk reached a stop.
    pub fn store_is_out(&self) -> bool
        ensures { IfSome (S.state self.now.store).schedule (λ schedule. result ≡ schedule.out) }
    {
        self.store.is_out()
    }

    /// Whether the keep's disk reached a stop.
    pub fn keep_is_out(&self) -> bool
        ensures { IfSome (D.state self.now.keep.disk).schedule (λ schedule. result ≡ schedule.out) }
    {
        self.keep.is_out()
    }
}
