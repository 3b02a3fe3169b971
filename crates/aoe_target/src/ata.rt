//! What the ATA commands that reach the store do to it.
ghost use Rattle.std.specs.Prelude.{◌≡◌, ◌+◌, ◌*◌, ◌≤◌, [], ◌∷◌, ◌++◌, None, true, false, is_err, length, take, drop, OnErr, OnOk};
ghost use Rattle.std.specs.Bool.{OnTrue};
ghost use Rattle.std.specs.Option.{option_map};
ghost use Rattle.aoe_base.specs.Faults.{Rose};
ghost use Rattle.aoe_disk.specs.State.{BothTell};
ghost use Rattle.aoe_disk.specs.Calls.{IsRange, IsRun, Logs, Reads};
ghost use Rattle.aoe_store.specs.Under.{FreesUnder, ReadsUnder, SpendsUnder};
ghost use Rattle.aoe_ata.specs.Args.{args_bytes};
ghost use Rattle.aoe_ata.specs.Decision.{InRange, CanServe};
ghost use Rattle.aoe_ata.specs.Reply.{reply_of};
ghost use Rattle.aoe_ata.specs.declared.decision.AtaAnswer.{AtaAnswer};
ghost use Rattle.aoe_target.specs.Reply.{reply_head};
ghost use Rattle.aoe_target.specs.Sectors.{sectors_of};
ghost use Rattle.aoe_target.specs.Law.{AllowsAta, Gives, AnswersSync, Verifies, AnswersWrite, replied};
ghost use Rattle.aoe_target.specs.Receive.{Leaves, TurnsUnder, ata_calls, calls_for, is_fault};
ghost use Rattle.aoe_target.specs.Mounted.{FitsStore};
ghost use Rattle.aoe_target.specs.Told.{Names};
ghost use Rattle.aoe_target.specs.Lasting.{LeavesFirm};
ghost use Rattle.aoe_target.specs.Verdict.{as_marked};

use crate::reply::{DATA_AT, put_front, reply_apart, reply_ata, reply_page};
use crate::verdict::args_of;
use crate::{Effect, Station};
use aoe_ata::{AtaAnswer, AtaArgs, AtaDecision, AtaOutcome, put_data};
use aoe_base::{Failed, SECTOR_LEN, Span};
use aoe_frame::{Frame, HeaderView, stretch};
use aoe_store::Store;

/// Makes `out` the header and the registers of a reply with sectors, and room for these. The room
/// keeps what stood there.
#[inline(always)]
fn begin_data(
    station: &Station,
    header: &HeaderView<'_>,
    args: &AtaArgs,
    count: u32,
    out: &mut Frame,
)
    requires { count ≤ 17 }
    ensures front { take 36 out.new.items
        ≡ reply_head station.now header.now None ++ args_bytes (reply_of args.now AtaOutcome.Done) }
    ensures len { length out.new.items ≡ 36 + 512 * count }
{
    stretch(out, DATA_AT + SECTOR_LEN * count as usize);
    put_front(station, header, args, AtaOutcome::Done, out.as_mut_slice());
}

/// Reads sectors into a frame, behind its header and registers.
#[inline(always)]
fn read_into<S: Store>(store: &mut S, span: Span, out: &mut Frame) -> Result<(), Failed>
    requires range { IsRange span.at (512 * span.count) (S.state store.old).sectors }
    requires len { length out.old.items ≡ 36 + 512 * span.count }
    ensures reads { Reads span.at (512 * span.count) result (drop 36 out.new.items)
        (S.state store.old) (S.state store.new) }
    ensures front { take 36 out.new.items ≡ take 36 out.old.items }
    ensures len { length out.new.items ≡ 36 + 512 * span.count }
    ensures under { BothTell (ReadsUnder (is_err result)) (S.under store.old) (S.under store.new) }
{
    store.read(span.at, &mut out.as_mut_slice()[DATA_AT..])
}

/// Reads sectors into the reply.
#[inline(always)]
fn give<S: Store>(
    store: &mut S,
    station: &Station,
    header: &HeaderView<'_>,
    args: &AtaArgs,
    span: Span,
    out: &mut Frame,
) -> Effect
    requires mounted { FitsStore station.now (S.state store.old) }
    requires range { InRange station.now.sectors station.now.max span }
    ensures gives { Gives station.now (option_map sectors_of (S.state store.old).contents) header.now args.now span
        result out.new.items }
    ensures same { (S.state store.new).contents ≡ (S.state store.old).contents }
    ensures call { IsRun 1 (is_fault result) (S.state store.old) (S.state store.new) }
    ensures log { Logs (ata_calls [] (AtaAnswer.Give span)) (S.state store.old)
        (S.state store.new) }
    ensures under { BothTell (ReadsUnder (is_fault result)) (S.under store.old)
        (S.under store.new) }
    ensures firm { LeavesFirm result (S.state store.new).contents }
{
    begin_data(station, header, args, span.count, out);
    match read_into(store, span, out) {
        Ok(()) => Effect::None,
        Err(Failed) => {
            reply_apart(station, header, args, AtaOutcome::Uncorrectable, out);
            Effect::ReadFault
        }
    }
}

/// Reads sectors, and replies without them. The frame serves as the place to read them into. The
/// result is a small one, for which the caller makes no room.
#[cold]
#[inline(never)]
fn verify<S: Store>(
    store: &mut S,
    station: &Station,
    header: &HeaderView<'_>,
    args: AtaArgs,
    span: Span,
    out: &mut Frame,
) -> Result<(), Failed>
    requires mounted { FitsStore station.now (S.state store.old) }
    requires range { InRange station.now.sectors station.now.max span }
    ensures done { OnOk result (Verifies station.now header.now args Effect.None out.new.items) }
    ensures failed { OnErr result
        (Verifies station.now header.now args Effect.ReadFault out.new.items) }
    ensures same { (S.state store.new).contents ≡ (S.state store.old).contents }
    ensures call { IsRun 1 (is_err result) (S.state store.old) (S.state store.new) }
    ensures log { Logs (ata_calls [] (AtaAnswer.Verify span)) (S.state store.old)
        (S.state store.new) }
    ensures under { BothTell (ReadsUnder (is_err result)) (S.under store.old) (S.under store.new) }
{
    begin_data(station, header, &args, span.count, out);
    match read_into(store, span, out) {
        Ok(()) => {
            reply_apart(station, header, &args, AtaOutcome::Done, out);
            Ok(())
        }
        Err(Failed) => {
            reply_apart(station, header, &args, AtaOutcome::Uncorrectable, out);
            Err(Failed)
        }
    }
}

/// Writes the data of a frame, and puts the sectors into `wrote`.
#[inline(always)]
fn put<S: Store>(
    store: &mut S,
    station: &Station,
    header: &HeaderView<'_>,
    frame: &[u8],
    args: &AtaArgs,
    span: Span,
    wrote: &mut Span,
    out: &mut Frame,
) -> Effect
    requires mounted { FitsStore station.now (S.state store.old) }
    requires range { InRange station.now.sectors station.now.max span }
    requires data { 12 + 512 * span.count ≤ length (drop 24 frame.now) }
    requires len { 24 ≤ length frame.now }
    ensures writes { AnswersWrite station.now header.now args.now span result out.new.items }
    ensures leaves { Leaves frame.now (AtaAnswer.Put span) result out.new.items
        (S.state store.old).contents (S.state store.new).contents }
    ensures call { IsRun 1 (is_fault result) (S.state store.old) (S.state store.new) }
    ensures log { Logs (ata_calls frame.now (AtaAnswer.Put span)) (S.state store.old)
        (S.state store.new) }
    ensures under { BothTell (SpendsUnder span.count (is_fault result)) (S.under store.old)
        (S.under store.new) }
    ensures firm { S.lasts ≡ true → LeavesFirm result (S.state store.new).contents }
    ensures names { Names result wrote.new }
{
    *wrote = span;
    match store.write(span.at, put_data(args_of(frame), span)) {
        Ok(()) => {
            reply_ata(station, header, args, AtaOutcome::Done, out);
            Effect::Wrote(span)
        }
        Err(Failed) => {
            reply_apart(station, header, args, AtaOutcome::Aborted, out);
            Effect::WriteFault(span)
        }
    }
}

/// Syncs the store.
#[cold]
#[inline(never)]
fn sync<S: Store>(
    store: &mut S,
    station: &Station,
    header: &HeaderView<'_>,
    frame: &[u8],
    args: AtaArgs,
    out: &mut Frame,
) -> Result<(), Failed>
    ensures done { OnOk result
        (AnswersSync station.now header.now args Effect.Synced out.new.items) }
    ensures failed { OnErr result
        (AnswersSync station.now header.now args Effect.SyncFault out.new.items) }
    ensures kept { OnOk result (Leaves frame.now AtaAnswer.Sync Effect.Synced out.new.items
        (S.state store.old).contents (S.state store.new).contents) }
    ensures left { OnErr result (Leaves frame.now AtaAnswer.Sync Effect.SyncFault out.new.items
        (S.state store.old).contents (S.state store.new).contents) }
    ensures call { IsRun 1 (is_err result) (S.state store.old) (S.state store.new) }
    ensures log { Logs (ata_calls frame.now AtaAnswer.Sync) (S.state store.old)
        (S.state store.new) }
    ensures under { BothTell (FreesUnder (is_err result) (S.state store.old).contents)
        (S.under store.old) (S.under store.new) }
{
    match store.sync() {
        Ok(()) => {
            reply_apart(station, header, &args, AtaOutcome::Done, out);
            Ok(())
        }
        Err(Failed) => {
            reply_apart(station, header, &args, AtaOutcome::Aborted, out);
            Err(Failed)
        }
    }
}

/// Does what is decided on an ATA command, and makes `out` its reply. A read-only device aborts a write.
/// The sectors of a write are put into `wrote`.
#[inline(always)]
pub(crate) fn serve<S: Store>(
    store: &mut S,
    station: &Station,
    header: &HeaderView<'_>,
    frame: &[u8],
    decision: AtaDecision,
    read_only: bool,
    wrote: &mut Span,
    out: &mut Frame,
) -> Effect
    requires mounted { FitsStore station.now (S.state store.old) }
    requires range { CanServe station.now.sectors station.now.max
        (drop 24 frame.now) decision.answer }
    requires len { 24 ≤ length frame.now }
    ensures allowed { AllowsAta station.now (option_map sectors_of (S.state store.old).contents) header.now
        decision.args (as_marked read_only decision.answer) (replied result out.new.items) }
    ensures leaves { Leaves frame.now (as_marked read_only decision.answer) result out.new.items
        (S.state store.old).contents (S.state store.new).contents }
    ensures call { OnTrue (calls_for (as_marked read_only decision.answer))
        (IsRun 1 (is_fault result) (S.state store.old) (S.state store.new)) }
    ensures log { Logs (ata_calls frame.now (as_marked read_only decision.answer)) (S.state store.old)
        (S.state store.new) }
    ensures under { TurnsUnder (as_marked read_only decision.answer) (is_fault result) (S.state store.old).contents
        (S.under store.old) (S.under store.new) }
    ensures idle { calls_for (as_marked read_only decision.answer) ≡ false → store.new ≡ store.old }
    ensures fault { is_fault result ≡ true → Rose (S.state store.old).faults
        (S.state store.new).faults }
    ensures firm { S.lasts ≡ true → LeavesFirm result (S.state store.new).contents }
    ensures names { Names result wrote.new }
{
    let args = &decision.args;
    match decision.answer {
        AtaAnswer::Abort => {
            reply_apart(station, header, args, AtaOutcome::Aborted, out);
            Effect::None
        }
        AtaAnswer::NotFound => {
            reply_apart(station, header, args, AtaOutcome::NotFound, out);
            Effect::None
        }
        AtaAnswer::Page => {
            reply_page(station, &header.copy(), *args, out);
            Effect::None
        }
        AtaAnswer::Mode => {
            reply_apart(station, header, args, AtaOutcome::Active, out);
            Effect::None
        }
        AtaAnswer::Put(_) if read_only => {
            reply_apart(station, header, args, AtaOutcome::Aborted, out);
            Effect::None
        }
        AtaAnswer::Give(span) => give(store, station, header, args, span, out),
        AtaAnswer::Put(span) => put(store, station, header, frame, args, span, wrote, out),
        AtaAnswer::Verify(span) => match verify(store, station, &header.copy(), *args, span, out) {
            Ok(()) => Effect::None,
            Err(Failed) => Effect::ReadFault,
        },
        AtaAnswer::Sync => match sync(store, station, &header.copy(), frame, *args, out) {
            Ok(()) => Effect::Synced,
            Err(Failed) => Effect::SyncFault,
        },
    }
}
