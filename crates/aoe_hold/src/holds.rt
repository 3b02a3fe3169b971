//! The commands of one host at one device.
ghost use Rattle.std.specs.Prelude.{◌≡◌, ◌+◌, ◌*◌, ◌-◌, ◌^◌, ◌<◌, ◌≤◌, ◌&&◌, ℕ, nat_eq, nat_le, nat_lt, not, cond, false, true, List, [], ◌∷◌, ◌++◌, length, All, Contains, IfNone, IfSome, OnErr, OnOk};
ghost use Rattle.std.specs.List.{count_by, filter, list_any};
ghost use Rattle.std.specs.Option.{ForSome};
ghost use Rattle.aoe_hold.specs.Commands.{after_stage, clear_tickets, finished, stage_finished, stage_sent, unsent_count};
ghost use Rattle.aoe_hold.specs.declared.command.Command.{Command as CommandValue};
ghost use Rattle.aoe_hold.specs.Extents.{goes_by_span, AddsOnly, AreAmong, AreKeysOf, Covers, HasKey};
ghost use Rattle.aoe_hold.specs.HoldTable.{after_finish, after_send, at_time, is_ascending, new_command, no_commands, with_command, ArePast, Recalls};
ghost use Rattle.aoe_hold.specs.Looks.{is_near, looks_back, looks_to_drop};
ghost use Rattle.aoe_hold.specs.Queue.{blocks, has_ticket, AreOutside, is_blocked, lingers, waited_for, IsKeeper, Moved, Queued, Released};

use crate::command::{Command, Kind, Stage};
use crate::extent::Extent;
use crate::held::HeldCommands;
use crate::keeper::keeper_by_span;
use crate::keys::place_of;
use crate::queue::{Keeper, Queue, Waiter};
use aoe_base::{Millis, NoMemory, Span, Steps, Ticket};
use std::alloc::Global;
use std::marker::{Brand, Model};
use std::sync::ledger::{Blank, Ledger};

/// The latest of the earlier commands in conflict that are unfinished. It stands from `first` on,
/// ahead of `until`.
fn blocker(
    commands: &[Command],
    first: usize,
    until: usize,
    command: &Command,
    life: Millis,
    latest: Millis,
) -> Option<Ticket>
    requires { AreOutside life.0 latest.0 first until commands.now command.now }
    ensures some { IfSome result (λ ticket. list_any
        (λ e. nat_eq e.ticket.0 ticket.0 && blocks command.now e) commands.now ≡ true) }
    ensures none { IfNone result (is_blocked commands.now command.now ≡ false) }
{
    let mut left = until;
    'earlier: while left > first {
        left -= 1;
        if commands[left].blocks(command) {
            return Some(commands[left].ticket);
        }
    }
    None
}

/// The time from which no frame can arrive that a command waits for, where no earlier one in
/// conflict is unfinished.
fn clear_from(
    commands: &[Command],
    first: usize,
    until: usize,
    command: &Command,
    life: Millis,
    latest: Millis,
) -> u128
    requires { AreOutside life.0 latest.0 first until commands.now command.now }
    ensures { (now : ℕ) → latest.0 ≤ now → list_any
        (λ e. lingers life.0 now command.now e) commands.now ≡ not (nat_le result now) }
{
    let mut from = 0;
    let mut left = until;
    'earlier: while left > first {
        left -= 1;
        from = from.max(commands[left].lingers_until(command, life));
    }
    from
}

/// Makes room for one more command, adds its key, and makes room for so many in the queues.
fn make_room(
    commands: &mut HeldCommands,
    command: &Command,
    timed: &mut Queue,
    ready: &mut Queue,
    blocked: &mut Queue,
    room: u32,
) -> Result<(), NoMemory>
    requires timed { length timed.old.items ≤ room }
    requires ready { length ready.old.items ≤ room }
    requires blocked { length blocked.old.items ≤ room }
    ensures commands { commands.new.items ≡ commands.old.items }
    ensures place { OnOk result (length commands.new.items < commands.new.capacity) }
    ensures key { OnOk result (HasKey commands.new.keys command.now) }
    ensures keys { AreAmong commands.old.keys commands.new.keys }
    ensures only { OnOk result (AddsOnly commands.old.keys commands.new.keys command.now) }
    ensures err { OnErr result (AreAmong commands.new.keys commands.old.keys) }
    ensures timed { timed.new.items ≡ timed.old.items }
    ensures ready { ready.new.items ≡ ready.old.items }
    ensures blocked { blocked.new.items ≡ blocked.old.items }
    ensures timed_more { timed.old.room ≤ timed.new.room }
    ensures ready_more { ready.old.room ≤ ready.new.room }
    ensures blocked_more { blocked.old.room ≤ blocked.new.room }
    ensures timed_room { OnOk result (room ≤ timed.new.room) }
    ensures ready_room { OnOk result (room ≤ ready.new.room) }
    ensures blocked_room { OnOk result (room ≤ blocked.new.room) }
{
    timed.reserve(room)?;
    ready.reserve(room)?;
    blocked.reserve(room)?;
    commands.reserve(command)
}

/// What keeps a command back that was never sent, by those that were entered before it. The first
/// of the commands, `gone` in number, are past.
fn keeper_by_walk(
    commands: &[Command],
    gone: usize,
    command: &Command,
    life: Millis,
    latest: Millis,
) -> Keeper
    requires ascending { is_ascending commands.now ≡ true }
    requires past { ArePast life.0 latest.0 gone commands.now }
    ensures { IsKeeper life.0 latest.0 commands.now command.now result }
{
    let until = commands.partition_point(|earlier| earlier.ticket < command.ticket);
    match blocker(commands, gone, until, command, life, latest) {
        Some(earlier) => Keeper::Blocker(earlier),
        None => Keeper::Clear(clear_from(commands, gone, until, command, life, latest)),
    }
}

/// What keeps a command back that is entered after those that are held.
fn keeper_of<L: Ledger>(
    commands: &HeldCommands,
    extent: Extent,
    command: &Command,
    life: Millis,
    latest: Millis,
    steps: &mut Steps<L>,
) -> Keeper
    requires ascending { is_ascending commands.now.items ≡ true }
    requires covers { Covers extent commands.now.keys commands.now.items }
    ensures keeper { IsKeeper life.0 latest.0 commands.now.items command.now result }
    ensures by_span { goes_by_span extent command.now.kind ≡ true
        → (held : List CommandValue) → AreKeysOf commands.now.keys held
        → steps.new ≤ steps.old + 2 + 2 * count_by (is_near extent command.now) held }
    ensures by_walk { goes_by_span extent command.now.kind ≡ false
        → steps.new ≡ steps.old + length commands.now.items }
{
    if extent.goes_by_span(command.kind) {
        keeper_by_span(commands, extent, command, life, steps)
    } else {
        keeper_by_walk(commands.look_all(steps), 0, command, life, latest)
    }
}

/// Queues a command that was never sent by what keeps it back.
fn queue(timed: &mut Queue, blocked: &mut Queue, command: Command, keeper: Keeper)
    requires timed { length timed.old.items < timed.old.room }
    requires blocked { length blocked.old.items < blocked.old.room }
    ensures { (life latest : ℕ) (commands : List Command) → IsKeeper life latest commands command keeper
        → Queued life latest commands command timed.old blocked.old timed.new blocked.new }
{
    match keeper {
        Keeper::Blocker(earlier) => {
            let from = u128::from(earlier.0);
            blocked.insert(Waiter { command, from });
        }
        Keeper::Clear(from) => timed.insert(Waiter { command, from }),
    }
}

/// Queues the commands anew that waited for one that is finished now.
fn release<L: Ledger>(
    commands: &[Command],
    gone: usize,
    timed: &mut Queue,
    blocked: &mut Queue,
    ended: &Command,
    life: Millis,
    latest: Millis,
    steps: &mut Steps<L>,
)
    requires ascending { is_ascending commands.now ≡ true }
    requires past { ArePast life.0 latest.0 gone commands.now }
    requires done { finished ended.now.stage ≡ true → (c : Command)
        → list_any (λ e. nat_eq e.ticket.0 ended.now.ticket.0 && blocks c e) commands.now ≡ false }
    requires timed { length timed.old.items + length blocked.old.items ≤ timed.old.room }
    requires blocked { length timed.old.items + length blocked.old.items ≤ blocked.old.room }
    ensures released { Released life.0 latest.0 commands.now ended.now timed.old blocked.old timed.new blocked.new }
    ensures none { All (λ w. waited_for ended.now w ≡ false) blocked.new.items }
{
    if !ended.is_finished() {
        return;
    }
    'waiting: while let Some(waiter) = blocked.pop_from(u128::from(ended.ticket.0), steps) {
        let keeper = keeper_by_walk(commands, gone, &waiter.command, life, latest);
        queue(timed, blocked, waiter.command, keeper);
    }
}

/// How many of the first commands are past.
fn count_gone(commands: &[Command], known: usize, life: Millis, latest: Millis) -> usize
    requires { ArePast life.0 latest.0 known commands.now }
    ensures { ArePast life.0 latest.0 result commands.now }
{
    let mut gone = known;
    'past: while gone < commands.len() && commands[gone].is_past(life, latest) {
        gone += 1;
    }
    gone
}

/// Moves the commands whose time is past to those that may be sent.
fn make_ready<L: Ledger>(timed: &mut Queue, ready: &mut Queue, now: Millis, steps: &mut Steps<L>)
    requires { length timed.old.items + length ready.old.items ≤ ready.old.room }
    ensures moved { Moved now.0 timed.old ready.old timed.new ready.new }
    ensures late { All (λ w. now.0 < w.from) timed.new.items }
    ensures steps { steps.new + length ready.old.items
        ≡ steps.old + 1 + length ready.new.items }
{
    'past: while let Some(waiter) = timed.pop_past(now, steps) {
        ready.insert(Waiter { from: 0, ..waiter });
    }
}

/// The least time of a command that waits: one step.
fn first_time<L: Ledger>(timed: &Queue, steps: &mut Steps<L>) -> u128
    ensures time { (now : ℕ) → now < 2 ^ 64
        → nat_lt 0 (count_by (λ w. nat_le w.from now) timed.now.items) ≡ nat_le result now }
    ensures step { steps.new ≡ steps.old + 1 }
{
    match timed.look(steps) {
        Some(first) => first.from,
        None => u128::MAX,
    }
}

/// Takes a command out of the queues, where it may stand in one of them.
fn leave<L: Ledger>(
    timed: &mut Queue,
    ready: &mut Queue,
    blocked: &mut Queue,
    ticket: Ticket,
    may_stand: bool,
    steps: &mut Steps<L>,
)
    requires once { count_by (has_ticket ticket.0) timed.old.items + count_by (has_ticket ticket.0) ready.old.items
        + count_by (has_ticket ticket.0) blocked.old.items ≤ cond may_stand 1 0 }
    ensures timed { timed.new.items ≡ filter
        (λ w. not (nat_eq w.command.ticket.0 ticket.0)) timed.old.items }
    ensures ready { ready.new.items ≡ filter
        (λ w. not (nat_eq w.command.ticket.0 ticket.0)) ready.old.items }
    ensures blocked { blocked.new.items ≡ filter
        (λ w. not (nat_eq w.command.ticket.0 ticket.0)) blocked.old.items }
    ensures timed_room { timed.new.room ≡ timed.old.room }
    ensures ready_room { ready.new.room ≡ ready.old.room }
    ensures blocked_room { blocked.new.room ≡ blocked.old.room }
{
    if may_stand && ready.pop_ticket(ticket, steps).is_none() {
        timed.remove(ticket, steps);
        ready.remove(ticket, steps);
        blocked.remove(ticket, steps);
    }
}

/// The commands of one host at one device, with their order.
///
/// `enter` makes all the room, and drops what is finished and of which no frame can arrive any
/// more: no answer goes by it. No other call takes memory.
#[derive(Drop)]
pub struct Holds {
    /// How long a request can arrive after it was sent.
    life: Millis,

    /// The latest time that was told.
    latest: Millis,

    /// The greatest ticket that was entered.
    greatest: Option<Ticket>,

    /// How many commands were never sent.
    unsent: u32,

    /// Before this time none of the commands is past, and from then on one is.
    past_from: u128,

    commands: HeldCommands,

    /// What they are at most.
    extent: Extent,

    /// How many of the first commands are known to be past.
    gone: usize,

    /// Of those that were never sent and for which no earlier one in conflict is unfinished, those
    /// that wait for frames to expire, and those that weren't looked at since they may be sent.
    timed: Queue,

    /// The others of these: they may be sent, and stand in the order of their tickets.
    ready: Queue,

    /// The others that were never sent, each under the ticket of one that it waits for: when this
    /// is finished, they alone are looked at.
    blocked: Queue,
}

impl Model for Holds {
    ghost use Rattle.std.specs.Prelude.{map, option_map};
    ghost use Rattle.aoe_hold.specs.Extents.{AreKeysOf, Covers};
    ghost use Rattle.aoe_hold.specs.HoldTable.{ArePast, HoldTable, StandInOrder, NonePastBefore, OnePastFrom};
    ghost use Rattle.aoe_hold.specs.Queue.{ticket_of, AreHeld, IsIndex};

    ghost Value = { HoldTable };

    ghost view = { λ holds. record {
      life = holds.life.0;
      latest = holds.latest.0;
      greatest = option_map (λ t. t.0) holds.greatest;
      commands = holds.commands.items;
      ready = map ticket_of holds.ready.items;
      extent = holds.extent;
    } };

    ghost invariant = { λ holds.
        StandInOrder (option_map (λ t. t.0) holds.greatest) holds.unsent holds.commands.items
        × IsIndex holds.life.0 holds.latest.0 holds.unsent holds.commands.items holds.timed holds.ready
        × NonePastBefore holds.life.0 holds.past_from holds.commands.items
        × AreHeld holds.unsent holds.commands.items holds.timed holds.ready holds.blocked
        × ArePast holds.life.0 holds.latest.0 holds.gone holds.commands.items
        × Covers holds.extent holds.commands.keys holds.commands.items
        × AreKeysOf holds.commands.keys holds.commands.items
        × OnePastFrom holds.life.0 holds.past_from holds.commands.items };
}

impl Holds {
    /// No command was entered. A request can arrive as long as `requests` after it was sent.
    pub fn new(alloc: Global, requests: Millis) -> Holds
        ensures { result ≡ no_commands requests.0 }
    {
        Holds {
            life: requests,
            latest: Millis(0),
            greatest: None,
            unsent: 0,
            past_from: u128::MAX,
            commands: HeldCommands::new(alloc),
            extent: Extent::new(),
            gone: 0,
            timed: Queue::new(alloc),
            ready: Queue::new(alloc),
            blocked: Queue::new(alloc),
        }
    }

    /// Enters a command. Its ticket is above all that were entered. The commands that are past are
    /// dropped.
    ///
    /// The bound has four steps more than there are looks at held commands: both ends of what is
    /// near, and the key of the new command and itself.
    pub fn enter_counted<L: Ledger>(
        &mut self,
        ticket: Ticket,
        kind: Kind,
        span: Span,
        steps: &mut Steps<L>,
    ) -> Result<(), NoMemory>
        requires above { ForSome self.old.greatest (λ greatest. greatest < ticket.0) }
        requires room { unsent_count self.old.commands < 2 ^ 32 - 1 }
        ensures ok { OnOk result (self.new ≡ with_command self.old (new_command ticket kind span)) }
        ensures recalls { OnOk result ((entered : List Command) → Recalls self.old entered
            → Recalls self.new (entered ++ new_command ticket kind span ∷ [])) }
        ensures err { OnErr result (self.new ≡ self.old) }
        ensures bound { steps.new ≤ steps.old + 4 + looks_to_drop self.old
            + looks_back self.old (new_command ticket kind span) }
    {
        let command = Command {
            ticket,
            kind,
            span,
            stage: Stage::Unsent,
        };
        make_room(
            &mut self.commands,
            &command,
            &mut self.timed,
            &mut self.ready,
            &mut self.blocked,
            self.unsent + 1,
        )?;
        self.past_from = self
            .commands
            .forget(self.life, self.latest, self.past_from, steps);
        self.gone = 0;
        let extent = self.extent.kept(&self.commands);
        let keeper = keeper_of(
            &self.commands,
            extent,
            &command,
            self.life,
            self.latest,
            steps,
        );
        queue(&mut self.timed, &mut self.blocked, command, keeper);
        self.commands.push(command);
        self.extent = extent.widened(&command);
        self.greatest = Some(ticket);
        self.unsent += 1;
        Ok(())
    }

    fn enter_blank<L: Ledger>(
        &mut self,
        ticket: Ticket,
        kind: Kind,
        span: Span,
        blank: Blank,
    ) -> Result<(), NoMemory>
        requires above { ForSome self.old.greatest (λ greatest. greatest < ticket.0) }
        requires room { unsent_count self.old.commands < 2 ^ 32 - 1 }
        requires name { blank.name ≡ L.name }
        requires parts { blank.parts ≡ L.parts }
        requires some { 0 < blank.parts }
        ensures ok { OnOk result (self.new ≡ with_command self.old (new_command ticket kind span)) }
        ensures recalls { OnOk result ((entered : List Command) → Recalls self.old entered
            → Recalls self.new (entered ++ new_command ticket kind span ∷ [])) }
        ensures err { OnErr result (self.new ≡ self.old) }
    {
        let mut steps = Steps::<L>::new(blank);
        self.enter_counted(ticket, kind, span, &mut steps)
    }

    /// Enters a command, as `enter_counted` does.
    pub fn enter(&mut self, ticket: Ticket, kind: Kind, span: Span) -> Result<(), NoMemory>
        requires above { ForSome self.old.greatest (λ greatest. greatest < ticket.0) }
        requires room { unsent_count self.old.commands < 2 ^ 32 - 1 }
        ensures ok { OnOk result (self.new ≡ with_command self.old (new_command ticket kind span)) }
        ensures recalls { OnOk result ((entered : List Command) → Recalls self.old entered
            → Recalls self.new (entered ++ new_command ticket kind span ∷ [])) }
        ensures err { OnErr result (self.new ≡ self.old) }
    {
        self.enter_blank::<Brand>(ticket, kind, span, Blank::new(1))
    }

    /// The command that may be sent next for the first time.
    pub fn next_clear<L: Ledger>(&mut self, now: Millis, steps: &mut Steps<L>) -> Option<Ticket>
        requires { self.old.latest ≤ now.0 }
        ensures clear { IfSome result (λ ticket.
            (entered : List Command) → Recalls self.old entered
            → Contains (clear_tickets self.old.life now.0 entered) ticket.0) }
        ensures lowest { IfSome result (λ ticket.
            (entered : List Command) → Recalls self.old entered
            → All (λ other. ticket.0 ≤ other) (clear_tickets self.old.life now.0 entered)) }
        ensures none { IfNone result ((entered : List Command) → Recalls self.old entered
            → clear_tickets self.old.life now.0 entered ≡ []) }
        ensures same { self.new ≡ at_time self.old now.0 }
        ensures recalls { (entered : List Command) → Recalls self.old entered
            → Recalls self.new entered }
        ensures bound { steps.new ≤ steps.old + 2
            + (length (clear_tickets self.old.life now.0 self.old.commands) - length self.old.ready) }
    {
        self.latest = now;
        make_ready(&mut self.timed, &mut self.ready, now, steps);
        let first = self.ready.look(steps);
        first.map(|waiter| waiter.command.ticket)
    }

    /// The time from which on a command may be sent for the first time, where nothing else happens
    /// before. A time that no clock of 64 bits reaches stands for never.
    pub fn clear_from<L: Ledger>(&self, steps: &mut Steps<L>) -> u128
        ensures time { (entered : List CommandValue) → Recalls self.now entered
            → (now : ℕ) → self.now.latest ≤ now → now < 2 ^ 64
            → nat_lt 0 (length (clear_tickets self.now.life now entered)) ≡ nat_le result now }
        ensures bound { steps.new ≤ steps.old + 2 }
    {
        match self.ready.look(steps) {
            Some(_) => 0,
            None => first_time(&self.timed, steps),
        }
    }

    fn sent_counted<L: Ledger>(&mut self, ticket: Ticket, now: Millis, blank: Blank)
        requires time { self.old.latest ≤ now.0 }
        requires name { blank.name ≡ L.name }
        requires parts { blank.parts ≡ L.parts }
        requires some { 0 < blank.parts }
        ensures value { self.new ≡ after_send self.old ticket.0 now }
        ensures recalls { (entered : List Command) → Recalls self.old entered
            → Recalls self.new (after_stage ticket.0 (stage_sent now) entered) }
    {
        let mut steps = Steps::<L>::new(blank);
        self.latest = now;
        let commands = self.commands.look_all(&mut steps);
        if let Some(at) = place_of(commands, ticket) {
            let command = &commands[at];
            let first = command.is_unsent();
            let stage = command.stage.sent(now);
            self.unsent -= u32::from(first);
            self.commands.set_stage(at, stage);
            leave(
                &mut self.timed,
                &mut self.ready,
                &mut self.blocked,
                ticket,
                first,
                &mut steps,
            );
        }
    }

    /// Takes note that a frame of a command was sent, for the first time or again. A finished
    /// command isn't sent any more.
    pub fn sent(&mut self, ticket: Ticket, now: Millis)
        requires { self.old.latest ≤ now.0 }
        ensures value { self.new ≡ after_send self.old ticket.0 now }
        ensures recalls { (entered : List Command) → Recalls self.old entered
            → Recalls self.new (after_stage ticket.0 (stage_sent now) entered) }
    {
        self.sent_counted::<Brand>(ticket, now, Blank::new(1));
    }

    fn finished_counted<L: Ledger>(&mut self, ticket: Ticket, blank: Blank)
        requires name { blank.name ≡ L.name }
        requires parts { blank.parts ≡ L.parts }
        requires some { 0 < blank.parts }
        ensures value { self.new ≡ after_finish self.old ticket.0 }
        ensures recalls { (entered : List Command) → Recalls self.old entered
            → Recalls self.new (after_stage ticket.0 stage_finished entered) }
    {
        let mut steps = Steps::<L>::new(blank);
        let commands = self.commands.look_all(&mut steps);
        if let Some(at) = place_of(commands, ticket) {
            let mut ended = commands[at];
            ended.stage = ended.stage.finished();
            self.commands.set_stage(at, ended.stage);
            self.past_from = self.past_from.min(ended.past_from(self.life));
            let commands = self.commands.look_all(&mut steps);
            self.gone = count_gone(commands, self.gone, self.life, self.latest);
            release(
                commands,
                self.gone,
                &mut self.timed,
                &mut self.blocked,
                &ended,
                self.life,
                self.latest,
                &mut steps,
            );
        }
    }

    /// Takes note that a command that was sent has its outcome.
    pub fn finished(&mut self, ticket: Ticket)
        ensures value { self.new ≡ after_finish self.old ticket.0 }
        ensures recalls { (entered : List Command) → Recalls self.old entered
            → Recalls self.new (after_stage ticket.0 stage_finished entered) }
    {
        self.finished_counted::<Brand>(ticket, Blank::new(1));
    }

    /// How many commands were entered and never sent.
    pub fn held(&self) -> u32
        ensures value { result ≡ unsent_count self.now.commands }
        ensures entered { (entered : List Command) → Recalls self.now entered
            → result ≡ unsent_count entered }
    {
        self.unsent
    }
}
