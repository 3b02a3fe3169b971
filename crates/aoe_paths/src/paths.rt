//! The paths of a host to one device, and the choice among them.
ghost use Rattle.std.specs.Prelude.{◌≡◌, ◌≢◌, ℕ, ◌<◌, ◌≤◌, List, [], ◌∷◌, bytes_eq, false, length, not, option_map, position, replicate, slice_get, Contains, IfNone, IfOk, IfSome};
ghost use Rattle.aoe_paths.specs.Path.{new_path};
ghost use Rattle.aoe_paths.specs.PathLog.{next_of, timeout_on, PathEvent, Recalls};
ghost use Rattle.aoe_paths.specs.PathLog.PathEvent.{Answered, Chosen, Missed};
ghost use Rattle.aoe_paths.specs.PathTable.{after_answer, after_miss, in_turn, new_paths, next_path, pair_of, path_after, path_count, trips_of};
ghost use Rattle.aoe_paths.specs.Timeout.{timeout_of};
ghost use Rattle.aoe_base.specs.Addresses.{IsDistinct};

use crate::path::Path;
use aoe_base::{Mac, Millis, NoMemory, PathNo, Ports, copy_of};
use std::alloc::Global;
use std::marker::Model;

/// `count` paths without a mark and a trip.
fn fresh(alloc: Global, count: usize) -> Result<Vec<Path>, NoMemory>
    ensures { IfOk result (λ paths. paths.items ≡ replicate count new_path) }
{
    let mut paths = Vec::new(alloc);
    for _ in 0..count {
        let path = Path::new(alloc)?;
        paths.push(path)?;
    }
    Ok(paths)
}

/// The path after the one chosen last, in cyclic order.
fn path_after(count: usize, chosen: Option<PathNo>) -> usize
    requires { 0 < count }
    ensures after { result ≡ path_after count (option_map (λ p. p.0) chosen) }
    ensures within { result < count }
{
    match chosen {
        Some(chosen) => (chosen.0 as usize + 1) % count,
        None => 0,
    }
}

/// How many paths are marked from `start` on, in cyclic order, before the first that isn't.
fn steps_to_unmarked(paths: &[Path], start: usize) -> Option<usize>
    requires { start ≤ length paths.now }
    ensures steps { result ≡ position (λ path. not path.missed) (in_turn start paths.now) }
    ensures within { IfSome result (λ steps. steps < length paths.now) }
{
    let (before, after) = paths.split_at(start);
    after
        .iter()
        .chain(before.iter())
        .position(|path| !path.is_missed())
}

/// The index of a port.
fn place_of(ports: &[Mac], port: Mac) -> Option<usize>
    ensures { result ≡ position (λ other. bytes_eq other.0 port.0) ports.now }
{
    ports.iter().position(|other| *other == port)
}

/// The paths between the ports of a host and those of a device.
///
/// Path number `local * remotes + remote` goes from a local to a remote port, all counted from 0.
/// All room is made by `new`: no later call takes memory.
#[derive(Drop)]
pub struct Paths {
    locals: Ports,
    remotes: Ports,

    /// The path that was chosen last.
    chosen: Option<PathNo>,

    /// The paths in the order of their numbers.
    paths: Vec<Path>,
}

impl Model for Paths {
    ghost use Rattle.std.specs.Prelude.{map, option_map};
    ghost use Rattle.aoe_paths.specs.PathTable.{PathTable, IsTable};

    ghost Value = { PathTable };

    ghost view = { λ table. record {
      locals = table.locals.items;
      remotes = table.remotes.items;
      chosen = option_map (λ p. p.0) table.chosen;
      marks = map (λ path. path.missed) table.paths.items;
      trips = map (λ path. path.trips) table.paths.items;
    } };

    ghost invariant = { λ table. IsTable table.locals.items table.remotes.items (option_map (λ p. p.0) table.chosen) table.paths.items };
}

impl Paths {
    /// The paths between these ports, none of them chosen, missed or answered.
    pub fn new(alloc: Global, locals: &Ports, remotes: &Ports) -> Result<Paths, NoMemory>
        requires local { locals.now.items ≢ [] }
        requires remote { remotes.now.items ≢ [] }
        requires locals_differ { IsDistinct locals.now.items }
        requires remotes_differ { IsDistinct remotes.now.items }
        ensures value { IfOk result (λ paths. paths
            ≡ new_paths locals.now.items remotes.now.items) }
        ensures recalls { IfOk result (λ paths. Recalls paths []) }
    {
        Ok(Paths {
            locals: copy_of(locals),
            remotes: copy_of(remotes),
            chosen: None,
            paths: fresh(alloc, locals.len() * remotes.len())?,
        })
    }

    /// Chooses the path of the next frame: after the path chosen last, in cyclic order, the first
    /// without a mark, or the very next where all have one.
    pub fn choose(&mut self) -> PathNo
        ensures next { result.0 ≡ next_path self.old.marks self.old.chosen }
        ensures within { result.0 < path_count self.new }
        ensures unmarked { Contains self.old.marks false
            → slice_get self.old.marks result.0 ≡ Some false }
        ensures same { self.new ≡ record self.old { chosen = Some result.0 } }
        ensures next_recalled { (log : List PathEvent) → Recalls self.old log
            → result.0 ≡ next_of (path_count self.old) log }
        ensures recalls { (log : List PathEvent) → Recalls self.old log
            → Recalls self.new (Chosen result.0 ∷ log) }
    {
        let count = self.paths.len();
        let start = path_after(count, self.chosen);
        let steps = steps_to_unmarked(&self.paths, start).unwrap_or(0);
        let chosen = PathNo(((start + steps) % count) as u32);
        self.chosen = Some(chosen);
        chosen
    }

    /// The local and the remote port of a path.
    pub fn pair(&self, p: PathNo) -> (Mac, Mac)
        requires { p.0 < path_count self.now }
        ensures { pair_of self.now p.0 ≡ Some result }
    {
        let remotes = self.remotes.len();
        let p = p.0 as usize;
        (self.locals[p / remotes], self.remotes[p % remotes])
    }

    /// The path between a local and a remote port.
    pub fn find(&self, local: Mac, remote: Mac) -> Option<PathNo>
        ensures within { IfSome result (λ p. p.0 < path_count self.now) }
        ensures pair { IfSome result (λ p. pair_of self.now p.0 ≡ Some (local, remote)) }
        ensures only { IfSome result (λ p. (q : ℕ) → pair_of self.now q ≡ Some (local, remote)
            → q ≡ p.0) }
        ensures none { IfNone result ((q : ℕ) → pair_of self.now q ≢ Some (local, remote)) }
    {
        let local = place_of(&self.locals, local)?;
        let remote = place_of(&self.remotes, remote)?;
        Some(PathNo((local * self.remotes.len() + remote) as u32))
    }

    /// Takes note of an answer on a path: its mark goes, and its round trip counts where it is
    /// known. A number of no path changes nothing.
    pub fn answered(&mut self, p: PathNo, trip: Option<Millis>)
        ensures value { self.new ≡ after_answer self.old p.0 trip }
        ensures recalls { (log : List PathEvent) → Recalls self.old log
            → Recalls self.new (Answered p.0 trip ∷ log) }
    {
        let Some(path) = self.paths.get_mut(p.0 as usize) else {
            return;
        };
        path.answer(trip);
    }

    /// Marks a path on which an answer was missed. A number of no path changes nothing.
    pub fn missed(&mut self, p: PathNo)
        ensures value { self.new ≡ after_miss self.old p.0 }
        ensures recalls { (log : List PathEvent) → Recalls self.old log
            → Recalls self.new (Missed p.0 ∷ log) }
    {
        let Some(path) = self.paths.get_mut(p.0 as usize) else {
            return;
        };
        path.miss();
    }

    /// How long an answer on a path is waited for after the first sending.
    pub fn timeout(&self, p: PathNo) -> Millis
        requires { p.0 < path_count self.now }
        ensures value { result.0 ≡ timeout_of (trips_of self.now p.0) }
        ensures recalled { (log : List PathEvent) → Recalls self.now log
            → result.0 ≡ timeout_on log p.0 }
    {
        self.paths[p.0 as usize].timeout()
    }
}
