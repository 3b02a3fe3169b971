//! Frames that are handed over as their addresses say, one after another.
ghost use Rattle.std.specs.Prelude.{◌≡◌, ◌≤◌, ℕ, suc, List, length, false, slice_range};
ghost use Rattle.std.specs.Option.{option_map_or};
ghost use Rattle.aoe_frame.specs.Header.{fields};
ghost use Rattle.aoe_history.specs.Frames.{arriving, frames};
ghost use Rattle.aoe_history.specs.Setup.{Setup};
ghost use Rattle.aoe_sim_setup.specs.Layout.{Placed};
ghost use Rattle.aoe_world.specs.Schedule.{handings, is_for, losses};
ghost use Rattle.aoe_world.specs.Sim.{ArePlaces, DoesAll, HasPlaces, IsNetwork, IsReady, Moved};

use crate::act::Act;
use crate::place::Place;
use crate::sim::Sim;
use aoe_base::FrameNo;
use aoe_net::NetRefusal;

/// The bytes of a frame from one place to another, as far as the frame goes.
fn part(frame: &[u8], from: usize, to: usize) -> &[u8]
    requires { from ≤ to }
    ensures { result.now ≡ slice_range frame.now from to }
{
    let end = to.min(frame.len());
    let start = from.min(end);
    &frame[start..end]
}

impl Sim {
    /// Whether a frame can be handed over and is for a station.
    fn is_for(&self, number: FrameNo, place: &Place) -> bool
        ensures { result ≡ option_map_or (λ f. is_for (fields f).dst
            (fields f).src place.now.ports.items)
            (arriving self.now.run.life self.now.run.entries number.0) false }
    {
        match self.run.fetch(number) {
            Some(frame) => place.gets(part(frame, 0, 6), part(frame, 6, 12)),
            None => false,
        }
    }

    /// Hands a frame to its addressees, in the order of their lines, or loses it where it has none.
    pub(crate) fn hand_over(&mut self, number: FrameNo, places: &[Place]) -> Result<(), NetRefusal>
        requires { HasPlaces places.now self.old }
        ensures { (s : Setup) (majors : List ℕ) (stations : List Placed) → IsNetwork s majors → IsReady s majors self.old
            → ArePlaces s majors stations places.now
            → DoesAll result s majors (handings s stations self.old.run.entries number.0) self.old self.new }
    {
        let mut any = false;
        'places: for place in places {
            if self.is_for(number, place) {
                match self.act(Act::Hand {
                    frame: number,
                    to: place.at,
                }) {
                    Ok(()) => any = true,
                    Err(refusal) => return Err(refusal),
                }
            }
        }
        if any {
            return Ok(());
        }
        self.act(Act::Lose { frame: number })
    }

    /// Hands over the frames from the cursor on, as many as there are of `n`.
    pub(crate) fn pass(
        &mut self,
        places: &[Place],
        cursor: &mut u32,
        n: u64,
    ) -> Result<(), NetRefusal>
        requires { HasPlaces places.now self.old }
        ensures { (s : Setup) (majors : List ℕ) (stations : List Placed) → IsNetwork s majors → IsReady s majors self.old
            → ArePlaces s majors stations places.now → 1 ≤ cursor.old → cursor.old ≤ suc (length (frames self.old.run.entries))
            → Moved result s majors (handings s stations) n cursor.old cursor.new self.old self.new }
    {
        'passed: for _ in 0..n {
            if *cursor > self.run.frames() {
                return Ok(());
            }
            match self.hand_over(FrameNo(*cursor), places) {
                Ok(()) => *cursor += 1,
                Err(refusal) => return Err(refusal),
            }
        }
        Ok(())
    }

    /// Loses the frames from the cursor on, as many as there are of `n`.
    pub(crate) fn skip(&mut self, cursor: &mut u32, n: u64) -> Result<(), NetRefusal>
        ensures { (s : Setup) (majors : List ℕ) → IsNetwork s majors → IsReady s majors self.old
            → 1 ≤ cursor.old → cursor.old ≤ suc (length (frames self.old.run.entries))
            → Moved result s majors losses n cursor.old cursor.new self.old self.new }
    {
        'skipped: for _ in 0..n {
            if *cursor > self.run.frames() {
                return Ok(());
            }
            match self.act(Act::Lose {
                frame: FrameNo(*cursor),
            }) {
                Ok(()) => *cursor += 1,
                Err(refusal) => return Err(refusal),
            }
        }
        Ok(())
    }
}
