ghost use Rattle.std.specs.Prelude.{◌≡◌, length, IfOk};

use aoe_base::{BROADCAST, FrameNo, Mac, NoMemory, Ports, TargetId};
use aoe_disk::Loss;
use aoe_frame::Frame;
use aoe_history::{Entry, Fate, History, Run};
use aoe_initiator::LIFETIMES;
use aoe_script::Which;
use aoe_sim_shelves::SimShelf;
use aoe_target::Effect;
use std::alloc::Global;
use std::test::Fail;

const PORT: Mac = Mac([2, 0, 0, 0, 0, 1]);

const STATION: Mac = Mac([2, 0, 0, 0, 0, 0x0a]);

/// A request to all targets that sets the config string to `ab`.
fn set_all() -> Frame {
    let mut frame = Frame::new();
    let head = [0x88, 0xa2, 0x10, 0, 0xff, 0xff, 0xff, 1, 0, 0, 0, 7];
    let pieces: [&[u8]; 4] = [&BROADCAST.0, &STATION.0, &head, b"\0\0\0\0\0\x03\0\x02ab"];
    for piece in pieces {
        let _ = frame.try_extend_from_slice(piece);
    }
    frame
}

/// The shelf 1 with the targets 1.7 and 1.3, of 16 sectors each. The second has a cache.
fn shelf_of_two(alloc: Global) -> Result<SimShelf, Fail>
    ensures { IfOk result (λ x. length x.shelf.targets ≡ 2) }
{
    let mut ports = Ports::new();
    ports.push(PORT);
    let mut shelf = SimShelf::new(alloc, 1, ports, 1500)?;
    shelf.add(alloc, 7, 16, None, false)?;
    shelf.add(alloc, 3, 16, Some(4), false)?;
    Ok(shelf)
}

/// Hands over the frame of this number.
fn arrive(
    shelf: &mut SimShelf,
    run: &mut Run,
    number: FrameNo,
    frame: &Frame,
) -> Result<Frame, Fail> {
    let mut out = Frame::new();
    shelf.arrive(run, number, frame.as_slice(), &mut out)?;
    Ok(out)
}

/// Hands a new frame over, and gives the last reply.
fn asked(shelf: &mut SimShelf, run: &mut Run, frame: &Frame) -> Result<Frame, Fail> {
    run.inject(frame.as_slice())?;
    arrive(shelf, run, FrameNo(run.frames()), frame)
}

/// All that happened is so many things, of which so many are frames.
fn has(run: &Run, entries: usize, frames: u32) -> bool {
    run.history().count() == entries && run.frames() == frames
}

fn is_answered(entry: &Entry, minor: u8, number: u64) -> bool {
    match entry {
        Entry::Arrived {
            dev,
            frame: 1,
            fate: Fate::Replied {
                effect: Effect::Edited,
                frame,
                ..
            },
        } => { dev.minor == minor && *frame == number }
        _ => false,
    }
}

/// Whether both targets answered the first frame, in their order.
fn has_answers(history: &History) -> bool {
    history.count() == 3
        && is_answered(history.entry(1), 7, 2)
        && is_answered(history.entry(2), 3, 3)
}

/// Whether both targets of the shelf answer a frame.
fn answers(shelf: &mut SimShelf, run: &mut Run) -> Result<bool, Fail> {
    asked(shelf, run, &set_all())?;
    let answered = has(run, 3, 3) && has_answers(run.history());
    Ok(answered && shelf.count() == 2 && shelf.major() == 1)
}

/// Arms the keeps of both targets: the power is lost in an edit of the first.
fn arm_both(shelf: &mut SimShelf, run: &mut Run) -> Result<(), NoMemory>
    requires { length shelf.old.shelf.targets ≡ 2 }
{
    shelf.arm(run, 0, Which::Keep, 6, Some(Loss::Old))?;
    shelf.arm(run, 1, Which::Keep, 1, None)
}

fn is_cut(entry: &Entry) -> bool {
    matches!(
        entry,
        Entry::Arrived {
            frame: 1,
            fate: Fate::Cut,
            ..
        }
    )
}

fn is_crash_of_second(entry: &Entry) -> bool {
    matches!(
        entry,
        Entry::Crashed {
            dev: TargetId { major: 1, minor: 3 },
            mode: Loss::Old,
            ..
        }
    )
}

/// Whether the frame was cut, and both targets were mounted again.
fn has_stop(history: &History) -> bool {
    history.count() == 6 && is_cut(history.entry(3)) && is_crash_of_second(history.entry(5))
}

/// Whether a stop in an edit of the target 1.7 cuts a frame, which both answer when it comes again:
/// they are mounted again, and 1.3 isn't armed any more.
fn stops_once(shelf: &mut SimShelf, run: &mut Run) -> Result<bool, Fail>
    requires { length shelf.old.shelf.targets ≡ 2 }
{
    let frame = set_all();
    arm_both(shelf, run)?;
    asked(shelf, run, &frame)?;
    let stopped = has(run, 6, 1) && has_stop(run.history());
    arrive(shelf, run, FrameNo(1), &frame)?;
    Ok(stopped && has(run, 8, 3))
}

/// What a shelf does here.
#[derive(Clone, Copy)]
enum Course {
    Answers,
    StopsOnce,
}

/// Whether a new shelf does so.
fn does(alloc: Global, course: Course) -> Result<bool, Fail> {
    let mut shelf = shelf_of_two(alloc)?;
    let mut run = Run::new(alloc, LIFETIMES);
    match course {
        Course::Answers => answers(&mut shelf, &mut run),
        Course::StopsOnce => stops_once(&mut shelf, &mut run),
    }
}

#[test]
fn each_target_answers(rt: HostRuntime) -> Result<(), Fail> {
    assert!(rt; does(rt.alloc(), Course::Answers)?);
    Ok(())
}

#[test]
fn a_stop_cuts_the_arrival(rt: HostRuntime) -> Result<(), Fail> {
    assert!(rt; does(rt.alloc(), Course::StopsOnce)?);
    Ok(())
}
