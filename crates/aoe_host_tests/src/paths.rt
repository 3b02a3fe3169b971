//! Which path is taken next, and how long an answer is waited for.
use super::initiator::two;
use aoe_base::{Mac, Millis, NoMemory, PathNo};
use aoe_paths::Paths;
use std::alloc::Global;
use std::test::Fail;

fn port(last: u8) -> Mac {
    Mac([2, 0, 0, 0, 0, last])
}

/// The paths from the ports a and b to the ports 1 and 2.
fn four_paths(alloc: Global) -> Result<Paths, NoMemory> {
    Paths::new(alloc, &two(0xa, 0xb), &two(1, 2))
}

/// What happens on the paths.
#[derive(Clone, Copy)]
enum Step {
    /// This path is chosen.
    Chooses(u32),
    Misses(u32),
    Answers(u32),
}

/// Whether a step goes as it is to.
fn goes(paths: &mut Paths, step: Step) -> bool {
    match step {
        Step::Chooses(path) => paths.choose() == PathNo(path),
        Step::Misses(path) => {
            paths.missed(PathNo(path));
            true
        }
        Step::Answers(path) => {
            paths.answered(PathNo(path), None);
            true
        }
    }
}

#[test]
fn goes_round_the_paths_without_a_mark(rt: HostRuntime) -> Result<(), Fail> {
    let steps = [
        Step::Chooses(0),
        Step::Chooses(1),
        Step::Misses(2),
        Step::Chooses(3),
        Step::Chooses(0),
        Step::Chooses(1),
        Step::Chooses(3),
        Step::Answers(2),
        Step::Chooses(0),
        Step::Chooses(1),
        Step::Chooses(2),
    ];
    let mut paths = four_paths(rt.alloc())?;
    for step in &steps {
        assert!(rt; goes(&mut paths, *step));
    }
    Ok(())
}

/// How long an answer between these ports is waited for.
fn wait_between(paths: &Paths, local: u8, remote: u8) -> Option<Millis> {
    let path = paths.find(port(local), port(remote))?;
    Some(paths.timeout(path))
}

/// Whether an answer on the first path is waited for so long, behind so many of these trips.
fn waits(paths: &mut Paths, trip: u64, count: u32, wait: u64) -> bool {
    for _ in 0..count {
        paths.answered(PathNo(0), Some(Millis(trip)));
    }
    wait_between(paths, 0xa, 1) == Some(Millis(wait))
}

#[test]
fn waits_four_times_the_greatest_of_eight_trips(rt: HostRuntime) -> Result<(), Fail> {
    let cases = [
        (0, 0, 1000),
        (30, 1, 120),
        (10, 7, 120),
        (10, 1, 100),
        (20_000, 1, 60_000),
    ];
    let mut paths = four_paths(rt.alloc())?;
    for (trip, count, wait) in &cases {
        assert!(rt; waits(&mut paths, *trip, *count, *wait));
    }
    assert!(rt; wait_between(&paths, 0xa, 2) == Some(Millis(1000)));
    Ok(())
}
