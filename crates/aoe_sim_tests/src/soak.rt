ghost use Rattle.std.specs.Prelude.{◌≤◌};

use aoe_script::print_script;
use aoe_soak::soak;
use std::alloc::Global;
use std::test::Fail;

/// The setup lines of every script.
const SETUP: &str = "\
life 2000
shelf s 1 02:00:00:00:01:00,02:00:00:00:01:01 1500
slot s 0 4096
host a 02:00:00:00:0a:00,02:00:00:00:0a:01
host b 02:00:00:00:0b:00,02:00:00:00:0b:01
attach a s 0
attach b s 0
";

/// The events of ten commands from the seed 0.
const TEN: &str = "\
write a e1.0 0 1 00
pass 2
write b e1.0 2048 1 00
pass 2
read a e1.0 0 1
pass 2
read b e1.0 2048 1
pass 1
skip 1
tick 1000
pass 2
write a e1.0 1 1 01
pass 2
tick 2001
flush a e1.0
pass 2
flush b e1.0
pass 2
crash s torn
write b e1.0 2049 1 01
pass 2
read a e1.0 1 1
pass 1
again
pass 2
read b e1.0 2049 1
pass 2
write a e1.0 2 1 02
pass 2
write b e1.0 2050 1 02
pass 2
";

/// The events of five commands from the greatest seed: the sector and the byte start anew behind the last.
const WRAPPED: &str = "\
write a e1.0 2047 1 ff
pass 2
write b e1.0 4095 1 ff
pass 2
tick 2001
flush a e1.0
pass 2
flush b e1.0
pass 2
crash s torn
read a e1.0 2047 1
pass 2
read b e1.0 4095 1
pass 1
skip 1
tick 1000
pass 2
write a e1.0 0 1 00
pass 2
";

/// Whether the script of a seed and a count has the setup lines and then these.
fn gives(alloc: Global, seed: u16, count: u32, events: &str) -> Result<bool, Fail>
    requires some { 1 ≤ count }
    requires most { count ≤ 16000 }
{
    let script = soak(alloc, seed, count)?;
    let text = print_script(alloc, &script)?;
    let (setup, rest) = text.bytes().split_at(text.bytes().len().min(SETUP.len()));
    Ok(setup == SETUP.as_bytes() && rest == events.as_bytes())
}

#[test]
fn gives_the_stated_lines(rt: HostRuntime) -> Result<(), Fail> {
    let first = gives(rt.alloc(), 0, 10, TEN)?;
    let last = gives(rt.alloc(), 65_535, 5, WRAPPED)?;
    assert!(rt; first && last);
    Ok(())
}
