ghost use Rattle.std.specs.Prelude.{◌≤◌, length};
ghost use Rattle.aoe_base.specs.Sizes.{longest_frame};

use crate::checks::holds;
use aoe_base::{FrameNo, Lifetimes, Millis};
use aoe_net::{Net, NetLimit, NetRefusal};
use std::test::Fail;

/// Whether a frame that is sent at a time has this number.
fn sends(net: &mut Net, now: u64, frame: &[u8], number: u32) -> bool
    requires len { length frame.now ≤ longest_frame }
    requires time { net.old.latest ≤ now }
    ensures { net.new.latest ≤ now }
{
    net.send(Millis(now), frame) == Ok(FrameNo(number))
}

/// Whether this comes of handing over a frame.
fn hands_over(net: &Net, number: u32, now: u64, frame: Option<&[u8]>) -> bool {
    net.fetch(FrameNo(number), Millis(now)) == frame
}

/// The lifetimes: responses live shorter.
const LIFE: Lifetimes = Lifetimes {
    requests: Millis(2000),
    responses: Millis(500),
};

/// As short as a response can be: version 1, and its flag.
const RESPONSE: [u8; 15] = [0, 0, 0, 0, 0, 0, 0, 0, 0, 0, 0, 0, 0, 0, 0x18];

#[test]
fn hands_over_within_the_lifetimes(rt: HostRuntime) {
    let mut net = Net::new(rt.alloc(), LIFE);
    let first = sends(&mut net, 5, &RESPONSE[..14], 1);
    let second = sends(&mut net, 7, &RESPONSE, 2);
    assert!(rt; first && second && net.count() == 2 && net.total_bytes() == 29);
    // The number, the time, and what comes.
    let cases: [(u32, u64, Option<&[u8]>); 8] = [
        (1, 5, Some(&RESPONSE[..14])),
        (1, 2005, Some(&RESPONSE[..14])),
        (1, 2006, None),
        (2, 7, Some(&RESPONSE)),
        (2, 507, Some(&RESPONSE)),
        (2, 508, None),
        (0, 7, None),
        (3, 7, None),
    ];
    for (number, now, frame) in &cases {
        assert!(rt; hands_over(&net, *number, *now, *frame));
    }
}

#[test]
fn says_why_a_frame_is_not_sent(rt: HostRuntime) -> Result<(), Fail> {
    let cases = [
        (NetRefusal::Full(NetLimit::Frames), "the network is full"),
        (NetRefusal::Full(NetLimit::Bytes), "the network is full"),
        (NetRefusal::NoMemory, "no memory"),
    ];
    for (refusal, text) in &cases {
        let told = format!(in rt.alloc(); "{refusal}")?;
        holds(&rt, told.as_str() == *text, text);
    }
    Ok(())
}
