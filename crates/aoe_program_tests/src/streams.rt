use crate::checks::holds;
use aoe_base::Failed;
use aoe_frame::Frame;
use aoe_io::{
    Got, JoinedLink, Link, MemSink, MemSource, Next, StreamRefusal, give_frame, next_frame,
};
use std::test::Fail;

/// Takes a frame of a source that has given so many bytes.
fn take(source: &mut MemSource, offset: u64, frame: &mut Frame) -> Result<Next, StreamRefusal> {
    next_frame(source, offset, frame)
}

/// Whether a frame is given whole.
fn gives(sink: &mut MemSink, frame: &Frame) -> bool {
    give_frame(sink, frame.as_slice()).is_ok()
}

#[test]
fn takes_and_gives_frames(rt: HostRuntime) -> Result<(), Fail> {
    let stream = [
        0, 14, 1, 2, 3, 4, 5, 6, 7, 8, 9, 10, 11, 12, 13, 14, 0, 13, 0,
    ];
    let mut source = MemSource::of(rt.alloc(), &stream)?;
    let mut sink = MemSink::new(rt.alloc(), 16)?;
    let mut frame = Frame::new();
    let taken = take(&mut source, 0, &mut frame);
    let given = gives(&mut sink, &frame);
    assert!(rt; taken == Ok(Next::Frame) && given && sink.bytes() == &stream[..16]);
    let refused = take(&mut source, 16, &mut frame);
    assert!(rt; refused == Err(StreamRefusal::Stream { offset: 16 }));
    Ok(())
}

/// Whether a frame of 100 bytes is refused, where a call of the sink fails, and two bytes are in it.
fn stops_at(sink: &mut MemSink, call: u32) -> bool {
    sink.fail_at(call);
    let given = give_frame(sink, &[7; 100]);
    given == Err(Failed) && sink.bytes().len() == 2
}

#[test]
fn a_failed_call_of_a_sink_is_the_last(rt: HostRuntime) -> Result<(), Fail> {
    let mut sink = MemSink::new(rt.alloc(), 200)?;
    let stopped = [stops_at(&mut sink, 2), stops_at(&mut sink, 1)];
    assert!(rt; stopped == [true, true]);
    Ok(())
}

#[test]
fn a_failed_call_of_a_source_is_the_last(rt: HostRuntime) -> Result<(), Fail> {
    let mut source = MemSource::of(rt.alloc(), b"\0\x0e0123456789abcd")?;
    let mut frame = Frame::new();
    source.fail_at(1);
    let failed = take(&mut source, 0, &mut frame);
    let taken = take(&mut source, 0, &mut frame);
    assert!(rt; failed == Err(StreamRefusal::SourceFault) && taken == Ok(Next::Frame));
    assert!(rt; frame.as_slice() == b"0123456789abcd".as_slice());
    Ok(())
}

/// What a link does.
#[derive(Clone, Copy)]
enum Turn {
    /// It brings these bytes as a frame.
    Brings,
    /// It brings no frame, and this comes of it.
    Gives(Result<Got, Failed>),
    /// It takes a frame of these bytes.
    Takes,
    /// It fails to take it.
    Refuses,
}

/// Whether a link brings these bytes as a frame.
fn brings<L: Link>(link: &mut L, bytes: &[u8]) -> bool {
    let mut frame = Frame::new();
    link.recv(&mut frame) == Ok(Got::Frame) && frame.as_slice() == bytes
}

/// Whether the turn of a link goes as it is to.
fn goes<L: Link>(link: &mut L, turn: Turn, bytes: &[u8]) -> bool {
    match turn {
        Turn::Brings => brings(link, bytes),
        Turn::Gives(got) => link.recv(&mut Frame::new()) == got,
        Turn::Takes => link.send(bytes).is_ok(),
        Turn::Refuses => link.send(bytes) == Err(Failed),
    }
}

const QUIET: Turn = Turn::Gives(Ok(Got::Quiet));

#[test]
fn joined_links_give_what_the_other_took(rt: HostRuntime) -> Result<(), Fail> {
    let long = [0; 9019];
    // Whether it is the turn of the first end, what it does, and the bytes.
    let turns: [(bool, Turn, &[u8]); 19] = [
        (false, QUIET, b""),
        (true, Turn::Takes, b"first"),
        (true, Turn::Takes, b"second"),
        (true, Turn::Refuses, b"third"),
        (true, QUIET, b""),
        (false, Turn::Takes, b"back"),
        (false, Turn::Takes, b"again"),
        (false, Turn::Refuses, b"full"),
        (false, Turn::Brings, b"first"),
        (true, Turn::Takes, b"fourth"),
        (false, Turn::Brings, b"second"),
        (false, Turn::Brings, b"fourth"),
        (false, QUIET, b""),
        (true, Turn::Brings, b"back"),
        (false, Turn::Refuses, &long),
        (false, Turn::Takes, b"last"),
        (true, Turn::Brings, b"again"),
        (true, Turn::Brings, b"last"),
        (true, QUIET, b""),
    ];
    let (mut one, mut two) = JoinedLink::pair(rt.alloc(), 2)?;
    for (is_first, turn, bytes) in &turns {
        let has_gone = if *is_first {
            goes(&mut one, *turn, bytes)
        } else {
            goes(&mut two, *turn, bytes)
        };
        assert!(rt; has_gone);
    }
    Ok(())
}

#[test]
fn says_why_no_frame_comes(rt: HostRuntime) -> Result<(), Fail> {
    let cases = [
        (StreamRefusal::SourceFault, "source fault"),
        (StreamRefusal::Stream { offset: 0 }, "bad stream at byte 0"),
        (
            StreamRefusal::Stream { offset: u64::MAX },
            "bad stream at byte 18446744073709551615",
        ),
    ];
    for (refusal, text) in &cases {
        let told = format!(in rt.alloc(); "{refusal}")?;
        holds(&rt, told.as_str() == *text, text);
    }
    Ok(())
}
