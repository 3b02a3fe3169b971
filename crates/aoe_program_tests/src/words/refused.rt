//! The lines that spell none.

use super::*;

#[test]
fn refuses_lines_without_a_command(rt: HostRuntime) -> Result<(), Fail> {
    let lines = [
        // No command, another, or a word before it.
        "",
        "reply 1 0 d k",
        "Answer 1 0 d k",
        "help",
        "help answer",
        "--help",
        "--mtu 1500 answer 1 0 d k",
        // Words beside replay.
        "replay ",
        "replay script",
        "replay replay",
        "replay --mtu 1500",
        "replay --help",
        "replay --",
        "Replay",
        // Too few words, too many, an empty one.
        "answer",
        "answer 1",
        "answer 1 0 d",
        "answer 1 0 d k k",
        "capture 1 0 d k k",
        "answer 1 0  k",
        "answer 1 0 d k ",
    ];
    refuses(&rt, rt.alloc(), "", &lines)
}

#[test]
fn refuses_numbers_and_options_of_answer(rt: HostRuntime) -> Result<(), Fail> {
    let lines = [
        // Numbers.
        "answer 70000 0 d k",
        "answer 65535 0 d k",
        "answer 1 255 d k",
        "answer -1 0 d k",
        "answer 1 0x0 d k",
        "answer 000000000000000000001 0 d k",
        "answer 1 0 d k --mtu 1499",
        "answer 1 0 d k --mtu=9001",
        // Options.
        "answer 1 0 d k --mtu",
        "answer 1 0 d k --mtu=",
        "answer 1 0 d k --mtu ",
        "answer 1 0 d k --mtu -1500",
        "answer 1 0 d k --mtu=-1500",
        "answer 1 0 d k --mtu --port 02:00:00:00:00:01",
        "answer 1 0 d k --mtu 1500 --mtu 1500",
        "answer --mtu=1500 1 0 d k --mtu 1500",
        "answer 1 0 d k --mt 1500",
        "answer 1 0 d k -m 1500",
        "answer 1 0 d k --ports 02:00:00:00:00:01",
        "answer 1 0 d k --help",
        "answer 1 0 d k --version",
        "answer 1 0 d -",
        "answer 1 0 d --",
        "answer -- 1 0 d k",
        "answer 1 0 d -k",
    ];
    refuses(&rt, rt.alloc(), "", &lines)
}

#[test]
fn refuses_links_files_and_numbers_of_serve(rt: HostRuntime) -> Result<(), Fail> {
    let lines = [
        "serve 1 d k --local x",
        "serve 1 d k --peers y",
        "serve 1 d k --local= --peers y",
        "serve 1 d k --local=-x --peers y",
        "serve 1 --local x --peers y",
        "serve 1 d --local x --peers y",
        "serve 1 d k d --local x --peers y",
        "serve 65535 d k --local x --peers y",
        "serve 1 d k --local x --peers y --frames 0",
        "serve 1 d k --local x --peers y --frames 4294967296",
        "serve 1 d k --local x --peers y --stop=",
        "serve 1 d k --local x --peers y --stop s --stop t",
        "serve 1 d k --local x --peers y --idle 1000001",
        "serve 1 d k --local x --peers y --mtu 1499",
        "serve 1 d k --local x --peers y --cache 65537",
        "serve 1 d k --local x --peers y --cache 1 --cache 1",
    ];
    refuses(&rt, rt.alloc(), "", &lines)
}

#[test]
fn refuses_words_of_mirror(rt: HostRuntime) -> Result<(), Fail> {
    let lines = [
        "mirror 1 0 one two mark",
        "mirror 1 0 one two mark keep further",
        "mirror 65535 0 one two mark keep",
        "mirror 1 255 one two mark keep",
        "mirror 1 0 one two mark keep --cache 1",
        "mirror 1 0 one two mark keep --frames 1",
        "mirror 1 0 one two mark keep --lead-other=1",
        // Options of a link without one, and links that are none.
        "mirror 1 0 one two mark keep --idle 1",
        "mirror 1 0 one two mark keep --stop s",
        "mirror 1 0 one two mark keep --vxlan 1",
        "mirror 1 0 one two mark keep --local x",
        "mirror 1 0 one two mark keep --local x --peers y --tap t",
        "mirror 1 0 one two mark keep --tap t --vxlan 1",
        "mirror 1 0 one two mark keep --tap t --idle 1000001",
        // One hyphen elsewhere than for one of the two files.
        "mirror 1 0 - - mark keep",
        "mirror 1 0 one two - keep",
        "mirror 1 0 one two mark -",
        "mirror 1 0 - two - keep",
        "mirror - 0 one two mark keep",
        "mirror 1 - one two mark keep",
        "mirror 1 0 one two mark keep --tap -",
        "mirror 1 0 one two mark keep --tap=-",
        "mirror 1 0 one two mark keep --local - --peers y",
        "mirror 1 0 one two mark keep --local x --peers -",
        "mirror 1 0 one two mark keep --tap t --stop -",
        "mirror 1 0 one two mark keep --mtu -",
        "serve 1 - k --tap t",
        "serve 1 d k - k --tap t",
        "- 1 0 one two mark keep",
    ];
    refuses(&rt, rt.alloc(), "", &lines)
}

#[test]
fn refuses_words_of_a_check(rt: HostRuntime) -> Result<(), Fail> {
    let lines = [
        "mirror --check",
        "mirror --check one two",
        "mirror --check one two mark keep",
        "mirror --check 1 0 one two mark keep",
        "mirror --check - two mark",
        "mirror --check one - mark",
        "mirror --check one two -",
        "mirror --check one two mark --port 02:00:00:00:00:01",
        "mirror --check one two mark --mtu 1500",
        "mirror --check one two mark --lead-other",
        "mirror --check one two mark --tap t",
        "mirror --check one two mark --local x --peers y",
        "mirror --check one two mark --vxlan 1",
        "mirror --check one two mark --idle 1",
        "mirror --check one two mark --stop s",
        "mirror --check --check one two mark",
        "mirror --check=yes one two mark",
        "serve --check one two mark",
    ];
    refuses(&rt, rt.alloc(), "", &lines)
}

#[test]
fn refuses_words_of_audit(rt: HostRuntime) -> Result<(), Fail> {
    let lines = [
        "audit 1 0 16",
        "audit 1 0 keep",
        "audit 1 0 16 keep keep",
        "audit 65535 0 16 keep",
        "audit 1 255 16 keep",
        "audit 1 0 1099511627777 keep",
        "audit 1 0 16 keep --mtu 1499",
        "audit 1 0 16 keep --port 02:00:00:00:00:01",
        "audit 1 0 16 keep --ports 03:00:00:00:00:01",
        "audit 1 0 16 keep --tap t",
    ];
    refuses(&rt, rt.alloc(), "", &lines)
}

#[test]
fn refuses_no_words(rt: HostRuntime) -> Result<(), Fail> {
    let read = read_words(rt.alloc(), &[])?;
    assert!(rt; read.is_none());
    Ok(())
}

#[test]
fn refuses_ports_of_switch(rt: HostRuntime) -> Result<(), Fail> {
    let lines = [
        "switch",
        "switch access:10",
        "switch access:10 trunk:",
        "switch access:10 trunk:1,1",
        "switch access:10 trunk:1,",
        "switch access:10 access:0",
        "switch access:10 access:4095",
        "switch access:10 access:10,20",
        "switch access:10 10",
        "switch access:10 access:10 --mtu 1500",
    ];
    refuses(&rt, rt.alloc(), "", &lines)
}

#[test]
fn refuses_words_of_nbd(rt: HostRuntime) -> Result<(), Fail> {
    let lines = [
        "nbd",
        "nbd e1.0",
        "nbd --socket s",
        "nbd e1.0 --socket",
        "nbd e1.0 --socket ",
        "nbd e1.0 --socket=",
        "nbd e1.0 --socket s --socket s",
        "nbd e1.0 s --socket s",
        "nbd e1.0 --socket s --lifetime 600001",
        "nbd e1.0 --socket s --turns 0",
        "nbd e1.0 --socket s --idle 1000001",
        "nbd e1.0 --socket s --read-only=1",
        "nbd e1.0 --socket s --verify",
        "nbd e1.0 --socket s --tap t",
    ];
    refuses(&rt, rt.alloc(), ENDS, &lines)
}
