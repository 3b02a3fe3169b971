//! Numbers and steps.
use crate::checks::holds;
use aoe_base::{Failed, NoMemory, Steps, read_number};
use std::marker::Brand;
use std::mem::size_of;
use std::test::Fail;

#[test]
fn reads_numbers(rt: HostRuntime) {
    let cases = [
        ("0", 0, Some(0)),
        ("65534", 65534, Some(65534)),
        ("65535", 65534, None),
        ("007", 254, Some(7)),
        ("", 9, None),
        ("+1", 9, None),
        ("18446744073709551615", u64::MAX, Some(u64::MAX)),
        ("000000000000000000001", 9, None),
    ];
    for (text, max, number) in &cases {
        holds(&rt, read_number(text.as_bytes(), *max) == *number, text);
    }
}

#[test]
fn steps_have_no_bytes(rt: HostRuntime) {
    assert!(rt; size_of::<Steps<Brand>>() == 0);
}

#[test]
fn says_what_is_missing(rt: HostRuntime) -> Result<(), Fail> {
    let memory = format!(in rt.alloc(); "{NoMemory}")?;
    let answer = format!(in rt.alloc(); "{Failed}")?;
    holds(&rt, memory.as_str() == "no memory", "memory");
    holds(&rt, answer.as_str() == "failed", "answer");
    Ok(())
}
