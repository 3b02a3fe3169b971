//! A source that is read to its end.
ghost use Rattle.std.specs.Prelude.{◌≡◌, ◌≢◌, ◌++◌, ◌<◌, ◌≤◌, ◌+◌, ◌^◌, [], length, take, Err, IfErr, IfOk, OnErr, OnOk};
ghost use Rattle.aoe_base.specs.Faults.{Rose};
ghost use Rattle.aoe_io.specs.Bytes.{Gave, GaveSome, IsEnded};
ghost use Rattle.aoe_io.specs.Input.{input_piece, IsReadInPart, IsReadUpTo};

use crate::{Source, fill_from};
use aoe_base::Failed;
use std::alloc::Global;

/// How many bytes an input grows by.
const PIECE: usize = 65_536;

/// Why a source wasn't read to its end.
#[derive(Clone, Copy, Debug, PartialEq, Eq)]
pub enum InputRefusal {
    /// An allocation was refused.
    NoMemory,

    /// A call of the source failed.
    Fault,
}

/// Adds the next bytes of the source to an input, as many as the buffer has, and says how many: fewer
/// only where the source ends. Room for them is asked for before they are read.
fn read_piece<S: Source>(
    source: &mut S,
    buffer: &mut [u8],
    input: &mut Vec<u8>,
) -> Result<usize, InputRefusal>
    requires { 0 < length buffer.old }
    ensures within { IfOk result (λ n. n ≤ length buffer.old) }
    ensures gave { IfOk result (λ n. Gave (S.left source.old) (S.left source.new)
        (take n buffer.new)) }
    ensures added { IfOk result (λ n. input.new.items ≡ input.old.items ++ take n buffer.new) }
    ensures end { IfOk result (λ n. n < length buffer.old → IsEnded (S.left source.new)) }
    ensures memory { result ≡ Err InputRefusal.NoMemory → source.new ≡ source.old }
    ensures unread { OnErr result (GaveSome (S.left source.old) (S.left source.new)) }
    ensures count { S.faults source.old ≤ S.faults source.new }
    ensures cause { result ≡ Err InputRefusal.Fault
        → Rose (S.faults source.old) (S.faults source.new) }
    ensures no_fault { OnOk result (S.faults source.new ≡ S.faults source.old) }
    ensures untold { IfErr result (λ e. e ≢ InputRefusal.Fault
        → S.faults source.new ≡ S.faults source.old) }
    ensures one_fault { S.faults source.new ≤ S.faults source.old + 1 }
{
    match input.reserve(buffer.len()) {
        Ok(()) => {}
        Err(_) => return Err(InputRefusal::NoMemory),
    }
    let n = match fill_from(source, buffer) {
        Ok(n) => n,
        Err(Failed) => return Err(InputRefusal::Fault),
    };
    match input.extend_from_slice(&buffer[..n]) {
        Ok(()) => Ok(n),
        Err(_) => unreachable!(),
    }
}

/// Reads the source into an empty input, to its end or until there are more than `most` bytes.
fn read_pieces<S: Source>(
    source: &mut S,
    most: usize,
    buffer: &mut [u8],
    input: &mut Vec<u8>,
) -> Result<(), InputRefusal>
    requires piece { length buffer.old ≡ input_piece }
    requires empty { input.old.items ≡ [] }
    ensures read { IfOk result (λ _. IsReadUpTo most (S.left source.old)
        (S.left source.new) input.new.items) }
    ensures memory { result ≡ Err InputRefusal.NoMemory
        → IsReadInPart most (S.left source.old) (S.left source.new) }
    ensures unread { OnErr result (GaveSome (S.left source.old) (S.left source.new)) }
    ensures count { S.faults source.old ≤ S.faults source.new }
    ensures cause { result ≡ Err InputRefusal.Fault
        → Rose (S.faults source.old) (S.faults source.new) }
    ensures no_fault { OnOk result (S.faults source.new ≡ S.faults source.old) }
    ensures untold { IfErr result (λ e. e ≢ InputRefusal.Fault
        → S.faults source.new ≡ S.faults source.old) }
    ensures one_fault { S.faults source.new ≤ S.faults source.old + 1 }
{
    'pieces: while input.len() <= most {
        match read_piece(source, buffer, input) {
            Ok(n) if n < buffer.len() => return Ok(()),
            Ok(_) => {}
            Err(refusal) => return Err(refusal),
        }
    }
    Ok(())
}

/// The bytes that the source gives up to its end, or more than `most`, and then at most 65,536 more.
/// Memory is asked for while there are `most` at most, for a piece that wasn't read yet.
pub fn read_up_to<S: Source>(
    alloc: Global,
    source: &mut S,
    most: usize,
) -> Result<Vec<u8>, InputRefusal>
    ensures read { IfOk result (λ bytes. IsReadUpTo most (S.left source.old)
        (S.left source.new) bytes.items) }
    ensures memory { result ≡ Err InputRefusal.NoMemory
        → IsReadInPart most (S.left source.old) (S.left source.new) }
    ensures unread { OnErr result (GaveSome (S.left source.old) (S.left source.new)) }
    ensures count { S.faults source.old ≤ S.faults source.new }
    ensures cause { result ≡ Err InputRefusal.Fault
        → Rose (S.faults source.old) (S.faults source.new) }
    ensures no_fault { OnOk result (S.faults source.new ≡ S.faults source.old) }
    ensures untold { IfErr result (λ e. e ≢ InputRefusal.Fault
        → S.faults source.new ≡ S.faults source.old) }
    ensures one_fault { S.faults source.new ≤ S.faults source.old + 1 }
{
    let mut buffer = [0; PIECE];
    let mut input = Vec::new(alloc);
    match read_pieces(source, most, &mut buffer, &mut input) {
        Ok(()) => Ok(input),
        Err(refusal) => Err(refusal),
    }
}
