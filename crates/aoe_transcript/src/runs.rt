//! Bytes as runs of equal ones.
ghost use Rattle.std.specs.Prelude.{◌≡◌, ◌++◌, ◌<◌, [], ◌∷◌, length, IfNone, IfSome, OnOk};
ghost use Rattle.aoe_transcript.specs.Print.{repeated_text, runs_text};
ghost use Rattle.aoe_transcript.specs.Runs.{longest_runs};

use aoe_base::{NoMemory, put, put_pair};
use aoe_script::cuts::{from, run};
use aoe_script::spelling::put_number;

/// The first run, and what stands behind it.
fn next_run(bytes: &[u8]) -> Option<(u8, usize, &[u8])>
    ensures none { IfNone result (longest_runs bytes.now ≡ []) }
    ensures run { IfSome result (λ r. longest_runs bytes.now
        ≡ record { byte = r.0; count = r.1 } ∷ longest_runs r.2.now) }
    ensures shorter { IfSome result (λ r. length r.2.now < length bytes.now) }
{
    if bytes.is_empty() {
        return None;
    }
    let byte = bytes[0];
    let count = run(bytes, byte);
    Some((byte, count, from(bytes, count)))
}

/// Adds a run.
fn put_repeated(out: &mut Vec<u8>, byte: u8, count: usize) -> Result<(), NoMemory>
    ensures { OnOk result (out.new.items ≡ out.old.items
        ++ repeated_text record { byte = byte; count = count }) }
{
    put_pair(out, byte)?;
    put(out, b"*")?;
    put_number(out, count as u64)
}

/// Adds bytes as their longest runs, joined by commas.
pub(crate) fn put_runs(out: &mut Vec<u8>, bytes: &[u8]) -> Result<(), NoMemory>
    ensures { OnOk result (out.new.items ≡ out.old.items ++ runs_text bytes.now) }
{
    let Some((byte, count, mut rest)) = next_run(bytes) else {
        return Ok(());
    };
    put_repeated(out, byte, count)?;
    'runs: while let Some((byte, count, next)) = next_run(rest) {
        put(out, b",")?;
        put_repeated(out, byte, count)?;
        rest = next;
    }
    Ok(())
}
