//! The whole script.
ghost use Rattle.std.specs.Prelude.{◌≡◌, ◌+◌, ◌*◌, ◌/◌, ◌≤◌, IfOk, length};
ghost use Rattle.aoe_soak.specs.Soak.{soaked};

use crate::command::put_command;
use crate::setup::stations;
use aoe_base::NoMemory;
use aoe_script::Script;
use std::alloc::Global;

/// The script of a seed and a count of commands.
pub fn soak(alloc: Global, seed: u16, count: u32) -> Result<Script, NoMemory>
    requires some { 1 ≤ count }
    requires most { count ≤ 16000 }
    ensures script { IfOk result (λ script. script ≡ soaked seed count) }
    ensures events { IfOk result (λ script. length script.events
        ≡ 2 * count + 3 * ((count + 6) / 10) + 2 * ((count + 3) / 10) + 6) }
{
    let mut script = stations(alloc)?;
    'commands: for i in 0..count {
        put_command(&mut script, seed, count, i)?;
    }
    Ok(script)
}
