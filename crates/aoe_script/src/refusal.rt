//! Why a script is refused.
use aoe_base::NoMemory;
use thiserror::Error;

/// What is wrong with a line: the first of these that applies.
#[derive(Clone, Copy, Debug, PartialEq, Eq)]
pub enum Why {
    /// Its first word, a fixed word or the number of its words isn't in the grammar.
    Word,
    /// A word isn't of its class or range.
    Value,
    /// It is a setup line after an event line.
    Place,
    /// What it declares stands already.
    Repeat,
    /// There are too many shelves, hosts, slots or sectors.
    Size,
    /// It names what wasn't declared, or a device to which the host isn't attached.
    Unknown,
    /// Its frame bears the address of a station.
    Station,
}

/// Why a text spells no script, or a script doesn't take an event.
#[derive(Clone, Copy, Debug, PartialEq, Eq, Error)]
pub enum ScriptRefusal {
    #[error("no memory")]
    NoMemory,

    /// The line of this number, from 1, is bad.
    #[error("line {line} is bad")]
    BadLine { line: u32, why: Why },

    /// There are 50,000 events already.
    #[error("too many events")]
    TooMany,

    /// The text has more than 16,777,216 bytes.
    #[error("too many bytes")]
    TooLong,
}

impl From<NoMemory> for ScriptRefusal {
    fn from(_: NoMemory) -> Self {
        ScriptRefusal::NoMemory
    }
}

impl ScriptRefusal {
    ghost use Rattle.std.specs.Prelude.{◌≡◌, Err, None};
    ghost use Rattle.aoe_script.specs.Lines.{FailsFor, ScriptLines};

    /// What is left of a refusal of lines with which nothing is wrong.
    pub fn memory_alone(self) -> NoMemory
        requires { FailsFor {T = ScriptLines} None (Err self) }
        ensures { self ≡ ScriptRefusal.NoMemory }
    {
        match self {
            ScriptRefusal::NoMemory => NoMemory,
            ScriptRefusal::BadLine { .. } | ScriptRefusal::TooMany | ScriptRefusal::TooLong => {
                unreachable!()
            }
        }
    }
}
