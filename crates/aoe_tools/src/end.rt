//! How a tool ends without its answer.
ghost use Rattle.std.specs.Prelude.{◌≡◌, ◌<◌, IfOk};
ghost use Rattle.aoe_tools.specs.Ending.{code_of, refusal_text, text_of};

use aoe_base::{Blob, Mac, NoMemory, append, pair, put, put_mac};
use arrayvec::ArrayVec;
use std::alloc::Global;

/// Why a tool has no answer.
#[derive(Clone, Copy, Debug, PartialEq, Eq)]
pub enum ToolRefusal {
    /// An allocation was refused.
    NoMemory,

    /// The link failed.
    LinkFault,

    /// No response that counts came in this number of turns.
    Unanswered { turns: u32 },

    /// The device refused.
    Refused(Refusal),
}

/// How a device refuses.
#[derive(Clone, Copy, Debug, PartialEq, Eq)]
pub enum Refusal {
    /// By the field Error of its response's header.
    Aoe(u8),

    /// By the registers of status and error.
    Ata { status: u8, error: u8 },

    /// By the field MError of a mask list response.
    Mask(u8),

    /// The device doesn't have all of these sectors.
    Range,

    /// This sector, the first such one, was written and flushed, and came back with other bytes.
    Differs { sector: u64 },

    /// The edit of a mask list would shut out this port, from which it is asked for; it wasn't sent.
    LocksOut { port: [u8; 6] },

    /// The edit of a mask list would add this address of a group; it wasn't sent.
    Group { mac: [u8; 6] },
}

impl ToolRefusal {
    /// The exit status of the program.
    pub fn code(&self) -> u8
        ensures { result ≡ code_of self.now }
    {
        match self {
            ToolRefusal::LinkFault => 6,
            ToolRefusal::NoMemory => 7,
            ToolRefusal::Unanswered { .. } => 9,
            ToolRefusal::Refused(_) => 10,
        }
    }

    /// What the program says on standard error, without a line feed.
    pub fn text(&self, alloc: Global) -> Result<Blob, NoMemory>
        ensures { IfOk result (λ text. text ≡ text_of self.now) }
    {
        match *self {
            ToolRefusal::LinkFault => Blob::of(alloc, b"aoe: link fault on port 0"),
            ToolRefusal::NoMemory => Blob::of(alloc, b"aoe: no memory"),
            ToolRefusal::Unanswered { turns } => unanswered_text(alloc, turns),
            ToolRefusal::Refused(refusal) => refused_text(alloc, refusal),
        }
    }
}

/// The text for a request that nobody answered.
fn unanswered_text(alloc: Global, turns: u32) -> Result<Blob, NoMemory>
    ensures { IfOk result (λ text. text ≡ text_of (ToolRefusal.Unanswered turns)) }
{
    let text = format!(in alloc; "aoe: no answer in {turns} turns")?;
    Blob::of(alloc, text.as_bytes())
}

/// The text for a refusal.
fn refused_text(alloc: Global, refusal: Refusal) -> Result<Blob, NoMemory>
    ensures { IfOk result (λ text. text ≡ refusal_text refusal) }
{
    match refusal {
        Refusal::Aoe(error) => aoe_text(alloc, error),
        Refusal::Ata { status, error } => ata_text(alloc, status, error),
        Refusal::Mask(error) => mask_text(alloc, error),
        Refusal::Range => Blob::of(alloc, b"aoe: refused: range"),
        Refusal::Differs { sector } => differs_text(alloc, sector),
        Refusal::LocksOut { port } => locks_out_text(alloc, Mac(port)),
        Refusal::Group { mac } => group_text(alloc, Mac(mac)),
    }
}

/// The text for an edit that would shut out the port that asks for it.
fn locks_out_text(alloc: Global, port: Mac) -> Result<Blob, NoMemory>
    ensures { IfOk result (λ text. text ≡ refusal_text (Refusal.LocksOut port.0)) }
{
    let mut out = Vec::new(alloc);
    put(&mut out, b"aoe: this would lock ")?;
    put_mac(&mut out, &port)?;
    put(&mut out, b" out: --anyway does it")?;
    Ok(Blob::from_vec(out))
}

/// The text for an edit that would add the address of a group.
fn group_text(alloc: Global, mac: Mac) -> Result<Blob, NoMemory>
    ensures { IfOk result (λ text. text ≡ refusal_text (Refusal.Group mac.0)) }
{
    let mut out = Vec::new(alloc);
    put(&mut out, b"aoe: ")?;
    put_mac(&mut out, &mac)?;
    put(
        &mut out,
        b" is a group, from which no frame comes: --anyway adds it",
    )?;
    Ok(Blob::from_vec(out))
}

/// The text for a sector that came back with other bytes.
fn differs_text(alloc: Global, sector: u64) -> Result<Blob, NoMemory>
    ensures { IfOk result (λ text. text ≡ refusal_text (Refusal.Differs sector)) }
{
    let text = format!(in alloc; "aoe: refused: sector {sector} differs")?;
    Blob::of(alloc, text.as_bytes())
}

/// The text for the field Error of a header.
fn aoe_text(alloc: Global, error: u8) -> Result<Blob, NoMemory>
    ensures { IfOk result (λ text. text ≡ refusal_text (Refusal.Aoe error)) }
{
    let text = format!(in alloc; "aoe: refused: AoE error {error}")?;
    Blob::of(alloc, text.as_bytes())
}

/// The text for the registers of an ATA command that failed, in hexadecimal.
fn ata_text(alloc: Global, status: u8, error: u8) -> Result<Blob, NoMemory>
    ensures { IfOk result (λ text. text ≡ refusal_text (Refusal.Ata status error)) }
{
    let mut out = ArrayVec::<u8, 40>::new();
    append(&mut out, b"aoe: refused: ATA status ");
    append(&mut out, &pair(status));
    append(&mut out, b" error ");
    append(&mut out, &pair(error));
    Blob::of(alloc, out.as_slice())
}

/// The text for the field MError of a mask list.
fn mask_text(alloc: Global, error: u8) -> Result<Blob, NoMemory>
    ensures { IfOk result (λ text. text ≡ refusal_text (Refusal.Mask error)) }
{
    let text = format!(in alloc; "aoe: refused: mask error {error}")?;
    Blob::of(alloc, text.as_bytes())
}
