//! The commands of the ATA command set that a target knows.
ghost use Rattle.std.specs.Prelude.{◌≡◌};
ghost use Rattle.aoe_ata.specs.Command.{code_of, command_with, command_of, sector_count, short_span, long_span};

use crate::AtaArgs;
use aoe_base::Span;

/// The commands that have an answer here, each with its code (ATA/ATAPI Command Set, "Command
/// descriptions").
#[derive(Clone, Copy, PartialEq, Eq, Hash)]
pub enum CommandCode {
    ReadSectors = 0x20,
    ReadSectorsExt = 0x24,
    WriteSectors = 0x30,
    WriteSectorsExt = 0x34,
    ReadVerifySectors = 0x40,
    ReadVerifySectorsExt = 0x42,
    CheckPowerMode = 0xe5,
    FlushCache = 0xe7,
    FlushCacheExt = 0xea,
    IdentifyDevice = 0xec,
}

impl CommandCode {
    /// The code in the command register.
    pub fn code(self) -> u8
        ensures { result ≡ code_of self }
    {
        self as u8
    }

    /// The command with this code. Reads and writes with an address of 48 bits come most often, and
    /// are looked for first.
    #[inline(always)]
    pub fn with_code(code: u8) -> Option<CommandCode>
        ensures { result ≡ command_with code }
    {
        if code == 0x24 {
            return Some(CommandCode::ReadSectorsExt);
        }
        if code == 0x34 {
            return Some(CommandCode::WriteSectorsExt);
        }
        CommandCode::with_code_apart(code)
    }

    /// The same in a function of its own.
    #[cold]
    #[inline(never)]
    fn with_code_apart(code: u8) -> Option<CommandCode>
        ensures { result ≡ command_with code }
    {
        match code {
            0x20 => Some(CommandCode::ReadSectors),
            0x24 => Some(CommandCode::ReadSectorsExt),
            0x30 => Some(CommandCode::WriteSectors),
            0x34 => Some(CommandCode::WriteSectorsExt),
            0x40 => Some(CommandCode::ReadVerifySectors),
            0x42 => Some(CommandCode::ReadVerifySectorsExt),
            0xe5 => Some(CommandCode::CheckPowerMode),
            0xe7 => Some(CommandCode::FlushCache),
            0xea => Some(CommandCode::FlushCacheExt),
            0xec => Some(CommandCode::IdentifyDevice),
            _ => None,
        }
    }
}

/// What the registers of a request ask for.
#[derive(Clone, Copy, PartialEq, Eq, Hash)]
pub enum AtaCommand {
    /// To read sectors.
    Read(Span),
    /// To write sectors.
    Write(Span),
    /// To read sectors and give none.
    Verify(Span),
    /// To bring to the medium what was written.
    Flush,
    /// To tell of the device.
    Identify,
    /// To tell the power mode.
    PowerMode,
    /// A command that has no answer here.
    Unknown,
}

/// How many sectors a count register stands for, in which 0 stands for the most.
fn sectors_of(most: u32, register: u8) -> u32
    ensures { result ≡ sector_count most register }
{
    if register == 0 {
        most
    } else {
        u32::from(register)
    }
}

/// The sectors of a command with an address of 28 bits. The bits above belong to the device
/// register.
fn short_span_of(args: &AtaArgs) -> Span
    ensures { result ≡ short_span args.now }
{
    Span {
        at: args.lba & 0x0fff_ffff,
        count: sectors_of(256, args.count),
    }
}

/// The sectors of a command with an address of 48 bits.
fn long_span_of(args: &AtaArgs) -> Span
    ensures { result ≡ long_span args.now }
{
    Span {
        at: args.lba,
        count: sectors_of(65536, args.count),
    }
}

/// What the registers ask for. The code alone decides the direction and the width of the address;
/// AFlags say nothing.
#[inline(always)]
pub fn classify(args: &AtaArgs) -> AtaCommand
    ensures { result ≡ command_of args.now }
{
    match CommandCode::with_code(args.code) {
        Some(CommandCode::ReadSectors) => AtaCommand::Read(short_span_of(args)),
        Some(CommandCode::ReadSectorsExt) => AtaCommand::Read(long_span_of(args)),
        Some(CommandCode::WriteSectors) => AtaCommand::Write(short_span_of(args)),
        Some(CommandCode::WriteSectorsExt) => AtaCommand::Write(long_span_of(args)),
        Some(CommandCode::ReadVerifySectors) => AtaCommand::Verify(short_span_of(args)),
        Some(CommandCode::ReadVerifySectorsExt) => AtaCommand::Verify(long_span_of(args)),
        Some(CommandCode::CheckPowerMode) => AtaCommand::PowerMode,
        Some(CommandCode::FlushCache | CommandCode::FlushCacheExt) => AtaCommand::Flush,
        Some(CommandCode::IdentifyDevice) => AtaCommand::Identify,
        None => AtaCommand::Unknown,
    }
}
