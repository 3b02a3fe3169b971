//! A client of a device in memory, which answers each command at once.
ghost use Rattle.std.specs.Prelude.{None};

use aoe_base::{Failed, Lifetimes, Mac, Millis, TargetId};
use aoe_block::attach;
use aoe_clients::{Clients, MemBell, MemClient, MemClients};
use aoe_frame::Frame;
use aoe_initiator::FlushCommand;
use aoe_io::{Got, Link, SetClock};
use aoe_nbd::{Export, ExportName};
use aoe_nbd_serve::{Asked, Ending, ServeEnd, Terms, serve};
use std::alloc::Global;
use std::collections::VecDeque;
use std::test::Fail;

/// A device whose sectors are 0x5a: it answers each command of the link.
#[derive(Drop)]
struct Device {
    answers: VecDeque<Frame>,
    turns: u64,
    sent: u64,
}

impl Link for Device {
    ghost given = { λ _. None };

    ghost taken = { λ _. None };

    ghost coming = { λ _. None };

    ghost turns = { λ l. l.turns };

    ghost faults = { λ _. 0 };

    fn send(&mut self, frame: &[u8]) -> Result<(), Failed> {
        self.sent = self.sent.saturating_add(1);
        if frame.len() < 36 {
            return Ok(());
        }
        let mut answer = Frame::new();
        let _ = answer.try_extend_from_slice(&frame[6..12]);
        let _ = answer.try_extend_from_slice(&frame[..6]);
        let _ = answer.try_extend_from_slice(&frame[12..14]);
        let _ = answer.try_extend_from_slice(&[frame[14] | 8]);
        let _ = answer.try_extend_from_slice(&frame[15..24]);
        // The registers: status DRDY.
        let _ = answer.try_extend_from_slice(&[frame[24], 0, frame[26], 0x40]);
        let _ = answer.try_extend_from_slice(&frame[28..36]);
        if frame[27] == 0x24 {
            'sectors: for _ in 0..frame[26] {
                let _ = answer.try_extend_from_slice(&[0x5a; 512]);
            }
        }
        let _ = self.answers.push_back(answer);
        Ok(())
    }

    fn recv(&mut self, out: &mut Frame) -> Result<Got, Failed> {
        self.turns = self.turns.saturating_add(1);
        match self.answers.pop_front() {
            Some(frame) => {
                *out = frame;
                Ok(Got::Frame)
            }
            None => Ok(Got::Quiet),
        }
    }
}

/// Never asks for the end.
#[derive(Drop)]
struct Never;

impl Ending for Never {
    ghost answers = { λ _. None };

    fn is_asked_for(&mut self) -> bool {
        false
    }
}

fn words(alloc: Global) -> Result<Vec<u8>, Fail> {
    let mut says = Vec::new(alloc);
    // Client flags 3; GO without a name.
    says.extend_from_slice(&[0, 0, 0, 3])?;
    says.extend_from_slice(b"IHAVEOPT\0\0\0\x07\0\0\0\x06\0\0\0\0\0\0")?;
    // READ of 40 sectors from 8 on; WRITE of one with FUA; FLUSH; a READ past the end; DISC.
    says.extend_from_slice(b"\x25\x60\x95\x13\0\0\0\0AAAAAAAA\0\0\0\0\0\0\x10\0\0\0\x50\0")?;
    says.extend_from_slice(b"\x25\x60\x95\x13\0\x01\0\x01BBBBBBBB\0\0\0\0\0\0\0\0\0\0\x02\0")?;
    says.extend_from_slice(&[7; 512])?;
    says.extend_from_slice(b"\x25\x60\x95\x13\0\0\0\x03CCCCCCCC\0\0\0\0\0\0\0\0\0\0\0\0")?;
    says.extend_from_slice(b"\x25\x60\x95\x13\0\0\0\0DDDDDDDD\0\0\0\0\x7f\0\0\0\0\0\x02\0")?;
    says.extend_from_slice(b"\x25\x60\x95\x13\0\0\0\x02EEEEEEEE\0\0\0\0\0\0\0\0\0\0\0\0")?;
    Ok(says)
}

#[test]
fn serves_a_client(rt: HostRuntime) -> Result<(), Fail> {
    let alloc = rt.alloc();
    let says = words(alloc)?;
    'most: for most in &[1024usize, 7, 1] {
        let mut coming = VecDeque::new(alloc);
        coming.push_back(MemClient::of(alloc, says.as_slice(), 1_000_000)?)?;
        let mut clients = MemClients::of(alloc, coming, 40_000)?;
        clients.cut((*most).min(1024));
        let mut name = ExportName::new();
        let _ = name.try_extend_from_slice(b"e1.0");
        let terms = Terms {
            export: Export {
                name,
                size: 1_048_576,
                read_only: false,
                flushes: true,
            },
            total: 2048,
            max: 17,
            quarantine: Millis(200),
            once: true,
            idle: 0,
        };
        let life = Lifetimes {
            requests: Millis(50),
            responses: Millis(50),
        };
        let port = Mac([2, 0, 0, 0, 0, 0x0b]);
        let id = TargetId { major: 1, minor: 0 };
        let remote = Mac([2, 0, 0, 0, 0, 1]);
        let flush = FlushCommand::CacheExt;
        let host = attach(alloc, port, life, id, remote, 2048, 17, flush)?;
        let mut link = Device {
            answers: VecDeque::new(alloc),
            turns: 0,
            sent: 0,
        };
        let mut clock = SetClock::new(0, 1);
        let mut bell = MemBell::new(alloc, 0)?;
        let (end, served) = serve(
            alloc,
            &terms,
            host,
            &mut link,
            &mut clock,
            &mut clients,
            &mut bell,
            &mut Never,
        );
        let is_ended = matches!(end, ServeEnd::Ended(Asked::Once));
        assert!(rt; is_ended && served.clients == 1 && !clients.is_connected());
        // Three parts of the read, the write with its flush, FLUSH.
        assert!(rt; served.commands == 6 && link.sent == 7);
    }
    Ok(())
}
