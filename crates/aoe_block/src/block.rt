//! A range of sectors that is read or written part by part.
ghost use Rattle.std.specs.Prelude.{◌≡◌, ℕ, ◌+◌, ◌*◌, ◌/◌, ◌%◌, ◌<◌, ◌≤◌, ◌↔◌, Err, IfOk, IfSome, IsOkUnless, IsSome, None, OnErr, false, length, option_map, replicate, true};
ghost use Rattle.aoe_base.specs.Sizes.{most_copied};
ghost use Rattle.aoe_initiator.specs.HostLaw.{op_refusal};
ghost use Rattle.aoe_initiator.specs.Op.{CanSubmit};
ghost use Rattle.aoe_initiator.specs.declared.device.Attached.{Attached};
ghost use Rattle.aoe_block.specs.Calls.{hand, is_broken, next_part, op_of, part_of, settle, took};
ghost use Rattle.aoe_block.specs.Parts.{joined, IsCut};

use crate::stage::Stage;
use crate::steps::{find_handed, first_under_way, is_success, is_within, lay, mark, part_span};
use crate::{BlockRefusal, Took};
use aoe_base::{Blob, NoMemory, SECTOR_LEN, Ticket};
use aoe_initiator::{Done, Op};
use std::alloc::Global;
use std::marker::Model;

/// The most sectors of a block, 16 MiB: a limit of this program.
pub const MAX_SECTORS: u32 = 32_768;

/// The most sectors of a part: as many as fit in the longest frame, of 9018 bytes.
pub const MAX_PART: u32 = 17;

/// A range of sectors that is read or written part by part.
#[derive(Drop)]
pub struct Block {
    alloc: Global,

    write: bool,

    /// How many sectors the device has.
    total: u64,

    /// The first sector.
    at: u64,

    /// How many sectors a part has, but for the last.
    max: u32,

    /// How many sectors there are.
    count: u32,

    /// What is written, or what was read so far, and zeros in the place of the rest.
    bytes: Blob,

    /// How far each part is.
    stages: Vec<Stage>,

    /// No part before this one is under way.
    first: usize,

    /// The next part to be handed.
    next: usize,

    /// How many parts weren't read or written.
    left: usize,
}

impl Model for Block {
    ghost use Rattle.aoe_block.specs.Fields.{parts_of, AreParts};
    ghost use Rattle.aoe_block.specs.Parts.{BlockState};

    ghost Value = { BlockState };

    ghost view = { λ b. record { write = b.write; total = b.total; max = b.max; parts = parts_of b.max b.at b.count b.stages.items b.bytes } };

    ghost invariant = { λ b. AreParts b.total b.max b.at b.count b.bytes b.stages.items b.first b.next b.left };
}

impl Block {
    /// A read of the `count` sectors from `at` on, of a device that has `total` sectors and takes
    /// `max` in one command.
    pub fn read(
        alloc: Global,
        total: u64,
        max: u32,
        at: u64,
        count: u32,
    ) -> Result<Block, BlockRefusal>
        requires some { 0 < max }
        requires few { max ≤ 17 }
        requires short { count ≤ most_copied }
        ensures read { IfOk result (λ block. block.write ≡ false) }
        ensures device { IfOk result (λ block. (block.total ≡ total) × (block.max ≡ max)) }
        ensures cut { IfOk result (λ block. IsCut at max (replicate (512 * count) 0) block.parts) }
        ensures fresh { IfOk result (λ block. (ticket : ℕ) → part_of ticket block.parts ≡ None) }

        // Memory is asked for last, so a range that isn't within the device is always reported.
        ensures range { (result ≡ Err BlockRefusal.OutOfRange) ↔ ¬ (at + count ≤ total) }
    {
        if !is_within(total, at, count) {
            return Err(BlockRefusal::OutOfRange);
        }
        match Blob::zeros(alloc, SECTOR_LEN * count as usize) {
            Ok(bytes) => Block::cut(alloc, false, total, max, at, count, bytes),
            Err(NoMemory) => Err(BlockRefusal::NoMemory),
        }
    }

    /// A write of these sectors from `at` on, to a device that has `total` sectors and takes `max`
    /// in one command.
    pub fn write(
        alloc: Global,
        total: u64,
        max: u32,
        at: u64,
        bytes: Blob,
    ) -> Result<Block, BlockRefusal>
        requires some { 0 < max }
        requires few { max ≤ 17 }
        requires whole { length bytes % 512 ≡ 0 }
        requires short { length bytes ≤ 512 * most_copied }
        ensures write { IfOk result (λ block. block.write ≡ true) }
        ensures device { IfOk result (λ block. (block.total ≡ total) × (block.max ≡ max)) }
        ensures cut { IfOk result (λ block. IsCut at max bytes block.parts) }
        ensures fresh { IfOk result (λ block. (ticket : ℕ) → part_of ticket block.parts ≡ None) }
        ensures range { (result ≡ Err BlockRefusal.OutOfRange)
            ↔ ¬ (at + length bytes / 512 ≤ total) }
    {
        let count = (bytes.bytes().len() / SECTOR_LEN) as u32;
        if !is_within(total, at, count) {
            return Err(BlockRefusal::OutOfRange);
        }
        Block::cut(alloc, true, total, max, at, count, bytes)
    }

    /// A block none of whose parts was handed.
    fn cut(
        alloc: Global,
        write: bool,
        total: u64,
        max: u32,
        at: u64,
        count: u32,
        bytes: Blob,
    ) -> Result<Block, BlockRefusal>
        requires some { 0 < max }
        requires few { max ≤ 17 }
        requires range { at + count ≤ total }
        requires short { count ≤ most_copied }
        requires size { length bytes ≡ 512 * count }
        ensures write { IfOk result (λ block. block.write ≡ write) }
        ensures device { IfOk result (λ block. (block.total ≡ total) × (block.max ≡ max)) }
        ensures cut { IfOk result (λ block. IsCut at max bytes block.parts) }
        ensures fresh { IfOk result (λ block. (ticket : ℕ) → part_of ticket block.parts ≡ None) }
        ensures cause { IsOkUnless result BlockRefusal.NoMemory }
    {
        let number = count.div_ceil(max) as usize;
        match Vec::from_elem(alloc, Stage::Pending, number) {
            Ok(stages) => Ok(Block {
                alloc,
                write,
                total,
                at,
                max,
                count,
                bytes,
                stages,
                first: 0,
                next: 0,
                left: number,
            }),
            Err(_) => Err(BlockRefusal::NoMemory),
        }
    }

    /// The operation of the next part that wasn't handed; `None` where all were. It stays the next
    /// one until it is `handed`.
    pub fn pending(&self) -> Result<Option<Op>, NoMemory>
        ensures value { IfOk result (λ op. op ≡ option_map (op_of self.now.write)
            (next_part self.now.parts)) }

        ensures some { IfOk result (λ op. IsSome op → IsSome (next_part self.now.parts)) }

        // A host can submit it, and refuses it for want of room alone.
        ensures whole { IfOk result (λ op. IfSome op CanSubmit) }
        ensures admitted { IfOk result (λ op. IfSome op (λ op. (about : Attached) → about.total ≡ self.now.total
            → self.now.max ≤ about.max → op_refusal about op ≡ None)) }

        // A read takes no memory.
        ensures read { OnErr result (self.now.write ≡ true) }
    {
        if self.next == self.stages.len() {
            return Ok(None);
        }
        let span = part_span(self.at, self.max, self.count, self.next);
        if !self.write {
            return Ok(Some(Op::Read(span)));
        }
        let start = SECTOR_LEN * self.max as usize * self.next;
        let len = SECTOR_LEN * span.count as usize;
        match Blob::of(self.alloc, &self.bytes.bytes()[start..start + len]) {
            Ok(bytes) => Ok(Some(Op::Write { at: span.at, bytes })),
            Err(NoMemory) => Err(NoMemory),
        }
    }

    /// Notes that the next part is under way, as the command with this ticket.
    pub fn handed(&mut self, ticket: Ticket)
        requires pending { IsSome (next_part self.old.parts) }
        requires fresh { part_of ticket.0 self.old.parts ≡ None }
        ensures handed { self.new ≡ record self.old { parts = hand ticket self.old.parts } }
        ensures fresh { (later : ℕ) → ticket.0 < later → part_of later self.old.parts ≡ None
            → part_of later self.new.parts ≡ None }
    {
        mark(&mut self.stages, self.next, Stage::Handed(ticket));
        self.next += 1;
    }

    /// Takes note of a command that ended.
    pub fn take(&mut self, done: Done) -> Took
        ensures took { result ≡ took self.old done }
        ensures parts { self.new ≡ settle self.old done }
        ensures stranger { part_of done.ticket.0 self.old.parts ≡ None → self.new ≡ self.old }
    {
        self.first = first_under_way(&self.stages, self.first, self.next);
        let Some(k) = find_handed(&self.stages, self.first, self.next, done.ticket) else {
            return Took::NotMine(done);
        };
        let span = part_span(self.at, self.max, self.count, k);
        if !is_success(self.write, span.count, &done.outcome) {
            mark(&mut self.stages, k, Stage::Failed);
            return Took::Part(done.outcome);
        }
        let start = SECTOR_LEN * self.max as usize * k;
        lay(&mut self.bytes, start, &done.outcome);
        mark(&mut self.stages, k, Stage::Ended);
        self.left -= 1;
        Took::success(self.left == 0)
    }

    /// The sectors in order: those of a write, or what a read gave once the block is whole.
    pub fn into_bytes(self) -> Blob
        ensures { result ≡ joined self.parts }
    {
        self.bytes
    }
}
