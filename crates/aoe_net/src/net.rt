//! The frames of a network, each with the time of its sending.
ghost use Rattle.std.specs.Prelude.{◌≡◌, ℕ, ◌+◌, ◌-◌, ◌≤◌, ◌↔◌, [], ◌∷◌, ◌++◌, length, nat_lt, option_map, IfNone, IfOk, IfSome, OnErr, OnOk};
ghost use Rattle.aoe_base.specs.Sizes.{longest_frame};
ghost use Rattle.aoe_net.specs.Network.{deliverable, empty_network, lifetime, most_frame_bytes, most_frames, total_bytes, with_frame, IsFull, IsFullBy, IsNumberOf};

use crate::{FrameBytes, NetLimit, NetRefusal};
use aoe_base::{FrameNo, Lifetimes, Millis, NoMemory};
use aoe_frame::is_response;
use std::alloc::Global;
use std::marker::Model;

/// The most frames that a network keeps.
pub const MAX_FRAMES: u32 = 200_000;

/// The most bytes that the frames of a network have together.
pub const MAX_BYTES: u64 = 536_870_912;

/// A frame, and when it was sent.
#[derive(Drop)]
struct StoredFrame {
    bytes: FrameBytes,
    birth: Millis,
}

/// Every frame that was sent, under its number, from 1 on.
///
/// An expired frame keeps its number and its bytes, so a number means one frame for good.
#[derive(Drop)]
pub struct Net {
    alloc: Global,
    life: Lifetimes,
    latest: Millis,

    /// In the order of their numbers.
    frames: Vec<StoredFrame>,

    /// How many bytes they have together.
    total: u64,
}

impl Model for Net {
    ghost use Rattle.aoe_net.specs.Network.{Network};
    ghost use Rattle.aoe_net.specs.Store.{frames_of, IsStore};

    ghost Value = { Network };

    ghost view = { λ net. record { life = net.life; latest = net.latest.0; sent = frames_of net.frames.items } };

    ghost invariant = { λ net. IsStore net.total net.frames.items };
}

impl Net {
    /// A network without a frame, whose frames expire once they are older than `life` has it for
    /// their kind.
    pub fn new(alloc: Global, life: Lifetimes) -> Net
        ensures { result ≡ empty_network life }
    {
        Net {
            alloc,
            life,
            latest: Millis(0),
            frames: Vec::new(alloc),
            total: 0,
        }
    }

    /// The limit by which there is no room for a frame, or `None` where there is room.
    pub fn full_by(&self, frame: &[u8]) -> Option<NetLimit>
        ensures full { IfSome result (λ limit. IsFullBy limit self.now frame.now) }
        ensures room { IfNone result (¬ IsFull self.now frame.now) }
    {
        if self.count() >= MAX_FRAMES {
            return Some(NetLimit::Frames);
        }
        if self.total_bytes() + frame.len() as u64 > MAX_BYTES {
            return Some(NetLimit::Bytes);
        }
        None
    }

    /// Sends a frame, and gives the number that it has from then on.
    ///
    /// Frames keep the order of their times: `now` isn't before the latest sending.
    pub fn send(&mut self, now: Millis, frame: &[u8]) -> Result<FrameNo, NetRefusal>
        requires len { length frame.now ≤ longest_frame }
        requires time { self.old.latest ≤ now.0 }
        ensures sent { OnOk result (self.new ≡ with_frame self.old now.0 frame.now) }
        ensures number { IfOk result (λ number. number.0 ≡ length self.new.sent) }

        // Memory is asked for last, so a full network is always reported as such.
        ensures full { (limit : NetLimit) → (result ≡ Err (NetRefusal.Full limit))
            ↔ IsFullBy limit self.old frame.now }
        ensures refused { OnErr result (self.new ≡ self.old) }
    {
        if let Some(limit) = self.full_by(frame) {
            return Err(NetRefusal::Full(limit));
        }
        let bytes = FrameBytes::of(self.alloc, frame)?;
        Ok(self.keep(now, bytes)?)
    }

    /// Sends a frame that there is room for, and whose bytes somebody else may have too.
    pub fn keep(&mut self, now: Millis, frame: FrameBytes) -> Result<FrameNo, NoMemory>
        requires room { ¬ IsFull self.old frame }
        ensures sent { OnOk result (self.new ≡ with_frame self.old now.0 frame) }
        ensures number { IfOk result (λ number. number.0 ≡ length self.new.sent) }
        ensures refused { OnErr result (self.new ≡ self.old) }
    {
        let len = frame.bytes().len() as u64;
        let kept = StoredFrame {
            bytes: frame,
            birth: now,
        };
        self.frames.push(kept)?;
        self.latest = now;
        self.total += len;
        Ok(FrameNo(self.frames.len() as u32))
    }

    /// How long a frame with these bytes can be handed over.
    fn lifetime(&self, bytes: &[u8]) -> Millis
        ensures { result.0 ≡ lifetime self.now.life bytes.now }
    {
        if is_response(bytes) {
            self.life.responses
        } else {
            self.life.requests
        }
    }

    fn has_expired(&self, frame: &StoredFrame, now: Millis) -> bool
        ensures { result ≡ nat_lt (lifetime self.now.life frame.now.bytes)
            (now.0 - frame.now.birth.0) }
    {
        now.0.saturating_sub(frame.birth.0) > self.lifetime(frame.bytes.bytes()).0
    }

    /// The frame with a number, or `None` where no frame has it or the one that has it has expired.
    pub fn fetch(&self, no: FrameNo, now: Millis) -> Option<&[u8]>
        ensures { option_map (λ frame. frame.now) result ≡ deliverable self.now no.0 now.0 }
    {
        let index = (no.0 as usize).checked_sub(1)?;
        let frame = self.frames.get(index)?;
        if self.has_expired(frame, now) {
            return None;
        }
        Some(frame.bytes.bytes())
    }

    /// How many frames were sent: the number of the latest one.
    pub fn count(&self) -> u32
        ensures count { result ≡ length self.now.sent }
        ensures bound { result ≤ most_frames }
    {
        self.frames.len() as u32
    }

    /// How many bytes the frames have together.
    pub fn total_bytes(&self) -> u64
        ensures total { result ≡ total_bytes self.now }
        ensures bound { result ≤ most_frame_bytes }
    {
        self.total
    }

    /// The number of the latest frame with these bytes, expired or not.
    pub fn newest_equal(&self, frame: &[u8]) -> Option<FrameNo>
        ensures equal { IfSome result (λ number. IsNumberOf self.now frame.now number.0) }
        ensures newest { IfSome result (λ number. (k : ℕ) → IsNumberOf self.now frame.now k
            → k ≤ number.0) }
        ensures none { IfNone result ((k : ℕ) → ¬ IsNumberOf self.now frame.now k) }
    {
        for index in (0..self.frames.len()).rev() {
            if self.frames[index].bytes.bytes() == frame {
                return Some(FrameNo(index as u32 + 1));
            }
        }
        None
    }
}
