//! Who copies, and how.
use aoe_base::Lifetimes;
use aoe_tools::Ask;

/// Who copies, and how long it waits.
#[derive(Clone, Copy)]
pub struct Terms {
    /// Who asks for the device, and after how many consecutive turns in which nothing comes that
    /// counts it is given up.
    pub ask: Ask,

    /// How long after it was sent a frame can arrive, by its kind: 600,000 ms at most.
    pub life: Lifetimes,

    /// The most sectors of a command: a device may take fewer. From 1 to 17, as many as a frame of
    /// 9018 bytes has room for.
    pub most: u32,
}
