//! Who is told how far a copy has come.

/// Whoever is told how far a copy has come. No clause rests on it.
pub trait Watch {
    /// The copy is of so many sectors. A copy into a device doesn't say it: the length of its input
    /// isn't known.
    fn planned(&mut self, sectors: u64);

    /// So many sectors from the first one on are written, by a copy out of a device to the sink, by
    /// one into it as far as the device acknowledged.
    fn reached(&mut self, sectors: u64);
}

/// Nobody is told.
#[derive(Drop)]
pub(crate) struct Unwatched;

impl Watch for Unwatched {
    fn planned(&mut self, sectors: u64) {}

    fn reached(&mut self, sectors: u64) {}
}

/// Of a part of a copy, whoever is told of the whole: so many sectors were reached before the part.
#[derive(Drop)]
pub(crate) struct Onward<'a, W: Watch> {
    pub(crate) watch: &'a mut W,
    pub(crate) before: u64,
}

impl<'a, W: Watch> Watch for Onward<'a, W> {
    fn planned(&mut self, sectors: u64) {}

    fn reached(&mut self, sectors: u64) {
        self.watch.reached(self.before.saturating_add(sectors));
    }
}
