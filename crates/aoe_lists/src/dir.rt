//! A directive of a mask list, as a host asks for it.
use aoe_base::Mac;

/// The most directives of a mask list edit, and the most addresses of a reserve list.
pub const MAX_DIRS: usize = 64;

/// One change of a mask list: the address is added, or it is taken out.
#[derive(Clone, Copy, Default, PartialEq, Eq)]
pub struct Dir {
    pub add: bool,
    pub mac: Mac,
}
