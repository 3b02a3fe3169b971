//! Room for what a step of the lists writes.
ghost use Rattle.std.specs.Prelude.{◌≡◌, []};
ghost use Rattle.aoe_lists.specs.Settings.{empty_settings};

use aoe_lists::{Args, Lists};

/// The lists that a request makes, and the arguments of its reply. What they hold between two
/// requests doesn't matter.
#[derive(Drop)]
pub struct Scratch {
    pub next: Lists,
    pub args: Args,
}

impl Scratch {
    /// Empty lists and no arguments.
    pub fn new() -> Self
        ensures lists { result.next ≡ empty_settings }
        ensures args { result.args.items ≡ [] }
    {
        Scratch {
            next: Lists::new(),
            args: Args::new(),
        }
    }
}
