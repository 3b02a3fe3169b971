//! What `nbd` is given beside its link.
ghost use Rattle.std.specs.Prelude.{None};

use aoe_nbd_serve::Ending;
use aoe_system::StopFile;

/// Clients, what is waited by, and what asks for the end.
#[derive(Drop)]
pub struct Door<P, B, E> {
    pub clients: P,
    pub bell: B,
    pub ending: E,
}

/// Asks for the end once a file is there.
#[derive(Drop)]
pub struct Stopping(pub StopFile);

impl Ending for Stopping {
    ghost answers = { λ _. None };

    fn is_asked_for(&mut self) -> bool {
        self.0.is_there()
    }
}
