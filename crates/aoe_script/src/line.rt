//! What a line says.
use crate::event::Event;
use crate::refusal::Why;
use crate::setup::Setup;

/// What a line says, whatever stands before it.
#[derive(Drop)]
pub enum Line {
    /// Nothing: it is empty or a comment.
    Blank,

    /// What it declares.
    Declares(Setup),

    /// What it asks for.
    Asks(Event),

    /// It is in no form of the grammar, or a word isn't of its class.
    Bad(Why),
}
