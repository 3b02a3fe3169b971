//! What follows from the calls of a block, however they follow each other.
ghost use Rattle.std.specs.Prelude.{◌≡◌, ℕ, ◌<◌, Bool, List, None, true};
ghost use Rattle.aoe_base.specs.declared.counted.Ticket.{Ticket};
ghost use Rattle.aoe_initiator.specs.declared.outcome.Done.{Done};
ghost use Rattle.aoe_initiator.specs.declared.outcome.Outcome.{Outcome};
ghost use Rattle.aoe_block.specs.Calls.{hand, is_broken, is_read_or_written, is_success, operations, part_of, settle, took, AreUpTo, CanEnd};
ghost use Rattle.aoe_block.specs.Parts.{BlockState, IsCut, Part};
ghost use Rattle.aoe_block.specs.declared.took.Took.TheVariants.{Part as PartTook, Whole};

/// A law: the operations of a block's parts stay what they were when it was made.
pub fn operations_law()
    ensures handed { (block : BlockState) (ticket : Ticket)
        → operations (record block { parts = hand ticket block.parts }) ≡ operations block }
    ensures taken { (block : BlockState) (done : Done)
        → operations (settle block done) ≡ operations block }
{}

/// A law: a block of which a part failed never becomes whole.
pub fn broken_law()
    ensures part { (block : BlockState) (done : Done) (outcome : Outcome)
        → took block done ≡ PartTook outcome → is_broken (settle block done) ≡ true }
    ensures handed { (block : BlockState) (ticket : Ticket) → is_broken block ≡ true
        → is_broken (record block { parts = hand ticket block.parts }) ≡ true }
    ensures taken { (block : BlockState) (done : Done) → is_broken block ≡ true
        → is_broken (settle block done) ≡ true }
    ensures never { (block : BlockState) (done : Done) → is_broken block ≡ true
        → took block done ≡ Whole → ⊥ }
{}

/// A law: of the outcomes that a part's command can have, a part ends well by `Read` and `Written`.
pub fn outcome_law()
    ensures { (write : Bool) (count : ℕ) (outcome : Outcome) → CanEnd write count outcome
        → is_success write count outcome ≡ is_read_or_written outcome }
{}

/// A law: a ticket past all that were handed is that of no part.
pub fn ticket_law()
    ensures made { (at max : ℕ) (bytes : List ℕ) (parts : List Part) → IsCut at max bytes parts
        → AreUpTo 0 parts }
    ensures fresh { (last : ℕ) (ticket : Ticket) (parts : List Part) → AreUpTo last parts
        → last < ticket.0 → part_of ticket.0 parts ≡ None }
    ensures handed { (last : ℕ) (ticket : Ticket) (parts : List Part) → AreUpTo last parts
        → last < ticket.0 → AreUpTo ticket.0 (hand ticket parts) }
    ensures taken { (last : ℕ) (block : BlockState) (done : Done) → AreUpTo last block.parts
        → AreUpTo last (settle block done).parts }
{}
