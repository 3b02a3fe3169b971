//! What follows from the calls of a desk, however they follow each other.
ghost use Rattle.std.specs.Prelude.{◌≡◌, ◌+◌, ◌≤◌, ℕ, List, None, Some, slice_get, true};
ghost use Rattle.aoe_initiator.specs.declared.op.Op.TheVariants.{Flush};
ghost use Rattle.aoe_desk.specs.declared.request.OpenRequest.{OpenRequest};
ghost use Rattle.aoe_desk.specs.Desks.{next_op, DeskState, IsDesk};
ghost use Rattle.aoe_desk.specs.Requests.{data_of, is_finished, owns, IsOpen};
ghost use Rattle.aoe_desk.specs.Runs.{after_all, came, pending, written, Call, IsDone, IsNextFlush, IsRun};
ghost use Rattle.aoe_block.specs.Parts.{joined};

/// A law: after all calls the bounds hold (`IsDesk`), and no two requests have an operation under way
/// with one ticket.
pub fn desk_law()
    ensures bounds { (total max : ℕ) (calls : List Call) → IsRun total max calls
        → IsDesk (after_all total max calls) }
    ensures apart { (d : DeskState) (ticket j k : ℕ) (a b : OpenRequest) → IsDesk d
        → slice_get d.open_requests j ≡ Some a → slice_get d.open_requests k ≡ Some b
        → owns ticket a ≡ true → owns ticket b ≡ true → j ≡ k }
{}

/// A law: with each handle no more replies are written, or wait, than requests came.
pub fn once_law()
    ensures { (handle total max : ℕ) (calls : List Call) → IsRun total max calls
        → written handle total max calls + pending handle (after_all total max calls)
        ≤ came handle calls }
{}

/// A law: a request that is finished without an error was carried out, and a read gives the bytes of
/// its parts in order.
pub fn done_law()
    ensures done { (r : OpenRequest) → IsOpen r → is_finished r ≡ true → r.error ≡ None
        → IsDone r }
    ensures read { (r : OpenRequest) → IsOpen r → r.error ≡ None → r.reads ≡ true
        → data_of r ≡ joined r.block.parts }
{}

/// A law: a flush is handed behind the parts of its request and behind the operations of all requests
/// that came before.
pub fn flush_law()
    ensures { (d : DeskState) → IsDesk d → next_op d ≡ Some Flush → IsNextFlush d }
{}
