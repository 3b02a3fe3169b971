//! What a reply without an error says of the operations that were handed for its request.
ghost use Rattle.std.specs.Prelude.{ℕ, ◌≡◌, List, None};
ghost use Rattle.aoe_desk.specs.declared.reply.Reply.{Reply};
ghost use Rattle.aoe_desk.specs.Runs.{Call, IsRun};
ghost use Rattle.aoe_nbd_law.specs.Requests.{Answers, IsReplied};

use aoe_desk::desk_law;

/// A law: a reply without an error answers a request that came, each sector of which was read or
/// written, and whose flush, if it asked for one, was done, each by a command that was submitted behind
/// it and has that outcome.
pub fn requests_law()
    ensures { (total max : ℕ) (calls : List Call) (reply : Reply) → IsRun total max calls
        → IsReplied total max calls reply → reply.error ≡ None → Answers total max calls reply }
{
    desk_law();
}
