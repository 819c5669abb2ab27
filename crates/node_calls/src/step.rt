// The step of a decision that is not refused.
ghost use Rattle.std.specs.Prelude.{◌≡◌};
ghost use Rattle.protocol.specs.Answer.{ok as ok_step};

use protocol::{Answer, Node, Sends, Step};

// The answer "ok", with what is sent.
// Kept: beside `sender_view::ok`. A step has a node and a decision a change of one; a generic record would name both by one
// word, which is plainer for neither, and each `ok` is one record.
#[tactic(auto, unfolding(protocol::specs::Answer::ok))]
pub fn ok(node: Node, sends: Sends) -> Step
    ensures { result ≡ ok_step node sends }
{
    Step {
        answer: Answer::Ok,
        node,
        sends,
    }
}
