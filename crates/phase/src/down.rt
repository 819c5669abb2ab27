// Down and Fetching: a node that has not its rows.
// Kept: a function for each test, which names it as the definition does; what is alike in them is `matches!`.
ghost use Rattle.std.specs.Prelude.{◌≡◌};
ghost use Rattle.protocol.specs.Phase.{is_down, is_fetching};

use protocol::Phase;

// Whether the node is Down.
pub fn is_down(phase: Phase) -> bool
    ensures { result ≡ is_down phase }
{
    matches!(phase, Phase::Down)
}

// Whether the node collects tables.
pub fn is_fetching(phase: Phase) -> bool
    ensures { result ≡ is_fetching phase }
{
    matches!(phase, Phase::Fetching)
}
