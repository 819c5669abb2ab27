// Returning and Up: a node that has its rows.
// Kept: a function for each test, which names it as the definition does; what is alike in them is `matches!`.
ghost use Rattle.std.specs.Prelude.{◌≡◌};
ghost use Rattle.protocol.specs.Phase.{is_up, is_returning};

use protocol::Phase;

// Whether the node is Up, in any stage of its own write.
pub fn is_up(phase: Phase) -> bool
    ensures { result ≡ is_up phase }
{
    matches!(phase, Phase::Up(_))
}

// Whether the node writes back its own item.
pub fn is_returning(phase: Phase) -> bool
    ensures { result ≡ is_returning phase }
{
    matches!(phase, Phase::Returning(_))
}
