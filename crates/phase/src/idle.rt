// Whether a node has no write under way.
// Kept: a function for each test, which names it as the definition does; what is alike in them is `matches!`.
ghost use Rattle.std.specs.Prelude.{◌≡◌};
ghost use Rattle.protocol.specs.Phase.{is_up_idle, is_idle};

use protocol::{Phase, Stage};

// Whether the node is Up and no write is under way.
pub fn is_up_idle(phase: Phase) -> bool
    ensures { result ≡ is_up_idle phase }
{
    matches!(phase, Phase::Up(Stage::Idle))
}

// Whether no write is under way, when Returning or Up.
pub fn is_idle(phase: Phase) -> bool
    ensures { result ≡ is_idle phase }
{
    matches!(
        phase,
        Phase::Returning(Stage::Idle) | Phase::Up(Stage::Idle)
    )
}
