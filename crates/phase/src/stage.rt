// The stage of the write that a node that is Returning or Up has under way: the tests on it, and its change.
// Kept: a function for each test, which names it as the definition does; what is alike in them is `matches!`.
ghost use Rattle.std.specs.Prelude.{◌≡◌};
ghost use Rattle.protocol.specs.Phase.{is_storing, is_confirming, at_stage};

use protocol::{Phase, Stage};

// Whether the write is Storing, when Returning or Up.
pub fn is_storing(phase: Phase) -> bool
    ensures { result ≡ is_storing phase }
{
    matches!(
        phase,
        Phase::Returning(Stage::Storing) | Phase::Up(Stage::Storing)
    )
}

// Whether the write is Confirming, when Returning or Up.
pub fn is_confirming(phase: Phase) -> bool
    ensures { result ≡ is_confirming phase }
{
    matches!(
        phase,
        Phase::Returning(Stage::Confirming) | Phase::Up(Stage::Confirming)
    )
}

// The phase with another stage of the write. Down and Fetching have none, and stay.
#[tactic(auto, unfolding(protocol::specs::Phase::at_stage))]
pub fn at_stage(phase: Phase, stage: Stage) -> Phase
    ensures { result ≡ at_stage phase stage }
{
    match phase {
        Phase::Returning(_) => Phase::Returning(stage),
        Phase::Up(_) => Phase::Up(stage),
        _ => phase,
    }
}
