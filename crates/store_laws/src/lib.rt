// Laws of the message store's chains: what a sound store is, and what put, drop and set-up do to them. There is no code.
#![tactic(auto)]

ghost use Rattle.store_laws.specs.Standing.{SoundMeans};

// The test of soundness holds exactly of the stores that document 01's sentence describes.
#[tactic(auto, using(crate::proofs::OnChains::sound_means))]
pub fn soundness_means()
    ensures { SoundMeans }
{}
