// The laws of runs: table and store stay sound, so that no call of a run is refused with 2 or 3; and what the calls tell of
// a node's own item.
#![tactic(auto)]

ghost use Rattle.laws_runs.specs.Along.{OwnAlong, LastNeverFalls, SettledWasWritten};
ghost use Rattle.laws_runs.specs.Laws.{SetUpIsSound, SoundStaysSound, RunsStaySound, NeverUnsound};

// An accepted set-up makes table and store sound.
#[tactic(auto, using(crate::proofs::Runs::set_up_is_sound))]
pub fn set_up_is_sound()
    ensures { SetUpIsSound }
{}

// Every operation, refused or not, keeps a sound table and a sound store sound.
#[tactic(auto, using(crate::proofs::Runs::sound_stays_sound))]
pub fn sound_stays_sound()
    ensures { SoundStaysSound }
{}

// In a run from set-up table and store are sound after every list of events.
#[tactic(auto, using(crate::proofs::Runs::runs_stay_sound))]
pub fn runs_stay_sound()
    ensures { RunsStaySound }
{}

// In a run from set-up no call is refused with 2 or 3.
#[tactic(auto, using(crate::proofs::Runs::never_unsound))]
pub fn never_unsound()
    ensures { NeverUnsound }
{}

// Of nodes on a network and over table and store: Up and Idle a node has its last item, Up and writing one of the next index.
#[tactic(auto, using(crate::proofs::OwnItems::own_along))]
pub fn own_along()
    ensures { OwnAlong }
{}

// Of both: the index of a node's last item never falls.
#[tactic(auto, using(crate::proofs::OwnItems::last_never_falls))]
pub fn last_never_falls()
    ensures { LastNeverFalls }
{}

// Of both: a "settled" names the item of the node's last Write that was answered "ok", with no Crash between.
#[tactic(auto, using(crate::proofs::OwnItems::settled_was_written))]
pub fn settled_was_written()
    ensures { SettledWasWritten }
{}
