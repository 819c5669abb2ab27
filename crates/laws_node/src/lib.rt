// The laws of one node's decisions: statements over every decision at once.
#![tactic(auto)]

ghost use Rattle.laws_node.specs.Laws.{
  RefusedGivesBack,
  OthersLeftAlone,
  IncarnationsNeverFall,
  AttemptsNeverFall,
  OwnItemOnlyWritten,
  SoundStaysSound,
};
ghost use Rattle.laws_node.specs.Tables.{TablesMerged};

// A refused decision gives back the same node and sends nothing.
#[tactic(auto, using(crate::proofs::GivesBack::refused_gives_back))]
pub fn refused_gives_back()
    ensures { RefusedGivesBack }
{}

// Each decision leaves alone every field that its row of the table `changed` does not name.
#[tactic(auto, using(crate::proofs::LeftAlone::others_left_alone))]
pub fn others_left_alone()
    ensures { OthersLeftAlone }
{}

// No decision lowers the incarnation.
#[tactic(auto, using(crate::proofs::Counters::incarnations_never_fall))]
pub fn incarnations_never_fall()
    ensures { IncarnationsNeverFall }
{}

// Within one incarnation the attempt of a sound node does not fall, unless the node goes Down.
#[tactic(auto, using(crate::proofs::Counters::attempts_never_fall))]
pub fn attempts_never_fall()
    ensures { AttemptsNeverFall }
{}

// The own item changes only by Write and by the return, and by Crash and Start to zero.
#[tactic(auto, using(crate::proofs::OwnItem::own_item_only_written))]
pub fn own_item_only_written()
    ensures { OwnItemOnlyWritten }
{}

// A sound node stays sound, whatever it decides.
#[tactic(auto, using(crate::proofs::Sound::sound_stays_sound))]
pub fn sound_stays_sound()
    ensures { SoundStaysSound }
{}

// After any tables each row is the greatest index that came, with its first tag, marked exactly if it came with two.
#[tactic(auto, using(crate::proofs::Tables::tables_merged))]
pub fn tables_merged()
    ensures { TablesMerged }
{}
