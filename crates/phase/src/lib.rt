// The tests on a node's phase and stage, by which every decision branches.
#![tactic(auto)]

mod down;
mod idle;
mod stage;
mod up;

pub use down::{is_down, is_fetching};
pub use idle::{is_idle, is_up_idle};
pub use stage::{at_stage, is_confirming, is_storing};
pub use up::{is_returning, is_up};
