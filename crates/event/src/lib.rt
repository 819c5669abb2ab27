// One event at one node: what is found, refused, committed, dropped.
#![tactic(auto)]

mod commit;
mod drop;
mod inspect;
mod precheck;

pub use commit::{carry_decision, carry_out};
pub use drop::drop_message;
pub use inspect::{drop_target, place, read};
pub use precheck::check;
