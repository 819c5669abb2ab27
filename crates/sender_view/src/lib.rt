// What one sender is to a node, and what a node decides by it.
#![tactic(auto)]

mod decision;
mod view;

pub use decision::{Decision, NodeChange, changed, count_sender, ok, step_of};
pub use view::{SenderView, own_write, view_of};
