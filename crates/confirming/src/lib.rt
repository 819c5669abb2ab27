// The second round: a peer answers Confirm, the writer counts Confirmed.
#![tactic(auto)]

mod count;
mod reply;

pub use count::on_confirmed;
pub use reply::on_confirm;
