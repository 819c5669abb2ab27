// The first round: a peer answers Store, the writer counts Stored.
#![tactic(auto)]

mod count;
mod reply;

pub use count::on_stored;
pub use reply::on_store;
