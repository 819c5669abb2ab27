// The round of a start: a peer answers Fetch, the node counts tables and returns.
#![tactic(auto)]

mod count;
mod merge;
mod recover;
mod reply;

pub use count::on_table;
pub use reply::on_fetch;
