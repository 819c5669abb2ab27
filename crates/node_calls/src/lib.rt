// The operations of one node that no message starts: write, retry, crash, start.
#![tactic(auto)]

mod requests;
mod restarting;
mod retrying;
mod step;
mod writing;

pub use requests::send_store;
pub use restarting::{crash, start};
pub use retrying::retry;
pub use step::ok;
pub use writing::write;
