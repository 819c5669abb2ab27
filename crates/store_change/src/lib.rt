// What changes the store: a message put, a message removed, an empty store set up.
#![tactic(auto)]

mod putting;
mod removing;
mod setting_up;

pub use putting::put;
pub use removing::drop_message;
pub use setting_up::set_up;
