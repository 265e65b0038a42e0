//! One store, shared by sessions: each call is made in one turn, and all of them have one history.
//!
//! What is entered into that history the user of a `Store` chooses by its `Log`. `Changes` is the log of a program that embeds the store.
#![tactic(auto)]

mod asking;
mod changes;
mod changing;
mod entry;
mod lent;
mod listing;
mod log;
mod pinning;
mod reading;
mod session;
mod store;
mod telling;
mod ticking;

pub use changes::Changes;
pub use entry::{Entry, Mark};
pub use lent::Lent;
pub use listing::Changed;
pub use log::Log;
pub use reading::Read;
pub use session::Session;
pub use store::Store;
