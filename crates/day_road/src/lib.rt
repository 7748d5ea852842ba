//! The one road of a day: an input gives its calls one by one, an auction answers them, and a listener hears each.
#![tactic(auto)]

mod entries;
mod history;
mod input;
mod listener;
mod orders;
mod road;

pub use history::History;
pub use input::Input;
pub use listener::Listener;
pub use road::{hear_all, pass_over};
