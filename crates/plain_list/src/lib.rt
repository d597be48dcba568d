//! A list whose contracts see its values alone. Each list type of the network is one.
#![tactic(auto)]

mod list;

pub use list::List;
