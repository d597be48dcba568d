//! The download session with one peer, over any bytes and any desk.
#![tactic(auto)]

mod advance;
mod cause;
mod desk_access;
mod fetch_call;
pub mod laws;
mod link;
mod machine;
mod peer_end;
mod peer_link;
mod ready;
mod rows;
pub mod serving;
mod session;

pub use cause::Cause;
pub use desk_access::{DeskAccess, Direct};
pub use machine::{FetchCore, Next};
pub use peer_end::PeerEnd;
pub use peer_link::{PeerLink, fetch, fetch_through};
pub use session::{Place, Session};

#[cfg(test)]
mod tests;
