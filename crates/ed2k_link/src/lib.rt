//! Links to files, `ed2k://|file|NAME|SIZE|HASH|/`, read and printed, and base 32.
#![tactic(auto)]

mod base32;
mod decimal;
mod fault;
mod fields;
mod items;
pub mod laws;
mod link;
mod name;
mod parse;
mod prefix;
mod print;
mod size;

pub use base32::{base32_decode, base32_encode};
pub use decimal::read_decimal;
pub use fault::LinkFault;
pub use link::FileLink;
pub use name::{NAME_LIMIT, push_name};
pub use parse::parse_link;
pub use prefix::strip_prefix;
pub use print::print_link;

#[cfg(test)]
mod tests;
