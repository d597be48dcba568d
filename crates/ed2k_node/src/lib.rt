//! The top call of the program: the words of a command line in, a status out.
#![tactic(auto)]

mod answer;
mod commands;
mod get;
mod hands;
mod hash_command;
mod link_command;
pub mod numbers;
mod plain;
mod report;
mod rounds;
mod settle;
mod status;
mod text;
mod top;
mod words;

pub use get::run_one;
pub use hands::{Ended, Hands};
pub use plain::run_plain;
pub use top::run;

#[cfg(test)]
mod tests;
