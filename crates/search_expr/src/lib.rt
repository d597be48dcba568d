//! Search expressions of the eDonkey2000 network: read and written as bytes, made of words that a person
//! types, and matched against the row of a file.
#![tactic(auto)]

mod expr;
mod fault;
pub mod laws;
mod matching;
mod pieces;
mod read;
mod typed;
mod words;
mod write;

pub use expr::{Expr, FileRow, Hash};
pub use fault::ExprFault;
pub use matching::{matches, matches_file};
pub use read::{Join, MOST_LEVELS, MOST_NODES, expr_at, read_expr};
pub use typed::{WordsFault, parse_words};
pub use words::{has_words, next_word, same_text};
pub use write::{append_expr, texts_fit, write_expr};

#[cfg(test)]
mod tests;
