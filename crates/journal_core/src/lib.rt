//! The log file of a download: records behind gates, of which a crash leaves whole ones.
#![tactic(auto)]

mod fields;
mod folded;
mod header;
mod journal;
mod loading;
mod making;
mod parsing;
mod payload;
mod probing;
mod reading;
mod record;
mod spelling;
mod walking;

pub use header::{Header, SIZE_LIMIT};
pub use journal::Journal;
pub use loading::LoadFault;
pub use probing::Probe;
pub use record::Record;
pub use spelling::{spell, spell_small};

#[cfg(test)]
mod tests;
