//! What no clause says: whole runs by their bytes and texts, row by row.

mod downloads;
mod plain;
mod runs;
mod same;
mod sessions;
mod small_files;
mod small_sessions;
mod streams;
