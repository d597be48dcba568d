//! Expressions, and the rows of files that they ask about.
ghost use Rattle.std.specs.Prelude.{length, ◌≤◌};

use ed2k_outside::Bytes;

/// An MD4 hash.
pub type Hash = [u8; 16];

/// What is asked of a file. The name of a tag is mostly one byte: 01 for the name, 02 for the size, 03 for the
/// kind.
#[derive(Debug, Drop)]
pub enum Expr {
    And(Box<Expr>, Box<Expr>),
    Or(Box<Expr>, Box<Expr>),
    /// The first and not the second.
    Not(Box<Expr>, Box<Expr>),
    /// Each word of the text is one of the name.
    Word(Bytes),
    /// The text that a tag has.
    TagText { value: Bytes, name: Bytes },
    /// How great the number of a tag is: at most, where `most` is true, or at least so much.
    Number { value: u32, most: bool, name: Bytes },
}

/// A file as an offer and an answer tell it. Its name and its kind have at most 65,535 bytes each.
#[derive(Debug, Drop)]
pub struct FileRow {
    /// The file's ed2k hash.
    pub hash: Hash,
    /// Its name, in whatever encoding.
    pub name: Bytes,
    /// The number of its bytes.
    pub size: u64,
    /// What kind of file it is, such as `Audio`, or nothing.
    pub kind: Bytes,
    ghost short_name: { length name ≤ 65535 },
    ghost short_kind: { length kind ≤ 65535 },
}
