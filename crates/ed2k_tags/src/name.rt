//! The name of a tag.
ghost use Rattle.std.specs.Prelude.{◌≡◌, ◌↔◌, ◌∷◌, [], length, IfOk, IsTrue};

use ed2k_outside::Bytes;
use std::alloc::{AllocError, Global};
use std::marker::Model;

/// A name: one byte where the network knows it by a number, else a text. Contracts see its bytes alone.
/// A name of one byte takes no memory.
#[derive(Debug, Drop)]
pub struct TagName {
    form: Form,
}

/// Where the bytes of a name stand.
#[derive(Debug, Drop)]
pub(crate) enum Form {
    One([u8; 1]),
    Many(Bytes),
}

impl Model for TagName {
    ghost use Rattle.std.specs.Prelude.{ℕ, List};
    ghost use Rattle.ed2k_tags.specs.Names.{bytes_of};

    ghost Value = { List ℕ };

    ghost view = { λ name. bytes_of name.form };
}

impl TagName {
    /// The name that is this byte.
    pub fn of_byte(name: u8) -> Self
        ensures { result ≡ name ∷ [] }
    {
        TagName {
            form: Form::One([name]),
        }
    }

    /// The name of these bytes, to be kept.
    pub fn copied(alloc: Global, name: &[u8]) -> Result<Self, AllocError>
        ensures { IfOk result (λ copy. copy ≡ name.now) }
    {
        let form = match name {
            [byte] => Form::One([*byte]),
            _ => Form::Many(Bytes::new(Vec::from_slice(alloc, name)?)),
        };
        Ok(TagName { form })
    }

    /// Its bytes.
    pub fn as_slice(&self) -> &[u8]
        ensures { result.now ≡ self.now }
    {
        match &self.form {
            Form::One(byte) => byte,
            Form::Many(bytes) => bytes.as_slice(),
        }
    }

    /// The number of its bytes.
    pub fn len(&self) -> usize
        ensures { result ≡ length self.now }
    {
        self.as_slice().len()
    }

    /// True exactly where it has no byte.
    pub fn is_empty(&self) -> bool
        ensures { IsTrue result ↔ (self.now ≡ []) }
    {
        self.as_slice().is_empty()
    }
}
