//! A live file, and one that a search found.
ghost use Rattle.std.specs.Prelude.{◌≡◌, ◌≤◌, IfOk, length, take, drop};
ghost use Rattle.server_index.specs.Offers.{live};

use crate::offers::Owner;
use ed2k_outside::Bytes;
use search_expr::FileRow;
use std::alloc::{AllocError, Global};
use std::marker::Model;

/// A live file: what its session tells of it, and the session's id and port. The name and the kind lie in one
/// piece of memory without room to spare.
#[derive(Drop)]
pub struct File {
    text: Bytes,
    size: u64,
    id: u32,
    port: u16,
    name_len: u16,
    ghost short_name: { length (take name_len text) ≤ 65535 },
    ghost short_kind: { length (drop name_len text) ≤ 65535 },
}

impl Model for File {
    ghost use Rattle.std.specs.Prelude.{◌≤◌, length, take, drop};
    ghost use Rattle.server_index.specs.Live as seen;

    ghost Value = { seen.File };

    ghost view = { λ f. record {
      name = take f.name_len f.text;
      size = f.size;
      kind = drop f.name_len f.text;
      id = f.id;
      port = f.port;
      short_name = f.short_name;
      short_kind = f.short_kind;
    } };

    ghost invariant = { λ f. f.name_len ≤ length f.text };
}

impl File {
    /// A file of a session, to be kept.
    pub fn new(alloc: Global, owner: Owner, row: FileRow) -> Result<File, AllocError>
        ensures { IfOk result (λ file. file ≡ live owner row) }
    {
        let name = row.name.as_slice();
        let kind = row.kind.as_slice();
        let mut text = Vec::with_capacity(alloc, name.len() + kind.len())?;
        text.extend_from_slice(name)?;
        text.extend_from_slice(kind)?;
        Ok(File {
            text: Bytes::new(text),
            size: row.size,
            id: owner.id,
            port: owner.port,
            name_len: name.len() as u16,
        })
    }

    /// Its name.
    pub fn name(&self) -> &[u8]
        ensures { result.now ≡ self.now.name }
    {
        &self.text.as_slice()[..usize::from(self.name_len)]
    }

    /// What kind of file it is.
    pub fn kind(&self) -> &[u8]
        ensures { result.now ≡ self.now.kind }
    {
        &self.text.as_slice()[usize::from(self.name_len)..]
    }

    /// The number of its bytes.
    pub fn size(&self) -> u64
        ensures { result ≡ self.now.size }
    {
        self.size
    }

    /// The id and port of its session.
    pub fn place(&self) -> (u32, u16)
        ensures { result ≡ (self.now.id, self.now.port) }
    {
        (self.id, self.port)
    }
}

/// A file that was found, with the id and port of the session that has it.
#[derive(Drop)]
pub struct Found {
    pub row: FileRow,
    pub id: u32,
    pub port: u16,
}
