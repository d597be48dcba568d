//! The index, as its callers see it.
ghost use Rattle.std.specs.Prelude.{◌≡◌, ◌≤◌, true, IfOk, OnErr, [], length, min};
ghost use Rattle.search_expr.specs.Query.{query};
ghost use Rattle.server_index.specs.Asked.{asks};
ghost use Rattle.server_index.specs.Calls.{Comes, address, logged_in, left, member_for, offered_to};
ghost use Rattle.server_index.specs.Found.{found, hashes, sources};
ghost use Rattle.server_index.specs.Tables.{OthersStay};

use crate::asked::search_expr;
use crate::file::Found;
use crate::files::Files;
use crate::postings::Hash;
use crate::sessions::{IndexFault, Session, login, logout, offer, told};
use crate::sources::{Places, find_sources};
use ed2k_outside::{Addr, NoMemory};
use search_expr::{Expr, FileRow};
use std::alloc::Global;
use std::collections::BTreeMap;
use std::marker::Model;

/// Live sessions and the files that they offer. Callers see a table: the sessions by number, and the files by
/// hash and then by number. The row of a number is its session and its files.
#[derive(Drop)]
pub struct Index {
    alloc: Global,
    sessions: BTreeMap<u64, Session>,
    files: Files,
}

impl Model for Index {
    ghost use Rattle.server_index.specs.Tables.{Table, table_of, IsSound};

    ghost Value = { Table };

    ghost view = { λ a. table_of a.sessions.entries a.files };

    ghost invariant = { λ a. IsSound a.sessions.entries a.files };
}

impl Index {
    /// An index without sessions. No memory.
    pub fn new(alloc: Global) -> Self
        ensures sessions { result.sessions ≡ [] }
        ensures files { result.files ≡ [] }
    {
        Index {
            alloc,
            sessions: BTreeMap::new(alloc),
            files: Files::new(alloc),
        }
    }

    /// Makes a session of a number that isn't logged in, and answers its id: the number of its address (its first
    /// byte lowest) where it was reached, which is `high`, else its own number plus 1. Such an address is
    /// 16,777,216 or more.
    ///
    /// Refusals: `Already` with the id of the number's session; `Many` with a number of 16,777,214 or more that
    /// wasn't reached; `NoMemory`. After a refusal all is as it was.
    pub fn login(
        &mut self,
        number: u64,
        user: Hash,
        addr: Addr,
        port: u16,
        high: bool,
    ) -> Result<u32, IndexFault>
        requires reached { high ≡ true → 16777216 ≤ address addr }
        ensures exact { let member = member_for number user addr port high in
            Comes result self.new (logged_in number member high self.old) }
        ensures err { OnErr result (self.new ≡ self.old) }
        ensures others { OthersStay number self.old self.new }
    {
        let alloc = self.alloc;
        login(
            alloc,
            &mut self.sessions,
            &self.files,
            number,
            user,
            addr,
            port,
            high,
        )
    }

    /// Takes files of the session of a number, in order, and answers how many (4,294,967,295 where there are
    /// more): a file whose hash the session has replaces that one, another is added while the session has fewer
    /// than 10,000, and all others are passed over.
    ///
    /// Refusals: `NotIn` where the number isn't logged in; `NoMemory`. After a refusal all is as it was.
    pub fn offer(&mut self, number: u64, files: Vec<FileRow>) -> Result<u32, IndexFault>
        ensures exact { Comes result self.new (offered_to number files.items self.old) }
        ensures err { OnErr result (self.new ≡ self.old) }
        ensures others { OthersStay number self.old self.new }
    {
        offer(
            self.alloc,
            &mut self.sessions,
            &mut self.files,
            number,
            files,
        )
    }

    /// Takes the row of a number away, if there is one. No memory.
    pub fn logout(&mut self, number: u64)
        ensures exact { self.new ≡ left number self.old }
        ensures others { OthersStay number self.old self.new }
    {
        logout(&mut self.sessions, &mut self.files, number);
    }

    /// The files that an expression asks for, of the hashes above `after`: by hash, of each hash the file of the
    /// lowest number, at most 200.
    pub fn search(&self, expr: &Expr, after: Option<Hash>) -> Result<Vec<Found>, NoMemory>
        ensures { IfOk result (λ out. out.items ≡ found (asks (query expr.now)) after self.now.files) }
    {
        search_expr(self.alloc, &self.files, expr, &after)
    }

    /// The id and port of each session that has a hash, by number, at most 255.
    pub fn sources(&self, hash: &Hash) -> Result<Places, NoMemory>
        ensures { IfOk result (λ out. out ≡ sources hash.now self.now.files) }
    {
        Ok(Places::new(find_sources(self.alloc, &self.files, hash)?))
    }

    /// The number of live sessions, and that of the hashes of their files; 4,294,967,295 stands for any greater
    /// number. No memory.
    pub fn status(&self) -> (u32, u32)
        ensures sessions { result.0 ≡ min (length self.now.sessions) 4294967295 }
        ensures files { result.1 ≡ min (length (hashes self.now.files)) 4294967295 }
    {
        (told(self.sessions.len() as u64), told(self.files.hashes))
    }
}
