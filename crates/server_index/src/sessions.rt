//! Live sessions: one comes, offers, or leaves.
ghost use Rattle.std.specs.Prelude.{◌≡◌, ◌+◌, false, if◌then◌else◌, OnErr, min};
ghost use Rattle.server_index.specs.Calls.{Comes, address, has_no_id, logged_in, left, member_for, offered_to};
ghost use Rattle.server_index.specs.Tables.{IsSound, OthersStay, table_of};

use crate::files::Files;
use crate::offers::{Owner, offer_rows, remove_all};
use crate::postings::Hash;
use ed2k_outside::{Addr, NoMemory};
use search_expr::FileRow;
use std::alloc::Global;
use std::collections::BTreeMap;

/// A live session: who it is, and the hashes of its files.
#[derive(Drop)]
pub struct Session {
    pub user: Hash,
    pub id: u32,
    pub port: u16,
    pub hashes: Vec<Hash>,
}

/// Why a call of an index is refused.
#[derive(Clone, Copy, Debug, PartialEq, Eq)]
pub enum IndexFault {
    /// The number is logged in, with this id.
    Already(u32),
    /// The number is too great for a low id.
    Many(u64),
    /// The number isn't logged in.
    NotIn,
    /// Memory was refused.
    NoMemory,
}

/// The first number that a low id can't tell.
const LOW_IDS: u64 = 16_777_214;

/// A count as 32 bits tell it.
pub fn told(count: u64) -> u32
    ensures { result ≡ min count 4294967295 }
{
    u32::try_from(count).unwrap_or(u32::MAX)
}

/// Whether no id tells the number.
fn has_no_id(number: u64, high: bool) -> bool
    ensures { result ≡ has_no_id number high }
{
    !high && number >= LOW_IDS
}

/// The id of a session: its address where it was reached, else its number plus 1.
fn id_for(number: u64, addr: Addr, high: bool) -> u32
    requires { has_no_id number high ≡ false }
    ensures { result ≡ if high then address addr else number + 1 }
{
    if high {
        u32::from_le_bytes(addr.ip)
    } else {
        (number + 1) as u32
    }
}

/// Makes a session of a number, and answers its id.
pub fn login(
    alloc: Global,
    sessions: &mut BTreeMap<u64, Session>,
    files: &Files,
    number: u64,
    user: Hash,
    addr: Addr,
    port: u16,
    high: bool,
) -> Result<u32, IndexFault>
    requires sound { IsSound sessions.old.entries files.now }
    ensures sound { IsSound sessions.new.entries files.now }
    ensures exact { let member = member_for number user addr port high in
        Comes result (table_of sessions.new.entries files.now)
        (logged_in number member high (table_of sessions.old.entries files.now)) }
    ensures err { OnErr result (sessions.new.entries ≡ sessions.old.entries) }
    ensures others { OthersStay number (table_of sessions.old.entries files.now)
        (table_of sessions.new.entries files.now) }
{
    if let Some(session) = sessions.get(&number) {
        return Err(IndexFault::Already(session.id));
    }
    if has_no_id(number, high) {
        return Err(IndexFault::Many(number));
    }
    let id = id_for(number, addr, high);
    let session = Session {
        user,
        id,
        port,
        hashes: Vec::new(alloc),
    };
    match sessions.insert(number, session) {
        Ok(_) => Ok(id),
        Err(_) => Err(IndexFault::NoMemory),
    }
}

/// Offers the files of the session of a number.
pub fn offer(
    alloc: Global,
    sessions: &mut BTreeMap<u64, Session>,
    files: &mut Files,
    number: u64,
    rows: Vec<FileRow>,
) -> Result<u32, IndexFault>
    requires sound { IsSound sessions.old.entries files.old }
    ensures sound { IsSound sessions.new.entries files.new }
    ensures exact { Comes result (table_of sessions.new.entries files.new)
        (offered_to number rows.items (table_of sessions.old.entries files.old)) }
    ensures err { OnErr result (table_of sessions.new.entries files.new
        ≡ table_of sessions.old.entries files.old) }
    ensures others { OthersStay number (table_of sessions.old.entries files.old)
        (table_of sessions.new.entries files.new) }
{
    let Some(session) = sessions.get_mut(&number) else {
        return Err(IndexFault::NotIn);
    };
    let owner = Owner {
        number,
        id: session.id,
        port: session.port,
    };
    match offer_rows(alloc, files, &mut session.hashes, owner, rows) {
        Ok(taken) => Ok(told(taken)),
        Err(NoMemory) => Err(IndexFault::NoMemory),
    }
}

/// Takes the row of a number away, if there is one. No memory.
pub fn logout(sessions: &mut BTreeMap<u64, Session>, files: &mut Files, number: u64)
    requires sound { IsSound sessions.old.entries files.old }
    ensures sound { IsSound sessions.new.entries files.new }
    ensures exact { table_of sessions.new.entries files.new
        ≡ left number (table_of sessions.old.entries files.old) }
    ensures others { OthersStay number (table_of sessions.old.entries files.old)
        (table_of sessions.new.entries files.new) }
{
    if let Some(session) = sessions.remove(&number) {
        remove_all(files, session.hashes.as_slice(), number);
    }
}
