//! The lists that messages carry: files and endpoints, read off the front of bytes and written at their end.
ghost use Rattle.std.specs.Prelude.{◌≡◌, ◌++◌, length, IfOk, OnOk};
ghost use Rattle.std.specs.List.{flat_map, list_all};
ghost use Rattle.byteorder.specs.Endian.{little_bytes};
ghost use Rattle.ed2k_tags.specs.Reading.{Gives, list_at};
ghost use Rattle.server_msgs.specs.Lists.{tagged, each_from, file_at, files_at, endpoint_at, endpoints_at};
ghost use Rattle.server_msgs.specs.Spelling.{spell_file, spell_files, fits_file, spell_endpoint, spell_endpoints};

use crate::fault::MsgFault;
use crate::msg::{Endpoint, Endpoints, FileItem, Files};
use ed2k_tags::fields::{
    append_low32, append_u16, append_u32, read_array, read_u8, read_u16, read_u32,
};
use ed2k_tags::{TagFault, Tags, append_tags, have_spelling, tags_at};
use std::alloc::{AllocError, Global};

/// The greatest number of files in an offer and in results. It is a limit of this program.
pub const FILE_LIMIT: u32 = 10_000;

/// The fewest bytes of a file: its hash, id and port, and the count of its tags.
const FILE_BYTES: usize = 26;

/// The tags at the front of bytes that end where the payload does.
pub(crate) fn read_tags_field(
    alloc: Global,
    bytes: &[u8],
    end: usize,
) -> Result<(Tags, &[u8]), MsgFault>
    ensures { Gives MsgFault.NoMemory (λ x. (x.0, x.1.now)) result (tagged (list_at end bytes.now)) }
{
    match tags_at(alloc, bytes, end) {
        Ok((tags, rest)) => Ok((Tags::new(tags), rest)),
        Err(TagFault::NoMemory) => Err(MsgFault::NoMemory),
        Err(fault) => Err(MsgFault::BadTag(fault)),
    }
}

/// A file, in bytes that end where the payload does.
#[tactic(auto, unfolding(crate::specs::Lists::file_at))]
fn read_file(alloc: Global, bytes: &[u8], end: usize) -> Result<(FileItem, &[u8]), MsgFault>
    ensures { Gives MsgFault.NoMemory (λ x. (x.0, x.1.now)) result (file_at end bytes.now) }
{
    let (hash, rest) = read_array(bytes)?;
    let (id, rest) = read_u32(rest)?;
    let (port, rest) = read_u16(rest)?;
    let (tags, rest) = read_tags_field(alloc, rest, end)?;
    let file = FileItem {
        hash,
        id,
        port,
        tags,
    };
    Ok((file, rest))
}

/// So many files, in bytes that end where the payload does.
fn read_each_file(
    alloc: Global,
    count: u32,
    bytes: &[u8],
    end: usize,
) -> Result<(Vec<FileItem>, &[u8]), MsgFault>
    ensures { Gives MsgFault.NoMemory (λ x. (x.0.items, x.1.now)) result
        (each_from (file_at end) count bytes.now) }
{
    let room = (count as usize).min(bytes.len() / FILE_BYTES);
    let mut files = Vec::with_capacity(alloc, room)?;
    let mut rest = bytes;
    for _ in 0..count {
        match read_file(alloc, rest, end) {
            Err(fault) => return Err(fault),
            Ok((file, after)) => {
                files.push(file)?;
                rest = after;
            }
        }
    }
    Ok((files, rest))
}

/// The files of a payload that has nothing before them. The count is compared with the limit first.
#[tactic(auto, unfolding(crate::specs::Lists::files_at))]
pub(crate) fn read_files(alloc: Global, payload: &[u8]) -> Result<Files, MsgFault>
    ensures { Gives MsgFault.NoMemory (λ files. files) result (files_at payload.now) }
{
    let (count, rest) = read_u32(payload)?;
    if count > FILE_LIMIT {
        return Err(MsgFault::Cut);
    }
    let (files, _) = read_each_file(alloc, count, rest, payload.len())?;
    Ok(Files::new(files))
}

#[tactic(auto, unfolding(crate::specs::Lists::endpoint_at))]
fn read_endpoint(bytes: &[u8]) -> Result<(Endpoint, &[u8]), MsgFault>
    ensures { Gives MsgFault.NoMemory (λ x. (x.0, x.1.now)) result (endpoint_at bytes.now) }
{
    let (id, rest) = read_u32(bytes)?;
    let (port, rest) = read_u16(rest)?;
    Ok((Endpoint { id, port }, rest))
}

/// So many endpoints.
fn read_each_endpoint(
    alloc: Global,
    count: u8,
    bytes: &[u8],
) -> Result<(Vec<Endpoint>, &[u8]), MsgFault>
    ensures { Gives MsgFault.NoMemory (λ x. (x.0.items, x.1.now)) result
        (each_from endpoint_at count bytes.now) }
{
    let mut list = Vec::new(alloc);
    let mut rest = bytes;
    for _ in 0..count {
        match read_endpoint(rest) {
            Err(fault) => return Err(fault),
            Ok((endpoint, after)) => {
                list.push(endpoint)?;
                rest = after;
            }
        }
    }
    Ok((list, rest))
}

/// The endpoints that end a payload.
#[tactic(auto, unfolding(crate::specs::Lists::endpoints_at))]
pub(crate) fn read_endpoints(alloc: Global, bytes: &[u8]) -> Result<Endpoints, MsgFault>
    ensures { Gives MsgFault.NoMemory (λ list. list) result (endpoints_at bytes.now) }
{
    let (count, rest) = read_u8(bytes)?;
    let (list, _) = read_each_endpoint(alloc, count, rest)?;
    Ok(Endpoints::new(list))
}

fn append_file(out: &mut Vec<u8>, file: &FileItem) -> Result<(), AllocError>
    ensures { OnOk result (out.new.items ≡ out.old.items ++ spell_file file.now) }
{
    out.extend_from_slice(&file.hash)?;
    append_u32(out, file.id)?;
    append_u16(out, file.port)?;
    append_tags(out, file.tags.as_slice())
}

/// Adds a count of four bytes, and as many files.
pub(crate) fn append_files(out: &mut Vec<u8>, files: &[FileItem]) -> Result<(), AllocError>
    ensures { OnOk result (out.new.items ≡ out.old.items ++ spell_files files.now) }
{
    append_low32(out, files.len() as u64)?;
    for file in files {
        append_file(out, file)?;
    }
    Ok(())
}

fn file_fits(file: &FileItem) -> bool
    ensures { result ≡ fits_file file.now }
{
    have_spelling(file.tags.as_slice())
}

/// True exactly where each name and value of the files' tags fits the length that is written before it.
pub(crate) fn files_fit(files: &[FileItem]) -> bool
    ensures { result ≡ list_all fits_file files.now }
{
    files.iter().all(file_fits)
}

fn append_endpoint(out: &mut Vec<u8>, endpoint: &Endpoint) -> Result<(), AllocError>
    ensures { OnOk result (out.new.items ≡ out.old.items ++ spell_endpoint endpoint.now) }
{
    append_u32(out, endpoint.id)?;
    append_u16(out, endpoint.port)
}

/// Adds the low byte of a count, and the endpoints.
pub(crate) fn append_endpoints(out: &mut Vec<u8>, list: &[Endpoint]) -> Result<(), AllocError>
    ensures { OnOk result (out.new.items ≡ out.old.items ++ spell_endpoints list.now) }
{
    out.push((list.len() % 0x100) as u8)?;
    for endpoint in list {
        append_endpoint(out, endpoint)?;
    }
    Ok(())
}
