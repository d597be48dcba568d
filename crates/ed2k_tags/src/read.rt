//! A list of tags read, in any spelling.
ghost use Rattle.std.specs.Prelude.{◌≡◌, ◌≢◌, ℕ, ◌+◌, ◌≤◌, List, ◌++◌, length, drop, Result, IfOk, IfErr};
ghost use Rattle.ed2k_tags.specs.declared.fault.TagFault.{TagFault};
ghost use Rattle.ed2k_tags.specs.declared.tag.Tag.{Tag};
ghost use Rattle.ed2k_tags.specs.Fields.{or};
ghost use Rattle.ed2k_tags.specs.Grammar.{IsTagList};
ghost use Rattle.ed2k_tags.specs.Reading.{Gives, name_at, value_at, tag_at, tags_from, list_at};

use crate::fault::{Stop, TagFault};
use crate::fields::{
    copied, read_array, read_blob, read_bytes, read_text, read_u8, read_u16, read_u32, read_u64,
};
use crate::layout::Layout;
use crate::name::TagName;
use crate::tag::{Tag, Value};
use std::alloc::Global;

/// The greatest number of tags in one list. It is a limit of this program.
pub const TAG_LIMIT: u32 = 1_024;

/// The bit of a tag's first byte that says that its name is one byte. The others are its type.
pub(crate) const SHORT_NAME: u8 = 0x80;

/// The name of a tag with this first byte.
fn read_name(first: u8, bytes: &[u8]) -> Result<(&[u8], &[u8]), Stop>
    ensures { Gives Stop.NoMemory (λ x. (x.0.now, x.1.now)) result (or Stop.Short (name_at first bytes.now)) }
{
    if first < SHORT_NAME {
        Ok(read_text(bytes)?)
    } else {
        Ok(read_bytes(1, bytes)?)
    }
}

/// The text that was found, and the bytes after it.
fn as_text<'a>(alloc: Global, found: (&[u8], &'a [u8])) -> Result<(Value, &'a [u8]), Stop>
    ensures read { IfOk result (λ x. (x.0 ≡ Value.Text found.entry.0.now) × (x.1.now ≡ found.entry.1.now)) }
    ensures memory { IfErr result (λ stop. stop ≡ Stop.NoMemory) }
{
    let (text, rest) = found;
    Ok((Value::Text(copied(alloc, text)?), rest))
}

/// A value that is laid out so.
fn read_value(alloc: Global, layout: Layout, bytes: &[u8]) -> Result<(Value, &[u8]), Stop>
    ensures { Gives Stop.NoMemory (λ x. (x.0, x.1.now)) result (or Stop.Short (value_at layout bytes.now)) }
{
    match layout {
        Layout::Hash => {
            let (hash, rest) = read_array(bytes)?;
            Ok((Value::Id(hash), rest))
        }
        Layout::LongText => as_text(alloc, read_text(bytes)?),
        Layout::Four => {
            let (number, rest) = read_u32(bytes)?;
            Ok((Value::Number(u64::from(number)), rest))
        }
        Layout::Raw => {
            let (raw, rest) = read_array(bytes)?;
            Ok((Value::Raw4(raw), rest))
        }
        Layout::Unread => {
            let (blob, rest) = read_blob(bytes)?;
            Ok((Value::Blob(copied(alloc, blob)?), rest))
        }
        Layout::Two => {
            let (number, rest) = read_u16(bytes)?;
            Ok((Value::Number(u64::from(number)), rest))
        }
        Layout::One => {
            let (number, rest) = read_u8(bytes)?;
            Ok((Value::Number(u64::from(number)), rest))
        }
        Layout::Eight => {
            let (number, rest) = read_u64(bytes)?;
            Ok((Value::Number(number), rest))
        }
        Layout::BareText(len) => as_text(alloc, read_bytes(len as usize, bytes)?),
    }
}

/// The tag at the front. Its type is judged before its name and its value.
#[tactic(auto, unfolding(crate::specs::Reading::tag_at))]
fn read_tag(alloc: Global, bytes: &[u8]) -> Result<(Tag, &[u8]), Stop>
    ensures { Gives Stop.NoMemory (λ x. (x.0, x.1.now)) result (tag_at bytes.now) }
{
    let (first, rest) = read_u8(bytes)?;
    let kind = first % SHORT_NAME;
    let layout = Layout::of_type(kind).ok_or(Stop::BadType(kind))?;
    let (name, rest) = read_name(first, rest)?;
    let (value, rest) = read_value(alloc, layout, rest)?;
    let name = TagName::copied(alloc, name)?;
    Ok((Tag { name, value }, rest))
}

/// So many tags, in bytes that end at a place.
fn read_each(
    alloc: Global,
    count: u32,
    bytes: &[u8],
    end: usize,
) -> Result<(Vec<Tag>, &[u8]), TagFault>
    ensures { Gives TagFault.NoMemory (λ x. (x.0.items, x.1.now)) result (tags_from end count bytes.now) }
{
    let mut tags = Vec::with_capacity(alloc, count as usize)?;
    let mut rest = bytes;
    for _ in 0..count {
        match read_tag(alloc, rest) {
            Err(stop) => return Err(stop.at(end.saturating_sub(rest.len()))),
            Ok((tag, after)) => {
                tags.push(tag)?;
                rest = after;
            }
        }
    }
    Ok((tags, rest))
}

/// The list of tags that begins at a place: a count of four bytes, and as many tags. Answers the
/// tags and the place after them.
///
/// `TooMany` comes exactly where the count is above `TAG_LIMIT`, `Cut` where the bytes end within the
/// count or the tag that begins at its place, and `BadType` where a tag's type isn't read. Of `Cut`
/// and `BadType` the one of the earlier tag comes, and in one tag `BadType`.
pub fn read_tags(alloc: Global, bytes: &[u8], at: usize) -> Result<(Vec<Tag>, usize), TagFault>
    requires { at ≤ length bytes.now }
    // What is read is spelled so.
    ensures found { IfOk result (λ x. (text : List ℕ) × IsTagList x.0.items text × (x.1 ≡ at + length text) × (drop at bytes.now ≡ text ++ drop x.1 bytes.now)) }
    // What is spelled so is read, unless memory is refused.
    ensures only { (tags : List Tag) (text rest : List ℕ) → IsTagList tags text → drop at bytes.now ≡ text ++ rest →
        let read : Result (List Tag × ℕ) TagFault = Ok (tags, at + length text) in Gives TagFault.NoMemory (λ x. (x.0.items, x.1)) result read }
    // Which fault it is.
    ensures fault { IfErr result (λ fault. fault ≢ TagFault.NoMemory → list_at (length bytes.now) (drop at bytes.now) ≡ Err fault) }
{
    let (tags, rest) = tags_at(alloc, &bytes[at..], bytes.len())?;
    Ok((tags, bytes.len().saturating_sub(rest.len())))
}

/// The list of tags at the front of bytes that end at a place, and the bytes after it. Places are
/// counted as the end is. The refusals are those of [`read_tags`].
pub fn tags_at(alloc: Global, bytes: &[u8], end: usize) -> Result<(Vec<Tag>, &[u8]), TagFault>
    // What is read is spelled so.
    ensures found { IfOk result (λ x. (text : List ℕ) × IsTagList x.0.items text × (bytes.now ≡ text ++ x.1.now)) }
    // What is spelled so is read, unless memory is refused.
    ensures only { (tags : List Tag) (text rest : List ℕ) → IsTagList tags text → bytes.now ≡ text ++ rest →
        let read : Result (List Tag × List ℕ) TagFault = Ok (tags, rest) in Gives TagFault.NoMemory (λ x. (x.0.items, x.1.now)) result read }
    // Which fault it is.
    ensures exact { Gives TagFault.NoMemory (λ x. (x.0.items, x.1.now)) result (list_at end bytes.now) }
{
    read_list(alloc, bytes, end)
}

/// A count and as many tags.
#[tactic(auto, unfolding(crate::specs::Reading::list_at))]
fn read_list(alloc: Global, bytes: &[u8], end: usize) -> Result<(Vec<Tag>, &[u8]), TagFault>
    ensures { Gives TagFault.NoMemory (λ x. (x.0.items, x.1.now)) result (list_at end bytes.now) }
{
    let Ok((count, rest)) = read_u32(bytes) else {
        return Err(TagFault::Cut(end.saturating_sub(bytes.len())));
    };
    if count > TAG_LIMIT {
        return Err(TagFault::TooMany(count));
    }
    read_each(alloc, count, rest, end)
}
