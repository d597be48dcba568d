//! Tags written, each in its one spelling.
ghost use Rattle.std.specs.Prelude.{◌≡◌, ◌++◌, IfOk, OnOk, OnErr, IsTrue};
ghost use Rattle.std.specs.Io.{StartsWith};
ghost use Rattle.std.specs.List.{list_all};
ghost use Rattle.ed2k_tags.specs.Spelling.{has_spelling, fits_value, value_type, spell_value, spell, spell_tags};

use crate::fields::{append_blob, append_low32, append_text, append_u32, append_u64};
use crate::tag::{Tag, Value};
use ed2k_outside::{Bytes, NoMemory};
use std::alloc::{AllocError, Global};

/// The spelling of a tag, which is one of those that [`crate::read_tags`] reads: its name with a length,
/// a text with a length, and a number in four bytes where it fits them, else in eight.
pub fn write_tag(alloc: Global, tag: &Tag) -> Result<Bytes, NoMemory>
    requires { IsTrue (has_spelling tag.now) }
    ensures { IfOk result (λ bytes. bytes ≡ spell tag.now) }
{
    let mut out = Vec::new(alloc);
    append_tag(&mut out, tag)?;
    Ok(Bytes::new(out))
}

/// Writes a count and as many tags at the end. It can be read where [`have_spelling`] is true of the
/// tags and they are at most `TAG_LIMIT`. Where memory is refused, what stood there is left at the front,
/// and a part of the tags may stand behind it.
pub fn append_tags(out: &mut Vec<u8>, tags: &[Tag]) -> Result<(), AllocError>
    ensures written { OnOk result (out.new.items ≡ out.old.items ++ spell_tags tags.now) }
    ensures refused { OnErr result (StartsWith out.new.items out.old.items) }
{
    append_low32(out, tags.len() as u64)?;
    for tag in tags {
        append_tag(out, tag)?;
    }
    Ok(())
}

/// True exactly where the lengths of each tag's name and value fit the fields before them.
pub fn have_spelling(tags: &[Tag]) -> bool
    ensures { result ≡ list_all has_spelling tags.now }
{
    tags.iter().all(has_spelling_of)
}

fn has_spelling_of(tag: &Tag) -> bool
    ensures { result ≡ has_spelling tag.now }
{
    tag.name.len() < 0x1_0000 && fits_its_field(&tag.value)
}

fn fits_its_field(value: &Value) -> bool
    ensures { result ≡ fits_value value.now }
{
    match value {
        Value::Text(text) => text.len() < 0x1_0000,
        Value::Blob(blob) => blob.len() < 0x1_0000_0000,
        _ => true,
    }
}

fn append_tag(out: &mut Vec<u8>, tag: &Tag) -> Result<(), AllocError>
    ensures written { OnOk result (out.new.items ≡ out.old.items ++ spell tag.now) }
    ensures refused { OnErr result (StartsWith out.new.items out.old.items) }
{
    out.push(type_of(&tag.value))?;
    append_text(out, tag.name.as_slice())?;
    append_value(out, &tag.value)
}

/// The type that a value is written with.
fn type_of(value: &Value) -> u8
    ensures { result ≡ value_type value.now }
{
    match value {
        Value::Id(_) => 0x01,
        Value::Text(_) => 0x02,
        Value::Number(number) if *number <= u64::from(u32::MAX) => 0x03,
        Value::Number(_) => 0x0B,
        Value::Raw4(_) => 0x04,
        Value::Blob(_) => 0x07,
    }
}

fn append_value(out: &mut Vec<u8>, value: &Value) -> Result<(), AllocError>
    ensures written { OnOk result (out.new.items ≡ out.old.items ++ spell_value value.now) }
    ensures refused { OnErr result (StartsWith out.new.items out.old.items) }
{
    match value {
        Value::Id(hash) => out.extend_from_slice(hash),
        Value::Text(text) => append_text(out, text.as_slice()),
        Value::Number(number) => match u32::try_from(*number) {
            Ok(small) => append_u32(out, small),
            Err(_) => append_u64(out, *number),
        },
        Value::Raw4(raw) => out.extend_from_slice(raw),
        Value::Blob(blob) => append_blob(out, blob.as_slice()),
    }
}
