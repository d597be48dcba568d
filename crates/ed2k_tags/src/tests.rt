//! Lists of tags by their bytes, and each fault.
ghost use Rattle.std.specs.Prelude.{◌≡◌, IfOk};

use super::*;
use std::alloc::Global;
use std::test::Fail;

/// A short name with a text, and a short name with a number of one byte.
const TWO_TAGS: [u8; 14] = [
    0x02, 0, 0, 0, 0x82, 0x01, 0x03, 0, 0x61, 0x62, 0x63, 0x89, 0x02, 0x05,
];

#[test]
fn reads_two_tags(rt: HostRuntime) -> Result<(), Fail> {
    let (tags, place) = read_tags(rt.alloc(), &TWO_TAGS, 0)?;
    assert_eq!(rt; place, 14);
    assert_eq!(rt; tags.len(), 2);
    assert_eq!(rt; tags[0].name.as_slice(), &[1][..]);
    assert!(rt;
        matches!(&tags[0].value, Value::Text(text) if text.as_slice() == b"abc".as_slice())
    );
    assert_eq!(rt; tags[1].name.as_slice(), &[2][..]);
    assert!(rt; matches!(tags[1].value, Value::Number(5)));
    Ok(())
}

#[test]
fn reads_a_blob(rt: HostRuntime) -> Result<(), Fail> {
    let bytes = [1, 0, 0, 0, 0x87, 0x35, 2, 0, 0, 0, 0x61, 0x62];
    let (tags, place) = read_tags(rt.alloc(), &bytes, 0)?;
    assert_eq!(rt; place, 12);
    assert_eq!(rt; tags.len(), 1);
    assert_eq!(rt; tags[0].name.as_slice(), &[0x35][..]);
    assert!(rt; matches!(&tags[0].value, Value::Blob(blob) if blob.as_slice() == b"ab".as_slice()));
    Ok(())
}

#[test]
fn names_the_first_fault(rt: HostRuntime) -> Result<(), Fail> {
    let rows: [(&[u8], usize, TagFault); 9] = [
        (&TWO_TAGS[..13], 0, TagFault::Cut(11)),
        (&TWO_TAGS[..10], 0, TagFault::Cut(4)),
        (&TWO_TAGS[..3], 0, TagFault::Cut(0)),
        (&TWO_TAGS[..4], 0, TagFault::Cut(4)),
        (&TWO_TAGS, 14, TagFault::Cut(14)),
        (&[1, 4, 0, 0], 0, TagFault::TooMany(1_025)),
        (&[1, 0, 0, 0, 5], 0, TagFault::BadType(5)),
        (&[1, 0, 0, 0, 0x85], 0, TagFault::BadType(5)),
        (&[9, 9, 1, 0, 0, 0, 3, 1, 0, 0x11, 1], 2, TagFault::Cut(6)),
    ];
    for (bytes, at, fault) in rows {
        if at <= bytes.len() {
            assert_eq!(rt; read_tags(rt.alloc(), bytes, at).err(), Some(fault));
        }
    }
    Ok(())
}

fn tag_of(alloc: Global, name: &[u8], value: Value) -> Result<Tag, Fail>
    ensures { IfOk result (λ tag. tag ≡ record { name = name.now; value = value }) }
{
    let name = TagName::copied(alloc, name)?;
    Ok(Tag { name, value })
}

#[test]
fn writes_in_one_spelling(rt: HostRuntime) -> Result<(), Fail> {
    let version = tag_of(rt.alloc(), &[0x11], Value::Number(60))?;
    assert_eq!(rt;
        write_tag(rt.alloc(), &version)?.as_slice(),
        &[3, 1, 0, 0x11, 0x3C, 0, 0, 0][..]
    );
    let large = tag_of(rt.alloc(), &[2], Value::Number(1 << 32))?;
    assert_eq!(rt;
        write_tag(rt.alloc(), &large)?.as_slice(),
        &[0x0B, 1, 0, 2, 0, 0, 0, 0, 1, 0, 0, 0][..]
    );
    Ok(())
}
