//! Links, faults, names and base 32, against outside vectors.

use super::*;
use std::alloc::Global;
use std::test::Fail;

/// The link of a file `abc` of three bytes.
const ABC: &str = "ed2k://|file|abc|3|A448017AAF21D8525FC10AE87AA6729D|/";

const HASH: [u8; 16] = [
    0xA4, 0x48, 0x01, 0x7A, 0xAF, 0x21, 0xD8, 0x52, 0x5F, 0xC1, 0x0A, 0xE8, 0x7A, 0xA6, 0x72, 0x9D,
];

/// The SHA-1 of `abc`, of FIPS 180-4.
const ROOT: [u8; 20] = [
    0xA9, 0x99, 0x3E, 0x36, 0x47, 0x06, 0x81, 0x6A, 0xBA, 0x3E, 0x25, 0x71, 0x78, 0x50, 0xC2, 0x6C,
    0x9C, 0xD0, 0xD8, 0x9D,
];

const LETTERS: &str = "VGMT4NSHA2AWVOR6EVYXQUGCNSONBWE5";

/// A link of the hash of `abc`, with this between the head and the hash, and behind the hash.
fn link(alloc: Global, front: &str, back: &str) -> Result<String, Fail> {
    Ok(format!(in alloc; "ed2k://|file|{front}|a448017aaf21d8525fc10ae87aa6729d{back}")?)
}

/// Each link that people paste, by what stands before and behind its hash, and the same of its
/// canonical form.
const READ: [(&str, &str, &str, &str); 18] = [
    ("abc|3", "|/", "abc|3", "|/"),
    (
        "My%20File.txt|3",
        "|h=vgmt4nsha2awvor6evyxqugcnsonbwe5|/",
        "My%20File.txt|3",
        "|h=VGMT4NSHA2AWVOR6EVYXQUGCNSONBWE5|/",
    ),
    ("My File.txt|3", "|/", "My%20File.txt|3", "|/"),
    ("caf\u{e9}~.avi|3", "|/", "caf%C3%A9~.avi|3", "|/"),
    ("caf%c3%a9|3", "|/", "caf%C3%A9|3", "|/"),
    ("a+b|3", "|/", "a%2Bb|3", "|/"),
    ("[x](1)-_.avi|3", "|/", "%5Bx%5D%281%29-_.avi|3", "|/"),
    ("100%|3", "|/", "100%25|3", "|/"),
    ("%4%zz|3", "|/", "%254%25zz|3", "|/"),
    ("a%7Cb%2F|3", "|/", "a%7Cb%2F|3", "|/"),
    ("abc|0003", "|/", "abc|3", "|/"),
    ("abc|4290048000", "|/", "abc|4290048000", "|/"),
    (
        "abc|3",
        "|p=a448017aaf21d8525fc10ae87aa6729d|/",
        "abc|3",
        "|p=A448017AAF21D8525FC10AE87AA6729D|/",
    ),
    (
        "abc|3",
        "|h=VGMT4NSHA2AWVOR6EVYXQUGCNSONBWE5|p=a448017aaf21d8525fc10ae87aa6729d:A448017AAF21D8525FC10AE87AA6729D|/",
        "abc|3",
        "|p=A448017AAF21D8525FC10AE87AA6729D:A448017AAF21D8525FC10AE87AA6729D|h=VGMT4NSHA2AWVOR6EVYXQUGCNSONBWE5|/",
    ),
    ("abc|3", "|/|sources,1.2.3.4:4662|/", "abc|3", "|/"),
    ("abc|3", "|s=http://example.org/abc|/", "abc|3", "|/"),
    ("abc|3", "|/x||/|h=1|p=1", "abc|3", "|/"),
    ("abc|3", "|/|", "abc|3", "|/"),
];

#[test]
fn reads_and_prints(rt: HostRuntime) -> Result<(), Fail> {
    let alloc = rt.alloc();
    for (front, back, canonical_front, canonical_back) in READ {
        let text = link(alloc, front, back)?;
        let read = parse_link(alloc, text.as_str())?;
        assert_eq!(rt; read.hash, HASH, "{text}");
        let printed = print_link(alloc, &read)?;
        let canonical = format!(in alloc;
            "ed2k://|file|{canonical_front}|A448017AAF21D8525FC10AE87AA6729D{canonical_back}"
        )?;
        assert_eq!(rt; printed.as_slice(), canonical.as_bytes(), "{text}");
    }
    Ok(())
}

#[test]
fn reads_each_field(rt: HostRuntime) -> Result<(), Fail> {
    let alloc = rt.alloc();
    let plain = parse_link(alloc, ABC)?;
    assert_eq!(rt; plain.name.as_slice(), b"abc".as_slice());
    assert_eq!(rt; plain.size, 3);
    assert!(rt; plain.parts.is_empty());
    assert_eq!(rt; plain.root, None);
    let text = link(
        alloc,
        "%61|734003200",
        "|p=A448017AAF21D8525FC10AE87AA6729D:a448017aaf21d8525fc10ae87aa6729d|h=VGMT4NSHA2AWVOR6EVYXQUGCNSONBWE5|/",
    )?;
    let whole = parse_link(alloc, text.as_str())?;
    assert_eq!(rt; whole.name.as_slice(), b"a".as_slice());
    assert_eq!(rt; whole.size, 734_003_200);
    assert!(rt; whole.parts.as_slice() == [HASH, HASH].as_slice());
    assert_eq!(rt; whole.root, Some(ROOT));
    Ok(())
}

/// Each refused link, by what stands before and behind its hash.
const REFUSED: [(&str, &str, LinkFault); 27] = [
    ("|3", "|/", LinkFault::BadName),
    ("%FF|3", "|/", LinkFault::BadName),
    ("%FF|0", "0|p=|h=", LinkFault::BadName),
    ("abc|0", "|/", LinkFault::BadSize),
    ("abc|", "|/", LinkFault::BadSize),
    ("abc|4290048001", "|/", LinkFault::BadSize),
    ("abc|18446744073709551619", "|/", LinkFault::BadSize),
    ("abc|99999999999999999999", "|/", LinkFault::BadSize),
    ("abc|000000000000000000003", "|/", LinkFault::BadSize),
    ("abc|3x", "|/", LinkFault::BadSize),
    ("abc|-3", "|/", LinkFault::BadSize),
    ("abc", "0|p=", LinkFault::BadSize),
    ("abc|3|", "|/", LinkFault::BadHash),
    ("abc|3", "0|/", LinkFault::BadHash),
    ("abc|3", "/", LinkFault::BadHash),
    ("abc|3", "|p=|/", LinkFault::BadParts),
    (
        "abc|3",
        "|p=A448017AAF21D8525FC10AE87AA6729|/",
        LinkFault::BadParts,
    ),
    (
        "abc|3",
        "|p=A448017AAF21D8525FC10AE87AA6729D:|/",
        LinkFault::BadParts,
    ),
    (
        "abc|3",
        "|p=A448017AAF21D8525FC10AE87AA6729D|p=A448017AAF21D8525FC10AE87AA6729D|/",
        LinkFault::BadParts,
    ),
    ("abc|3", "|h=1|p=1", LinkFault::BadParts),
    ("abc|3", "|h=|/", LinkFault::BadRoot),
    (
        "abc|3",
        "|h=VGMT4NSHA2AWVOR6EVYXQUGCNSONBWE1|/",
        LinkFault::BadRoot,
    ),
    (
        "abc|3",
        "|h=VGMT4NSHA2AWVOR6EVYXQUGCNSONBWE5|h=VGMT4NSHA2AWVOR6EVYXQUGCNSONBWE5|/",
        LinkFault::BadRoot,
    ),
    (
        "abc|3",
        "|h=VGMT4NSHA2AWVOR6EVYXQUGCNSONBWE5/",
        LinkFault::BadRoot,
    ),
    ("abc|3", "|", LinkFault::BadEnd),
    ("abc|3", "|/x", LinkFault::BadEnd),
    ("abc|3", "|/ ", LinkFault::BadEnd),
];

#[test]
fn refuses_with_the_first_fault(rt: HostRuntime) -> Result<(), Fail> {
    let alloc = rt.alloc();
    for (front, back, fault) in REFUSED {
        let text = link(alloc, front, back)?;
        assert_eq!(rt;
            parse_link(alloc, text.as_str()).err(),
            Some(fault),
            "{text}"
        );
    }
    Ok(())
}

#[test]
fn refuses_what_begins_otherwise(rt: HostRuntime) {
    let texts = [
        "",
        "abc",
        " ed2k://|file|abc|3|A448017AAF21D8525FC10AE87AA6729D|/",
        "ed2k://|FILE|abc|3|A448017AAF21D8525FC10AE87AA6729D|/",
        "ed2k://|server|1.2.3.4|4661|/",
        "ed2k://|file",
    ];
    for text in texts {
        assert_eq!(rt;
            parse_link(rt.alloc(), text).err(),
            Some(LinkFault::NotFile),
            "{text}"
        );
    }
}

#[test]
fn limits_the_name(rt: HostRuntime) -> Result<(), Fail> {
    let alloc = rt.alloc();
    let mut name = String::new(alloc);
    for _ in 0..NAME_LIMIT {
        name.push_str("%61")?;
    }
    let longest = link(alloc, format!(in alloc; "{name}|3")?.as_str(), "|/")?;
    assert_eq!(rt; parse_link(alloc, longest.as_str())?.name.len(), 1024);
    let longer = link(alloc, format!(in alloc; "{name}a|3")?.as_str(), "|/")?;
    assert_eq!(rt;
        parse_link(alloc, longer.as_str()).err(),
        Some(LinkFault::BadName)
    );
    Ok(())
}

#[test]
fn spells_roots(rt: HostRuntime) {
    // Letters from Python's base64.b32encode.
    let mut counted = [0u8; 20];
    for i in 0..20u8 {
        counted[i as usize] = i;
    }
    let rows: [([u8; 20], &str); 4] = [
        (ROOT, LETTERS),
        ([0; 20], "AAAAAAAAAAAAAAAAAAAAAAAAAAAAAAAA"),
        ([255; 20], "77777777777777777777777777777777"),
        (counted, "AAAQEAYEAUDAOCAJBIFQYDIOB4IBCEQT"),
    ];
    for (root, text) in rows {
        assert_eq!(rt; base32_encode(&root).as_slice(), text.as_bytes());
        assert_eq!(rt; base32_decode(text.as_bytes()), Some(root));
    }
    assert_eq!(rt;
        base32_decode(b"vgmt4nsha2awvor6evyxqugcnsonbwe5"),
        Some(ROOT)
    );
    assert_eq!(rt; base32_decode(b"vgmt4nsha2awvor6evyxqugcnsonbwe"), None);
    assert_eq!(rt; base32_decode(b"vgmt4nsha2awvor6evyxqugcnsonbwe5a"), None);
    assert_eq!(rt; base32_decode(b"vgmt4nsha2awvor6evyxqugcnsonbwe8"), None);
    assert_eq!(rt; base32_decode(b"vgmt4nsha2awvor6evyxqugcnsonbwe="), None);
}
