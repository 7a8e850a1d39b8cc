//! Names as texts and as bits. What is not as it is to be ends the test.

use chorus_ui::Ui;
use std::alloc::Global;
use std::process::Abort;

/// Asserts that what was written of a name behind two bytes is this text.
fn assert_written(rt: &impl Abort, out: &[u8], text: &[u8]) {
    assert!(rt; out.len() >= 2 && &out[2..] == text);
}

/// Asserts that the name appends exactly this text behind the bytes that are there.
fn assert_name_written(rt: &impl Abort, alloc: Global, name: Ui, text: &[u8]) {
    let mut out = Vec::from_slice(alloc, b"> ").expect(rt, "memory");
    name.text(&mut out).expect(rt, "memory");
    assert_written(rt, out.as_slice(), text);
}

/// Asserts that the name packs into these 64 bits, and that they unpack into it again.
fn assert_bits(rt: &impl Abort, name: Ui, bits: u64) {
    assert!(rt; name.bits() == bits);
    assert!(rt; Ui::of_bits(bits) == Some(name));
}

/// A name is parsed from one text, packed into 64 bits, and written back, up to the greatest site and number.
#[test]
fn names_are_parsed_one_way(rt: HostRuntime) {
    let names: [(&[u8], u64); 3] = [
        (b"2.p.7", 565_148_976_676_871),
        (b"1.a.1", 0x0001_01_0000000001),
        (b"65535.g.1099511627775", 0xffff_03_ffffffffff),
    ];
    for (text, bits) in names {
        let name = Ui::parse(text).expect(&rt, "a name that has this text");
        assert_bits(&rt, name, bits);
        assert_name_written(&rt, rt.alloc(), name, text);
    }
    // a zero, a leading zero, too great, an unknown kind, or empty
    let no_names: [&[u8]; 7] = [
        b"0.p.1",
        b"1.p.0",
        b"1.p.01",
        b"65536.a.1",
        b"1.x.1",
        b"1.p.1099511627776",
        b"",
    ];
    for text in no_names {
        assert!(rt; Ui::parse(text).is_none());
    }
}
