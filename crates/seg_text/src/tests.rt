use super::*;
use grid_core::{Memory, Name, Point};

#[test]
fn fields_of_lines(rt: HostRuntime) {
    for (line, from, want) in [
        (b"".as_slice(), 0, None),
        (b" \t ", 0, None),
        (b"a", 0, Some((0, 1))),
        (b"a", 1, None),
        (b"  12\tab ", 0, Some((2, 4))),
        (b"  12\tab ", 4, Some((5, 7))),
        (b"  12\tab ", 7, None),
        (b"  12\tab ", 3, Some((5, 7))),
        (b"12", 1, None),
        (b"\r \x0b", 0, Some((0, 1))),
        (b"\r \x0b", 1, Some((2, 3))),
    ] {
        assert!(rt; next_field(line, from) == want);
    }
}

#[test]
fn whole_numbers(rt: HostRuntime) {
    for (field, want) in [
        ("0", Some(0)),
        ("-0", Some(0)),
        ("-7", Some(-7)),
        ("0000000064", Some(64)),
        ("9999999999", Some(9_999_999_999)),
        ("-9999999999", Some(-9_999_999_999)),
        ("", None),
        ("-", None),
        ("+1", None),
        ("--1", None),
        ("1-", None),
        ("00000000001", None),
        ("-12345678901", None),
        ("99999999999999999999999999", None),
        ("1a", None),
        ("1 ", None),
        ("/", None),
        (":", None),
    ] {
        assert!(rt; whole(field.as_bytes()) == want, "{field}");
    }
}

#[test]
fn editors(rt: HostRuntime) {
    for (field, want) in [
        ("1", Some(1)),
        ("64", Some(64)),
        ("0000000064", Some(64)),
        ("00000000064", None),
        ("0", None),
        ("65", None),
        ("9999999999", None),
        ("-1", None),
        ("+1", None),
        ("", None),
        ("1.", None),
    ] {
        assert!(rt; editor(field.as_bytes()) == want, "{field}");
    }
}

#[test]
fn names(rt: HostRuntime) {
    for (field, want) in [
        ("1.1", Name::new(1, 1)),
        ("64.65535", Name::new(64, 65_535)),
        ("0000000064.0000065535", Name::new(64, 65_535)),
        ("1.0", None),
        ("0.1", None),
        ("65.1", None),
        ("1.65536", None),
        ("1.9999999999", None),
        ("1.00000000001", None),
        ("1", None),
        ("1.", None),
        (".1", None),
        ("1..1", None),
        ("1.1.1", None),
        ("1.-1", None),
        ("+1.1", None),
        ("1,1", None),
    ] {
        assert!(rt; name(field.as_bytes()) == want, "{field}");
    }
}

#[test]
fn numbers_there_and_back(rt: HostRuntime) -> Result<(), Memory> {
    let mut out = Vec::new(rt.alloc());
    for n in [0, 1, -1, 9_999_999_999, -9_999_999_999] {
        out.clear();
        push_whole(&mut out, i128::from(n))?;
        assert!(rt; whole(out.as_slice()) == Some(n));
    }
    for (n, want) in [
        (i128::MIN, "-170141183460469231731687303715884105728"),
        (i128::MAX, "170141183460469231731687303715884105727"),
        (i128::from(i64::MIN) - 1, "-9223372036854775809"),
    ] {
        out.clear();
        push_whole(&mut out, n)?;
        assert!(rt; out.as_slice() == want.as_bytes());
    }
    Ok(())
}

#[test]
fn names_there_and_back(rt: HostRuntime) -> Result<(), Memory> {
    let mut out = Vec::new(rt.alloc());
    for (editor, serial) in [(1, 1), (64, 65_535), (10, 10_000)] {
        let given = Name::new(editor, serial).expect(&rt, "a name");
        out.clear();
        push_name(&mut out, given)?;
        assert!(rt; name(out.as_slice()) == Some(given));
    }
    assert!(rt; out.as_slice() == b"10.10000".as_slice());
    Ok(())
}

#[test]
fn lists_behind_what_a_buffer_has(rt: HostRuntime) -> Result<(), Memory> {
    let mut out = Vec::from_slice(rt.alloc(), b"all")?;
    push_points(&mut out, &[Point { x: 0, y: -1 }, Point { x: 20, y: 3 }])?;
    let name = Name::new(2, 7).expect(&rt, "a name");
    push_names(&mut out, &[name, name])?;
    assert!(rt; out.as_slice() == b"all 0 -1 20 3 2.7 2.7".as_slice());
    Ok(())
}
