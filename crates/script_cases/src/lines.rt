use script::{Line, next_number, numbers, parse_line};
use std::test::Fail;

#[test]
fn asked(rt: HostRuntime) {
    let cases: [(&[u8], Line); 14] = [
        (b"variable 7", Line::Variable(7)),
        (b"variable 65535", Line::Variable(65535)),
        (b"compose 4", Line::Compose(4, b"")),
        (b"compose 0 3 12", Line::Compose(0, b" 3 12")),
        (b"read grid", Line::Read(b"grid")),
        (b"read ", Line::Read(b"")),
        (b"read  a b ", Line::Read(b" a b ")),
        (b"equate 3 7", Line::Equate(3, 7)),
        (b"equate 0 0", Line::Equate(0, 0)),
        (b"back 8 1", Line::Back(8, 1)),
        (b"mark", Line::Mark),
        (b"degree", Line::Degree),
        (b"resolve 0", Line::Resolve(0)),
        (b"resolve 511", Line::Resolve(511)),
    ];
    for (line, expected) in cases {
        assert_eq!(rt; parse_line(line), Some(expected));
    }
}

#[test]
fn unknown(rt: HostRuntime) {
    let lines: [&[u8]; 26] = [
        b"",
        b" ",
        b"Mark",
        b"mark ",
        b" mark",
        b"marks",
        b"degree 1",
        b"read",
        b"reading x",
        b"variable",
        b"variable ",
        b"variable x",
        b"variable 1 2",
        b"variable  1",
        b"variable 1 ",
        b"variable 01",
        b"variable 00",
        b"variable +1",
        b"variable -1",
        b"variable 65536",
        b"variable 99999999999999999999999",
        b"compose",
        b"compose 1  2",
        b"equate 1",
        b"equate 1 2 3",
        b"resolve\xff",
    ];
    for line in lines {
        assert_eq!(rt; parse_line(line), None);
    }
}

#[test]
fn rows(rt: HostRuntime) -> Result<(), Fail> {
    let rows = numbers(rt.alloc(), b" 3 12 0")?;
    assert_eq!(rt; rows.as_slice(), [3, 12, 0].as_slice());
    let none = numbers(rt.alloc(), b"")?;
    assert!(rt; none.is_empty());
    assert!(rt; next_number(b"3").is_none());
    let Some((n, rest)) = next_number(b" 65535 1") else {
        return Err(Fail::new("no number"));
    };
    assert_eq!(rt; n, 65535);
    assert_eq!(rt; rest.len(), 2);
    Ok(())
}
