use crate::letters::Letters;
use fault::{Fault, Layer};
use std::test::Fail;
use text::{TextFault, check_text};

/// The arities of a, b, c and d; e and f are spelled, and no words of the vocabulary.
const ARITIES: [u8; 4] = [2, 1, 0, 0];

fn verdict(text: &[u8]) -> Result<(), TextFault> {
    check_text(text, &Letters, &ARITIES)
}

#[test]
fn accepted(rt: HostRuntime) {
    let texts: [&[u8]; 8] = [
        b"c",
        b"?0",
        b"?7",
        b"?10",
        b"?99",
        b"b(c)",
        b"a(c,?10)",
        b"a(b(?1),a(d,?1))",
    ];
    for text in texts {
        assert_eq!(rt; verdict(text), Ok(()));
    }
}

#[test]
fn empty(rt: HostRuntime) {
    assert_eq!(rt; verdict(b""), Err(TextFault::Empty));
}

#[test]
fn ungrammatical(rt: HostRuntime) {
    let cases: [(&[u8], u32); 24] = [
        (b"?", 1),
        (b"?x", 1),
        (b"?05", 2),
        (b"?100", 3),
        (b"?1(", 2),
        (b"a()", 2),
        (b"a(", 2),
        (b"a(b", 3),
        (b"a(b,", 4),
        (b"a(b,)", 4),
        (b"a(,b)", 2),
        (b"a,b", 1),
        (b"a)", 1),
        (b"a(b))", 4),
        (b"a(b?x", 3),
        (b"a(?x", 3),
        (b"a(b)c", 4),
        (b" a", 0),
        (b"a b", 1),
        (b"A", 0),
        (b"-a", 0),
        (b"a(b\xff)", 3),
        (b"\x00", 0),
        (b"abcdefghijklmnopq", 16),
    ];
    for (text, place) in cases {
        assert_eq!(rt; verdict(text), Err(TextFault::NoText(place)));
    }
}

#[test]
fn unknown(rt: HostRuntime) {
    let cases: [(&[u8], u32); 8] = [
        (b"x", 0),
        (b"e", 0),
        (b"cc", 0),
        (b"c-1", 0),
        (b"abcdefghijklmnop", 0),
        (b"a(x,y)", 2),
        (b"b(c,x)", 4),
        (b"a(b(?1),f)", 8),
    ];
    for (text, place) in cases {
        assert_eq!(rt; verdict(text), Err(TextFault::UnknownWord(place)));
    }
}

#[test]
fn wrong_arguments(rt: HostRuntime) {
    let cases: [(&[u8], u32); 8] = [
        (b"a", 0),
        (b"a(c)", 0),
        (b"a(c,c,c)", 0),
        (b"c(?1)", 0),
        (b"b(a(c))", 2),
        (b"a(b,b)", 2),
        (b"a(c(c))", 0),
        (b"b(a(c,c(d)))", 6),
    ];
    for (text, place) in cases {
        assert_eq!(rt; verdict(text), Err(TextFault::WrongArguments(place)));
    }
}

#[test]
fn told(rt: HostRuntime) {
    assert_eq!(rt;
        TextFault::NoText(3).fault(Layer::Message),
        Fault {
            layer: Layer::Message,
            number: 13,
            place: 3,
        }
    );
    assert_eq!(rt;
        TextFault::TooLong.fault(Layer::Sentence),
        Fault {
            layer: Layer::Sentence,
            number: 11,
            place: 0,
        }
    );
}

#[test]
fn printed(rt: HostRuntime) -> Result<(), Fail> {
    let fault = TextFault::UnknownWord(7);
    let told = format!(in rt.alloc(); "{fault}")?;
    assert_eq!(rt; told.as_str(), "there is no such word");
    Ok(())
}
