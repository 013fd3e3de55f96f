// What a made book answers, and what is told of books: values worked out by hand.
use book::{BookFault, Kind, LawFault, LinesBook, MarksBook, check as check_book};
use report::{Untold, report_above, report_on, report_text};
use scale::Coded;
use std::test::Fail;
use vocabulary::{Lexicon, Vocabulary};

/// status/2, paused/1, suspended/1, ended/1, grid/0, mains/0, driver/0, c2/0.
const EIGHT: [u8; 192] = [
    0, 190, 1, 1, 8, 2, 6, 115, 116, 97, 116, 117, 115, 1, 6, 112, 97, 117, 115, 101, 100, 1, 9,
    115, 117, 115, 112, 101, 110, 100, 101, 100, 1, 5, 101, 110, 100, 101, 100, 0, 4, 103, 114,
    105, 100, 0, 5, 109, 97, 105, 110, 115, 0, 6, 100, 114, 105, 118, 101, 114, 0, 2, 99, 50, 3,
    232, 0, 0, 0, 0, 0, 0, 0, 0, 0, 0, 0, 0, 0, 0, 0, 0, 3, 232, 3, 32, 1, 44, 0, 0, 0, 0, 0, 0, 0,
    0, 0, 0, 3, 32, 3, 232, 1, 44, 0, 0, 0, 0, 0, 0, 0, 0, 0, 0, 1, 44, 1, 44, 3, 232, 0, 0, 0, 0,
    0, 0, 0, 0, 0, 0, 0, 0, 0, 0, 0, 0, 3, 232, 3, 132, 0, 0, 0, 0, 0, 0, 0, 0, 0, 0, 0, 0, 3, 132,
    3, 232, 0, 0, 0, 0, 0, 0, 0, 0, 0, 0, 0, 0, 0, 0, 0, 0, 3, 232, 0, 0, 0, 0, 0, 0, 0, 0, 0, 0,
    0, 0, 0, 0, 0, 0, 3, 232,
];

/// suspended and halted alike at 800, halted and finished at 800, suspended and finished at 300.
const HALTED: [u8; 52] = [
    0, 50, 1, 1, 3, 1, 9, 115, 117, 115, 112, 101, 110, 100, 101, 100, 1, 6, 104, 97, 108, 116,
    101, 100, 1, 8, 102, 105, 110, 105, 115, 104, 101, 100, 3, 232, 3, 32, 1, 44, 3, 32, 3, 232, 3,
    32, 1, 44, 3, 32, 3, 232,
];

/// Three words of lines: a and b alike at code 1, a and c at 2, b and c at 4.
const LINES: [u8; 32] = [
    0, 30, 1, 2, 3, 0, 1, 97, 0, 1, 98, 0, 1, 99, 255, 255, 0, 1, 0, 2, 0, 1, 255, 255, 0, 4, 0, 2,
    0, 4, 255, 255,
];

#[test]
fn words_of_the_eight(rt: HostRuntime) -> Result<(), Fail> {
    let Ok(Kind::Marks) = check_book(&EIGHT) else {
        return Err(Fail::new("refused"));
    };
    let book = MarksBook::new(&EIGHT);
    assert_eq!(rt; book.count(), 8);
    assert_eq!(rt; book.arity(0), Some(2));
    assert_eq!(rt; book.arity(3), Some(1));
    assert_eq!(rt; book.arity(7), Some(0));
    assert_eq!(rt; book.arity(8), None);
    assert_eq!(rt; book.word(b"mains"), Some(5));
    assert_eq!(rt; book.word(b"main"), None);
    assert_eq!(rt; book.spelling(7), Some(b"c2".as_slice()));
    assert_eq!(rt; book.spelling(8), None);
    Ok(())
}

#[test]
fn likenesses_of_the_eight(rt: HostRuntime) -> Result<(), Fail> {
    let Ok(Kind::Marks) = check_book(&EIGHT) else {
        return Err(Fail::new("refused"));
    };
    let book = MarksBook::new(&EIGHT);
    assert_eq!(rt; book.likeness(1, 2).code(), 800);
    assert_eq!(rt; book.likeness(2, 1).code(), 800);
    assert_eq!(rt; book.likeness(3, 2).code(), 300);
    assert_eq!(rt; book.likeness(4, 5).code(), 900);
    assert_eq!(rt; book.likeness(6, 6).code(), 1000);
    assert_eq!(rt; book.likeness(0, 7).code(), 0);
    assert_eq!(rt; book.likeness(8, 8).code(), 0);
    Ok(())
}

#[test]
fn likenesses_from_no_tree(rt: HostRuntime) -> Result<(), Fail> {
    let Ok(Kind::Lines) = check_book(&LINES) else {
        return Err(Fail::new("refused"));
    };
    let book = LinesBook::new(&LINES);
    assert_eq!(rt; book.likeness(0, 1).code(), 1);
    assert_eq!(rt; book.likeness(2, 0).code(), 2);
    assert_eq!(rt; book.likeness(2, 1).code(), 4);
    assert_eq!(rt; book.likeness(1, 1).code(), 65535);
    Ok(())
}

/// The text of a refusal, which has to be one.
fn refusal(told: Result<String, Untold>) -> Result<String, Fail> {
    match told {
        Err(Untold::Refused(text)) => Ok(text),
        Err(Untold::NoMemory(error)) => Err(error.into()),
        Ok(_) => Err(Fail::new("accepted")),
    }
}

#[test]
fn less_than_through_a_third(rt: HostRuntime) -> Result<(), Fail> {
    assert_eq!(rt;
        check_book(&HALTED),
        Err(BookFault::Law(LawFault::Transitivity(0, 1, 2)))
    );
    let text = refusal(report_on(rt.alloc(), &HALTED))?;
    assert_eq!(rt;
        text.as_str(),
        "fault 1 8 130\nsuspended and finished are alike at 300, less than through halted: 800.\n"
    );
    Ok(())
}

#[test]
fn told_above_a_floor(rt: HostRuntime) -> Result<(), Fail> {
    let none = refusal(report_above(rt.alloc(), &EIGHT, 1001))?;
    assert_eq!(rt;
        none.as_str(),
        "fault 1 4 0\nThe floor 1001 is no mark: marks go from 0 to 1000.\n"
    );
    let top = report_above(rt.alloc(), &LINES, 2)?;
    assert_eq!(rt;
        top.as_str(),
        "Words alike at lines 1 or more:\na, arguments: 0\n  alike to c at lines 1\nb, arguments: 0\nc, arguments: 0\n  alike to a at lines 1\n"
    );
    Ok(())
}

#[test]
fn told_of_a_text(rt: HostRuntime) -> Result<(), Fail> {
    assert!(rt; report_text(rt.alloc(), &EIGHT, "status(?1,paused(?2))").is_ok());
    let bad = refusal(report_text(rt.alloc(), &EIGHT, "paused(?100)"))?;
    assert_eq!(rt;
        bad.as_str(),
        "fault 2 13 10\npaused(?100)\n          ^\nno text can go on so\n"
    );
    Ok(())
}
