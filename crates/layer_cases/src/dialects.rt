use crate::refusals::place;
use crate::trees::marks;
use book::{Kind, MarksBook, check as check_book};
use layers::{Dialect, DialectFault, check_dialect};
use scale::{Coded, offered};
use stack::{book_likeness, tree_stack};
use std::test::Fail;
use vocabulary::Vocabulary;

#[test]
fn two_words_for_one(rt: HostRuntime) -> Result<(), Fail> {
    let tree = marks()?;
    let entries = [2, 3, 2, 4];
    check_dialect(&tree, &entries)?;
    let dialect = Dialect::new(tree, &entries);
    assert_eq!(rt; dialect.count(), 4);
    assert_eq!(rt; dialect.arity(1), Some(1));
    assert_eq!(rt; dialect.arity(3), Some(0));
    assert_eq!(rt; dialect.arity(4), None);
    let cases = [
        (0, 2, 1000),
        (0, 1, 600),
        (1, 2, 600),
        (3, 3, 1000),
        (3, 0, 0),
        (4, 0, 0),
        (0, 5, 0),
    ];
    for (f, g, mark) in cases {
        assert_eq!(rt; dialect.likeness(f, g).code(), mark);
    }
    Ok(())
}

#[test]
fn refusals_of_entries(rt: HostRuntime) -> Result<(), Fail> {
    let tree = marks()?;
    assert_eq!(rt; place(&rt, 10, check_dialect(&tree, &[])), Some(0));
    assert_eq!(rt; place(&rt, 10, check_dialect(&tree, &[5; 129])), Some(0));
    assert_eq!(rt; place(&rt, 10, check_dialect(&tree, &[5; 128])), None);
    assert_eq!(rt; place(&rt, 10, check_dialect(&tree, &[6, 0])), Some(0));
    assert_eq!(rt;
        place(&rt, 10, check_dialect(&tree, &[0, 5, 6, 700])),
        Some(32768)
    );
    Ok(())
}

#[test]
fn the_layers_together(rt: HostRuntime) -> Result<(), Fail> {
    // word 1 under 0 on lines 0, 1, 2; word 2 under 1 on 1, 2; word 3 under 0 on 1, 3; a floor of line 2
    let dialect = tree_stack(
        &[0, 0, 0, 0],
        &[0, 0, 1, 0],
        &[65535, 7, 6, 10],
        offered::<scale::Lines>(4)?,
        &[3, 2, 0, 2],
    )?;
    assert_eq!(rt; dialect.count(), 4);
    assert_eq!(rt; dialect.arity(0), Some(0));
    // words 2 and 3 below share line 1 alone, words 2 and 0 below lines 1 and 2
    let cases = [
        (0, 1, 0),
        (1, 2, 6),
        (1, 3, 65535),
        (0, 2, 0),
        (0, 0, 65535),
        (4, 1, 0),
    ];
    for (f, g, set) in cases {
        assert_eq!(rt; dialect.likeness(f, g).code(), set);
    }
    Ok(())
}

#[test]
fn refusals_of_the_layers(rt: HostRuntime) -> Result<(), Fail> {
    let floor = offered::<scale::Lines>(0)?;
    let no_tree = tree_stack(&[0, 1], &[0, 0], &[0, 0], floor, &[9]);
    assert_eq!(rt; place(&rt, 9, no_tree), Some(16384));
    let no_dialect = tree_stack(&[0, 1], &[0, 1], &[0, 0], floor, &[1, 2]);
    assert_eq!(rt; place(&rt, 10, no_dialect), Some(16384));
    Ok(())
}

/// Words a/0 and b/0, alike at 800.
const BOOK: [u8; 19] = [
    0, 17, 1, 1, 2, 0, 1, b'a', 0, 1, b'b', 3, 232, 3, 32, 3, 32, 3, 232,
];

#[test]
fn over_a_book(rt: HostRuntime) -> Result<(), Fail> {
    let Ok(Kind::Marks) = check_book(&BOOK) else {
        return Err(Fail::new("no book of marks"));
    };
    let book = MarksBook::new(&BOOK);
    // b, a and b again; 800 stays at a floor of 800 and falls at 801
    let cases = [
        (800, 0, 1, 800),
        (801, 0, 1, 0),
        (801, 0, 2, 1000),
        (0, 1, 2, 800),
        (0, 3, 0, 0),
    ];
    for (floor, f, g, mark) in cases {
        let likeness = book_likeness(book, offered::<scale::Mark>(floor)?, &[1, 0, 1], f, g)?;
        assert_eq!(rt; likeness.code(), mark);
    }
    assert_eq!(rt;
        book_likeness(book, offered::<scale::Mark>(0)?, &[0, 2], 0, 0),
        Err(DialectFault::Entry(1))
    );
    Ok(())
}
