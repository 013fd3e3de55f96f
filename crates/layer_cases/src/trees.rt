use crate::refusals::place;
use scale::{Coded, Lines, Mark};
use std::test::Fail;
use tree::{Tree, TreeFault, check_tree};
use vocabulary::Vocabulary;

/// Word 1 under 0 at 700, words 2 and 3 under 1 at 900 and 600; words 4 and 5 alone.
pub(crate) fn marks() -> Result<Tree<Mark>, TreeFault> {
    let arities = [1, 1, 1, 1, 0, 1];
    let parents = [0, 0, 1, 1, 4, 5];
    let codes = [0, 700, 900, 600, 0, 1000];
    check_tree::<Mark>(&arities, &parents, &codes)?;
    Ok(Tree::new(&arities, &parents, &codes))
}

/// Word 1 under 0 on lines 0, 1, 2, word 2 under 1 on lines 1, 2, word 3 under 0 on lines 1, 3.
pub(crate) fn lines() -> Result<Tree<Lines>, TreeFault> {
    let arities = [0, 0, 0, 0];
    let parents = [0, 0, 1, 0];
    let codes = [65535, 7, 6, 10];
    check_tree::<Lines>(&arities, &parents, &codes)?;
    Ok(Tree::new(&arities, &parents, &codes))
}

#[test]
fn marks_on_the_path(rt: HostRuntime) -> Result<(), Fail> {
    let tree = marks()?;
    let cases = [
        // they meet at word 1, in the middle: 900 and 600, and not 700
        (2, 3, 600),
        (3, 2, 600),
        (2, 1, 900),
        (2, 0, 700),
        (0, 3, 600),
        // a word with itself, a root too
        (3, 3, 1000),
        (0, 0, 1000),
        // different trees, of one arity and of two
        (2, 5, 0),
        (0, 5, 0),
        (4, 0, 0),
        // no words
        (6, 0, 0),
        (3, 300, 0),
        (6, 6, 0),
    ];
    for (f, g, mark) in cases {
        assert_eq!(rt; tree.likeness(f, g).code(), mark);
    }
    Ok(())
}

#[test]
fn lines_on_the_path(rt: HostRuntime) -> Result<(), Fail> {
    let tree = lines()?;
    let cases = [
        (2, 3, 2),
        (1, 3, 2),
        (2, 0, 6),
        (1, 2, 6),
        (0, 1, 7),
        (3, 0, 10),
        (2, 2, 65535),
        (4, 0, 0),
    ];
    for (f, g, set) in cases {
        assert_eq!(rt; tree.likeness(f, g).code(), set);
    }
    Ok(())
}

#[test]
fn counts_and_arities(rt: HostRuntime) -> Result<(), Fail> {
    let tree = marks()?;
    assert_eq!(rt; tree.count(), 6);
    assert_eq!(rt; tree.arity(3), Some(1));
    assert_eq!(rt; tree.arity(4), Some(0));
    assert_eq!(rt; tree.arity(6), None);
    Ok(())
}

#[test]
fn refusals_of_lists(rt: HostRuntime) -> Result<(), Fail> {
    assert_eq!(rt;
        place(&rt, 9, check_tree::<Mark>(&[0, 0], &[0], &[0, 0])),
        Some(0)
    );
    assert_eq!(rt;
        place(&rt, 9, check_tree::<Mark>(&[0], &[0], &[0, 0])),
        Some(0)
    );
    assert_eq!(rt; place(&rt, 9, check_tree::<Mark>(&[], &[], &[])), Some(0));
    assert_eq!(rt;
        place(&rt, 9, check_tree::<Mark>(&[0; 129], &[0; 129], &[0; 129])),
        Some(0)
    );
    assert_eq!(rt;
        place(&rt, 9, check_tree::<Mark>(&[0; 128], &[0; 128], &[0; 128])),
        None
    );
    Ok(())
}

#[test]
fn refusals_of_words(rt: HostRuntime) -> Result<(), Fail> {
    // an arity above 6
    assert_eq!(rt;
        place(&rt, 9, check_tree::<Mark>(&[6, 7], &[0, 1], &[0, 0])),
        Some(16384)
    );
    assert_eq!(rt;
        place(&rt, 9, check_tree::<Mark>(&[6, 6], &[0, 1], &[0, 0])),
        None
    );
    // a higher parent, one of another arity, one that is no word
    assert_eq!(rt;
        place(&rt, 9, check_tree::<Mark>(&[0, 0], &[1, 1], &[0, 0])),
        Some(0)
    );
    assert_eq!(rt;
        place(
            &rt,
            9,
            check_tree::<Mark>(&[0, 0, 1], &[0, 0, 1], &[0, 0, 0])
        ),
        Some(32768)
    );
    assert_eq!(rt;
        place(
            &rt,
            9,
            check_tree::<Mark>(&[0, 0, 0], &[0, 1, 200], &[0, 0, 0])
        ),
        Some(32768)
    );
    // no code of a mark, at a root too; every number is the code of a set of lines
    assert_eq!(rt;
        place(&rt, 9, check_tree::<Mark>(&[0, 0], &[0, 0], &[0, 1001])),
        Some(16384)
    );
    assert_eq!(rt;
        place(
            &rt,
            9,
            check_tree::<Mark>(&[0, 0, 0], &[0, 1, 2], &[0, 0, 1001])
        ),
        Some(32768)
    );
    assert_eq!(rt;
        place(&rt, 9, check_tree::<Lines>(&[0, 0], &[0, 0], &[0, 1001])),
        None
    );
    // the lowest word, whatever is wrong with it
    assert_eq!(rt;
        place(
            &rt,
            9,
            check_tree::<Mark>(&[0, 0, 7], &[0, 0, 0], &[0, 1001, 0])
        ),
        Some(16384)
    );
    Ok(())
}
