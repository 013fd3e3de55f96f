use crate::trees::{lines, marks};
use layers::Floor;
use scale::{Coded, offered};
use std::test::Fail;
use vocabulary::Vocabulary;

#[test]
fn a_floor_on_marks(rt: HostRuntime) -> Result<(), Fail> {
    // 600 stays at a floor of 600 and falls at 601; 900 stays at both
    let cases = [
        (600, 2, 3, 600),
        (601, 2, 3, 0),
        (600, 2, 1, 900),
        (601, 2, 1, 900),
        (1000, 2, 2, 1000),
        (0, 2, 5, 0),
    ];
    for (floor, f, g, mark) in cases {
        let floor = Floor::new(marks()?, offered::<scale::Mark>(floor)?);
        assert_eq!(rt; floor.likeness(f, g).code(), mark);
    }
    Ok(())
}

#[test]
fn a_floor_on_lines(rt: HostRuntime) -> Result<(), Fail> {
    // 2 and 4 are not comparable: neither is at least the other; 6 is at least both
    let cases = [
        (2, 2, 3, 2),
        (4, 2, 3, 0),
        (6, 2, 3, 0),
        (4, 2, 0, 6),
        (2, 2, 0, 6),
        (6, 2, 0, 6),
        (65535, 1, 1, 65535),
        (0, 2, 3, 2),
    ];
    for (floor, f, g, set) in cases {
        let floor = Floor::new(lines()?, offered::<scale::Lines>(floor)?);
        assert_eq!(rt; floor.likeness(f, g).code(), set);
    }
    Ok(())
}

#[test]
fn a_floor_changes_no_word(rt: HostRuntime) -> Result<(), Fail> {
    let floor = Floor::new(marks()?, offered::<scale::Mark>(1000)?);
    assert_eq!(rt; floor.count(), 6);
    assert_eq!(rt; floor.arity(3), Some(1));
    assert_eq!(rt; floor.arity(6), None);
    Ok(())
}
