use crate::letters::Letters;
use std::alloc::Global;
use std::test::Fail;
use text::{TextFault, check_text};

/// So many times `b(`, then `c`, then as many `)`.
fn nested(heap: Global, depth: usize) -> Result<String, Fail> {
    let opening = "b(".repeat(heap, depth)?;
    let closing = ")".repeat(heap, depth)?;
    Ok(format!(in heap; "{opening}c{closing}")?)
}

/// Five times `)`, then so many times `(`.
fn closed_first(heap: Global, depth: usize) -> Result<String, Fail> {
    let opening = "(".repeat(heap, depth)?;
    Ok(format!(in heap; "))))){opening}")?)
}

#[test]
fn brackets(rt: HostRuntime) -> Result<(), Fail> {
    let arities = [2, 1, 0];
    let deepest = nested(rt.alloc(), 31)?;
    assert_eq!(rt; check_text(deepest.as_bytes(), &Letters, &arities), Ok(()));
    // the 32nd `(` stands behind 31 times `b(` and `b`
    let deeper = nested(rt.alloc(), 32)?;
    assert_eq!(rt;
        check_text(deeper.as_bytes(), &Letters, &arities),
        Err(TextFault::TooDeep(63))
    );
    // 36 less 5 are 31
    let even = closed_first(rt.alloc(), 36)?;
    assert_eq!(rt;
        check_text(even.as_bytes(), &Letters, &arities),
        Err(TextFault::NoText(0))
    );
    // the 37th stands at 5 and 36
    let odd = closed_first(rt.alloc(), 37)?;
    assert_eq!(rt;
        check_text(odd.as_bytes(), &Letters, &arities),
        Err(TextFault::TooDeep(41))
    );
    Ok(())
}

/// `a` of 46 times `b` of 43 times `c`: each `b(..)` has 2 + 43 + 42 + 1 = 88 bytes,
/// and all have 2 + 46 * 88 + 45 + 1 = 4096.
fn longest(heap: Global) -> Result<String, Fail> {
    let others = ",c".repeat(heap, 42)?;
    let first = format!(in heap; "b(c{others})")?;
    let next = format!(in heap; ",{first}")?;
    let more = next.repeat(heap, 45)?;
    Ok(format!(in heap; "a({first}{more})")?)
}

#[test]
fn bytes(rt: HostRuntime) -> Result<(), Fail> {
    let mut text = longest(rt.alloc())?;
    assert_eq!(rt; text.len(), 4096);
    assert_eq!(rt; check_text(text.as_bytes(), &Letters, &[46, 43, 0]), Ok(()));
    assert_eq!(rt;
        check_text(text.as_bytes(), &Letters, &[46, 42, 0]),
        Err(TextFault::WrongArguments(2))
    );
    text.push('x')?;
    assert_eq!(rt;
        check_text(text.as_bytes(), &Letters, &[46, 43, 0]),
        Err(TextFault::TooLong)
    );
    Ok(())
}
