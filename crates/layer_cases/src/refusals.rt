use fault::{Cause, Layer};
use std::process::Abort;

/// The place of the refusal, which has to be layer 1 with that number; nothing where there is none.
pub(crate) fn place<T: Drop, C: Cause + Drop>(
    rt: &impl Abort,
    number: u8,
    verdict: Result<T, C>,
) -> Option<u32> {
    let fault = verdict.err()?.fault();
    assert!(rt; fault.layer == Layer::Vocabulary && fault.number == number);
    Some(fault.place)
}
