use fault::{Fault, Layer};
use script::Answer;
use std::test::Fail;

#[test]
fn told(rt: HostRuntime) -> Result<(), Fail> {
    let fault = Fault {
        layer: Layer::Sheet,
        number: 23,
        place: 1048577,
    };
    let cases = [
        (Answer::Row(0), "row 0"),
        (Answer::Row(511), "row 511"),
        (Answer::Done, "ok"),
        (Answer::Mark(8, 1), "mark 8 1"),
        (Answer::Degree(65535), "degree 65535"),
        (Answer::Refused(fault), "fault 4 23 1048577"),
        (Answer::Unknown, "unknown line"),
    ];
    for (answer, line) in cases {
        let told = format!(in rt.alloc(); "{answer}")?;
        assert_eq!(rt; told.as_str(), line);
    }
    Ok(())
}
