//! The reasons for which a step is refused, by number and text.
use crate::PairError;
use std::test::Fail;

#[test]
fn each_error_has_its_number_and_its_text(rt: HostRuntime) -> Result<(), Fail> {
    for (error, number, text) in [
        (PairError::NoSuchPayload, 1, "no such payload"),
        (PairError::NoSuchFrame, 2, "no such frame"),
        (PairError::NotAccepted, 3, "a frame was not accepted"),
        (PairError::UnknownId, 4, "unknown stream id"),
        (PairError::OutOfMemory, 5, "out of memory"),
        (
            PairError::AlreadySettled,
            6,
            "the payload is already settled",
        ),
        (
            PairError::LimitsBelow,
            7,
            "a limit is below the one that was remembered",
        ),
        (PairError::Undecided, 8, "the early data is not decided"),
        (PairError::Decided, 9, "the early data is decided"),
    ] {
        let shown = format!(in rt.alloc(); "{error}")?;
        assert_eq!(rt; shown.as_str(), text);
        assert_eq!(rt; error.number(), number);
    }
    Ok(())
}
