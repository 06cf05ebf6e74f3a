// Accounts of frames for people: lines of base-sixteen text, what each is, and how many there are.
#![tactic(auto)]

pub mod hex;
pub mod line;
pub mod show;
pub mod tally;

// Lines that memory suffices for.
#[cfg(test)]
mod tests {
    use crate::line::{LineError, read_line};
    use crate::tally::Sort;
    use frames::refusal::Refusal;
    use frames::types::RingSize;
    use std::test::Fail;

    #[test]
    fn lines_are_read(rt: HostRuntime) -> Result<(), Fail> {
        let size = RingSize::try_from(8)?;
        let nack = read_line(size, b"03 02 00 00 00 00 02", rt.alloc())?;
        assert_eq!(rt; Sort::from(nack), Sort::NackFrame);
        let short = read_line(size, b"03 02", rt.alloc())?;
        assert_eq!(rt; short.err(), Some(LineError::Refused(Refusal::NotAFrame)));
        let half = read_line(size, b"03 0", rt.alloc())?;
        assert_eq!(rt; half.err(), Some(LineError::NotHex));
        Ok(())
    }
}
