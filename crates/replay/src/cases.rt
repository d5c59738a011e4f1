// The cases of a file, one after another, and what comes of them.
use crate::calls::Call;
use crate::fault::Fault;
use crate::vanillas::Kind;
use crate::words::Reader;
use crate::{exponentials, scalar, traces, vanillas, vix_calls};
use std::alloc::{AllocError, Global};
use std::fmt;

// The first word of a file.
const MARK: [u8; 8] = *b"QRHCASE1";

// A case: its call, and the words of its inputs and its outcome.
#[derive(Clone, Copy)]
pub(crate) struct Case<'a> {
    call: Call,
    words: Reader<'a>,
}

// The cases of a whole file: its mark, their number, and that many cases.
pub(crate) fn cases(alloc: Global, file: &[u8]) -> Result<Vec<Case<'_>>, Fault> {
    let mut words = Reader::new(file)?;
    if words.bytes()? != MARK {
        return Err(Fault::Damaged);
    }
    let mut cases = Vec::new(alloc);
    for _ in 0..words.word()? {
        cases.push(Case::read(&mut words)?)?;
    }
    words.ends()?;
    Ok(cases)
}

impl<'a> Case<'a> {
    // The call is the word after the number of words: of a case of none, that of the next case.
    fn read(file: &mut Reader<'a>) -> Result<Case<'a>, Fault> {
        let mut words = file.list()?;
        let mut next = *file;
        let call = words.word().or(next.word())?;
        let call = Call::try_from(call)?;
        Ok(Case { call, words })
    }

    // The case comes out as recorded, and has no words beyond its outcome.
    fn replay(&self, alloc: Global) -> Result<(), Fault> {
        let mut words = self.words;
        let case = &mut words;
        match self.call {
            Call::Convert => scalar::convert(case),
            Call::SquareRoot => scalar::square_root(case),
            Call::Trace => traces::replay(case, alloc),
            Call::VixEvaluation => vix_calls::evaluation(case, alloc),
            Call::VixBatch => vix_calls::batch(case, alloc),
            Call::Exponential => exponentials::replay(case, alloc),
            Call::Vanilla => vanillas::replay(case, alloc, Kind::Vanilla, false),
            Call::Mirrored => vanillas::replay(case, alloc, Kind::Vanilla, true),
            Call::DownAndOut => vanillas::replay(case, alloc, Kind::DownAndOut, false),
            Call::MirroredDownAndOut => vanillas::replay(case, alloc, Kind::DownAndOut, true),
        }?;
        words.ends()
    }

    fn differs(&self, alloc: Global) -> Result<bool, AllocError> {
        match self.replay(alloc) {
            Ok(()) => Ok(false),
            Err(Fault::OutOfMemory(error)) => Err(error),
            Err(_) => Ok(true),
        }
    }
}

// What came of the cases of one call: how many there are, and which of them differ from the record,
// counted from 1 over all cases of the file.
#[derive(Drop)]
pub(crate) struct Tally {
    cases: usize,
    different: Vec<usize>,
}

impl Tally {
    // Runs the cases of one call.
    pub(crate) fn of(alloc: Global, cases: &[Case<'_>], call: Call) -> Result<Tally, AllocError> {
        let mut different = Vec::new(alloc);
        for (i, case) in cases.iter().enumerate() {
            if case.call == call && case.differs(alloc)? {
                different.push(i + 1)?;
            }
        }
        let cases = cases.iter().filter(|case| case.call == call).count();
        Ok(Tally { cases, different })
    }
}

impl fmt::Display for Tally {
    fn fmt<W: fmt::Write>(&self, f: &mut fmt::Formatter<W>) -> fmt::Result {
        let cases = self.cases;
        match self.different.first() {
            None => write!(f, "{cases} cases, none differs"),
            Some(first) => {
                let count = self.different.len();
                write!(
                    f,
                    "{cases} cases, {count} differ, the first is case {first}"
                )
            }
        }
    }
}

#[cfg(test)]
mod tests {
    use super::*;
    use std::num::f64_to_bits_with_nan;
    use std::test::Fail;

    // A file of these words after its mark.
    fn file_of(alloc: Global, words: &[u64]) -> Result<Vec<u8>, AllocError> {
        let mut file = Vec::new(alloc);
        file.extend_from_slice(&MARK)?;
        for word in words {
            file.extend_from_slice(&word.to_le_bytes())?;
        }
        Ok(file)
    }

    // A file of one case: the square root of 4.
    fn file_with(alloc: Global, root: f64) -> Result<Vec<u8>, AllocError> {
        let four = f64_to_bits_with_nan(4.0);
        let root = f64_to_bits_with_nan(root);
        file_of(alloc, &[1, 8, 2, four, 0, 0, 0, 0, 0, root])
    }

    fn report_of(alloc: Global, file: &[u8], call: Call) -> Result<String, Fail> {
        let cases = cases(alloc, file)?;
        Ok(Tally::of(alloc, &cases, call)?.to_string(alloc)?)
    }

    fn report(alloc: Global, file: &[u8]) -> Result<String, Fail> {
        report_of(alloc, file, Call::SquareRoot)
    }

    #[test]
    fn differences_are_counted(rt: HostRuntime) -> Result<(), Fail> {
        let right = file_with(rt.alloc(), 2.0)?;
        let text = report(rt.alloc(), &right)?;
        assert_eq!(rt; text.as_str(), "1 cases, none differs");
        let wrong = file_with(rt.alloc(), 3.0)?;
        let text = report(rt.alloc(), &wrong)?;
        assert_eq!(rt; text.as_str(), "1 cases, 1 differ, the first is case 1");
        Ok(())
    }

    #[test]
    fn a_part_of_a_file_is_damaged(rt: HostRuntime) -> Result<(), Fail> {
        let file = file_with(rt.alloc(), 2.0)?;
        for length in 0..file.len() {
            let part = cases(rt.alloc(), &file[..length]);
            assert!(rt; matches!(part, Err(Fault::Damaged)), "at {length}");
        }
        Ok(())
    }

    // It can be no record, and takes its call from the case behind it.
    #[test]
    fn a_case_of_no_words_differs(rt: HostRuntime) -> Result<(), Fail> {
        let file = file_of(rt.alloc(), &[2, 0, 2, 1, 0])?;
        let text = report(rt.alloc(), &file)?;
        assert_eq!(rt; text.as_str(), "1 cases, 1 differ, the first is case 1");
        Ok(())
    }

    // An exponential of dimension 1, refused by 16: its workspace of 22,447 is lent empty.
    #[test]
    fn a_workspace_too_long_is_lent_empty(rt: HostRuntime) -> Result<(), Fail> {
        let case = [1, 14, 8, 1, 1, 0, 1, 22_447, 16, 0, 0, 0, 0, 0, 0, 1];
        let file = file_of(rt.alloc(), &case)?;
        let text = report_of(rt.alloc(), &file, Call::Exponential)?;
        assert_eq!(rt; text.as_str(), "1 cases, none differs");
        Ok(())
    }

    // One of dimension 0, refused by 26: its output is lent empty, and is recorded with what a
    // first entry would be lent as, or with another.
    #[test]
    fn a_record_goes_on_as_lent(rt: HostRuntime) -> Result<(), Fail> {
        let as_lent = 0x4000_1000_0000_0000;
        let case = [1, 14, 8, 0, 0, 0, 0, 26, 0, 0, 0, 0, 0, 1, as_lent, 1];
        let file = file_of(rt.alloc(), &case)?;
        let text = report_of(rt.alloc(), &file, Call::Exponential)?;
        assert_eq!(rt; text.as_str(), "1 cases, none differs");
        let case = [1, 14, 8, 0, 0, 0, 0, 26, 0, 0, 0, 0, 0, 1, as_lent + 1, 1];
        let file = file_of(rt.alloc(), &case)?;
        let text = report_of(rt.alloc(), &file, Call::Exponential)?;
        assert_eq!(rt; text.as_str(), "1 cases, 1 differ, the first is case 1");
        Ok(())
    }
}
