// The calls of which cases are recorded.
use crate::fault::Fault;
use std::fmt;

#[derive(Clone, Copy, Debug, PartialEq, Eq)]
pub(crate) enum Call {
    Convert,
    SquareRoot,
    Trace,
    Vanilla,
    Mirrored,
    VixEvaluation,
    VixBatch,
    Exponential,
    DownAndOut,
    MirroredDownAndOut,
}

// By its number in a record (oracle/README.md).
impl TryFrom<u64> for Call {
    type Error = Fault;

    fn try_from(number: u64) -> Result<Call, Fault> {
        Ok(match number {
            1 => Call::Convert,
            2 => Call::SquareRoot,
            3 => Call::Trace,
            4 => Call::Vanilla,
            5 => Call::Mirrored,
            6 => Call::VixEvaluation,
            7 => Call::VixBatch,
            8 => Call::Exponential,
            9 => Call::DownAndOut,
            10 => Call::MirroredDownAndOut,
            _ => return Err(Fault::Damaged),
        })
    }
}

impl fmt::Display for Call {
    fn fmt<W: fmt::Write>(&self, f: &mut fmt::Formatter<W>) -> fmt::Result {
        let name = match self {
            Call::Convert => "convert",
            Call::SquareRoot => "square root",
            Call::Trace => "trace",
            Call::Vanilla => "vanilla batch",
            Call::Mirrored => "mirrored batch",
            Call::VixEvaluation => "VIX evaluation",
            Call::VixBatch => "VIX batch",
            Call::Exponential => "exponential",
            Call::DownAndOut => "down-and-out batch",
            Call::MirroredDownAndOut => "mirrored down-and-out batch",
        };
        f.write_str(name)
    }
}
