// Runs recorded cases, read from standard input, and compares every outcome with the recorded one:
// doubles by their bits, numbers, places, counts and every entry of the lent tables. The records
// are those of the Rust; oracle/README.md has the format, and `record write FILE --most 3` made
// them.
#![tactic(auto)]

use calls::Call;
use cases::{Case, Tally};
use fault::Fault;
use std::io;
use std::io::Read;

mod calls;
mod cases;
mod exponentials;
mod fault;
mod inputs;
mod outcomes;
mod scalar;
mod tables;
mod traces;
mod vanillas;
mod vix_calls;
mod words;

// The calls in the order in which they are reported.
const REPORTED: [Call; 10] = [
    Call::Convert,
    Call::SquareRoot,
    Call::Trace,
    Call::Vanilla,
    Call::Mirrored,
    Call::DownAndOut,
    Call::MirroredDownAndOut,
    Call::VixEvaluation,
    Call::VixBatch,
    Call::Exponential,
];

fn report(rt: &(impl Print + AllocGlobal), cases: &[Case<'_>]) -> io::Result<()> {
    let count = cases.len();
    println!(rt; "recorded cases: {count}")?;
    for call in REPORTED {
        let tally = Tally::of(rt.alloc(), cases, call)?;
        println!(rt; "{call}: {tally}")?;
    }
    Ok(())
}

// The most bytes that are read of a file.
const MOST_BYTES: u64 = 1_048_576;

fn main(rt: HostRuntime) -> io::Result<()> {
    let mut file = Vec::new(rt.alloc());
    rt.stdin().take(MOST_BYTES).read_to_end(&mut file)?;
    match cases::cases(rt.alloc(), &file) {
        Ok(cases) => report(&rt, &cases),
        Err(Fault::OutOfMemory(error)) => Err(io::Error::from(error)),
        Err(_) => println!(rt; "this is no whole file of recorded cases"),
    }
}
