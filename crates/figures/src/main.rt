// Runs the checked figures (rules 19.1 to 19.4), and compares each with what it should be.
#![tactic(auto)]

ghost use Rattle.std.specs.Prelude.{◌≤◌, length, IfOk};

use report::Figure;
use std::io;

mod barriers;
mod exponentials;
mod given;
mod report;
mod scalar;
mod traces;
mod vanillas;
mod vix_evaluations;

// A line for each figure, and the number of those that are wrong.
fn tell(rt: &impl Print, figures: &[Figure]) -> io::Result<usize>
    ensures { IfOk result (λ wrong. wrong ≤ length figures.now) }
{
    for figure in figures {
        println!(rt; "{figure}")?;
    }
    Ok(figures.iter().filter(|figure| !figure.is_right()).count())
}

fn main(rt: HostRuntime) -> io::Result<()> {
    let wrong = tell(&rt, &scalar::figures())?
        + tell(&rt, &traces::figures())?
        + tell(&rt, &vanillas::figures())?
        + tell(&rt, &barriers::figures())?
        + tell(&rt, &exponentials::figures())?
        + tell(&rt, &vix_evaluations::figures())?;
    println!(rt; "{wrong} wrong")
}
