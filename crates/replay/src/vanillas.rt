// Calls 4, 5, 9 and 10: a batch of vanillas or of down-and-out puts, ordinary and mirrored.
use crate::fault::Fault;
use crate::inputs::{Modelled, decimal, schedule};
use crate::outcomes::{counts, head, values};
use crate::tables::Table;
use crate::words::Reader;
use batch::questions;
use std::alloc::Global;
use vanilla::{Order, Terms};

// What a batch pays on the spot, in short.
#[derive(Clone, Copy)]
pub(crate) enum Kind {
    Vanilla,
    DownAndOut,
}

// What a call prices.
fn order(case: &mut Reader<'_>, kind: Kind, mirrored: bool) -> Result<Order, Fault> {
    let terms = match kind {
        Kind::DownAndOut => {
            let strike = decimal(case)?;
            let barrier = decimal(case)?;
            Terms::DownAndOut { strike, barrier }
        }
        Kind::Vanilla => {
            let style = questions::style_of(case.flag()?);
            let strike = decimal(case)?;
            Terms::Vanilla { style, strike }
        }
    };
    let paths = case.size()?;
    Ok(Order {
        terms,
        mirrored,
        paths,
    })
}

pub(crate) fn replay(
    case: &mut Reader<'_>,
    alloc: Global,
    kind: Kind,
    mirrored: bool,
) -> Result<(), Fault> {
    let given = Modelled::read(case, alloc)?;
    let schedule = schedule(case)?;
    let order = order(case, kind, mirrored)?;
    let draws = case.doubles(alloc)?;
    let mut observations = Table::lent(case, alloc, 1)?;
    let answer = qrh::qrh_vanilla(&given.over(schedule), order, &draws, observations.entries());
    head(case, answer.number, answer.place)?;
    let estimates = [
        answer.price,
        answer.price_error,
        answer.spot_mean,
        answer.spot_error,
    ];
    values(case, &estimates)?;
    counts(case, &[answer.paths, answer.non_positive, answer.steps])?;
    observations.is_recorded(case)
}
