// The matrix call: the exponential of a square matrix of doubles, once every question is passed.
#![tactic(auto)]

ghost use Rattle.std.specs.Prelude.{◌≡◌};
ghost use Rattle.refusal.specs.Questions.{first_no};
ghost use Rattle.exponentiation.specs.Call.{shape_right, sizes_asked};
ghost use Rattle.exponentiation.specs.Inner.Answer.{answer_of};
ghost use Rattle.exponentiation.specs.Call.{matrix_inputs, ExponentialAnswered};

use matrix::entries;
use refusal::{Outcome, Refusal};

// The answer as it crosses the edge (qrh_exponentiation in include/qrh.h): how often the scaled
// matrix was squared, or the number of the first question that got a No. None of them has a place.
// A C struct: C has no Result.
#[repr(C)]
#[derive(Clone, Copy)]
pub struct Exponentiation {
    pub number: u32,
    pub place: [u64; 4],
    pub squarings: u64,
}

impl From<Result<u32, Refusal>> for Exponentiation {
    ghost from_gives = { λ exponentiated r. r ≡ answer_of exponentiated };

    fn from(exponentiated: Result<u32, Refusal>) -> Exponentiation {
        match exponentiated {
            Ok(squarings) => Exponentiation {
                number: 0,
                place: [0; 4],
                squarings: squarings as u64,
            },
            Err(refusal) => Exponentiation {
                number: refusal.number(),
                place: refusal.place(),
                squarings: 0,
            },
        }
    }
}

// Whether the dimension is 1 to 67 and both matrices have dimension² entries. A dimension may be
// any number, so that it is tested before it is squared.
#[tactic(auto, using(matrix::proofs::Cells::small), unfolding(crate::specs::Call::shape_right))]
fn shape_is_right(dim: usize, input: usize, output: usize) -> bool
    ensures { result ≡ shape_right dim input output }
{
    1 <= dim && dim <= 67 && input == dim * dim && output == dim * dim
}

// 26, then 16, of matrices and a workspace of so many doubles.
#[tactic(auto, unfolding(refusal::specs::Questions::first_no, crate::specs::Call::sizes_asked))]
fn size_questions(dim: usize, input: usize, output: usize, work: usize) -> Outcome
    ensures { result ≡ first_no (sizes_asked dim input output work) }
{
    refusal::ensure(shape_is_right(dim, input, output), Refusal::Matrix)?;
    refusal::ensure(work == 5 * (dim * dim), Refusal::Workspace)
}

// The exponential of input in output, and the number of its squarings. (Four arguments, here and
// below: of a struct that holds a `&mut` each function would have to say that it stays the same
// reference.)
fn exponentiated(
    dim: usize,
    input: &[f64],
    output: &mut [f64],
    work: &mut [f64],
) -> Result<u32, Refusal>
    ensures { ExponentialAnswered
        (matrix_inputs dim input.now output.old work.old)
        (answer_of result) output.new work.new }
{
    size_questions(dim, input.len(), output.len(), work.len())?;
    let size = dim * dim;
    entries::copy(input, &mut work[..size]);
    let squarings = exponential::exponential(dim, work).ok_or(Refusal::Exponential)?;
    entries::copy(&work[..size], output);
    Ok(squarings)
}

// The exponential of input, written to output once every question is passed.
pub fn exponentiate(
    dim: usize,
    input: &[f64],
    output: &mut [f64],
    work: &mut [f64],
) -> Exponentiation
    ensures { ExponentialAnswered
        (matrix_inputs dim input.now output.old work.old)
        result output.new work.new }
{
    Exponentiation::from(exponentiated(dim, input, output, work))
}
