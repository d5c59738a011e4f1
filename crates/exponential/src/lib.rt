// The exponential of a square matrix of doubles, by scaling and squaring. A matrix is its dimension
// and a slice: a struct that holds the lent slice would have to promise, of each function, that the
// dimension stays.
#![tactic(auto)]

ghost use Rattle.std.specs.Prelude.{◌≡◌};
ghost use Rattle.matrix.specs.Inner.Workspace.{IsWorkspace, matrix_at};
ghost use Rattle.exponential.specs.Norm.{norm1};
ghost use Rattle.exponential.specs.Exponential.{exponential};
ghost use Rattle.exponential.specs.Inner.Workspace.{exponentiated, Holds, Fewest};

mod norm;
mod scaling;
mod taylor;

use matrix::entries;

// The exponential of the matrix that work begins with, in its place. Answers the number of
// squarings, or none where the norm, twice the norm or an entry of the exponential is not finite.
// The rest of work is free, and what it held before is lost.
#[tactic(auto, unfolding(crate::specs::Inner::Workspace::exponentiated))]
pub fn exponential(dim: usize, work: &mut [f64]) -> Option<u32>
    requires { IsWorkspace dim work.old }
    ensures answer { result ≡ exponentiated dim (matrix_at dim 0 work.old) }
    ensures result { Holds result (matrix_at dim 0 work.new)
        (exponential dim (matrix_at dim 0 work.old)) }
    ensures least { Fewest result (norm1 dim (matrix_at dim 0 work.old)) }
{
    let size = dim * dim;
    let norm = norm::norm_1(dim, &work[..size]);
    if !numeric::is_finite(norm) {
        return None;
    }
    if !numeric::is_finite(norm + norm) {
        return None;
    }
    let scaling = scaling::of_norm(norm);
    taylor::exponential_by(dim, scaling, work);
    entries::is_finite(&work[..size]).then_some(scaling.squarings)
}
