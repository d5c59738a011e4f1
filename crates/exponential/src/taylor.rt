// The polynomial of degree 18 by Horner's rule, and the squarings. Of a workspace's five matrices
// three are used: the polynomial's value so far, its argument, which is the scaled matrix, and a
// spare one that each product is written to before it is copied to the value.
ghost use Rattle.std.specs.Prelude.{◌≡◌};
ghost use Rattle.matrix.specs.Matrix.{scaled, identity};
ghost use Rattle.matrix.specs.Inner.Workspace.{IsMatrix, IsWorkspace, matrix_at};
ghost use Rattle.exponential.specs.Exponential.{horner_step, horner, squared};
ghost use Rattle.exponential.specs.Exponential.{exponential_by};

use crate::scaling::Scaling;
use matrix::{entries, product};

const DEGREE: u32 = 18;

// The argument becomes the value times factor, and the value the identity.
fn start(dim: usize, factor: f64, value: &mut [f64], argument: &mut [f64])
    requires { IsMatrix dim value.old × IsMatrix dim argument.old }
    ensures argument { argument.new ≡ scaled factor value.old }
    ensures value { value.new ≡ identity dim }
{
    entries::scale(factor, value);
    entries::copy(value, argument);
    value.fill(0.0);
    entries::add_diagonal(dim, value);
}

// At a degree: the product of the argument and the value, times 1 / degree, + 1 on the diagonal.
fn step(dim: usize, degree: u32, argument: &[f64], value: &mut [f64], spare: &mut [f64])
    requires { IsMatrix dim argument.now × IsMatrix dim value.old × IsMatrix dim spare.old }
    ensures { value.new ≡ horner_step dim argument.now degree value.old }
{
    product::multiply(dim, argument, value, spare);
    entries::copy(spare, value);
    entries::scale(1.0 / (degree as f64), value);
    entries::add_diagonal(dim, value);
}

// From degree 18 down to 1, begun with the identity.
fn horner(dim: usize, argument: &[f64], value: &mut [f64], spare: &mut [f64])
    requires matrices { IsMatrix dim argument.now × IsMatrix dim value.old
        × IsMatrix dim spare.old }
    requires begun { value.old ≡ identity dim }
    ensures { value.new ≡ horner dim argument.now 18 }
{
    for degree in (1..=DEGREE).rev() {
        step(dim, degree, argument, value, spare);
    }
}

// So many squarings of the value.
fn square(dim: usize, squarings: u32, value: &mut [f64], spare: &mut [f64])
    requires { IsMatrix dim value.old × IsMatrix dim spare.old }
    ensures { value.new ≡ squared dim value.old squarings }
{
    for _ in 0..squarings {
        product::multiply(dim, value, value, spare);
        entries::copy(spare, value);
    }
}

// The exponential of the first matrix, in its place: scaled by 2^-squarings, the polynomial, and so
// many squarings.
pub(crate) fn exponential_by(dim: usize, scaling: Scaling, work: &mut [f64])
    requires { IsWorkspace dim work.old }
    ensures { matrix_at dim 0 work.new
        ≡ exponential_by dim (matrix_at dim 0 work.old) scaling.squarings }
{
    let size = dim * dim;
    let (value, rest) = work.split_at_mut(size);
    let (argument, rest) = rest.split_at_mut(size);
    let spare = &mut rest[..size];
    start(dim, scaling.factor, value, argument);
    horner(dim, argument, value, spare);
    square(dim, scaling.squarings, value, spare);
}
