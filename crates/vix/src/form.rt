// The form in the exponential: the integral's row, which begins at `at` of the workspace.
ghost use Rattle.std.specs.Prelude.{◌≡◌, ◌*◌, ◌≤◌, length};
ghost use Rattle.matrix.specs.Inner.Workspace.{matrix_at};
ghost use Rattle.generator_rows.specs.State.{dimension};
ghost use Rattle.vix.specs.Build.{form_of};
ghost use Rattle.vix.specs.Inner.Form.{vix_in_use};

use crate::Vix;
use generator_rows::state;

// The form in n factors that the matrix at the front of the workspace holds. (No kernel: none of
// its tables is read.)
pub(crate) fn of_matrix(n: usize, dim: usize, window: f64, work: &[f64]) -> Vix
    requires { (n ≤ 10) × (dim ≡ dimension n) × (dim * dim ≤ length work.now) }
    ensures { vix_in_use result ≡ form_of n window (matrix_at (dimension n) 0 work.now) }
{
    let at = (dim - 2) * dim;
    let count = state::pairs_before(n, n);
    let scale = 10000.0 / window;
    let constant = work[at + dim - 1];
    let mut linear = [0.0; 10];
    linear[..n].copy_from_slice(&work[at..at + n]);
    let mut pairs = [0.0; 55];
    let first = at + n;
    pairs[..count].copy_from_slice(&work[first..first + count]);
    Vix {
        n,
        scale,
        constant,
        linear,
        pairs,
    }
}
