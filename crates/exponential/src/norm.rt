// The 1-norm: the largest column sum of absolute values.
ghost use Rattle.std.specs.Prelude.{◌≡◌, ◌<◌};
ghost use Rattle.matrix.specs.Inner.Workspace.{IsMatrix};
ghost use Rattle.exponential.specs.Norm.{column_sum, norm1};

// The sum of the absolute values of one column, in the rows' order.
fn column_sum(dim: usize, m: &[f64], column: usize) -> f64
    requires { IsMatrix dim m.now × (column < dim) }
    ensures { result ≡ column_sum dim m.now column dim }
{
    let mut sum = 0.0;
    for i in 0..dim {
        sum += numeric::abs(m[i * dim + column]);
    }
    sum
}

// The largest of the columns' sums, a NaN passed over.
pub(crate) fn norm_1(dim: usize, m: &[f64]) -> f64
    requires { IsMatrix dim m.now }
    ensures { result ≡ norm1 dim m.now }
{
    let mut norm = 0.0;
    for j in 0..dim {
        norm = numeric::max(norm, column_sum(dim, m, j));
    }
    norm
}
