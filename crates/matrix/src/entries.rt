// Passes over the entries of a matrix.
ghost use Rattle.std.specs.Prelude.{◌≡◌, length};
ghost use Rattle.matrix.specs.Matrix.{scaled, plus_identity, all_finite};
ghost use Rattle.matrix.specs.Inner.Workspace.{IsMatrix};

// The entries of one matrix in the place of another's. (A loop: copy_from_slice calls memmove here,
// which whoever links the archive for C would have to bring.)
pub fn copy(from: &[f64], into: &mut [f64])
    requires { length from.now ≡ length into.old }
    ensures { into.new ≡ from.now }
{
    for k in 0..from.len() {
        into[k] = from[k];
    }
}

// Whether every entry is finite.
pub fn is_finite(m: &[f64]) -> bool
    ensures { result ≡ all_finite m.now }
{
    m.iter().all(|x| numeric::is_finite(*x))
}

// Each entry times factor.
pub fn scale(factor: f64, m: &mut [f64])
    ensures { m.new ≡ scaled factor m.old }
{
    for x in m.iter_mut() {
        *x *= factor;
    }
}

// + 1 on the diagonal.
pub fn add_diagonal(dim: usize, m: &mut [f64])
    requires { IsMatrix dim m.old }
    ensures { m.new ≡ plus_identity dim m.old }
{
    for i in 0..dim {
        m[i * dim + i] += 1.0;
    }
}
