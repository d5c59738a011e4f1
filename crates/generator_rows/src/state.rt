// The places of the moment system's state: n means, the pairs (i, j) with i ≤ j row by row, the
// integral and the constant. n is a plain number here: with a type around it each clause would name
// its field.
ghost use Rattle.std.specs.Prelude.{◌≡◌, ◌≤◌, ◌<◌};
ghost use Rattle.generator_rows.specs.State.{pairs_before, pair_at, dimension};

// n + (n - 1) + .. over the first i rows.
pub fn pairs_before(n: usize, i: usize) -> usize
    requires { (n ≤ 10) × (i ≤ n) }
    ensures { result ≡ pairs_before n i }
{
    i * (2 * n + 1 - i) / 2
}

// The pair of i and j, in either order.
pub fn pair(n: usize, i: usize, j: usize) -> usize
    requires { (n ≤ 10) × (i < n) × (j < n) }
    ensures { result ≡ pair_at n i j }
{
    if i <= j {
        n + pairs_before(n, i) + (j - i)
    } else {
        n + pairs_before(n, j) + (i - j)
    }
}

// The dimension of the moment system of n factors.
pub fn dimension_of(n: usize) -> usize
    requires { n ≤ 10 }
    ensures { result ≡ dimension n }
{
    n + pairs_before(n, n) + 2
}
