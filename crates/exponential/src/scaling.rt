// How often a matrix is halved before the polynomial, and its result squared after it.
ghost use Rattle.std.specs.Prelude.{◌≡◌, true};
ghost use Rattle.numeric.specs.Double.{plus, finite};
ghost use Rattle.exponential.specs.Exponential.{squarings, two_to_minus, IsLeast};

// The number of squarings, s, and 2^-s.
#[derive(Clone, Copy)]
pub struct Scaling {
    pub squarings: u32,
    pub factor: f64,
    ghost halved: { factor ≡ two_to_minus squarings },
}

// The least s with norm ≤ 2^s / 2. Doubling the bound and halving the factor are exact: twice the
// norm is finite, so that s is at most 1024, and 2^-1024 is a double still. How often the loop
// turns is what is sought, so that no range has its turns.
pub(crate) fn of_norm(norm: f64) -> Scaling
    requires { finite (plus norm norm) ≡ true }
    ensures squarings { result.squarings ≡ squarings norm }
    ensures factor { result.factor ≡ two_to_minus (squarings norm) }
    ensures least { IsLeast norm result.squarings }
{
    let mut squarings = 0;
    let mut factor = 1.0;
    let mut bound = 0.5;
    while bound < norm {
        squarings += 1;
        factor *= 0.5;
        bound *= 2.0;
    }
    Scaling { squarings, factor }
}
