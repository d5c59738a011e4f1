// The whole number nearest to the root of m * 2^52. The root is never half way between two numbers.
ghost use Rattle.std.specs.Prelude.{◌≡◌};
ghost use Rattle.numeric.specs.Inner.Step.{Significand, is_nearest, Nearest};

// Whether s is that number: m * 2^52 and the square of s are then no more than s apart.
pub fn is_nearest(m: u64, s: u64) -> bool
    ensures { result ≡ is_nearest m s }
{
    let s = s as u128;
    let square = s * s;
    let number = (m as u128) << 52;
    square < number + s && number <= square + s
}

// That number: the whole part of the root, or the next one where m * 2^52 is above the square of
// what lies half way between them, whole * whole + whole + 1/4.
pub fn nearest_root(m: u64) -> u64
    requires { Significand m }
    ensures { Nearest m result }
{
    let number = (m as u128) << 52;
    let whole = number.isqrt();
    if number <= whole * whole + whole {
        whole as u64
    } else {
        whole as u64 + 1
    }
}
