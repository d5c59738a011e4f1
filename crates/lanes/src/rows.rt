// A row of a table of factors: one factor, in every lane.
ghost use Rattle.std.specs.Prelude.{◌≡◌, ℕ, ◌<◌, get_or};
ghost use Rattle.std.specs.Float.{nan};
ghost use Rattle.numeric.specs.Double.{plus, times};
ghost use Rattle.lanes.specs.Inner.Lanes.{RowMoved};

// Every factor of the row becomes (factor + forcing) / divisor.
pub(crate) fn move_row(forcing: [f64; 4], divisor: f64, row: &mut [f64; 4])
    ensures { RowMoved forcing divisor row.old row.new }
{
    for l in 0..4 {
        row[l] = (row[l] + forcing[l]) / divisor;
    }
}

// sum + multiple × factor, in each lane.
pub fn add_products(sum: [f64; 4], multiples: [f64; 4], row: &[f64; 4]) -> [f64; 4]
    ensures { (l : ℕ) → l < 4 → get_or result l nan ≡ plus (get_or sum l nan)
        (times (get_or multiples l nan) (get_or row.now l nan)) }
{
    std::array::from_fn(|l| sum[l] + multiples[l] * row[l])
}
