// The product of two matrices. Rust's `multiply_into` works a row of the product out of the rows of
// the right matrix. Here a row is filled by blocks of columns, and each block is summed in a local
// array, so that its sums stay in registers.
ghost use Rattle.std.specs.Prelude.{◌≡◌, ◌+◌, ◌*◌, ◌≤◌, ◌<◌, length};
ghost use Rattle.matrix.specs.Matrix.{product};
ghost use Rattle.matrix.specs.Inner.Workspace.{IsMatrix, Added};

// sums + left * right, entry by entry.
fn add_multiple(left: f64, right: &[f64], sums: &mut [f64])
    requires { length sums.old ≡ length right.now }
    ensures { Added left right.now sums.old sums.new }
{
    for l in 0..right.len() {
        sums[l] += left * right[l];
    }
}

// What a row of the product is made of: a row of the left matrix, and the right matrix.
#[derive(Clone, Copy)]
struct Factors<'a> {
    dim: usize,
    left: &'a [f64],
    right: &'a [f64],
    ghost small: { dim ≤ 67 },
    ghost left_long: { length left.now ≡ dim },
    ghost right_long: { length right.now ≡ dim * dim },
}

impl Factors<'_> {
    ghost use Rattle.matrix.specs.Inner.Row.{ColumnSums, Filled};

    // The sums of WIDTH columns, from column `from` on. A left entry equal to zero is skipped.
    fn column_sums<const WIDTH: usize>(&self, from: usize) -> [f64; WIDTH]
        requires { from + WIDTH ≤ self.now.dim }
        ensures { ColumnSums self.now from WIDTH result self.now.dim }
    {
        let mut sums = [0.0; WIDTH];
        for k in 0..self.dim {
            let entry = self.left[k];
            if entry != 0.0 {
                let at = k * self.dim + from;
                add_multiple(entry, &self.right[at..at + WIDTH], &mut sums);
            }
        }
        sums
    }

    // Fills a block of a row whose columns before j are filled: WIDTH columns from j on, or the
    // last ones of the row where fewer are left. Answers the column after the block.
    fn fill_block<const WIDTH: usize>(&self, j: usize, row: &mut [f64]) -> usize
        requires in_bounds { (1 ≤ WIDTH) × (WIDTH ≤ self.now.dim) }
        requires j_lt_dim { (j < self.now.dim) × Filled self.now row.old j }
        ensures { (j < result) × Filled self.now row.new result }
    {
        let from = j.min(self.dim - WIDTH);
        let sums = self.column_sums::<WIDTH>(from);
        let end = from + WIDTH;
        row[from..end].copy_from_slice(&sums);
        end
    }

    // Fills the next block: one column of a row shorter than four, 12 where the row has them and
    // more than four are left, and four otherwise. These widths are what keeps the sums in
    // registers.
    fn fill_next(&self, j: usize, row: &mut [f64]) -> usize
        requires { (j < self.now.dim) × Filled self.now row.old j }
        ensures { (j < result) × Filled self.now row.new result }
    {
        if self.dim < 4 {
            self.fill_block::<1>(j, row)
        } else if 12 <= self.dim && j + 4 < self.dim {
            self.fill_block::<12>(j, row)
        } else {
            self.fill_block::<4>(j, row)
        }
    }

    // Fills a row. A block's width is chosen at its place, so that no range has these places.
    fn fill_row(&self, row: &mut [f64])
        requires { length row.old ≡ self.now.dim }
        ensures { Filled self.now row.new self.now.dim }
    {
        let mut j = 0;
        while j < self.dim {
            j = self.fill_next(j, row);
        }
    }
}

// The matrix at into becomes the product of the two others.
pub fn multiply(dim: usize, left: &[f64], right: &[f64], into: &mut [f64])
    requires { IsMatrix dim left.now × IsMatrix dim right.now × IsMatrix dim into.old }
    ensures { into.new ≡ product dim left.now right.now }
{
    for i in 0..dim {
        let at = i * dim;
        let factors = Factors {
            dim,
            left: &left[at..at + dim],
            right,
        };
        factors.fill_row(&mut into[at..at + dim]);
    }
}
