// The generator, written row by row to the front of the workspace. Each entry is multiplied by the
// window as it is stored.
#![tactic(auto)]

ghost use Rattle.std.specs.Prelude.{◌≡◌, ◌-◌, ◌*◌, ◌≤◌, ◌<◌, length, take};
ghost use Rattle.model.specs.Inner.InUse.{kernel_in_use};
ghost use Rattle.matrix.specs.Matrix.{scaled};
ghost use Rattle.generator_rows.specs.Inner.Appended.{Appended};
ghost use Rattle.generator_rows.specs.State.{dimension, pair_at, joined};
ghost use Rattle.generator_rows.specs.State.{pairs_of_row, pairs_of_rows};
ghost use Rattle.generator_rows.specs.Rows.{variance_row};
ghost use Rattle.generator.specs.Generator.{generator};

use generator_rows::state;
use model::{Kernel, Params};

// What the rows are made of, E[V] as a row included, and the window.
#[derive(Clone, Copy)]
struct Filling {
    kernel: Kernel,
    params: Params,
    variance: [f64; 67],
    window: f64,
    ghost variance_is: { take (dimension kernel.n) variance
        ≡ variance_row (kernel_in_use kernel) params },
}

// Where a method needs n it binds the kernel first: its proof then opens the kernel alone, and not
// the whole filling. That the workspace has room is asked by each method: a struct that holds the
// lent slice would have to promise of each that its length stays.
impl Filling {
    ghost use Rattle.generator.specs.Inner.Filling.{mean_of, pair_of, HasRoom};

    // Stores a row as the row of that number.
    fn store_row(&self, row: &[f64; 67], number: usize, work: &mut [f64])
        requires { HasRoom self.now work.old × (number < dimension self.now.kernel.n) }
        ensures { Appended (number * dimension self.now.kernel.n)
            (scaled self.now.window (take (dimension self.now.kernel.n) row.now))
            work.old work.new }
    {
        let kernel = &self.kernel;
        let dim = state::dimension_of(kernel.n);
        let at = number * dim;
        for column in 0..dim {
            work[at + column] = row[column] * self.window;
        }
    }

    fn store_means(&self, work: &mut [f64])
        requires { HasRoom self.now work.old }
        ensures { Appended 0 (joined (mean_of self.now) self.now.kernel.n) work.old work.new }
    {
        let kernel = &self.kernel;
        for i in 0..kernel.n {
            let row = generator_rows::mean_row(self.kernel, self.params, i);
            self.store_row(&row, i, work);
        }
    }

    // The rows of the pairs (i, i), (i, i + 1), ..
    fn store_pairs_of(&self, i: usize, work: &mut [f64])
        requires { HasRoom self.now work.old × (i < self.now.kernel.n) }
        ensures { Appended (pair_at self.now.kernel.n i i * dimension self.now.kernel.n)
            (pairs_of_row (pair_of self.now) i (self.now.kernel.n - i)) work.old work.new }
    {
        let kernel = &self.kernel;
        for j in i..kernel.n {
            let row = generator_rows::pair_row(self.kernel, self.params, &self.variance, i, j);
            let number = state::pair(kernel.n, i, j);
            self.store_row(&row, number, work);
        }
    }

    fn store_pairs(&self, work: &mut [f64])
        requires { HasRoom self.now work.old }
        ensures { Appended (self.now.kernel.n * dimension self.now.kernel.n)
            (pairs_of_rows (pair_of self.now) self.now.kernel.n self.now.kernel.n)
            work.old work.new }
    {
        let kernel = &self.kernel;
        for i in 0..kernel.n {
            self.store_pairs_of(i, work);
        }
    }
}

// The whole generator: the rows of the means, of the pairs, of the integral, which is E[V], and of
// the constant. (Kernel and parameters stay two arguments, as in the definition.)
pub fn fill(k: Kernel, p: Params, window: f64, work: &mut [f64])
    requires { dimension k.n * dimension k.n ≤ length work.old }
    ensures { take (dimension k.n * dimension k.n) work.new
        ≡ generator (kernel_in_use k) p window }
{
    let dim = state::dimension_of(k.n);
    let filling = Filling {
        kernel: k,
        params: p,
        variance: generator_rows::variance_row(k, p),
        window,
    };
    filling.store_means(work);
    filling.store_pairs(work);
    filling.store_row(&filling.variance, dim - 2, work);
    filling.store_row(&[0.0; 67], dim - 1, work);
}
