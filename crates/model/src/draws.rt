// A reader over the draws of one path.
ghost use Rattle.std.specs.Prelude.{◌≡◌, ◌<◌, ◌+◌, length, get_or};
ghost use Rattle.std.specs.Float.{nan};

// The draws of one path, lent, and how many of them were taken. (A reader: the form was asked for.)
#[derive(Drop)]
pub struct PathDraws<'a> {
    pub draws: &'a [f64],
    pub at: usize,
}

// The draw after `at` of them.
fn draw_from(draws: &[f64], at: usize) -> f64
    requires { at < length draws.now }
    ensures { result ≡ get_or draws.now at nan }
{
    draws[at]
}

impl<'a> PathDraws<'a> {
    // Takes the next draw.
    pub fn next(&mut self) -> f64
        requires { self.old.at < length self.old.draws.now }
        ensures { (result ≡ get_or self.old.draws.now self.old.at nan)
            × (self.new.draws ≡ self.old.draws)
            × (self.new.at ≡ self.old.at + 1) }
    {
        let at = self.at;
        self.at = at + 1;
        draw_from(self.draws, at)
    }
}

// The draw that a path takes after `at` of its draws, from a reader. The reader lives for the one
// draw, so that the loops, which call this, hold a plain slice and a number.
pub fn take_draw(draws: &[f64], at: usize) -> f64
    requires { at < length draws.now }
    ensures { result ≡ get_or draws.now at nan }
{
    let mut reader = PathDraws { draws, at };
    reader.next()
}
