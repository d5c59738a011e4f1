// Admission of the schedule: questions 11 and 12, then 13, 14 and 1 segment by segment (rule 14.6),
// and the schedule that is laid out of the segments given (6.2).
#![tactic(auto)]

ghost use Rattle.std.specs.Prelude.{◌≡◌};
ghost use Rattle.refusal.specs.Questions.{first_no};
ghost use Rattle.schedule.specs.Questions.{questions_of};
ghost use Rattle.schedule.specs.Inner.Admission.{SchedulePrepared};

use model::{Schedule, Segment, TimeGrid};
use refusal::{Outcome, Refusal};

const MOST_SEGMENTS: usize = 64;

const MOST_STEPS: usize = 4096;

// Questions 13, 14 and 1 of one segment, counted from 1, with the running total that includes it.
#[tactic(auto, unfolding(refusal::specs::Questions::first_no))]
fn segment_questions(s: Segment, segment: u64, total: usize) -> Outcome
    ensures { result ≡ first_no (questions_of s segment total) }
{
    let runs = s.dt.is_positive() && 0 < s.steps;
    refusal::ensure(runs, Refusal::Segment(segment))?;
    refusal::ensure(total <= MOST_STEPS, Refusal::TooManySteps(segment))?;
    refusal::ensure(s.dt.scale_fits(), Refusal::Scale)
}

// The segments as converted and laid end to end. The running total is 4,096 at most before a step
// count is added, so it never wraps.
pub fn from_segments(g: Schedule) -> Result<TimeGrid, Refusal>
    ensures { SchedulePrepared g result }
{
    let count = g.count;
    refusal::ensure(1 <= count, Refusal::NoSegment)?;
    refusal::ensure(count <= MOST_SEGMENTS, Refusal::TooManySegments)?;
    let segments = g.segments;
    let mut total: usize = 0;
    let mut dt = [0.0; 64];
    let mut sqrt_dt = [0.0; 64];
    let mut last = [0usize; 64];
    for i in 0..count {
        let s = segments[i];
        total += s.steps as usize;
        segment_questions(s, (i as u64) + 1, total)?;
        let converted = s.dt.value();
        dt[i] = converted;
        sqrt_dt[i] = numeric::sqrt(converted);
        last[i] = total;
    }
    Ok(TimeGrid {
        count,
        total,
        dt,
        sqrt_dt,
        last,
    })
}
