// The inputs of a call.
ghost use Rattle.std.specs.Prelude.{◌≡◌, ◌+◌, ◌*◌, length, IfOk};
ghost use Rattle.replay.specs.Words.{Read};

use crate::fault::Fault;
use crate::words::Reader;
use admission::Given;
use decimal::Decimal;
use model::{Model, Schedule, Segment};
use std::alloc::Global;
use vix_value::Factors;

const ZERO: Decimal = Decimal {
    low: 0,
    high: 0,
    scale: 0,
    negative: false,
};

pub(crate) fn decimal(case: &mut Reader<'_>) -> Result<Decimal, Fault>
    ensures { IfOk result (λ _. Read 2 case.old.rest.now case.new.rest.now) }
{
    let low = case.word()?;
    let [high_0, high_1, high_2, high_3, scale, sign, _, _] = case.bytes()?;
    Ok(Decimal {
        low,
        high: u32::from_le_bytes([high_0, high_1, high_2, high_3]),
        scale,
        negative: sign % 2 == 1,
    })
}

pub(crate) fn factors(case: &mut Reader<'_>) -> Result<Factors, Fault>
    ensures { IfOk result (λ _. Read 21 case.old.rest.now case.new.rest.now) }
{
    let count = case.size()?;
    let mut factors = [ZERO; 10];
    for factor in &mut factors {
        *factor = decimal(case)?;
    }
    Ok(Factors { count, factors })
}

fn model(case: &mut Reader<'_>) -> Result<Model, Fault>
    ensures { IfOk result (λ _. Read 33 case.old.rest.now case.new.rest.now) }
{
    let a = decimal(case)?;
    let b = decimal(case)?;
    let c = decimal(case)?;
    let lambda = decimal(case)?;
    let eta = decimal(case)?;
    let spot = decimal(case)?;
    let Factors { count, factors } = factors(case)?;
    Ok(Model {
        a,
        b,
        c,
        lambda,
        eta,
        spot,
        factor_count: count,
        factors,
    })
}

fn segment(case: &mut Reader<'_>) -> Result<Segment, Fault>
    ensures { IfOk result (λ _. Read 3 case.old.rest.now case.new.rest.now) }
{
    let dt = decimal(case)?;
    let [steps_0, steps_1, steps_2, steps_3, _, _, _, _] = case.bytes()?;
    Ok(Segment {
        dt,
        steps: u32::from_le_bytes([steps_0, steps_1, steps_2, steps_3]),
    })
}

// Segments that are not written are zeros, and those past the last are passed over.
pub(crate) fn schedule(case: &mut Reader<'_>) -> Result<Schedule, Fault> {
    let count = case.size()?;
    let written = case.size()?;
    let mut segments = [Segment { dt: ZERO, steps: 0 }; 64];
    for i in 0..written {
        let segment = segment(case)?;
        if let Some(place) = segments.get_mut(i) {
            *place = segment;
        }
    }
    Ok(Schedule { count, segments })
}

// With what every call begins that simulates or evaluates.
#[derive(Drop)]
pub(crate) struct Modelled {
    pub weights: Vec<f64>,
    pub discounts: Vec<f64>,
    pub model: Model,
}

impl Modelled {
    pub(crate) fn read(case: &mut Reader<'_>, alloc: Global) -> Result<Modelled, Fault> {
        let weights = case.doubles(alloc)?;
        let discounts = case.doubles(alloc)?;
        let model = model(case)?;
        Ok(Modelled {
            weights,
            discounts,
            model,
        })
    }

    // What a simulating call is given.
    pub(crate) fn over(&self, schedule: Schedule) -> Given<'_> {
        Given {
            weights: &self.weights,
            discounts: &self.discounts,
            model: self.model,
            schedule,
        }
    }
}

#[cfg(test)]
mod tests {
    use super::*;
    use std::test::Fail;

    // The low half of a step count counts, and segments past the 64th are passed over.
    #[test]
    fn step_counts_and_segments_are_cut(rt: HostRuntime) -> Result<(), Fail> {
        let mut file = Vec::new(rt.alloc());
        for word in [65_u64, 65] {
            file.extend_from_slice(&word.to_le_bytes())?;
        }
        for i in 0..65_u64 {
            for word in [i, 0, 0x1_0000_0000 + i] {
                file.extend_from_slice(&word.to_le_bytes())?;
            }
        }
        let mut words = Reader::new(&file)?;
        let read = schedule(&mut words)?;
        assert_eq!(rt; read.count, 65);
        assert_eq!(rt; read.segments[63].dt.low, 63);
        assert_eq!(rt; read.segments[63].steps, 63);
        assert!(rt; words.ends().is_ok());
        Ok(())
    }

    #[test]
    fn a_long_list_is_lent_empty(rt: HostRuntime) -> Result<(), Fail> {
        for count in [1_024_u64, 1_025] {
            let mut file = Vec::new(rt.alloc());
            file.extend_from_slice(&count.to_le_bytes())?;
            for _ in 0..count {
                file.extend_from_slice(&[0; 8])?;
            }
            let mut words = Reader::new(&file)?;
            let doubles = words.doubles(rt.alloc())?;
            assert_eq!(rt; doubles.len(), if count == 1_024 { 1_024 } else { 0 });
            assert!(rt; words.ends().is_ok());
        }
        Ok(())
    }
}
