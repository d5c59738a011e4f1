// P12: the evaluation of the VIX.
use crate::given::{DISCOUNTS, WEIGHTS, model, quarter, whole};
use crate::report::{Figure, same};
use vix_value::Factors;

fn flat() -> bool {
    let mut model = model();
    model.a = whole(0);
    let given = Factors {
        count: 1,
        factors: [whole(0); 10],
    };
    let answer = qrh::qrh_vix(
        &WEIGHTS,
        &DISCOUNTS,
        model,
        quarter(),
        given,
        &mut [0.0; 80],
    );
    answer.number == 0 && same(&[answer.squared, answer.index], &[40000.0, 200.0])
}

pub(crate) fn figures() -> [Figure; 1] {
    [Figure::new(
        "P12: a = 0, window 0.25: VIX squared 40000, index 200",
        flat(),
    )]
}
