// The stages' own cases: weights, a short window, lags that compete, and the bare filter.
use crate::lists;
use combined::CombinedMem;
use float::status::Refusal;
use lags::Best;

// Equal frequencies lie no distance apart, which counts as 1.
pub fn equal_weights() -> bool {
    spec_lsp::quantise::lsp_weights([5000.0; 10]) == [1.0; 10]
}

// The line's zeros are the definition's: an `Err` has no coefficients.
pub fn short_window() -> bool {
    lpc::lpc_analysis(&[0.0; 179]).err() == Some(Refusal::Length)
}

// Whether a lag with that ratio takes the place of lag 18 with the ratio 100.
pub fn takes_over(lag: u32, ratio: f64) -> bool {
    let winner = Best {
        ratio: 100.0,
        lag: 18,
    };
    lags::challenge(Some(winner), lag, ratio).lag == lag
}

// A filter with no prediction and no weighting, lag 18 and factor 0.25: 1, and −0.25 at sample 18, and zeros elsewhere.
pub fn bare_filter() -> bool {
    let mut aq = [0.0; 11];
    aq[0] = 1.0;
    let none = [0.0; 10];
    impulse::combined_impulse_response(142, aq, none, none, 18, 0.25).is_ok_and(
        lists::is_bare_response,
    )
}

// Lag 146 is refused, and each of the four memories, all different, stays as it was lent.
pub fn memory_kept() -> bool {
    let lent = CombinedMem {
        syn: [1.0; 10],
        wz: [2.0; 10],
        wp: [3.0; 10],
        p_hist: [0.5; 145],
        limit: 142,
    };
    let mut mem = lent;
    let none = [0.0; 10];
    let answer = combined_lent::run_combined_lent(
        &mut mem, [0.25; 60], [0.0; 11], none, none, 146, 0.25,
    );
    answer == Err(Refusal::Lag) && mem == lent
}
