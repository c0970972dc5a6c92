// The sums of one window of 180 samples (§2.4): the window, its autocorrelation and the lag window.
#![tactic(auto)]

ghost use Rattle.std.specs.Prelude.{◌≡◌, ◌≤◌, length};
ghost use Rattle.std.specs.Float.{binary64};
ghost use Rattle.float.specs.Table.{table};
ghost use Rattle.float.specs.Loop.{sum};
ghost use Rattle.correlation.specs.Correlation.{windowed, lagged, correlation, lag_weight, corrected};

// The windowed samples, widened once for all the sums.
pub fn window_in(x: &[f32; 180]) -> [f64; 180]
    ensures { result ≡ table 180 (windowed x.now) }
{
    let t = spec_tables::lpc_hamming_window();
    std::array::from_fn(|i| f64::from(x[i] * (f32::from(t[i]) / 32768.0)))
}

// The part of the sum at lag k that the first ten samples give.
fn early(w: &[f64; 180], k: usize) -> f64
    requires { k ≤ 10 }
    ensures { result ≡ sum binary64 k 10 (lagged w.now k) }
{
    let mut s = 0.0;
    for (x, y) in w[k..10].iter().zip(w) {
        s += x * y;
    }
    s
}

// The eleven sums side by side: each keeps its own order, and none waits for another.
pub fn correlations(w: &[f64; 180]) -> [f64; 11]
    ensures { result ≡ table 11 (correlation w.now) }
{
    let mut s: [f64; 11] = std::array::from_fn(|k| early(w, k));
    // by array_windows of eleven it was proved as well, and takes 511 instructions more a call, three a sample
    for i in 10..180 {
        s = std::array::from_fn(|k| s[k] + w[i] * w[i - k]);
    }
    s
}

// What the sum at lag k is multiplied by: the white-noise correction, from lag 1 on the lag window.
fn lag_weight(k: usize) -> f64
    requires { k ≤ 10 }
    ensures { result ≡ lag_weight k }
{
    if k == 0 {
        return 1025.0 / 1024.0;
    }
    let t = spec_tables::lpc_binomial_lag_window();
    f64::from(t[k - 1]) / 32768.0
}

// The sums, so weighted.
pub fn weigh(r: [f64; 11]) -> [f64; 11]
    ensures { result ≡ table 11 (corrected r) }
{
    std::array::from_fn(|k| r[k] * lag_weight(k))
}
