// The history of harmonic inputs around a subframe (request E6). The places in use stand first in it. While a subframe is worked they stand
// last of 145, so that whatever the limit the newest has one place; those not in use are left out.
#![tactic(auto)]

ghost use Rattle.std.specs.Prelude.{◌≡◌, ◌++◌, ◌+◌, ◌-◌, take, drop};
ghost use Rattle.lag_limit.specs.Limit.{reach};
ghost use Rattle.lag_limit.specs.Choice.{lags_of};
ghost use Rattle.harmonic_history.specs.History.{places, used, unused};

use lag_limit::LagLimit;

// How many places a history has: as far as the longest lag of all reaches back.
pub const PLACES: usize = 145;

// The places in use.
pub fn in_use(p_hist: &[f32; PLACES], limit: LagLimit) -> &[f32]
    ensures { result.now ≡ used (reach (lags_of limit)) p_hist.now }
{
    &p_hist[..limit.reach()]
}

// The places in use, with room for a subframe after them.
pub fn start(p_hist: &[f32; PLACES], limit: LagLimit) -> [f32; PLACES + 60]
    ensures { take (reach (lags_of limit)) (drop (places - reach (lags_of limit)) result)
        ≡ used (reach (lags_of limit)) p_hist.now }
{
    let mut p = [0.0f32; PLACES + 60];
    p[PLACES - limit.reach()..PLACES].copy_from_slice(in_use(p_hist, limit));
    p
}

// After the last sample: the last inputs in the places in use. The others stay as they were.
pub fn settle(p_hist: &mut [f32; PLACES], p: &[f32; PLACES + 60], limit: LagLimit)
    ensures { p_hist.new ≡ drop (places + 60 - reach (lags_of limit)) p.now
        ++ unused (reach (lags_of limit)) p_hist.old }
{
    p_hist[..limit.reach()].copy_from_slice(&p[PLACES + 60 - limit.reach()..]);
}
