// The worked cases of request E6, a gateway with lags up to 82 beside loggers with 142: one line each, and how many passed.
#![tactic(auto)]

mod filters;
mod speech;

use float::status::Refusal;
use tally::Tally;

fn pitch_cases(tally: &mut Tally<impl Print>) {
    tally.case(
        "pulses 100 apart have lag 100 up to 142, and 18 up to 82",
        (speech::half(142, 100, 385, 0) == Ok(100)) & (speech::half(82, 100, 385, 0) == Ok(18)),
    );
    tally.case(
        "pulses 83 apart have lag 83 up to 142, and 82 up to 82",
        (speech::half(142, 83, 385, 1) == Ok(83)) & (speech::half(82, 83, 385, 1) == Ok(82)),
    );
    tally.case(
        "up to 82 half 0 takes 205 samples, and 204 are refused with 1",
        (speech::half(82, 41, 205, 0) == Ok(41))
            & (speech::half(82, 41, 204, 0) == Err(Refusal::Length)),
    );
    tally.case(
        "up to 82 half 1 takes 325 samples, and 324 are refused with 1",
        (speech::half(82, 41, 325, 1) == Ok(41))
            & (speech::half(82, 41, 324, 1) == Err(Refusal::Length)),
    );
    tally.case(
        "without 60 samples of history pulses 41 apart have the same lag up to 82, and pulses 100 apart lag 18",
        speech::with_less_history(41, 1, 41, 41) & speech::with_less_history(100, 0, 100, 18),
    );
    tally.case(
        "pitch up to 83, of half 5 of three NaNs, is refused with 2",
        speech::other_limit(),
    );
}

fn shaping_cases(tally: &mut Tally<impl Print>) {
    tally.case(
        "shaping up to 82 goes on to lag 85: factor 0.3125",
        speech::three_above(),
    );
    tally.case(
        "shaping up to 82 refuses lag 83 with 4, and place 84 with 3",
        speech::shaping_refused(82, 85, 83, Refusal::Lag)
            & speech::shaping_refused(82, 84, 82, Refusal::Place),
    );
    tally.case(
        "without 60 samples of history shaping around 41 is the same up to 82, and around 83 it is refused with 4",
        speech::shaped_with_less_history(),
    );
    tally.case(
        "shaping up to 141, of lag 3 at place 0, is refused with 2",
        speech::shaping_refused(141, 0, 3, Refusal::Choice),
    );
}

fn filter_cases(tally: &mut Tally<impl Print>) {
    tally.case(
        "at 82, lag 85 over 1 to 145: 0.75, -0.5, -0.75, -1, ..; 61 to 85, 1 and zeros are kept, and 86 to 145 stay",
        filters::oldest_in_use(),
    );
    tally.case(
        "at 82, lag 86 is refused with 4, and the memory is as it was",
        filters::out_of_reach(),
    );
    tally.case(
        "at 142, lag 85 over 1 to 145: -14.25, -15.5, -15.75, -16, ..",
        filters::input_at_60(),
    );
    tally.case(
        "at 82, lag 85 over 61 to 145: the same outputs, and the last 85 of what 142 keeps are kept",
        filters::with_less_history(),
    );
    tally.case(
        "at 100, lag 3 and a NaN in the history are refused with 2, and the memory is as it was",
        filters::other_limit(),
    );
    tally.case(
        "at 82 a NaN at place 84 is refused with 5, and at place 85 it is neither read nor altered",
        filters::nan_beside_the_history(),
    );
    tally.case(
        "at 82 two subframes in a row keep the limit, and the first inputs come back",
        filters::in_a_row(),
    );
}

fn other_cases(tally: &mut Tally<impl Print>) {
    tally.case(
        "a new memory of 142 or 82 is at rest with that limit; 0, 83 and 145 are refused with 2 and zeros",
        filters::new_memories(),
    );
    let lag = speech::shaped_100();
    tally.case(
        "lag 100, which shaping answers up to 142, is taken by a filter of 142 and refused with 4 by one of 82",
        lag.is_some_and(|lag| (lag == 100) & filters::of_the_other_limit(lag)),
    );
    tally.case(
        "the impulse response up to 82 has lag 59 and takes lag 85; 86 is refused with 4, and limit 83 with 2",
        filters::responses(),
    );
}

fn main(rt: HostRuntime) {
    let mut tally = Tally::new(&rt);
    pitch_cases(&mut tally);
    shaping_cases(&mut tally);
    filter_cases(&mut tally);
    other_cases(&mut tally);
    tally.finish();
}
