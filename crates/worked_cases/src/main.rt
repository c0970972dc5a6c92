// The worked cases of document 01 that are run, E11 to E14, with E11's step as request E1 has it, the limits of narrowing and of
// the cosine rule, whole frames as request E2 has them, the combined filter's memories, which request E3 leaves as they were,
// indices of 24 bits and longer words, which request E4 refuses, and code rows of a caller's own, which request E5 loads: one line
// each, and how many passed.
#![tactic(auto)]

mod cosines;
mod files;
mod filters;
mod frames;
mod frequencies;
mod indices;
mod lists;
mod narrowing;
mod rows;
mod stages;

use float::status::Refusal;
use tally::Tally;

// 65,536.0078125 is the next single above 65,536.
fn frequency_cases(t: &mut Tally<impl Print>) {
    t.case(
        "frequency 3/1024 takes step 2",
        frequencies::step_is(3.0 / 1024.0, 2),
    );
    t.case(
        "frequency -3/1024 takes step 2",
        frequencies::step_is(-3.0 / 1024.0, 2),
    );
    t.case(
        "frequencies 1/1024, 5/1024 and 7/1024 take steps 0, 2 and 4",
        frequencies::halves_are_even(),
    );
    t.case(
        "the singles beside 1/1024 and 3/1024 take the nearest step",
        frequencies::beside_a_half(),
    );
    t.case(
        "the last frequency below 16,384 has cosine 0",
        frequencies::last_below_the_quarter(),
    );
    t.case("frequency 65,536 is taken", frequencies::taken(65536.0));
    t.case("frequency -65,536 is taken", frequencies::taken(-65536.0));
    t.case(
        "the next frequency above 65,536 is refused with 6 and ten zeros",
        frequencies::refused(65536.0078125),
    );
    t.case(
        "the next frequency below -65,536 is refused with 6 and ten zeros",
        frequencies::refused(-65536.0078125),
    );
}

fn stage_cases(t: &mut Tally<impl Print>) {
    t.case(
        "equal frequencies have weights of 1",
        stages::equal_weights(),
    );
    t.case(
        "179 samples are refused with 1 and zeros",
        stages::short_window(),
    );
    t.case(
        "ratio 133 at lag 36 loses to 100 at lag 18",
        !stages::takes_over(36, 133.0),
    );
    t.case(
        "ratio 134 at lag 36 wins over 100 at lag 18",
        stages::takes_over(36, 134.0),
    );
    t.case(
        "ratio 101 at lag 35 wins over 100 at lag 18",
        stages::takes_over(35, 101.0),
    );
    t.case(
        "bare filter, lag 18, factor 0.25: 1, -0.25 at sample 18, and 58 zeros",
        stages::bare_filter(),
    );
    t.case(
        "lag 146 is refused with 4, and the filter's memory is as it was",
        stages::memory_kept(),
    );
}

fn narrowing_cases(t: &mut Tally<impl Print>) {
    t.case("a NaN narrows to a NaN", narrowing::keeps_nan());
    t.case("infinity narrows to infinity", narrowing::keeps_infinity());
    t.case("2^128 narrows to infinity", narrowing::overflows());
    t.case("ties narrow to the even single", narrowing::ties_to_even());
    t.case(
        "2^-149, the smallest single, is kept",
        narrowing::keeps_subnormals(),
    );
    t.case("-0 narrows to -0", narrowing::keeps_minus_zero());
}

fn step_cases(t: &mut Tally<impl Print>) {
    t.case("cosine 2 takes step 0", cosines::step_is(2.0, 0));
    t.case("cosine 0 takes step 2^23", cosines::step_is(0.0, 8388608));
    t.case(
        "cosine -1 takes step 2^24",
        cosines::step_is(-1.0, 16777216),
    );
    t.case(
        "the cosine of entry 1,302 takes step 1,302 x 4,096",
        cosines::steps_of_an_entry(),
    );
    t.case("a NaN takes step 2^24", cosines::step_of_nan());
}

// 0x3f80_0000 is 1, 0xbf80_0000 is −1.
fn cosine_cases(t: &mut Tally<impl Print>) {
    t.case("step 0 has cosine 1", cosines::cosine_is(0, 0x3f80_0000));
    t.case("step 2^23 has cosine 0", cosines::cosine_is(8388608, 0));
    t.case(
        "step 2^24 has cosine -1",
        cosines::cosine_is(16777216, 0xbf80_0000),
    );
    t.case(
        "step 3 x 2^23 has cosine 0",
        cosines::cosine_is(25165824, 0),
    );
    t.case(
        "step 2^25 has cosine 1",
        cosines::cosine_is(33554432, 0x3f80_0000),
    );
    t.case(
        "step 5 has an angle by the single pi",
        cosines::angle_of_step_5(),
    );
    t.case(
        "angle pi/2^25 takes step 0, and the next single step 1",
        cosines::angle_halfway(),
    );
    t.case(
        "steps 3, 10,680,706 and 10,680,707 come back from their angles",
        cosines::angle_back(),
    );
}

fn frame_cases(t: &mut Tally<impl Print>) {
    t.case(
        "a filter without ten lines after the resting set has index 0, and the set rests",
        frames::at_rest(),
    );
    t.case(
        "a filter without ten lines after another set has index 12,812,705",
        frames::after_a_set(),
    );
    t.case(
        "a frame of zeros has index 11,767,742, lags 18 and 18 and no shaping",
        frames::zeros(),
    );
    t.case(
        "a second frame of zeros has index 11,505,325, lags 18 and 18 and no shaping",
        frames::zeros_again(),
    );
    t.case(
        "a frame of a parabola modulo 2,001 has index 12,876,221, lags 92 and 44 and no shaping",
        frames::of_parabola(),
    );
    t.case(
        "a frame of pulses 40 samples apart has index 14,390,718, lags 40 and 40 and shaping at 40",
        frames::of_pulses(),
    );
    t.case(
        "a frame of a square of seven samples has index 7,613,739, lags 28 and 28 and shaping at 28",
        frames::of_square(),
    );
    frame_refusals(t);
}

fn frame_refusals(t: &mut Tally<impl Print>) {
    t.case(
        "359 and 361 samples are refused with 8, whatever else is wrong",
        frames::length_first(),
    );
    t.case(
        "a set of 70,000 is refused with 6 before a spacing that is a NaN",
        frames::set_before_spacing(),
    );
    t.case(
        "spacing 401 is refused with 6 before cosines that are NaNs",
        frames::spacing_before_cosines(),
    );
    t.case("spacing -0 is taken", frames::minus_zero_taken());
    t.case(
        "an infinity in the weighted speech before the frame is refused with 5",
        frames::infinite_past(),
    );
    t.case(
        "a refused frame is zeros, and the coder's memories are as they were",
        frames::refusal_keeps(),
    );
}

fn filter_cases(t: &mut Tally<impl Print>) {
    t.case(
        "an impulse over a history of 1 to 145 at lag 145: 0.75, -0.5, -0.75, -1, .., and a history of 61 to 145, 1 and zeros",
        filters::oldest_input(),
    );
    t.case(
        "the same at lag 85: -14.25, -15.5, -15.75, -16, ..",
        filters::input_at_60(),
    );
    t.case(
        "memories of 1 to 10, 11 to 20 and 21 to 30, and no input: -3, 0.875, -0.28125, 0.1015625, ..",
        filters::three_memories(),
    );
}

fn index_cases(t: &mut Tally<impl Print>) {
    t.case(
        "66,051 splits to 1, 2 and 3",
        indices::splits(66051, [1, 2, 3]),
    );
    t.case(
        "4,278,256,131 is refused with 9, and its rows are zeros",
        indices::split_refused(4278256131),
    );
    t.case(
        "16,777,215 splits to 255, 255 and 255",
        indices::splits(16777215, [255, 255, 255]),
    );
    t.case(
        "16,777,216 is refused with 9, and its rows are zeros",
        indices::split_refused(16777216),
    );
    t.case(
        "index 16,777,215 decodes to 4,824, 9,514, 13,702, 14,841, 19,206, 21,407, 22,675, 25,777, 28,051, 29,036",
        indices::last_index(),
    );
    t.case(
        "50,397,699, which is 66,051 with its length byte on top, is refused with 9 and ten zeros",
        indices::decode_refused(50397699),
    );
    t.case(
        "16,777,216 is refused with 9 before a previous set with a NaN, or of 70,000s",
        indices::after_unfit_sets(16777216, Refusal::LongIndex, Refusal::LongIndex),
    );
    t.case(
        "after 16,777,215 such a set is refused with 5, or with 6",
        indices::after_unfit_sets(16777215, Refusal::NotFinite, Refusal::OutOfRange),
    );
    t.case(
        "over lent rows 16,777,216 is refused with 9, and 66,051 decodes",
        indices::over_lent_rows(),
    );
}

fn file_cases(t: &mut Tally<impl Print>) {
    t.case(
        "the built-in rows' file has 5,128 bytes of FNV 17842c971b3fa02a, and loads to them",
        rows::built_in_file(),
    );
    t.case(
        "behind 27,640 bytes of notes, and behind 3, it loads to them too",
        rows::behind_notes(),
    );
    t.case(
        "behind 27,641 it is refused with 10, and the buffer is as it was",
        rows::notes_too_long(),
    );
    t.case(
        "of two files behind each other the last one counts",
        rows::last_file_counts(),
    );
    t.case(
        "less a byte, or with one behind it, a file is refused with 10",
        rows::cut_and_lengthened(),
    );
    t.case(
        "so are the count before the distance, and a trailer with the high byte first",
        rows::other_trailers(),
    );
    t.case(
        "the file of R has FNV 5d0a77e237208297, and loads to R",
        rows::other_file(),
    );
    t.case("a last number of 8,192 is taken", rows::taken_last(8192));
    t.case("a last number of -8,192 is taken", rows::taken_last(-8192));
    t.case(
        "a last number of 8,193 is refused with 11, and the buffer is as it was",
        rows::refused_last(8193),
    );
    t.case(
        "a last number of -8,193 is refused with 11, and the buffer is as it was",
        rows::refused_last(-8193),
    );
    t.case(
        "another trailer is refused with 10 before a number of 8,193",
        rows::form_first(),
    );
    t.case(
        "a buffer of 2,559 places is refused with 1, whatever the file",
        rows::buffer_first(),
    );
}

fn row_cases(t: &mut Tally<impl Print>) {
    t.case(
        "row 0 of band 0 of R is -8192 -273 7646, at place 0",
        rows::first_row(),
    );
    t.case(
        "row 255 of band 1 of R is 6735 -1731 6188, at place 1,533",
        rows::last_of_band_1(),
    );
    t.case(
        "row 255 of band 2 of R is -2703 5216 -3250 4669, at place 2,556",
        rows::last_of_band_2(),
    );
    t.case(
        "a row of band 3 is refused with 2, an empty part",
        rows::no_such_row(3, 0),
    );
    t.case(
        "row 256 of band 0 is refused with 2, an empty part",
        rows::no_such_row(0, 256),
    );
    t.case(
        "of 2,559 numbers a row is refused with 1 before the band is looked at, an empty part",
        rows::no_row_of_2559(),
    );
    t.case(
        "over R the case's set has index 16,182,995, and the set that it decodes to",
        rows::quantised(),
    );
    t.case(
        "over the built-in rows, lent, it has index 66,051",
        rows::built_in_lent(),
    );
    t.case(
        "over 2,559 numbers all else is refused with 1 and zeros",
        rows::length_first(),
    );
    t.case(
        "over R a NaN is refused with 5, 70,000 with 6 and a longer word with 9, in their order",
        rows::refused_in_order(),
    );
    t.case(
        "over rows of 16,384, which no load takes, the second set is 22,528 off; over 32,767 the third index is refused with 6",
        rows::beyond_the_check(),
    );
    t.case(
        "a frame over the built-in rows, lent, is the built-in frame, and over R another",
        rows::frame_lent(),
    );
    t.case(
        "a frame over 2,559 numbers is refused with 1, and the memories are as they were",
        rows::frame_refused(),
    );
}

fn main(rt: HostRuntime) {
    let mut tally = Tally::new(&rt);
    frequency_cases(&mut tally);
    stage_cases(&mut tally);
    narrowing_cases(&mut tally);
    step_cases(&mut tally);
    cosine_cases(&mut tally);
    frame_cases(&mut tally);
    filter_cases(&mut tally);
    index_cases(&mut tally);
    file_cases(&mut tally);
    row_cases(&mut tally);
    tally.finish();
}
