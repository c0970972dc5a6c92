// The doors that take samples of speech.
use crate::buffers;
use crate::buffers::MARK;
use lpc::LpcSet;
use pitch::HnsParams;

// Pulses of 1 and 0.75, 40 samples apart, over a small hum.
fn pulses() -> [f32; 265] {
    let mut wbuf = [0.125; 265];
    wbuf[105] = 0.75;
    wbuf[145] = 1.0;
    wbuf[185] = 0.75;
    wbuf[225] = 1.0;
    wbuf
}

pub fn analysis() -> bool {
    let mut window = [0.25; 180];
    window[30] = 1.0;
    window[71] = -0.5;
    buffers::hold(
        |window, (a, r, k2)| c_api::g7231_bare_lpc_analysis(window, a, r, k2),
        [(&window[..179], 1)],
        &window[..],
        ([MARK; 11], [77.0; 11], MARK),
        lpc::lpc_analysis(&window).map(|LpcSet { a, r, k2 }| (a, r, k2)),
    )
}

pub fn pitch() -> bool {
    let wbuf = pulses();
    buffers::hold(
        |half, lag| c_api::g7231_bare_open_loop_pitch(142, &wbuf, half, lag),
        [(2, 2)],
        0,
        77,
        pitch::open_loop_pitch(142, &wbuf, 0),
    )
}

pub fn shaping() -> bool {
    let wbuf = pulses();
    buffers::hold(
        |l_ol, lent| {
            c_api::g7231_bare_harmonic_noise_shaping(
                142,
                &wbuf,
                145,
                l_ol,
                &mut lent.lag,
                &mut lent.beta,
            )
        },
        [(17, 4)],
        40,
        HnsParams {
            lag: 77,
            beta: MARK,
        },
        pitch::harmonic_noise_shaping(142, &wbuf, 145, 40),
    )
}
