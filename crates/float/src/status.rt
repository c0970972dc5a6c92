// Why an operation refuses: its answer is a `Result`, and an `Err` holds one of these.
ghost use Rattle.std.specs.Prelude.{◌≡◌};
ghost use Rattle.float.specs.Answered.{number};

#[derive(Clone, Copy, Debug, PartialEq, Eq)]
pub enum Refusal {
    // too few or too many samples, or a buffer of another length
    Length,
    // a half, a band or a limit that there is not
    Choice,
    // a place with too few samples before or after it
    Place,
    // a lag out of reach
    Lag,
    // a float that is infinite or a NaN
    NotFinite,
    // a value out of its range
    OutOfRange,
    // a filter without ten lines
    NoLines,
    // a frame that has not its 360 samples
    FrameLength,
    // an index of more than 24 bits
    LongIndex,
    // a file of another form
    FileForm,
    // a file with a number out of its range
    FileNumber,
}

impl Refusal {
    // The status that C is told.
    pub fn number(self) -> u32
        ensures { result ≡ number self }
    {
        match self {
            Refusal::Length => 1,
            Refusal::Choice => 2,
            Refusal::Place => 3,
            Refusal::Lag => 4,
            Refusal::NotFinite => 5,
            Refusal::OutOfRange => 6,
            Refusal::NoLines => 7,
            Refusal::FrameLength => 8,
            Refusal::LongIndex => 9,
            Refusal::FileForm => 10,
            Refusal::FileNumber => 11,
        }
    }
}
