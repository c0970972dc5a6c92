// The limit of a caller's lags (request E6): one of two, which pitch, shaping and the combined filter share.
#![tactic(auto)]

ghost use Rattle.std.specs.Prelude.{◌≡◌};
ghost use Rattle.lag_limit.specs.Limit.{reach};
ghost use Rattle.lag_limit.specs.Choice.{lags_of, Chooses};

use float::status::Refusal;

#[derive(Clone, Copy, Debug, PartialEq, Eq)]
pub enum LagLimit {
    // lags up to 142
    Logger,
    // lags up to 82
    Gateway,
}

impl LagLimit {
    // The highest lag.
    pub fn lags(self) -> u32
        ensures { result ≡ lags_of self }
    {
        match self {
            LagLimit::Logger => 142,
            LagLimit::Gateway => 82,
        }
    }

    // How many samples of history the lags read.
    pub fn reach(self) -> usize
        ensures { result ≡ reach (lags_of self) }
    {
        self.lags() as usize + 3
    }
}

// Whether it is a logger's or the gateway's.
impl TryFrom<u32> for LagLimit {
    type Error = Refusal;

    ghost try_from_gives = { Chooses };

    fn try_from(limit: u32) -> Result<Self, Refusal> {
        match limit {
            142 => Ok(LagLimit::Logger),
            82 => Ok(LagLimit::Gateway),
            _ => Err(Refusal::Choice),
        }
    }
}
