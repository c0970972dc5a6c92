// Both ends of a line, turn by turn: what `proofs/Rejoin.antt` is about, as a function that a program can run.
#![tactic(auto)]

ghost use Rattle.std.specs.Prelude.{◌≡◌};
ghost use Rattle.spec_tables.specs.Codebook.{lsp_rows};
ghost use Rattle.spec_lsp.specs.Decode.{decode_lsp_freq};
ghost use Rattle.spec_lsp.specs.Quantise.{quantise_lsp_freq};
ghost use Rattle.line.specs.Line.{received, played};
ghost use Rattle.line.specs.Answers.{as_played};
ghost use Rattle.line.specs.Claim.{start};

use spec_lsp::{decode, quantise, resting};

// What the coder is given, and whether the line would bring its index.
#[derive(Clone, Copy, Debug, PartialEq)]
pub struct Turn {
    pub given: [f32; 10],
    pub brings: bool,
}

// Each end's set.
#[derive(Clone, Copy, Debug, PartialEq)]
pub struct Ends {
    pub coder: [f32; 10],
    pub decoder: [f32; 10],
}

// What became of a turn: the coder refused its set, or sent an index, which was lost or arrived.
#[derive(Clone, Copy, Debug, PartialEq)]
pub enum Outcome {
    Refused,
    Lost,
    Arrived,
}

// Both ends after a turn, and what became of it.
#[derive(Clone, Copy, Debug, PartialEq)]
pub struct Played {
    pub ends: Ends,
    pub outcome: Outcome,
}

// Both ends before the first turn.
pub fn begin() -> Ends
    ensures { result ≡ start }
{
    let set = resting::resting_set();
    Ends {
        coder: set,
        decoder: set,
    }
}

// A set after an index; were it refused, the set would stay.
pub fn received(index: u32, set: [f32; 10]) -> [f32; 10]
    ensures { result ≡ received (decode_lsp_freq lsp_rows) index set }
{
    decode::decode_lsp_freq(index, set).unwrap_or(set)
}

// One turn for both ends.
#[tactic(auto, unfolding(crate::specs::Line::played, crate::specs::Line::step))]
pub fn play(ends: Ends, turn: Turn) -> Played
    ensures { as_played result ≡ played (quantise_lsp_freq lsp_rows) (decode_lsp_freq lsp_rows) ends turn }
{
    let Ok(sent) = quantise::quantise_lsp_freq(turn.given, ends.coder) else {
        return Played {
            ends,
            outcome: Outcome::Refused,
        };
    };
    let coder = sent.set;
    let kept = ends.decoder;
    if turn.brings {
        let decoder = received(sent.index, kept);
        Played {
            ends: Ends { coder, decoder },
            outcome: Outcome::Arrived,
        }
    } else {
        Played {
            ends: Ends {
                coder,
                decoder: kept,
            },
            outcome: Outcome::Lost,
        }
    }
}
