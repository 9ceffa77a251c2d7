//! What a run comes to.

ghost use Rattle.std.specs.Prelude.{◌≡◌, Some};
ghost use Rattle.stan_cli.specs.Tally.{tally_of};

use crate::Refusal;
use std::fmt;

/// How many files were analysed, and how many of their results were taken from earlier runs.
#[derive(Clone, Copy, Debug, PartialEq, Eq)]
pub struct Tally {
    pub files: u32,
    pub reused: u32,
    pub analysed: u32,
}

/// What a run comes to.
#[derive(Clone, Copy, Debug, PartialEq, Eq)]
pub struct Outcome {
    /// 2 with a refusal, 1 where the report has a fault, else 0.
    pub status: u8,
    pub refusal: Option<Refusal>,
    /// Three zeros with a refusal.
    pub tally: Tally,
}

impl Outcome {
    /// The outcome of a run that is refused.
    pub fn refused(refusal: Refusal) -> Outcome
        ensures status { result.status ≡ 2 }
        ensures refusal { result.refusal ≡ Some refusal }
        ensures tally { result.tally ≡ tally_of 0 }
    {
        Outcome {
            status: 2,
            refusal: Some(refusal),
            tally: Tally {
                files: 0,
                reused: 0,
                analysed: 0,
            },
        }
    }
}

/// The line about a run: why it was refused, or how many files there were.
impl fmt::Display for Outcome {
    ghost use Rattle.stan_cli.specs.About.{about};

    ghost output = { λ outcome. Some (about outcome) };

    fn fmt<W: fmt::Write>(&self, f: &mut fmt::Formatter<W>) -> fmt::Result {
        match &self.refusal {
            Some(refusal) => write!(f, "stan: {refusal}"),
            None => {
                let Tally {
                    files,
                    reused,
                    analysed,
                } = self.tally;
                write!(f, "files {files}, reused {reused}, analysed {analysed}")
            }
        }
    }
}
