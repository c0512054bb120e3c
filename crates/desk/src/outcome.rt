// What comes of an input: labels, or why there are none.
ghost use Rattle.std.specs.Prelude.{◌≡◌, ◌≤◌};
ghost use Rattle.desk.specs.Desk.{most_frames};

use crate::input::MAX_FRAMES;
use appx_dbscan::Counts;
use hyperparams::Refusal;

// The labels and kinds of the frames, which come first in the arrays.
#[derive(Clone, Copy)]
pub struct Labelled {
    pub frames: usize,
    pub counts: Counts,
    pub labels: [u16; MAX_FRAMES],
    pub kinds: [u8; MAX_FRAMES],
    pub ghost few: { frames ≤ most_frames },
}

// "A refusal": of the input as it is written, or of the run that it asks for.
#[derive(Clone, Copy)]
pub enum Failure {
    Malformed,
    Refused(Refusal),
}

impl From<Refusal> for Failure {
    ghost use Rattle.desk.specs.declared.outcome.Failure.TheVariants.{Refused};

    ghost from_gives = { λ refusal failure. failure ≡ Refused refusal };

    fn from(refusal: Refusal) -> Failure {
        Failure::Refused(refusal)
    }
}

impl Failure {
    ghost use Rattle.desk.specs.Outcomes.{number_after};

    // "Number 10" of a malformed input, the table's of a refused run.
    pub fn number(self) -> u8
        ensures { result ≡ number_after self }
    {
        match self {
            Failure::Malformed => 10,
            Failure::Refused(refusal) => refusal.into(),
        }
    }
}
