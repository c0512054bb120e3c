// The settings of a run, and the table of refusals.
#![tactic(auto)]

ghost use Rattle.std.specs.Prelude.{◌≡◌, ◌≤◌, Some};
ghost use Rattle.hyperparams.specs.Params as Definitions;
ghost use Rattle.hyperparams.specs.Params.{whole_tolerance_of, slack_power_of, appx_tolerance_of, work_words, max_frames, max_power, checked_of, number_of, text_of};

use std::error::Error;
use std::fmt;

// "A frame is 1 to 4 channels", "0 to 4,096 frames", "s from 0 to 10"
pub const MAX_CHANNELS: usize = 4;

pub const MAX_FRAMES: usize = 4096;

pub const MAX_POWER: usize = 10;

// Every tolerance is below this: "a whole number, 1 to 65,535".
const TOLERANCE_END: f64 = 65536.0;

// The settings as the caller gives them (AppxDbscanParams of the source).
#[derive(Clone, Copy, Debug, PartialEq)]
pub struct Params {
    pub channels: usize,
    pub min_points: usize,
    pub tolerance: f64,
    pub slack: f64,
}

// Settings that passed the table: t is the tolerance as a whole number, and the slack is 1 / 2^s (AppxDbscanValidParams of the source).
#[derive(Clone, Copy, Debug, PartialEq)]
pub struct ValidParams {
    pub channels: usize,
    pub min_points: usize,
    pub tolerance: f64,
    pub appx_tolerance: f64,
    pub t: u64,
    pub s: usize,
}

// Why a call is refused: rows 1 to 9 of the table, in its order (AppxDbscanParamsError of the source has the first three).
#[derive(Clone, Copy, Debug, PartialEq, Eq)]
pub enum Refusal {
    MinPoints,
    Tolerance,
    Slack,
    ToleranceDomain,
    SlackDomain,
    Channels,
    Points,
    Results,
    Work,
}

// The numbers of the table.
impl From<Refusal> for u8 {
    ghost from_gives = { λ refusal n. n ≡ number_of refusal };

    fn from(refusal: Refusal) -> u8 {
        match refusal {
            Refusal::MinPoints => 1,
            Refusal::Tolerance => 2,
            Refusal::Slack => 3,
            Refusal::ToleranceDomain => 4,
            Refusal::SlackDomain => 5,
            Refusal::Channels => 6,
            Refusal::Points => 7,
            Refusal::Results => 8,
            Refusal::Work => 9,
        }
    }
}

// What must hold of the row's settings or lengths: of the first three rows in the words of the source.
impl fmt::Display for Refusal {
    ghost output = { λ refusal. Some (text_of refusal) };

    fn fmt<W: fmt::Write>(&self, f: &mut fmt::Formatter<W>) -> fmt::Result {
        f.write_str(match self {
            Refusal::MinPoints => "min_points must be greater than 1",
            Refusal::Tolerance => "tolerance must be greater than 0",
            Refusal::Slack => "slack must be greater than 0",
            Refusal::ToleranceDomain => "tolerance must be a whole number from 1 to 65535",
            Refusal::SlackDomain => "slack must be 1 divided by 2 to the power s, s from 0 to 10",
            Refusal::Channels => "a frame must have 1 to 4 channels",
            Refusal::Points => "points must be whole frames, at most 4096",
            Refusal::Results => "labels and kinds must have room for every frame",
            Refusal::Work => "work must have frames * (16 + 4 * (s + 2)) words",
        })
    }
}

impl Error for Refusal {}

// "Tolerance t: an f64 holding a whole number, 1 to 65,535": that number, if the tolerance holds one.
fn whole_tolerance(tolerance: f64) -> Option<u64>
    ensures { result ≡ whole_tolerance_of tolerance }
{
    if tolerance > 0.0 && tolerance < TOLERANCE_END {
        let t = std::num::truncating_f64_to_u64(tolerance);
        if t as f64 == tolerance {
            return Some(t);
        }
    }
    None
}

// "1 divided by 2 to the power s"
fn slack_at(s: usize) -> f64
    requires { s ≤ max_power }
    ensures { result ≡ Definitions.slack_at s }
{
    1.0 / ((1u64 << s) as f64)
}

// "The slack is an f64 equal to 1 divided by 2 to the power s, s from 0 to 10": that s, if there is one.
fn slack_power(slack: f64) -> Option<usize>
    ensures { result ≡ slack_power_of slack }
{
    (0..MAX_POWER + 1).find(|s| slack == slack_at(*s))
}

// "Extended tolerance = t × (1 + slack)"
pub fn appx_tolerance(tolerance: f64, slack: f64) -> f64
    ensures { result ≡ appx_tolerance_of tolerance slack }
{
    tolerance * (1.0 + slack)
}

// "Work memory (added): unsigned 16-bit words, frames × (16 + 4 × (L + 1)).", "Levels below the root: L = 1 + s."
pub fn work_words(frames: usize, s: usize) -> usize
    requires frames { frames ≤ max_frames }
    requires s { s ≤ max_power }
    ensures words { result ≡ work_words frames s }
    ensures bound { result ≤ work_words max_frames max_power }
{
    let levels = 1 + s;
    frames * (16 + 4 * (levels + 1))
}

impl Params {
    // "The table of refusals (first that applies, top down)", rows 1 to 9, on the settings and the lengths of the slices.
    pub fn check(
        self,
        points: usize,
        labels: usize,
        kinds: usize,
        work: usize,
    ) -> Result<ValidParams, Refusal>
        ensures { result ≡ checked_of self points labels kinds work }
    {
        if self.min_points <= 1 {
            return Err(Refusal::MinPoints);
        }
        if self.tolerance <= 0.0 {
            return Err(Refusal::Tolerance);
        }
        if self.slack <= 0.0 {
            return Err(Refusal::Slack);
        }
        let t = whole_tolerance(self.tolerance).ok_or(Refusal::ToleranceDomain)?;
        let s = slack_power(self.slack).ok_or(Refusal::SlackDomain)?;
        let channels = self.channels;
        if channels < 1 || channels > MAX_CHANNELS {
            return Err(Refusal::Channels);
        }
        let frames = points / channels;
        if points % channels != 0 || frames > MAX_FRAMES {
            return Err(Refusal::Points);
        }
        if labels < frames || kinds < frames {
            return Err(Refusal::Results);
        }
        if work < work_words(frames, s) {
            return Err(Refusal::Work);
        }
        Ok(ValidParams {
            channels,
            min_points: self.min_points,
            tolerance: self.tolerance,
            appx_tolerance: appx_tolerance(self.tolerance, self.slack),
            t,
            s,
        })
    }
}
