// The input: "lowercase hexadecimal, each line ended by a line feed".
ghost use Rattle.std.specs.Prelude.{◌≡◌, ◌-◌, ◌/◌, ◌≤◌, ◌<◌, length};
ghost use Rattle.lists.specs.Words.{column};
ghost use Rattle.hyperparams.specs.Params.{slack_at};
ghost use Rattle.desk.specs.Desk.{is_line, are_lines, channels_of, frame_count, well_formed, count_at, parsed, settings_of};

use hexadecimal::{digit, number, signed};
use hyperparams::Params;

pub const LINE_FEED: u8 = 10;

// "Line one, 12 digits"
const LINE_ONE: usize = 12;

// "over 256 frames"
pub const MAX_FRAMES: usize = 256;

pub const MAX_POINTS: usize = MAX_FRAMES * hyperparams::MAX_CHANNELS;

// Whether a line is of digits, with a line feed after them.
fn is_line(line: &[u8]) -> bool
    ensures { result ≡ is_line line.now 0 (length line.now - 1) }
{
    match line.split_last() {
        Some((end, digits)) => digits.iter().all(|b| digit(*b).is_some()) && *end == LINE_FEED,
        None => false,
    }
}

// Whether a text is lines of so many bytes.
fn are_lines(text: &[u8], size: usize) -> bool
    requires { 0 < size }
    ensures { result ≡ are_lines text.now (size - 1) (length text.now / size) 0 }
{
    text.chunks_exact(size).all(is_line) && text.len() % size == 0
}

// The channels of line one.
pub(crate) fn channels(input: &[u8]) -> usize
    ensures value { result ≡ channels_of input.now }
    ensures bound { result < 256 }
{
    number(input, 0, 2) as usize
}

// How many frame lines are as long as what follows line one.
pub(crate) fn frame_count(input: &[u8]) -> usize
    ensures { result ≡ frame_count input.now }
{
    let d = channels(input);
    input.len().saturating_sub(LINE_ONE + 1) / (4 * d + 1)
}

// Whether the input is not malformed, "number 10".
pub(crate) fn well_formed(input: &[u8]) -> bool
    ensures { result ≡ well_formed input.now }
{
    let Some((first, frames)) = input.split_at_checked(LINE_ONE + 1) else {
        return false;
    };
    let d = channels(input);
    is_line(first)
        && (1..=4).contains(&d)
        && frame_count(input) <= MAX_FRAMES
        && are_lines(frames, 4 * d + 1)
}

// Count i of the frames of d channels.
#[tactic(auto, unfolding(crate::specs::Desk::count_at))]
fn count_at(input: &[u8], d: usize, i: usize) -> i16
    requires { (1 ≤ d) × (i < 1024) }
    ensures { result ≡ count_at input.now d i }
{
    signed(input, LINE_ONE + 1 + 4 * i + i / d)
}

// Reads as many counts of the frames of d channels as there is room for.
pub(crate) fn read_points(input: &[u8], d: usize, points: &mut [i16])
    requires { (1 ≤ d) × (length points.old ≤ 1024) }
    ensures { points.new ≡ column (count_at input.now d) (length points.old) }
{
    for (i, point) in points.iter_mut().enumerate() {
        *point = count_at(input, d, i);
    }
}

// "The slack is an f64 equal to 1 divided by 2 to the power s", for any two digits of s.
fn slack(s: u8) -> f64
    ensures { result ≡ slack_at s }
{
    1.0 / f64::powi(2.0, i32::from(s))
}

// The settings of line one.
#[tactic(auto, unfolding(crate::specs::Desk::parsed))]
pub(crate) fn settings(input: &[u8]) -> Params
    ensures { result ≡ settings_of (parsed input.now) }
{
    Params {
        channels: channels(input),
        min_points: number(input, 2, 4) as usize,
        tolerance: (number(input, 6, 4) as u16) as f64,
        slack: slack(number(input, 10, 2) as u8),
    }
}
