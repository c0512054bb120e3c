// The desk program as a function from the bytes of its input to the bytes of its output.
#![tactic(auto)]

mod input;
mod outcome;
mod output;

ghost use Rattle.std.specs.Prelude.{◌≡◌, true, ◌≤◌, length};
ghost use Rattle.lists.specs.Words.{over};
ghost use Rattle.desk.specs.Desk.{desk_of, most_bytes};
ghost use Rattle.desk.specs.Outcomes.{lines_after};

use input::{MAX_FRAMES, MAX_POINTS};
use outcome::{Failure, Labelled};
use std::marker::Model;

// The longest output: a line of 7 bytes for each frame, and 9 for the last line.
pub const MAX_OUTPUT: usize = MAX_FRAMES * 7 + 9;

// The longest well-formed input: 13 bytes for line one, and 17 for each frame of four channels.
pub const MAX_INPUT: usize = 13 + MAX_FRAMES * 17;

// "frames × (16 + 4 × (L + 1))", for 256 frames at s = 10.
const MAX_WORDS: usize = MAX_FRAMES * (16 + 4 * 12);

// The bytes of an output. Zeros follow them in the array.
#[derive(Clone, Copy)]
pub struct Printed {
    bytes: [u8; MAX_OUTPUT],
    len: usize,
}

impl Model for Printed {
    ghost use Rattle.std.specs.Prelude.{List, ℕ};

    ghost Value = { List ℕ };

    ghost use Rattle.desk.specs.Printed.{bytes_of, printed_of, IsPadded, printed_back};

    ghost view = { bytes_of };

    ghost invariant = { IsPadded };

    ghost inverse = { printed_of };

    ghost inverse_ok = { printed_back };
}

impl Printed {
    pub fn as_bytes(&self) -> &[u8]
        ensures { result.now ≡ self.now }
    {
        &self.bytes[..self.len]
    }
}

// "the desk program, which tests its whole input before any run"
#[tactic(auto, using(crate::proofs::Whole::sizes))]
fn run(input: &[u8]) -> Result<Labelled, Failure>
    ensures { lines_after result ≡ desk_of input.now }
{
    if !input::well_formed(input) {
        return Err(Failure::Malformed);
    }
    let d = input::channels(input);
    let frames = input::frame_count(input);
    let mut room = [0i16; MAX_POINTS];
    let points = &mut room[..frames * d];
    input::read_points(input, d, points);
    let p = input::settings(input);
    let mut labels = [0u16; MAX_FRAMES];
    let mut kinds = [0u8; MAX_FRAMES];
    let mut work = [0u16; MAX_WORDS];
    let counts = appx_dbscan::transform(points, p, &mut labels, &mut kinds, &mut work)?;
    Ok(Labelled {
        frames,
        counts,
        labels,
        kinds,
    })
}

// Writes the lines of what comes of an input. Returns how many bytes they are.
fn respond(input: &[u8], output: &mut [u8]) -> usize
    requires room { most_bytes ≤ length output.old }
    ensures bytes { output.new ≡ over output.old 0 (desk_of input.now) }
    ensures count { result ≡ length (desk_of input.now) }
{
    match run(input) {
        Ok(labelled) => output::put_labelled(output, &labelled),
        Err(failure) => output::put_failure(output, failure),
    }
}

// The output of an input.
pub fn answer(input: &[u8]) -> Printed
    ensures bytes { result ≡ desk_of input.now }
    ensures bound { length result ≤ most_bytes }
{
    let mut bytes = [0u8; MAX_OUTPUT];
    let len = respond(input, &mut bytes);
    Printed { bytes, len }
}
