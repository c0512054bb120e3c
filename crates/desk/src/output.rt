// The output: "in lowercase hexadecimal with the same line ends".
ghost use Rattle.std.specs.Prelude.{◌≡◌, ◌+◌, ◌*◌, ◌≤◌, ◌<◌, length, Ok};
ghost use Rattle.lists.specs.Words.{over};
ghost use Rattle.desk.specs.Desk.{hex2, hex4, frame_lines, lines_of, most_bytes};
ghost use Rattle.desk.specs.Desk as Definitions;
ghost use Rattle.desk.specs.Outcomes.{number_after};

use crate::input::LINE_FEED;
use crate::outcome::{Failure, Labelled};

#[tactic(auto, unfolding(crate::specs::Desk::glyph))]
fn glyph(n: usize) -> u8
    requires { n < 16 }
    ensures { result ≡ Definitions.glyph n }
{
    if n < 10 {
        return b'0' + n as u8;
    }
    b'a' - 10 + n as u8
}

// The last two digits of n.
#[tactic(auto, unfolding(crate::specs::Desk::hex2))]
fn two_digits(n: usize) -> [u8; 2]
    ensures { result ≡ hex2 n }
{
    let high = glyph(n / 16 % 16);
    let low = glyph(n % 16);
    [high, low]
}

// The last four digits of n.
#[tactic(auto, unfolding(crate::specs::Desk::hex4, crate::specs::Desk::hex2))]
fn four_digits(n: usize) -> [u8; 4]
    ensures { result ≡ hex4 n }
{
    let [a, b] = two_digits(n / 256);
    let [c, d] = two_digits(n);
    [a, b, c, d]
}

// "a line per frame, kind (2 digits) and label (4)"
#[tactic(auto, unfolding(crate::specs::Desk::frame_line, crate::specs::Desk::hex4, crate::specs::Desk::hex2))]
fn frame_line(kind: u8, label: u16) -> [u8; 7]
    ensures { result ≡ Definitions.frame_line kind label }
{
    let [high, low] = two_digits(kind as usize);
    let [a, b, c, d] = four_digits(label as usize);
    [high, low, a, b, c, d, LINE_FEED]
}

// "then a line of clusters (4) and core frames (4)"
#[tactic(auto, unfolding(crate::specs::Desk::count_line, crate::specs::Desk::hex4, crate::specs::Desk::hex2))]
fn count_line(clusters: usize, cores: usize) -> [u8; 9]
    ensures { result ≡ Definitions.count_line clusters cores }
{
    let [a, b, c, d] = four_digits(clusters);
    let [e, f, g, h] = four_digits(cores);
    [a, b, c, d, e, f, g, h, LINE_FEED]
}

// "A refusal prints only one line, `ee` and its number in 2 such digits."
#[tactic(auto, unfolding(crate::specs::Desk::refusal_line, crate::specs::Desk::hex2))]
fn refusal_line(number: u8) -> [u8; 5]
    ensures { result ≡ Definitions.refusal_line number }
{
    let [high, low] = two_digits(number as usize);
    [b'e', b'e', high, low, LINE_FEED]
}

// The lines of the first n frames.
fn put_frames(output: &mut [u8], kinds: &[u8], labels: &[u16], n: usize)
    requires { (n ≤ length kinds.now) × ((n ≤ length labels.now) × (7 * n ≤ length output.old)) }
    ensures { output.new ≡ over output.old 0 (frame_lines kinds.now labels.now n) }
{
    for i in 0..n {
        output[7 * i..7 * i + 7].copy_from_slice(&frame_line(kinds[i], labels[i]));
    }
}

// The last line, from a place on.
fn put_counts(output: &mut [u8], at: usize, clusters: usize, cores: usize)
    requires { at + 9 ≤ length output.old }
    ensures { output.new ≡ over output.old at (Definitions.count_line clusters cores) }
{
    output[at..at + 9].copy_from_slice(&count_line(clusters, cores));
}

// The lines of the labels of a run, and how many bytes they are.
#[tactic(auto, using(crate::proofs::Printing::labelled_length, crate::proofs::Printing::labelled_laid))]
pub(crate) fn put_labelled(output: &mut [u8], labelled: &Labelled) -> usize
    requires { most_bytes ≤ length output.old }
    ensures bytes { let r = labelled.now in output.new ≡ over output.old 0 (lines_of (Ok r.counts) r.kinds r.labels r.frames) }
    ensures count { let r = labelled.now in result ≡ length (lines_of (Ok r.counts) r.kinds r.labels r.frames) }
{
    let n = labelled.frames;
    let counts = labelled.counts;
    put_frames(output, &labelled.kinds, &labelled.labels, n);
    put_counts(output, 7 * n, counts.clusters, counts.core_frames);
    7 * n + 9
}

// The line of a failure, and how many bytes it is.
#[tactic(auto, unfolding(crate::specs::Desk::refusal_line, crate::specs::Desk::hex2))]
pub(crate) fn put_failure(output: &mut [u8], failure: Failure) -> usize
    requires { most_bytes ≤ length output.old }
    ensures bytes { output.new ≡ over output.old 0 (Definitions.refusal_line (number_after failure)) }
    ensures count { result ≡ length (Definitions.refusal_line (number_after failure)) }
{
    let line = refusal_line(failure.number());
    output[..line.len()].copy_from_slice(&line);
    line.len()
}
