// Runs the stored roots, indexes and boxes of standard input through the code, and writes how many agree.
// A line is 137 bytes, numbers in hexadecimal. A root: the bits of a float and of its root, 7ff8000000000000 for NaN.
// An index: the count, the bits of the side, the index with its sign.
// A box: channels, tolerance, the bits of the slack, of the side and of the centre's four coordinates, the four counts, the answer's first letter.
#![tactic(auto)]

ghost use Rattle.std.specs.Prelude.{◌≡◌, ◌+◌, ◌-◌, ◌<◌, ◌≤◌, cond, leb};

use counting_tree::{Box, IntersectionType};
use ieee754::{INFINITY, SIGN_BIT};
use std::io;

const LINE: usize = 137;

const MAX_LINES: usize = 1000000;

const NAN: u64 = 9221120237041090560;

// What a line calls.
enum Call {
    Root,
    Index,
    Intersection,
}

// By the first letter of a line.
impl TryFrom<u8> for Call {
    type Error = u8;

    fn try_from(letter: u8) -> Result<Call, u8> {
        match letter {
            b'r' => Ok(Call::Root),
            b'i' => Ok(Call::Index),
            b'b' => Ok(Call::Intersection),
            _ => Err(letter),
        }
    }
}

// How many lines there were, and how many of them agree.
#[derive(Clone, Copy)]
struct Tally {
    all: usize,
    right: usize,
    ghost within: { right ≤ all },
}

impl Tally {
    // No lines.
    fn new() -> Tally
        ensures { result.all ≡ 0 }
    {
        Tally { all: 0, right: 0 }
    }

    // One line more.
    fn add(&mut self, agrees: bool)
        requires { self.old.all < MAX_LINES }
        ensures { self.new.all ≡ self.old.all + 1 }
    {
        self.all += 1;
        if agrees {
            self.right += 1;
        }
    }
}

// What a byte counts for as a digit: bytes that are none count on from `0` and `a`, and 0 below.
fn digit(b: u8) -> u64
    ensures { result ≡ cond (leb 97 b) (b - 87) (b - 48) }
{
    match b {
        b'a'.. => u64::from(b - b'a') + 10,
        b'0'.. => u64::from(b - b'0'),
        _ => 0,
    }
}

// The number of some digits at a place, in 64 bits: what does not fit is dropped, from the front.
fn number(line: &[u8; LINE], at: usize, digits: usize) -> u64
    requires { at + digits ≤ LINE }
{
    line[at..at + digits]
        .iter()
        .fold(0, |n, b| (n << 4) | digit(*b))
}

// The count of the 4 digits at a place, in two's complement.
fn count_at(line: &[u8; LINE], at: usize) -> i16
    requires { at + 4 ≤ LINE }
{
    ((number(line, at, 4) % 65536) as u16).cast_signed()
}

// The float whose bits the 16 digits at a place are.
fn float_at(line: &[u8; LINE], at: usize) -> f64
    requires { at + 16 ≤ LINE }
{
    let bits = number(line, at, 16);
    if bits % SIGN_BIT > INFINITY {
        return f64::NAN;
    }
    f64::from_bits(bits)
}

// The bits of x.
fn bits_of(x: f64) -> u64 {
    if x.is_nan() { NAN } else { x.to_bits() }
}

// The number of the sign and the 8 digits at a place.
fn index_at(line: &[u8; LINE], at: usize) -> i64
    requires { at + 9 ≤ LINE }
{
    let n = (number(line, at + 1, 8) % 4294967296) as i64;
    if line[at] == b'-' { -n } else { n }
}

// Whether the code gives the root of a line.
fn root_agrees(line: &[u8; LINE]) -> bool {
    let root = ieee754::root(float_at(line, 30));
    bits_of(root) == number(line, 47, 16)
}

// Whether the code gives the index of a line, whose side is from 2^-13 to 2^16.
fn index_agrees(line: &[u8; LINE]) -> bool {
    let side = float_at(line, 30);
    side >= 0.0001220703125
        && side <= 65536.0
        && counting_tree::grid::cell_index(side, count_at(line, 8)) == index_at(line, 47)
}

// The first letter of an answer.
fn letter(answer: IntersectionType) -> u8 {
    match answer {
        IntersectionType::Disjoint => b'D',
        IntersectionType::FullyCovered => b'F',
        IntersectionType::Intersecting => b'I',
    }
}

// Whether the code gives the answer of a line's box.
fn intersection_agrees(line: &[u8; LINE]) -> bool {
    let channels = (number(line, 6, 1) % 16) as usize;
    if channels < 1 || channels > 4 {
        return false;
    }
    let t = (number(line, 8, 4) % 65536) as f64;
    let appx = hyperparams::appx_tolerance(t, float_at(line, 13));
    let cell = Box {
        centre: [
            float_at(line, 47),
            float_at(line, 64),
            float_at(line, 81),
            float_at(line, 98),
        ],
        side: float_at(line, 30),
    };
    let q = [
        f64::from(count_at(line, 115)),
        f64::from(count_at(line, 120)),
        f64::from(count_at(line, 125)),
        f64::from(count_at(line, 130)),
    ];
    let answer = counting_tree::boxes::determine_intersection(cell, q, channels, t, appx);
    letter(answer) == line[135]
}

// Writes how many lines of a kind agree.
fn report(rt: &impl Print, tally: Tally, kind: &str) -> io::Result<()> {
    let Tally { all, right } = tally;
    println!(rt; "{right} of {all} {kind} agree")
}

fn main(rt: HostRuntime) -> io::Result<()> {
    let mut line = [0u8; LINE];
    let mut roots = Tally::new();
    let mut indexes = Tally::new();
    let mut boxes = Tally::new();
    for _ in 0..MAX_LINES {
        if streams::read_full(&mut rt.stdin(), &mut line)? < LINE {
            break;
        }
        match Call::try_from(line[0]) {
            Ok(Call::Root) => roots.add(root_agrees(&line)),
            Ok(Call::Index) => indexes.add(index_agrees(&line)),
            Ok(Call::Intersection) => boxes.add(intersection_agrees(&line)),
            Err(_) => {}
        }
    }
    report(&rt, roots, "roots")?;
    report(&rt, indexes, "indexes")?;
    report(&rt, boxes, "boxes")
}
