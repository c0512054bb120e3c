// Runs the stored inputs of standard input through the desk program's function, and writes how many outputs agree with the original's.
// A vector is an input, two hyphens and a line feed, the expected output, two equals signs and a line feed.
#![tactic(auto)]

ghost use Rattle.std.specs.Prelude.{◌+◌, ◌<◌, ◌≤◌, length};

use std::io;

// More than the vectors have.
const CAPACITY: usize = 393216;

// The text before two marks and a line feed, and the text after them; all and nothing where they do not stand.
fn split_at_marks(text: &[u8], mark: u8) -> (&[u8], &[u8])
    ensures within { length result.1.now ≤ length text.now }
    ensures shorter { 0 < length text.now → length result.1.now < length text.now }
{
    let stands = |w: &[u8]| matches!(*w, [a, b, b'\n'] if a == mark && b == mark);
    match text.windows(3).position(stands) {
        Some(at) => (&text[..at], &text[at + 3..]),
        None => (text, &[]),
    }
}

// Whether the function answers an input as the original did.
fn agrees(input: &[u8], expected: &[u8]) -> bool {
    desk::answer(input).as_bytes() == expected
}

// Runs every vector, names those that differ, and writes how many agree.
fn replay(rt: &impl Print, text: &[u8]) -> io::Result<()> {
    let mut rest = text;
    let mut count: usize = 0;
    let mut right: usize = 0;
    while !rest.is_empty() {
        let (input, after) = split_at_marks(rest, b'-');
        let (expected, next) = split_at_marks(after, b'=');
        count += 1;
        if agrees(input, expected) {
            right += 1;
        } else {
            println!(rt; "vector {count} differs")?;
        }
        rest = next;
    }
    println!(rt; "{right} of {count} agree")
}

fn main(rt: HostRuntime) -> io::Result<()> {
    let mut text = [0u8; CAPACITY];
    let n = streams::read_full(&mut rt.stdin(), &mut text)?;
    replay(&rt, &text[..n])
}
