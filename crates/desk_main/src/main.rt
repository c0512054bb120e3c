// Reads standard input to its end, and writes the answer to it to standard output.
#![tactic(auto)]

ghost use Rattle.std.specs.Prelude.{◌≡◌, ◌<◌, ◌≤◌, length, take, IfOk, IfSome};

use std::io;
use std::io::Read;

// One byte more than the longest well-formed input: a longer one is seen to be malformed.
const ROOM: usize = desk::MAX_INPUT + 1;

// Reads to the end of the input. Nothing says that an input ends, so the turns are counted, up to a number that no run reaches.
fn skip_all<R: Read>(input: &mut R) {
    let mut rest = [0u8; 4096];
    for _ in 0..u64::MAX {
        if !input.read(&mut rest).is_ok_and(|got| got > 0) {
            return;
        }
    }
}

// Reads the input to its end, and answers how many of its bytes stand in the buffer. Less than all of the buffer is the whole input.
fn read_all<R: Read>(input: &mut R, buffer: &mut [u8]) -> io::Result<usize>
    ensures bound { IfOk result (λ n. n ≤ length buffer.new) }
    ensures count { IfOk result (λ n. n ≡ length (take n buffer.new)) }
    ensures whole { IfOk result (λ n. n < length buffer.new → IfSome (R.remaining input.old) (λ xs. take n buffer.new ≡ xs)) }
{
    let n = streams::read_full(input, buffer)?;
    if n == buffer.len() {
        skip_all(input);
    }
    Ok(n)
}

// An input that cannot be read is not known, and answered as an empty one: as malformed.
fn main(rt: HostRuntime) -> io::Result<()> {
    let mut buffer = [0u8; ROOM];
    let n = read_all(&mut rt.stdin(), &mut buffer).unwrap_or(0);
    rt.write_all(desk::answer(&buffer[..n]).as_bytes())
}
