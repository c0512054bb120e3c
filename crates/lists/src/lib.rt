// Words of one lent slice: read, copied, filled, made 0. Definitions and laws on lists, on groups, and on words in a slice: in specs/ and proofs/.
#![tactic(auto)]

ghost use Rattle.std.specs.Prelude.{◌≡◌, ◌⊎◌, ◌+◌, ◌<◌, ◌≤◌, length, get_or, replicate};
ghost use Rattle.lists.specs.Words.{over, part};

pub mod buckets;
pub mod sorting;

// A number of the work memory.
pub type Word = u16;

// The word at `at`.
pub fn word(work: &[Word], at: usize) -> usize
    requires { at < length work.now }
    ensures { result ≡ get_or work.now at 0 }
{
    usize::from(work[at])
}

// Copies the `m` words from `from` on to `to`.
pub fn copy_words(work: &mut [Word], from: usize, to: usize, m: usize)
    requires apart { (to ≤ from) ⊎ (from + m ≤ to) }
    requires inside { (from + m ≤ length work.old) × (to + m ≤ length work.old) }
    ensures { work.new ≡ over work.old to (part work.old from m) }
{
    // `copy_within` copies to a later place from the end on, which takes twice the time.
    for i in 0..m {
        work[to + i] = work[from + i];
    }
}

// Copies the words of `from` over those of a slice as long. (The library's `copy_from_slice` is a call of `memmove`, which nothing else here needs.)
pub fn copy(words: &mut [Word], from: &[Word])
    requires { length words.old ≡ length from.now }
    ensures { words.new ≡ from.now }
{
    for i in 0..from.len() {
        words[i] = from[i];
    }
}

// Makes the `m` words from `at` on x.
pub fn fill_words(work: &mut [Word], at: usize, m: usize, x: Word)
    requires { at + m ≤ length work.old }
    ensures { work.new ≡ over work.old at (replicate m x) }
{
    work[at..at + m].fill(x);
}

// Makes the `m` words from `at` on 0.
pub fn clear_words(work: &mut [Word], at: usize, m: usize)
    requires { at + m ≤ length work.old }
    ensures { work.new ≡ over work.old at (replicate m 0) }
{
    fill_words(work, at, m, 0);
}
