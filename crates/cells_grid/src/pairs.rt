// How many neighbours every frame has, where the frames are sorted: each pair is found once, and counted for both.
// Of two neighbours one finds the other in a row after its own, or in its own row as a later frame. So each frame looks at the rows from its own on.
ghost use Rattle.std.specs.Prelude.{◌≡◌, ℕ, ◌+◌, ◌-◌, ◌*◌, ◌^◌, ◌<◌, ◌≤◌, leb, length, get_or, replicate};
ghost use Rattle.lists.specs.Lists.{keep, how_many, Below};
ghost use Rattle.lists.specs.Words.{column};
ghost use Rattle.lists.specs.Sorting.{begin_in};
ghost use Rattle.cells_grid.specs.Pairs.{raised, Room, squares_in, later_in, later_row, risen, others};

use crate::crowding;
use crate::crowding::Search;
use crate::sorted::SortedFrames;
use lists::Word;

// Pairs are counted where the bucket of a frame holds at most so many frames on average.
const SHARED: usize = 4;

// The square of a word.
fn square(x: Word) -> u32
    ensures { result ≡ x * x }
{
    let y = x as u32;
    y * y
}

// Whether few frames share a bucket: then it is faster to count every pair than to end each search when it has found enough.
pub fn sparse(sorted: &[Word], n: usize) -> bool
    requires n_bound { (n ≤ 4096) × (10 * n ≤ length sorted.now) }
    requires by_index { (b : ℕ) → b < 8 * n → (begin_in sorted.now (2 * n) b ≤ get_or sorted.now (2 * n + b) 0) × (get_or sorted.now (2 * n + b) 0 ≤ n) }
    ensures { result ≡ leb (squares_in sorted.now (2 * n) (8 * n)) (4 * n) }
{
    if n == 0 {
        return true;
    }
    let ends = crowding::SORTED_ENDS * n;
    let mut sum = square(sorted[ends]);
    for b in 1..crowding::BUCKETS * n {
        sum += square(sorted[ends + b] - sorted[ends + b - 1]);
    }
    sum as usize <= SHARED * n
}

// Whether frame j comes from `low` on, and is a neighbour in row m.
fn is_later(search: &Search, low: usize, m: usize, j: usize) -> bool
    requires { j < search.now.around.frames.now.n }
    ensures { let a = search.now.around in let f = a.frames.now in result ≡ later_in f.v f.n f.points.now a.i low m j }
{
    low <= j && search.is_neighbour(m, j)
}

// Adds 1 to the count of each neighbour in row m, from frame `low` on, among these frames. Returns how many there are.
#[inline(always)]
fn count_stretch(
    search: &Search,
    counts: &mut [Word],
    low: usize,
    m: usize,
    stretch: &[Word],
) -> usize
    requires frames { let f = search.now.around.frames.now in Below f.n stretch.now }
    requires room { let a = search.now.around in let f = a.frames.now in Room f.n counts.old (keep (later_in f.v f.n f.points.now a.i low m) stretch.now) }
    ensures value { let a = search.now.around in let f = a.frames.now in result ≡ how_many (later_in f.v f.n f.points.now a.i low m) stretch.now }
    ensures counts_after { let a = search.now.around in let f = a.frames.now in counts.new ≡ raised f.n counts.old (keep (later_in f.v f.n f.points.now a.i low m) stretch.now) }
{
    let mut sum = 0;
    for word in stretch {
        let j = *word as usize;
        if is_later(search, low, m, j) {
            counts[j] += 1;
            sum += 1;
        }
    }
    sum
}

// Adds 1 to the count of each neighbour in row m, from frame `low` on. Returns how many there are.
fn count_row(search: &Search, counts: &mut [Word], low: usize, m: usize) -> usize
    requires { let a = search.now.around in let f = a.frames.now in (m < 2 ^ (f.v.channels - 1)) × Room f.n counts.old (later_row f.v f.n f.points.now a.i low m) }
    ensures value { let a = search.now.around in let f = a.frames.now in result ≡ length (later_row f.v f.n f.points.now a.i low m) }
    ensures counts_after { let a = search.now.around in let f = a.frames.now in counts.new ≡ raised f.n counts.old (later_row f.v f.n f.points.now a.i low m) }
{
    let (stretch, rest) = search.row(m);
    let sum = count_stretch(search, counts, low, m, stretch);
    sum + count_stretch(search, counts, low, m, rest)
}

// Counts the pairs that a frame finds, for both frames of each.
fn count_frame(search: &Search, counts: &mut [Word])
    requires { let a = search.now.around in let f = a.frames.now in Room f.n counts.old (risen f.v f.n f.points.now a.i) }
    ensures { let a = search.now.around in let f = a.frames.now in counts.new ≡ raised f.n counts.old (risen f.v f.n f.points.now a.i) }
{
    let around = &search.around;
    let mut low = around.i + 1;
    let mut sum = 0;
    for m in around.own_row()..blocks::row_count(around.frames.v.channels) {
        sum += count_row(search, counts, low, m);
        low = 0;
    }
    counts[around.i] += sum as Word;
}

// Counts the neighbours of every frame besides itself, from 0 on.
pub fn count_pairs(sorted: &SortedFrames, counts: &mut [Word])
    requires { counts.old ≡ replicate sorted.now.grid.frames.n 0 }
    ensures { let f = sorted.now.grid.frames in counts.new ≡ column (others f.v f.n f.points.now) f.n }
{
    for i in 0..sorted.grid.frames.n {
        let search = Search::new(&*sorted, i);
        count_frame(&search, counts);
    }
}
