// The frames near a frame, by blocks of counts. A block is more than twice as wide as the reach in each channel, so the frames within the reach of a frame lie in two blocks a channel.
// Blocks that differ in channel 0 alone are a row. The bucket of a block is given by a hash of its row and by its number in the row: so where frames, or cells by their first frames,
// are sorted by bucket, two blocks next to each other in a row stand together, and a search looks at one stretch a row, 2^(channels − 1) in all.
#![tactic(auto)]

ghost use Rattle.std.specs.Prelude.{◌≡◌, ℕ, ◌+◌, ◌-◌, ◌*◌, ◌/◌, ◌%◌, ◌^◌, ◌<◌, ◌≤◌, eqb, length, get_or, take, drop, replicate};
ghost use Rattle.lists.specs.Lists.{Below};
ghost use Rattle.lists.specs.Words.{over, column};
ghost use Rattle.lists.specs.Buckets.{hashes};
ghost use Rattle.counting_tree.specs.Given.{frame_of};
ghost use Rattle.blocks.specs.Blocks as Definitions;
ghost use Rattle.blocks.specs.Blocks.{raise, edges_of, key_of, shifted, own_block, same_nats, row_hash, bucket_at, bucket_of, stretch_in};

use counting_tree::Frames;
use lists::Word;

// From 14n on stand the numbers by bucket, from 15n on, while they are sorted, the bucket of each. Each search says where the ends of its buckets stand.
pub const PLACES: usize = 14;

pub const KEYS: usize = 15;

// A stretch of the sorted numbers, from `from` up to `to`, and after it from 0 up to `rest`.
#[derive(Clone, Copy)]
pub struct Stretch {
    pub from: usize,
    pub to: usize,
    pub rest: usize,
}

// How wide the blocks are for a reach.
pub fn width(reach: u64) -> u64
    requires { reach ≤ 131070 }
    ensures { result ≡ Definitions.width reach }
{
    2 * reach + 1
}

// Where the block begins that holds a raised count less `down`.
fn edge(c: i16, width: u64, down: u64) -> u64
    requires { 0 < width }
    ensures value { result ≡ Definitions.edge width (raise c - down) }
    ensures upper_bound { result < 65536 }
{
    let x = counting_tree::points::raised(c);
    if x <= down {
        return 0;
    }
    let y = x - down;
    y - y % width
}

// Where the blocks begin that hold the raised counts of frame i less `down`, with zeros in the channels that are not used.
pub fn edges_at(frames: &Frames, width: u64, down: u64, i: usize) -> [u64; 4]
    requires { (i < frames.now.n) × (0 < width) }
    ensures value { result ≡ over (replicate 4 0) 0 (edges_of width down (frame_of frames.now i)) }
    ensures below { Below 65536 result }
{
    counting_tree::points::map_counts(frames.frame(i), 0, |c| edge(c, width, down))
}

// A number below 2^32, by the square of x.
fn spread(x: u64) -> u64
    requires { x < 2 ^ 20 }
    ensures value { result ≡ Definitions.spread x }
    ensures upper_bound { result < hashes }
{
    x * x % 4294967296 * 1640531527 / 65536 % 4294967296
}

// The hash of the row of the block that begins at `low`.
fn hash_of(low: [u64; 4]) -> u64
    requires { Below 65536 low }
    ensures value { result ≡ row_hash (drop 1 low) }
    ensures upper_bound { result < 3 * hashes }
{
    spread(low[1] + 1) + spread(low[2] + 65537) + spread(low[3] + 131073)
}

// What a channel adds to the hash of a row that begins there at `low`, and of one that begins `width` later.
fn parts(low: u64, width: u64, offset: u64) -> [u64; 2]
    requires { (low < 65536) × (width < 2 ^ 19) × (offset < 2 ^ 18) }
    ensures value { result ≡ column (λ b. Definitions.spread (low + width * b + offset)) 2 }
    ensures below { Below hashes result }
{
    [spread(low + offset), spread(low + width + offset)]
}

// The hashes of the rows that begin at `first` or, in the channels from 1 on whose bit of the row's number is set, `width` later.
pub fn row_hashes(first: [u64; 4], width: u64) -> [u64; 8]
    requires { Below 65536 first × (width < 2 ^ 19) }
    ensures value { result ≡ column (λ m. row_hash (shifted width (drop 1 first) m)) 8 }
    ensures below { Below (3 * hashes) result }
{
    let one = parts(first[1], width, 1);
    let two = parts(first[2], width, 65537);
    let three = parts(first[3], width, 131073);
    let mut hashes = [0; 8];
    for m in 0..8 {
        hashes[m] = one[m % 2] + two[m / 2 % 2] + three[m / 4 % 2];
    }
    hashes
}

// Which of `size` buckets the block with the number `along` in a row with the hash h has.
pub fn bucket(h: u64, along: usize, size: usize) -> usize
    requires { (0 < size) × (size < hashes) × (along < 65536) }
    ensures value { result ≡ bucket_at size h along }
    ensures upper_bound { result < size }
{
    let b = lists::buckets::bucket(h % 4294967296, size) + along;
    // mostly smaller, and a division is slow
    if b < size { b } else { b % size }
}

// The bucket of frame j's block.
pub fn key(frames: &Frames, width: u64, size: usize, j: usize) -> usize
    requires { (j < frames.now.n) × (0 < width) × (0 < size) × (size < hashes) }
    ensures value { result ≡ bucket_of width size (frame_of frames.now j) }
    ensures upper_bound { result < size }
{
    let low = edges_at(frames, width, 0, j);
    bucket(hash_of(low), (low[0] / width) as usize, size)
}

// How many rows there are around a frame.
pub fn row_count(channels: usize) -> usize
    requires { (1 ≤ channels) × (channels ≤ 4) }
    ensures { result ≡ 2 ^ (channels - 1) }
{
    1usize << (channels - 1)
}

// Whether a raised count lies `width` or more above where the first of two blocks begins: then it lies in the second.
fn second(c: i16, width: u64, low: u64) -> usize
    requires { (low < 65536) × (width < 2 ^ 19) }
    ensures value { result ≡ Definitions.second width low c }
    ensures upper_bound { result < 2 }
{
    if low + width <= counting_tree::points::raised(c) {
        return 1;
    }
    0
}

// Which of the rows around frame i it lies in itself. (Where a search begins is free: it only has to be one of the rows.)
pub fn own_row(frames: &Frames, width: u64, first: [u64; 4], i: usize) -> usize
    requires { (i < frames.now.n) × Below 65536 first × (width < 2 ^ 19) }
    ensures value { result ≡ own_block width (drop 1 first) (drop 1 (frame_of frames.now i)) }
    ensures upper_bound { result < 2 ^ (frames.now.v.channels - 1) }
{
    let frame = frames.frame(i);
    let mut row = 0;
    for k in (1..frames.v.channels).rev() {
        row = 2 * row + second(frame[k], width, first[k]);
    }
    row
}

// Whether a raised count lies in the block that begins at `low`, or where `bit` is 1 `width` later.
fn holds(c: i16, low: u64, width: u64, bit: usize) -> bool
    requires { (0 < width) × (width < 2 ^ 19) × (low < 65536) × (low % width ≡ 0) × (bit < 2) }
    ensures { result ≡ eqb (Definitions.edge width (raise c)) (low + width * bit) }
{
    let x = counting_tree::points::raised(c);
    let from = low + width * bit as u64;
    from <= x && x - from < width
}

// Whether frame j lies in row m of those that begin at `first`: the first channel that differs settles it.
pub fn in_row(frames: &Frames, width: u64, first: [u64; 4], m: usize, j: usize) -> bool
    requires { (j < frames.now.n) × (0 < width) × (width < 2 ^ 19) × Below 65536 first × ((q : ℕ) → q < frames.now.v.channels → get_or first q 0 % width ≡ 0) }
    ensures { result ≡ same_nats (key_of width (drop 1 (frame_of frames.now j))) (shifted width (take (frames.now.v.channels - 1) (drop 1 first)) m) }
{
    let frame = frames.frame(j);
    // up to 4, whatever the channels: so the loop is unrolled, and `first` stays in registers
    for k in 1..4 {
        if k < frames.v.channels && !holds(frame[k], first[k], width, (m >> (k - 1)) % 2) {
            return false;
        }
    }
    true
}

// Row m after row `start` of so many: after the last comes row 0.
pub fn turned(start: usize, m: usize, rows: usize) -> usize
    requires { (start < rows) × (m < rows) × (rows ≤ 8) }
    ensures value { result ≡ (start + m) % rows }
    ensures upper_bound { result < rows }
{
    let b = start + m;
    if b < rows { b } else { b - rows }
}

// The numbers of bucket b of `size`, and those of the next: after the last comes bucket 0.
pub fn stretch_at(work: &[Word], ends: usize, b: usize, size: usize) -> Stretch
    requires { (b < size) × (ends + size + 1 ≤ length work.now) }
    ensures { result ≡ stretch_in work.now ends b size }
{
    let from = lists::sorting::begins(work, ends, b);
    let next = b + 1;
    if next < size {
        return Stretch {
            from,
            to: lists::sorting::begins(work, ends, next + 1),
            rest: 0,
        };
    }
    Stretch {
        from,
        to: lists::sorting::begins(work, ends, next),
        rest: lists::sorting::begins(work, ends, 1),
    }
}
