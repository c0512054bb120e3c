// The rows of blocks around a frame: the frames within a reach of it lie in them.
ghost use Rattle.std.specs.Prelude.{◌≡◌, ℕ, ◌+◌, ◌-◌, ◌*◌, ◌/◌, ◌^◌, ◌<◌, ◌≤◌, length, get_or, replicate};
ghost use Rattle.lists.specs.Lists.{Below};
ghost use Rattle.lists.specs.Words.{over};
ghost use Rattle.counting_tree.specs.Given.{frame_of};
ghost use Rattle.blocks.specs.Blocks as Blocks;
ghost use Rattle.blocks.specs.Blocks.{edges_of, row_hash, row_of, row_around, bucket_around, own_row, same_nats, stretch_in};

use blocks::Stretch;
use counting_tree::Frames;
use lists::Word;

// The rows around frame i: where the first begins, the hash of each, and which block of its row the first is.
#[derive(Drop)]
pub(crate) struct Around<'a> {
    pub(crate) frames: &'a Frames<'a>,
    pub(crate) i: usize,
    pub(crate) reach: u64,
    pub(crate) first: [u64; 4],
    hashes: [u64; 8],
    along: usize,
    ghost inside: { i < frames.now.n },
    ghost few: { reach ≤ 131070 },
    ghost begin: { first ≡ over (replicate 4 0) 0 (edges_of (Blocks.width reach) reach (frame_of frames.now i)) },
    ghost small: { Below 65536 first },
    ghost hashed: { (m : ℕ) → m < 2 ^ (frames.now.v.channels - 1) → get_or hashes m 0 ≡ row_hash (row_around reach frames.now.v frames.now.n frames.now.points.now i m) },
    ghost block: { along ≡ get_or first 0 0 / Blocks.width reach },
}

impl<'a> Around<'a> {
    pub(crate) fn new(frames: &'a Frames<'a>, reach: u64, i: usize) -> Around<'a>
        requires { (i < frames.now.n) × (reach ≤ 131070) }
        ensures { (result.frames.now ≡ frames.now) × (result.i ≡ i) × (result.reach ≡ reach) }
    {
        let width = blocks::width(reach);
        let first = blocks::edges_at(frames, width, reach, i);
        let hashes = blocks::row_hashes(first, width);
        let along = (first[0] / width) as usize;
        Around {
            frames,
            i,
            reach,
            first,
            hashes,
            along,
        }
    }

    // Which of the rows the frame lies in itself.
    pub(crate) fn own_row(&self) -> usize
        ensures value { let a = self.now in let f = a.frames.now in result ≡ own_row a.reach f.v f.n f.points.now a.i }
        ensures upper_bound { result < 2 ^ (self.now.frames.now.v.channels - 1) }
    {
        let width = blocks::width(self.reach);
        blocks::own_row(self.frames, width, self.first, self.i)
    }

    // Whether frame j lies in row m.
    pub(crate) fn has(&self, m: usize, j: usize) -> bool
        requires { j < self.now.frames.now.n }
        ensures { let a = self.now in let f = a.frames.now in result ≡ same_nats (row_of a.reach f.v f.n f.points.now j) (row_around a.reach f.v f.n f.points.now a.i m) }
    {
        let width = blocks::width(self.reach);
        blocks::in_row(self.frames, width, self.first, m, j)
    }

    // Where row m stands among what is sorted by `size` buckets.
    pub(crate) fn stretch(&self, work: &[Word], ends: usize, size: usize, m: usize) -> Stretch
        requires { (m < 2 ^ (self.now.frames.now.v.channels - 1)) × (0 < size) × (size ≤ 65535) × (ends + size + 1 ≤ length work.now) }
        ensures { let a = self.now in let f = a.frames.now in result ≡ stretch_in work.now ends (bucket_around a.reach f.v f.n f.points.now size a.i m) size }
    {
        let b = blocks::bucket(self.hashes[m], self.along, size);
        blocks::stretch_at(work, ends, b, size)
    }
}
