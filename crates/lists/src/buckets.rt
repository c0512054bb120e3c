// Hash buckets: chains of numbers in words of lent slices. `heads` has the last number put in each bucket, `nexts`, for each number,
// the one before it in its bucket: one more than it, 0 for none.
ghost use Rattle.std.specs.Prelude.{◌≡◌, ◌+◌, ◌<◌, length, get_or, set};
ghost use Rattle.lists.specs.Buckets as Definitions;
ghost use Rattle.lists.specs.Lists.{Below};
ghost use Rattle.lists.specs.Buckets.{hashes, hash_of};

use crate::Word;

// The hash h of some numbers, made one of those and e.
#[tactic(auto, unfolding(crate::specs::Buckets::mix))]
pub fn mix(h: u64, e: u64) -> u64
    requires { (h < hashes) × (e < hashes) }
    ensures { result ≡ Definitions.mix h e }
{
    (h + e) * 1640531527 / 64 % 4294967296
}

// The hash of four numbers.
pub fn hash_four(of: [u64; 4]) -> u64
    requires { Below hashes of }
    ensures value { result ≡ hash_of of }
    ensures upper_bound { result < hashes }
{
    let mut h = 0;
    for e in of {
        h = mix(h, e);
    }
    h
}

// Which of n buckets the hash h falls in.
#[tactic(auto, unfolding(crate::specs::Buckets::bucket))]
pub fn bucket(h: u64, n: usize) -> usize
    requires { (h < hashes) × (n < hashes) }
    ensures { result ≡ Definitions.bucket n h }
{
    (h as usize) * n / 4294967296
}

// Puts the number c at the head of bucket h.
pub fn push(heads: &mut [Word], nexts: &mut [Word], h: usize, c: usize)
    requires { (h < length heads.old) × (c < length nexts.old) × (c < 65535) }
    ensures heads { heads.new ≡ set heads.old h (c + 1) }
    ensures nexts { nexts.new ≡ set nexts.old c (get_or heads.old h 0) }
{
    nexts[c] = heads[h];
    heads[h] = (c + 1) as Word;
}
