// Sets of cells as leader numbers in lent words, after the `partitions` crate's `PartitionVec`.
#![tactic(auto)]

ghost use Rattle.std.specs.Prelude.{◌≡◌, ◌<◌, ◌≤◌, eqb, length};
ghost use Rattle.lists.specs.Words.{column};
ghost use Rattle.partitions.specs.Leaders.{Falling, root, shorten, shorten_both, united};

use lists::Word;

// Each cell a set by itself.
pub fn reset(leaders: &mut [Word])
    requires { length leaders.old ≤ 65536 }
    ensures { leaders.new ≡ column (λ c. c) (length leaders.old) }
{
    for (c, leader) in leaders.iter_mut().enumerate() {
        *leader = c as Word;
    }
}

// The lowest cell of c's set; each cell on the way then has it for its leader.
pub fn find(leaders: &mut [Word], c: usize) -> usize
    requires { Falling leaders.old × (c < length leaders.old) }
    ensures lowest { result ≡ root leaders.old c }
    ensures low { result ≤ c }
    ensures leaders { leaders.new ≡ shorten leaders.old c }
{
    let leader = leaders[c] as usize;
    if leader == c {
        return c;
    }
    let lowest = find(leaders, leader);
    leaders[c] = lowest as Word;
    lowest
}

// Whether a and b are in one set.
pub fn same_set(leaders: &mut [Word], a: usize, b: usize) -> bool
    requires { Falling leaders.old × (a < length leaders.old) × (b < length leaders.old) }
    ensures answer { result ≡ eqb (root leaders.old a) (root leaders.old b) }
    ensures leaders { leaders.new ≡ shorten_both leaders.old a b }
{
    let x = find(leaders, a);
    let y = find(leaders, b);
    x == y
}

// Makes one set of those of a and b.
pub fn union(leaders: &mut [Word], a: usize, b: usize)
    requires { Falling leaders.old × (a < length leaders.old) × (b < length leaders.old) × (length leaders.old ≤ 65536) }
    ensures { leaders.new ≡ united (shorten_both leaders.old a b) a b }
{
    let x = find(leaders, a);
    let y = find(leaders, b);
    leaders[x.max(y)] = x.min(y) as Word;
}
