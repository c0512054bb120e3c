// The counting tree of a cell in words (TreeStructure of the source): built from a list of frames, and asked for the count of a frame.
#![tactic(auto)]

ghost use Rattle.std.specs.Prelude.{◌≡◌, List, ◌++◌, ℕ, ◌+◌, ◌-◌, ◌*◌, ◌<◌, ◌≤◌, length, drop, get_or, replicate};
ghost use Rattle.lists.specs.Lists.{keep, lose, Below};
ghost use Rattle.lists.specs.Words.{over};
ghost use Rattle.counting_tree.specs.Tree.{counted, first_of};
ghost use Rattle.counting_tree.specs.Given.{geometry};
ghost use Rattle.tree_structure.specs.Encode.{size, encode, TreeAt, TreesAt, told_of};
ghost use Rattle.tree_structure.specs.Work.{CanBuild, Room};

mod level;
mod node;

use counting_tree::{Frames, IntersectionType};
use level::Level;
use lists::Word;
pub use node::Node;

// The count of a frame in a tree: the number of frames of the node that is counted, and the first of them.
#[derive(Clone, Copy, PartialEq, Eq)]
pub struct Counted {
    pub count: usize,
    pub first: usize,
}

// Puts those of the frames `members` that share the pivot's box of the level first, then the others, both in their order. Returns how many share it.
fn partition(level: &Level, members: &mut [Word], scratch: &mut [Word], pivot: usize) -> usize
    requires ready { let f = level.now.frames.now in (pivot < f.n) × Below f.n members.old }
    requires room { length members.old ≤ length scratch.old }
    ensures kept { let l = level.now in let f = (geometry l.frames.now).same l.level pivot in result ≡ length (keep f members.old) }
    ensures members_after { let l = level.now in let f = (geometry l.frames.now).same l.level pivot in members.new ≡ keep f members.old ++ lose f members.old }
{
    if members.is_empty() {
        return 0;
    }
    let frames = level.frames;
    let at = frames.indexes_at(level.side, pivot);
    let counts = counting_tree::points::frame_at(frames.points, frames.v.channels, pivot);
    let place = counting_tree::boxes::box_of(counts, level.side, frames.v.channels);
    let mut kept = 0;
    let mut lost = 0;
    for i in 0..members.len() {
        let x = members[i];
        if frames.shares_box(at, place, usize::from(x)) {
            members[kept] = x;
            kept += 1;
        } else {
            scratch[lost] = x;
            lost += 1;
        }
    }
    lists::copy(&mut members[kept..], &scratch[..lost]);
    kept
}

// Writes the tree of the frames `members`, which it puts in another order, over the first words of `nodes`. Returns its number of nodes.
fn build_node(
    level: &Level,
    members: &mut [Word],
    scratch: &mut [Word],
    nodes: &mut [Word],
) -> usize
    requires room { let l = level.now in let g = geometry l.frames.now in Room g.same l.frames.now.n l.left l.level members.old scratch.old nodes.old }
    ensures size { let l = level.now in let g = geometry l.frames.now in result ≡ size g.same l.left l.level members.old }
    ensures words { let l = level.now in let g = geometry l.frames.now in nodes.new ≡ over nodes.old 0 (encode g.same l.left l.level members.old) }
{
    let count = members.len();
    let first = usize::from(members[0]);
    if level.left == 0 {
        let leaf = Node {
            count,
            size: 1,
            first,
        };
        leaf.write(nodes);
        return 1;
    }
    let below = level.below();
    let mut size = 1;
    let mut from = 0;
    while from < count {
        let pivot = usize::from(members[from]);
        let kept = partition(&below, &mut members[from + 1..], scratch, pivot);
        let to = from + 1 + kept;
        size += build_node(
            &below,
            &mut members[from..to],
            scratch,
            &mut nodes[4 * size..],
        );
        from = to;
    }
    let node = Node { count, size, first };
    node.write(nodes);
    size
}

// Writes the tree of the frames `members` over the first words of `nodes`. Returns its number of nodes.
// It is built on a copy, since its parts are put in another order; as many words of `copy` and `scratch` are 0 after it.
pub fn build_structure(
    frames: &Frames,
    members: &[Word],
    copy: &mut [Word],
    scratch: &mut [Word],
    nodes: &mut [Word],
) -> usize
    requires room { let g = geometry frames.now in CanBuild g.same frames.now.n g.levels members.now scratch.old nodes.old }
    requires copied { length members.now ≤ length copy.old }
    ensures size { let g = geometry frames.now in result ≡ size g.same g.levels 0 members.now }
    ensures words { let g = geometry frames.now in nodes.new ≡ over nodes.old 0 (encode g.same g.levels 0 members.now) }
    ensures cleared { (copy.new ≡ over copy.old 0 (replicate (length members.now) 0)) × (scratch.new ≡ over scratch.old 0 (replicate (length members.now) 0)) }
{
    let m = members.len();
    let sorted = &mut copy[..m];
    let spare = &mut scratch[..m];
    lists::copy(sorted, members);
    let size = build_node(&Level::root(frames), sorted, spare, nodes);
    sorted.fill(0);
    spare.fill(0);
    size
}

// The trees after the first.
fn others(trees: &[Word]) -> &[Word]
    requires { (4 ≤ length trees.now) × (4 * get_or trees.now 1 0 ≤ length trees.now) }
    ensures { result.now ≡ drop (4 * get_or trees.now 1 0) trees.now }
{
    let first = Node::read(trees);
    &trees[4 * first.size..]
}

// The count of frame `q` in the tree whose words come first.
#[cycle(count_list_count_node)]
fn count_node(level: &Level, tree: &[Word], q: usize) -> Option<Counted>
    requires ready { q < level.now.frames.now.n }
    requires tree { let l = level.now in let g = geometry l.frames.now in (xs : List ℕ) × TreeAt g.same l.frames.now.n tree.now 0 l.left l.level xs }
    ensures { let l = level.now in let g = geometry l.frames.now in
        (xs : List ℕ) → TreeAt g.same l.frames.now.n tree.now 0 l.left l.level xs → result ≡ told_of (counted g.same (g.box q) l.left l.level xs) }
{
    let node = Node::read(tree);
    let here = Counted {
        count: node.count,
        first: node.first,
    };
    match level.frames.classify(q, level.side, node.first) {
        IntersectionType::Disjoint => None,
        IntersectionType::FullyCovered => Some(here),
        IntersectionType::Intersecting => {
            if level.left == 0 {
                return Some(here);
            }
            let children = &tree[4..4 * node.size];
            let below = level.below();
            count_list(&below, children, q)
        }
    }
}

// The first count of frame `q` in the trees of some nodes of a level, one after the other.
#[cycle(count_list_count_node)]
fn count_list(level: &Level, trees: &[Word], q: usize) -> Option<Counted>
    requires ready { q < level.now.frames.now.n }
    requires trees { let l = level.now in let g = geometry l.frames.now in (gs : List (List ℕ)) × TreesAt g.same l.frames.now.n trees.now l.left l.level gs }
    ensures { let l = level.now in let g = geometry l.frames.now in
        (gs : List (List ℕ)) → TreesAt g.same l.frames.now.n trees.now l.left l.level gs → result ≡ told_of (first_of (counted g.same (g.box q) l.left l.level) gs) }
{
    if trees.is_empty() {
        return None;
    }
    let found = count_node(level, trees, q);
    if found.is_some() {
        return found;
    }
    count_list(level, others(trees), q)
}

// The count of frame `q` in the tree whose words come first.
pub fn approximate_range_counting(frames: &Frames, tree: &[Word], q: usize) -> Option<Counted>
    requires ready { q < frames.now.n }
    requires tree { let g = geometry frames.now in (xs : List ℕ) × TreeAt g.same frames.now.n tree.now 0 g.levels 0 xs }
    ensures { let g = geometry frames.now in (xs : List ℕ) → TreeAt g.same frames.now.n tree.now 0 g.levels 0 xs → result ≡ told_of (counted g.same (g.box q) g.levels 0 xs) }
{
    count_node(&Level::root(frames), tree, q)
}
