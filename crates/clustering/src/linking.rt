// Whether two core cells are linked. The frames of both are asked by turns: so a link is found early, from whichever side has it.
ghost use Rattle.std.specs.Prelude.{◌≡◌, true, false, Some, IfSome, ℕ, ◌<◌};
ghost use Rattle.lists.specs.Lists.{any, In, nonzero};
ghost use Rattle.lists.specs.Words.{rest};
ghost use Rattle.counting_tree.specs.Given.{geometry};
ghost use Rattle.cells_grid.specs.Arrangement.{cell_at};
ghost use Rattle.cells_grid.specs.Cells.{count};
ghost use Rattle.core_cells.specs.Forest.{tree_frames};
ghost use Rattle.core_cells.specs.Settling.{Apart};
ghost use Rattle.core_cells.specs.RootBox.{root_box};
ghost use Rattle.clustering.specs.UniteAll.{link_at};
ghost use Rattle.clustering.specs.Turns.{core_frame_at, asked_at, turn_at};

use crate::links::Links;
use core_cells::CoreCells;
use counting_tree::Box;
use std::ops::Range;

// How many turns are taken before it is asked what whole numbers tell of all frames at once: most linked cells are found in few turns.
const TURNS: usize = 8;

// Frame j of cell c, counted from 0, if it is there and a core frame.
pub(crate) fn core_frame(cells: &CoreCells, c: usize, j: usize) -> Option<usize>
    requires { c < cells.now.grid.k }
    ensures value { result ≡ core_frame_at (geometry cells.now.grid.frames) c j }
    ensures bound { IfSome result (λ i. i < cells.now.grid.frames.n) }
{
    let i = *cells.grid.frames_of(c).get(j)? as usize;
    if cells.is_core(i) { Some(i) } else { None }
}

// A cell whose tree is asked, with its root box where that is asked before the cell's frames: it is worked out once for all frames.
#[derive(Clone, Copy)]
struct Target {
    cell: usize,
    root: Option<Box>,
}

// Cell c, to have its tree asked.
fn target_of(cells: &CoreCells, c: usize) -> Target
    requires { c < cells.now.grid.k }
    ensures cell { result.cell ≡ c }
    ensures root { let f = cells.now.grid.frames in IfSome result.root (λ b. b ≡ root_box f.v f.n f.points.now result.cell) }
{
    Target {
        cell: c,
        root: cells.root_first(c),
    }
}

// One side of a turn: whether frame j of cell c is a core frame and has a non-zero count in the tree of cell t.
fn asks(cells: &CoreCells, c: usize, t: Target, j: usize) -> bool
    requires { let f = cells.now.grid.frames in (c < cells.now.grid.k) × (t.cell < cells.now.grid.k) × IfSome t.root (λ b. b ≡ root_box f.v f.n f.points.now t.cell) }
    ensures { result ≡ asked_at (geometry cells.now.grid.frames) c t.cell j }
{
    match core_frame(cells, c, j) {
        Some(i) => cells.reaches(i, t.cell, t.root),
        None => false,
    }
}

// Whether one of some turns finds a link of the cells a and b.
fn by_turns(cells: &CoreCells, a: Target, b: Target, mut turns: Range<usize>) -> bool
    requires first_cell { let f = cells.now.grid.frames in (a.cell < cells.now.grid.k) × IfSome a.root (λ x. x ≡ root_box f.v f.n f.points.now a.cell) }
    requires second_cell { let f = cells.now.grid.frames in (b.cell < cells.now.grid.k) × IfSome b.root (λ x. x ≡ root_box f.v f.n f.points.now b.cell) }
    ensures { result ≡ any (turn_at (geometry cells.now.grid.frames) a.cell b.cell) (rest turns.end turns.start) }
{
    turns.any(|j| asks(cells, a.cell, b, j) || asks(cells, b.cell, a, j))
}

// What the core frames of c and d tell by whole numbers before a tree of them is asked. (Where neither has a tree it is not asked:
// a frame then asks the other cell's frames itself, and only where the root box does not tell.)
fn told_by_cells(cells: &CoreCells, c: usize, d: usize) -> Option<bool>
    requires { (c < cells.now.grid.k) × (d < cells.now.grid.k) }
    ensures touches { result ≡ Some true → (let g = geometry cells.now.grid.frames in (q : ℕ) × In q (tree_frames g c) × (nonzero (count g q (cell_at g d)) ≡ true)) }
    ensures apart { let f = cells.now.grid.frames in result ≡ Some false → Apart f.v f.n f.points.now c d }
{
    if cells.tree_of(c).is_none() && cells.tree_of(d).is_none() {
        return None;
    }
    cells.settled_by_cells(c, d)
}

// Whether core cells c and d are linked: whether a core frame of one has a non-zero count in the tree of the other.
pub fn is_linked(cells: &CoreCells, c: usize, d: usize) -> bool
    requires { (c < cells.now.grid.k) × (d < cells.now.grid.k) }
    ensures { result ≡ link_at (geometry cells.now.grid.frames) c d }
{
    if cells.apart(c, d) {
        return false;
    }
    let a = target_of(cells, c);
    let b = target_of(cells, d);
    if by_turns(cells, a, b, 0..TURNS) {
        return true;
    }
    let most = cells
        .grid
        .frames_of(c)
        .len()
        .max(cells.grid.frames_of(d).len());
    if most <= TURNS {
        return false;
    }
    if let Some(told) = told_by_cells(cells, c, d) {
        return told;
    }
    by_turns(cells, a, b, TURNS..most)
}

// The test whether cells are linked.
#[derive(Clone, Copy)]
pub(crate) struct Linked<'a>(pub(crate) &'a CoreCells<'a>);

impl Links for Linked<'_> {
    ghost cells = { λ l. l.0.now.grid.k };

    ghost linked = { λ l. link_at (geometry l.0.now.grid.frames) };

    fn linked(&self, c: usize, d: usize) -> bool {
        is_linked(self.0, c, d)
    }
}
