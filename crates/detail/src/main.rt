// Writes the cells, lists, core frames, trees and counts of small sets of frames, one by one.
// Standard input has the sets in hexadecimal: a line of settings (channels 2 digits, `min_points` 4, tolerance 4, s 2),
// then a line a frame, 4 two's complement digits a channel. A line `--` ends a set.
#![tactic(auto)]

ghost use Rattle.std.specs.Prelude.{◌≡◌, ◌+◌, ◌*◌, ◌<◌, ◌≤◌, length, take};
ghost use Rattle.hyperparams.specs.Params.{work_words};
ghost use Rattle.counting_tree.specs.Given.{geometry};
ghost use Rattle.core_cells.specs.Forest.{Grown};
ghost use Rattle.detail.specs.Digits.{digit_of, two_of, four_of};

use cells_grid::CellsGrid;
use cells_grid::listing::TREES;
use core_cells::{CoreCells, NODES};
use counting_tree::Frames;
use hyperparams::{Params, Refusal};
use lists::Word;
use std::io;
use tree_structure::Node;

// Where the words begin that the phases need to be 0 (fourteen regions), in multiples of the number of frames.
const CLEAR: usize = 10;

// The digits of a line of settings, and the bytes of a line that ends a set.
const HEAD: usize = 12;

const SET_END: usize = 3;

// More than the sets have.
const CAPACITY: usize = 65536;

// The counts of 64 frames of 4 channels, and the work words that they need with the largest s.
const MAX_COUNTS: usize = 256;

const MAX_WORDS: usize = 4096;

// Where a set ends: its line `--`, or the end of the text.
fn set_end(text: &[u8]) -> usize
    ensures { result ≤ length text.now }
{
    text.iter().position(|b| *b == b'-').unwrap_or(text.len())
}

// What a byte counts for as a digit: bytes that are none count on from `0` and `a`, modulo 16, and 0 below.
fn digit(b: u8) -> u8
    ensures value { result ≡ digit_of b }
    ensures bound { result < 16 }
{
    match b {
        b'a'.. => (b - b'a' + 10) % 16,
        b'0'.. => (b - b'0') % 16,
        _ => 0,
    }
}

// The number of the 2 digits at a place.
fn two_digits(text: &[u8], at: usize) -> u8
    requires { at + 2 ≤ length text.now }
    ensures { result ≡ two_of text.now at }
{
    16 * digit(text[at]) + digit(text[at + 1])
}

// The number of the 4 digits at a place.
fn four_digits(text: &[u8], at: usize) -> u16
    requires { at + 4 ≤ length text.now }
    ensures { result ≡ four_of text.now at }
{
    256 * u16::from(two_digits(text, at)) + u16::from(two_digits(text, at + 2))
}

// Reads the counts of some lines, as many as there is room for. Returns how many there are.
fn read_points(lines: &[u8], points: &mut [i16]) -> usize
    ensures { (result ≤ length points.new) × (result ≡ length (take result points.new)) }
{
    let mut rest = lines;
    let mut counts = 0;
    while rest.len() >= 4 && counts < points.len() {
        if rest[0] == b'\n' {
            rest = &rest[1..];
        } else {
            points[counts] = four_digits(rest, 0).cast_signed();
            counts += 1;
            rest = &rest[4..];
        }
    }
    counts
}

// Writes the list of cell c.
fn show_list(rt: &impl Print, cells: &CoreCells, c: usize) -> io::Result<()>
    requires { c < cells.now.grid.k }
{
    for d in 0..cells.grid.k {
        if cells.grid.is_listed(c, d) {
            print!(rt; " {d}")?;
        }
    }
    Ok(())
}

// The nodes of the tree of cell c, if it has one: as many as the first one counts.
fn nodes_of<'a>(cells: &'a CoreCells, c: usize) -> Option<&'a [[Word; 4]]>
    requires { c < cells.now.grid.k }
{
    let (nodes, _) = cells.tree_of(c)?.as_chunks::<4>();
    let first = Node::read(nodes.first()?);
    nodes.get(..first.size)
}

// The level of node j of a tree: how many nodes before it have it in their subtree.
fn level_of(tree: &[[Word; 4]], j: usize) -> usize
    requires { j ≤ length tree.now }
    ensures { result ≤ j }
{
    tree[..j]
        .iter()
        .enumerate()
        .filter(|(i, words)| i.saturating_add(Node::read(*words).size) > j)
        .count()
}

// Writes the nodes of a tree: level, count and first frame.
fn show_nodes(rt: &impl Print, tree: &[[Word; 4]]) -> io::Result<()> {
    for (j, words) in tree.iter().enumerate() {
        let level = level_of(tree, j);
        let Node { count, first, .. } = Node::read(words);
        println!(rt; "  level {level} count {count} first {first}")?;
    }
    Ok(())
}

// Writes the tree of cell c, if it has one, node by node.
fn show_tree(rt: &impl Print, cells: &CoreCells, c: usize) -> io::Result<()>
    requires { c < cells.now.grid.k }
{
    match nodes_of(cells, c) {
        Some(tree) => show_nodes(rt, tree),
        None => Ok(()),
    }
}

// Writes the frames of cell c.
fn show_members(rt: &impl Print, cells: &CoreCells, c: usize) -> io::Result<()>
    requires { c < cells.now.grid.k }
{
    for i in cells.grid.frames_of(c) {
        print!(rt; " {i}")?;
    }
    Ok(())
}

// Writes cell c: its first frame, its frames, its list and its tree.
fn show_cell(rt: &impl Print, cells: &CoreCells, c: usize) -> io::Result<()>
    requires { c < cells.now.grid.k }
{
    let first = cells.grid.first_of(c);
    print!(rt; "cell {c}: first {first}, frames")?;
    show_members(rt, cells, c)?;
    print!(rt; ", list")?;
    show_list(rt, cells, c)?;
    println!(rt)?;
    show_tree(rt, cells, c)
}

// Writes how many frames of each cell lie within the tolerance of frame i.
fn show_in_range(rt: &impl Print, cells: &CoreCells, i: usize) -> io::Result<()>
    requires { i < cells.now.grid.frames.n }
{
    for c in 0..cells.grid.k {
        let count = cells.grid.points_in_range(i, c);
        print!(rt; " {count}")?;
    }
    Ok(())
}

// Writes the cells in whose trees frame i has a count that is not 0.
fn show_counted(rt: &impl Print, cells: &CoreCells, i: usize) -> io::Result<()>
    requires { i < cells.now.grid.frames.n }
{
    for c in 0..cells.grid.k {
        if let Some(tree) = cells.tree_of(c) {
            if tree_structure::approximate_range_counting(&cells.grid.frames, tree, i).is_some() {
                print!(rt; " {c}")?;
            }
        }
    }
    Ok(())
}

// Writes frame i: its cell, whether it is core, how many frames of each cell lie within the tolerance, and the trees that count some.
fn show_frame(rt: &impl Print, cells: &CoreCells, i: usize) -> io::Result<()>
    requires { i < cells.now.grid.frames.n }
{
    let cell = cells.grid.cell_of(i);
    print!(rt; "frame {i}: cell {cell}")?;
    if cells.is_core(i) {
        print!(rt; ", core")?;
    }
    print!(rt; ", in range")?;
    show_in_range(rt, cells, i)?;
    print!(rt; ", counted in")?;
    show_counted(rt, cells, i)?;
    println!(rt)
}

// Writes every cell, then every frame.
fn show_all(rt: &impl Print, cells: &CoreCells) -> io::Result<()> {
    for c in 0..cells.grid.k {
        show_cell(rt, cells, c)?;
    }
    for i in 0..cells.grid.frames.n {
        show_frame(rt, cells, i)?;
    }
    Ok(())
}

// Finds the cells and their core frames, and builds the tree of every core cell. Returns the number of cells.
fn prepare(frames: &Frames, work: &mut [Word]) -> usize
    requires { work_words frames.now.n frames.now.v.s ≤ length work.old }
    ensures { Grown (geometry frames.now) result work.new }
{
    let n = frames.n;
    lists::clear_words(work, CLEAR * n, 14 * n);
    let k = cells_grid::populate(frames, work);
    cells_grid::label_points(frames, k, work);
    core_cells::build_trees(frames, k, work, 0);
    k
}

// Writes all that the words of a prepared set hold.
fn show_words(rt: &impl Print, frames: Frames, k: usize, work: &[Word]) -> io::Result<()>
    requires { Grown (geometry frames) k work.now × (16 * frames.n ≤ length work.now) }
{
    let n = frames.n;
    let grid = CellsGrid {
        frames,
        k,
        work: &work[..(TREES + 1) * n],
    };
    let cells = CoreCells {
        grid,
        nodes: &work[NODES * n..],
    };
    show_all(rt, &cells)
}

// Writes why a set is refused.
fn show_refusal(rt: &impl Print, refusal: Refusal) -> io::Result<()> {
    let number = u8::from(refusal);
    println!(rt; "refused {number}")
}

// Writes all of a set, or the number of its refusal.
fn show_run(rt: &impl Print, points: &[i16], p: Params, work: &mut [Word]) -> io::Result<()> {
    let room = hyperparams::MAX_FRAMES;
    match p.check(points.len(), room, room, work.len()) {
        Err(refusal) => show_refusal(rt, refusal),
        Ok(v) => {
            let frames = Frames::new(points, v);
            let k = prepare(&frames, work);
            show_words(rt, frames, k, work)
        }
    }
}

// Writes a set: its settings, and what comes of its frames.
fn show_set(rt: &impl Print, set: &[u8]) -> io::Result<()> {
    if set.len() < HEAD {
        return Ok(());
    }
    let channels = usize::from(two_digits(set, 0));
    let min_points = usize::from(four_digits(set, 2));
    let t = four_digits(set, 6);
    let s = two_digits(set, 10) % 16;
    println!(rt; "channels {channels}, min_points {min_points}, tolerance {t}, s {s}")?;
    let p = Params {
        channels,
        min_points,
        tolerance: f64::from(t),
        slack: 1.0 / f64::from(1u16 << s),
    };
    let mut points = [0i16; MAX_COUNTS];
    let counts = read_points(&set[HEAD..], &mut points);
    let mut work = [0u16; MAX_WORDS];
    show_run(rt, &points[..counts], p, &mut work)
}

// Writes every set, and a line `--` after each that has one.
fn show_sets(rt: &impl Print, text: &[u8]) -> io::Result<()> {
    let mut rest = text;
    while !rest.is_empty() {
        let (set, after) = rest.split_at(set_end(rest));
        show_set(rt, set)?;
        if after.len() < SET_END {
            break;
        }
        println!(rt; "--")?;
        rest = &after[SET_END..];
    }
    Ok(())
}

fn main(rt: HostRuntime) -> io::Result<()> {
    let mut text = [0u8; CAPACITY];
    let n = streams::read_full(&mut rt.stdin(), &mut text)?;
    show_sets(&rt, &text[..n])
}
