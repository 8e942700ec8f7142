// The paths of a list of routing words are walked on a board.
// Which net uses an edge is looked up in a map of 2,048 slots, two for each vertex: the edge to its right and the edge down from it.
#![tactic(auto)]

ghost use Rattle.std.specs.Prelude.{◌≡◌, ◌+◌, ◌<◌, ◌≤◌, length};
ghost use Rattle.board.specs.View.{board_of};
ghost use Rattle.net_places.specs.Places.{nets_of};
ghost use Rattle.call_rules.specs.Shape.{routing_limit, paths_from};
ghost use Rattle.judge_walk.specs.Slots.{corner, slot_at};
ghost use Rattle.judge_walk.specs.Parts.{part_at};
ghost use Rattle.judge_walk.specs.MapWalk.{
  further,
  map_path,
  map_paths,
  path_end,
  path_of,
  WalksRun,
  WalksPlace,
};

use board::{Board, Direction, Vertex};
use judge_shape::{Fault, Refusal};
use net::{Pair, Place};
use words::Run;

// A part of a list: where it begins, and before which index it ends.
#[derive(Clone, Copy, PartialEq, Eq)]
pub struct Part {
    pub start: usize,
    pub end: usize,
}

// The place one further from v.
fn next_of(d: Direction, v: Vertex) -> Vertex
    ensures { result ≡ further d v }
{
    match d {
        Direction::Up => Vertex {
            line: v.line.saturating_sub(1),
            column: v.column,
        },
        Direction::Right => Vertex {
            line: v.line,
            column: v.column.saturating_add(1),
        },
        Direction::Down => Vertex {
            line: v.line.saturating_add(1),
            column: v.column,
        },
        Direction::Left => Vertex {
            line: v.line,
            column: v.column.saturating_sub(1),
        },
    }
}

fn corner_of(line: u8, column: u8) -> usize
    ensures value { result ≡ corner line column }
    ensures upper_bound { result ≤ 2046 }
{
    usize::from(line % 32) * 64 + usize::from(column % 32) * 2
}

// The slot of the edge that leaves v in the direction d.
pub fn slot_of(d: Direction, v: Vertex) -> usize
    ensures value { result ≡ slot_at d v }
    ensures upper_bound { result < 2048 }
{
    match d {
        Direction::Up => corner_of(v.line.saturating_sub(1), v.column) + 1,
        Direction::Right => corner_of(v.line, v.column),
        Direction::Down => corner_of(v.line, v.column) + 1,
        Direction::Left => corner_of(v.line, v.column.saturating_sub(1)),
    }
}

// Walks a run of a net edge by edge: the board is asked first, then the map. An edge that is walked gets the net's number. Where the run ends.
#[tactic(auto, using(crate::proofs::Stops::stops))]
fn walk_run(
    b: Board,
    number: u8,
    run: Run,
    from: Vertex,
    used: &mut [u8; 2048],
) -> Result<Vertex, Fault>
    ensures { WalksRun (board_of b) number run from used.old used.new result }
{
    let d = run.direction;
    let mut v = from;
    for _ in 0..run.length {
        let slot = slot_of(d, v);
        if !board::is_edge(b, d, v) {
            return Err(Fault::OffBoard);
        }
        if 0 < used[slot] {
            return Err(Fault::EdgeUsed);
        }
        used[slot] = number;
        v = next_of(d, v);
    }
    Ok(v)
}

// Walks a path, given its runs as a part of the list, and the index of its path word; after its last run it must be at the second terminal.
fn walk_path(
    b: Board,
    number: u8,
    ends: Pair,
    index: u16,
    runs: &[u32],
    used: &mut [u8; 2048],
) -> Result<(), Refusal>
    requires { index + length runs.now ≤ 4096 }
    ensures { path_end result used.new ≡ map_path (board_of b) (path_of index number ends runs.now) used.old }
{
    let mut v = ends.first;
    for (k, &word) in runs.iter().enumerate() {
        let place = index + k as u16 + 1;
        v = walk_run(b, number, words::run_in(word), v, used).map_err(|fault| Refusal {
            fault,
            place,
        })?;
    }
    if v == ends.second {
        Ok(())
    } else {
        Err(Refusal {
            fault: Fault::NotThere,
            place: index,
        })
    }
}

// The runs of the path whose word stands at index `at`, as a part of the list: as many as the word counts, or as the list has. None where the list is
// over.
pub fn part_at(words: &[u32], at: usize) -> Option<Part>
    ensures { result ≡ part_at words.now at }
{
    let path = words::path_in(*words.get(at)?);
    let start = at + 1;
    let end = start + usize::from(path.runs).min(words.len() - start);
    Some(Part { start, end })
}

// Walks the path of what a place holds, whose path word stands at index `at`; the index of the next path word.
fn walk_place(
    b: Board,
    number: u8,
    place: Place,
    words: &[u32],
    at: usize,
    used: &mut [u8; 2048],
) -> Result<usize, Refusal>
    requires { length words.now ≤ routing_limit }
    ensures { WalksPlace (board_of b) number place words.now at used.old used.new result }
{
    match place {
        None => Ok(at),
        Some(ends) => match part_at(words, at) {
            None => Ok(at),
            Some(Part { start, end }) => {
                walk_path(b, number, ends, at as u16, &words[start..end], used)?;
                Ok(end)
            }
        },
    }
}

// Walks the paths of all nets in order, with a map of the edges used before.
pub fn walk_paths(
    b: Board,
    nets: [Place; 64],
    words: &[u32],
    used: &mut [u8; 2048],
) -> Result<(), Refusal>
    requires { length words.now ≤ routing_limit }
    ensures { path_end result used.new ≡ map_paths (board_of b) (paths_from 0 (nets_of nets) words.now) used.old }
{
    let mut at = 0;
    for (i, &place) in nets.iter().enumerate() {
        at = walk_place(b, (i + 1) as u8, place, words, at, used)?;
    }
    Ok(())
}
