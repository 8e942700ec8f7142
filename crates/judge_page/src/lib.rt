// A routing drawn as a page of text, from a board and a map of used edges.
#![tactic(auto)]

ghost use Rattle.std.specs.Prelude.{◌≡◌, ◌≤◌, ◌<◌, ltb, length, get_or};
ghost use Rattle.board.specs.View.{board_of};
ghost use Rattle.call_rules.specs.Result.{yes};
ghost use Rattle.call_rules.specs.Writing.{Writes};
ghost use Rattle.call_rules.specs.Page.{sign_if, character_at, page};
ghost use Rattle.judge_walk.specs.Slots.{slot_at};
ghost use Rattle.judge_page.specs.Marked.{marked, byte_at};

use board::{Board, Direction, Vertex};

// The most bytes of a page, and the least room for one: 63 text lines of 63 characters and a line feed.
pub const PAGE_BYTES: usize = 4032;

// A sign where something holds, and a space elsewhere.
fn sign_if(holds: bool, sign: u8) -> u8
    ensures { result ≡ sign_if holds sign }
{
    if holds { sign } else { b' ' }
}

// Does a net use the edge that leaves v in the direction d?
fn is_used(used: &[u8; 2048], d: Direction, v: Vertex) -> bool
    ensures { result ≡ ltb 0 (get_or used.now (slot_at d v) 0) }
{
    let slot = judge_walk::slot_of(d, v);
    0 < used[slot]
}

// Character x of text line y: vertices and the edges between them in one line, the edges down from them in the next.
fn character(b: Board, used: &[u8; 2048], y: u8, x: u8) -> u8
    ensures { result ≡ character_at (board_of b) (marked used.now) y x }
{
    let v = Vertex {
        line: y / 2,
        column: x / 2,
    };
    match (y % 2, x % 2) {
        (0, 0) => sign_if(board::is_vertex(b, v), b'+'),
        (0, _) => sign_if(is_used(used, Direction::Right, v), b'-'),
        (_, 0) => sign_if(is_used(used, Direction::Down, v), b'|'),
        _ => b' ',
    }
}

// The byte at index i of the page.
fn byte_at(b: Board, used: &[u8; 2048], i: usize) -> u8
    requires { i < 4032 }
    ensures { result ≡ byte_at (board_of b) (marked used.now) i }
{
    let y = (i / 64) as u8;
    let x = (i % 64) as u8;
    if x < 63 {
        character(b, used, y, x)
    } else {
        b'\n'
    }
}

// The page at the start of the buffer; how many bytes it has.
pub fn draw(b: Board, used: &[u8; 2048], out: &mut [u8]) -> usize
    requires count_bound { b.count ≤ 31 }
    requires in_bounds { 4032 ≤ length out.old }
    ensures { Writes (yes (page (board_of b) (marked used.now))) out.old (yes result) out.new }
{
    let count = 64 * (2 * usize::from(b.count) + 1);
    for (i, byte) in out[..count].iter_mut().enumerate() {
        *byte = byte_at(b, used, i);
    }
    count
}
