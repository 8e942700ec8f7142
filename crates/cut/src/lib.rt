// Cuts of a board: rows and columns, their edges, the nets that cross them, and their margins.
#![tactic(auto)]

ghost use Rattle.std.specs.Prelude.{◌≡◌, ◌≤◌, pos, ◌-ℤ◌};
ghost use Rattle.std.specs.Int.Signed.{lt_z};
ghost use Rattle.count.specs.Truth.{Decides};
ghost use Rattle.board.specs.View.{board_of};
ghost use Rattle.net.specs.View.{pairs_of};
ghost use Rattle.cut.specs.Cut.{edges, side, crosses, Overfull, overfull?};
ghost use Rattle.cut.specs.Extent.{places, lines_of, columns_of, extent};
ghost use Rattle.cut.specs.Tally.{cut_edge, with_held, TallyOf};

use board::{Board, Direction, Vertex};
use net::{Pair, Place};

// A row i, or a column j: the cut between columns j and j + 1.
#[derive(Clone, Copy, PartialEq, Eq)]
pub enum Cut {
    Row(u8),
    Column(u8),
}

// What was counted of one cut: its edges and the nets that cross it.
#[derive(Clone, Copy)]
pub struct Tally {
    pub edges: u8,
    pub nets: u8,
}

// Is v above row i, or left of column j?
fn is_before(x: Cut, v: Vertex) -> bool
    ensures { result ≡ side x v }
{
    match x {
        Cut::Row(i) => v.line <= i,
        Cut::Column(j) => v.column <= j,
    }
}

// Does the pair have its terminals on different sides of the cut?
pub fn is_crossing(x: Cut, p: Pair) -> bool
    ensures { result ≡ crosses x p }
{
    let first = is_before(x, p.first);
    let second = is_before(x, p.second);
    first != second
}

// The tally with one place more: its count of nets is raised when a net held there crosses.
fn with_place(t: Tally, x: Cut, place: Place) -> Tally
    requires { t.nets ≤ 63 }
    ensures { result ≡ with_held t x place }
{
    match place {
        None => t,
        Some(p) => {
            if is_crossing(x, p) {
                Tally {
                    edges: t.edges,
                    nets: t.nets + 1,
                }
            } else {
                t
            }
        }
    }
}

// Counts one place into the lent tally: its count of nets is raised when a net held there crosses.
fn count_place(t: &mut Tally, x: Cut, place: Place)
    requires { t.old.nets ≤ 63 }
    ensures { t.new ≡ with_held t.old x place }
{
    *t = with_place(*t, x, place);
}

// The tally with one place more: it is lent to be counted into, and handed back.
fn counted(t: Tally, x: Cut, place: Place) -> Tally
    requires { t.nets ≤ 63 }
    ensures { result ≡ with_held t x place }
{
    let mut lent = t;
    count_place(&mut lent, x, place);
    lent
}

// Is the edge of the cut at column k of a row, or at line k of a column, one of the board's?
fn is_cut_edge(b: Board, x: Cut, k: u8) -> bool
    ensures { result ≡ cut_edge (board_of b) x k }
{
    match x {
        Cut::Row(i) => board::is_edge(b, Direction::Down, Vertex { line: i, column: k }),
        Cut::Column(j) => board::is_edge(b, Direction::Right, Vertex { line: k, column: j }),
    }
}

// How many lines or columns are numbered 0 to n: none past 31.
fn places(n: u8) -> u8
    ensures { result ≡ places n }
{
    if n < 31 { n + 1 } else { 32 }
}

// How many lines the board has: there is no vertex below them.
pub fn lines_of(b: Board) -> u8
    ensures { result ≡ lines_of (board_of b) }
{
    places(b.count)
}

// How many columns of line l can have a vertex: none is right of the rows above and below the line.
pub fn columns_of(b: Board, l: u8) -> u8
    ensures { result ≡ columns_of (board_of b) l }
{
    places(board::right_of(b, l.saturating_sub(1)).max(board::right_of(b, l)))
}

// How many columns of a row, or lines of a column, can have an edge of the cut.
fn extent_of(b: Board, x: Cut) -> u8
    ensures { result ≡ extent (board_of b) x }
{
    match x {
        Cut::Row(i) => columns_of(b, i),
        Cut::Column(_) => lines_of(b),
    }
}

// The count of the cut's edges.
pub fn edges_of(b: Board, x: Cut) -> u8
    ensures value { result ≡ edges (board_of b) x }
    ensures upper_bound { result ≤ 32 }
{
    let end = extent_of(b, x);
    let mut n: u8 = 0;
    for k in 0..end {
        n += u8::from(is_cut_edge(b, x, k));
    }
    n
}

// The tally of a cut, filled net by net.
pub fn tally_of(b: Board, nets: [Place; 64], x: Cut) -> Tally
    ensures { TallyOf (board_of b) (pairs_of nets) x result }
{
    let mut t = Tally {
        edges: edges_of(b, x),
        nets: 0,
    };
    for place in &nets {
        t = counted(t, x, *place);
    }
    t
}

// Edges minus crossing nets, below zero where there are more nets than edges.
pub fn margin_of(t: Tally) -> i32
    ensures { result ≡ pos t.edges -ℤ pos t.nets }
{
    (t.edges as i32) - (t.nets as i32)
}

// Is the margin of a tally below zero?
fn is_short(t: Tally) -> bool
    ensures { result ≡ lt_z (pos t.edges -ℤ pos t.nets) (pos 0) }
{
    margin_of(t) < 0
}

// Do more nets cross the cut than it has edges?
pub fn is_overfull(b: Board, nets: [Place; 64], x: Cut) -> bool
    ensures { Decides result (overfull? (board_of b) (pairs_of nets) x) (Overfull (board_of b) (pairs_of nets) x) }
{
    is_short(tally_of(b, nets, x))
}
