// Boards and nets, made row by row and net by net.
ghost use Rattle.std.specs.Prelude.{◌≡◌, ◌<◌};
ghost use Rattle.run_boards.specs.Build.{empty, with_row, no_nets, with_net, pair_at};

use board::{Board, Row, Vertex};
use net::{Pair, Place};

// A board of no rows.
fn no_rows() -> Board
    ensures { result ≡ empty }
{
    let rows = [Row { left: 0, right: 0 }; 31];
    Board { count: 0, rows }
}

// The board with one row more below its last one. A board of 31 rows stays as it is.
#[tactic(auto, unfolding(crate::specs::Build::with_row))]
pub fn with_row(b: Board, left: u8, right: u8) -> Board
    ensures { result ≡ with_row b left right }
{
    if 31 <= b.count {
        return b;
    }
    let mut rows = b.rows;
    rows[usize::from(b.count)] = Row { left, right };
    Board {
        count: b.count + 1,
        rows,
    }
}

// A board of one row.
pub fn row(left: u8, right: u8) -> Board
    ensures { result ≡ with_row empty left right }
{
    with_row(no_rows(), left, right)
}

pub fn no_nets() -> [Place; 64]
    ensures { result ≡ no_nets }
{
    [None; 64]
}

// The nets with another one at place i, which is that of number i + 1.
pub fn with_net(old: [Place; 64], i: usize, ends: Pair) -> [Place; 64]
    requires { i < 64 }
    ensures { result ≡ with_net old i ends }
{
    let mut nets = old;
    nets[i] = Some(ends);
    nets
}

// The terminals at line k and column c, and at line l and column d.
pub fn pair(k: u8, c: u8, l: u8, d: u8) -> Pair
    ensures { result ≡ pair_at k c l d }
{
    Pair {
        first: Vertex { line: k, column: c },
        second: Vertex { line: l, column: d },
    }
}
