// Is a board within the limits, and is it convex?
#![tactic(auto)]

ghost use Rattle.std.specs.Prelude.{◌≡◌, ◌≤◌};
ghost use Rattle.count.specs.Truth.{Decides};
ghost use Rattle.board.specs.Board.{Within};
ghost use Rattle.board.specs.Path.{Convex};
ghost use Rattle.board.specs.View.{board_of};
ghost use Rattle.board_convex.specs.Test.{rows_fit, contains?, peels, innermost, in_limits, is_convex};

use board::{Board, Row};

// Has each of the first n rows a cell, and does it end by column 31?
fn rows_fit(rows: [Row; 31], n: usize) -> bool
    requires { n ≤ 31 }
    ensures { result ≡ rows_fit rows n }
{
    let mut ok = true;
    for row in &rows[..n] {
        ok = ok & ((row.left < row.right) & (row.right <= 31));
    }
    ok
}

// Does row r contain row s?
fn contains(r: Row, s: Row) -> bool
    ensures { result ≡ contains? r s }
{
    (r.left <= s.left) & (s.right <= r.right)
}

// Are rows 0 to last nested, with no row narrower than one above and one below it?
// Row after row is taken: the top one, if the bottom one contains it, else the bottom one. Each must contain the one taken before.
fn peel(rows: [Row; 31], last: usize) -> bool
    requires { last ≤ 30 }
    ensures { result ≡ peels rows innermost 0 last }
{
    let mut ok = true;
    // what every row contains: there is no row before the first
    let mut inner = Row { left: 31, right: 0 };
    let mut lo: usize = 0;
    let mut hi = last;
    while lo < hi {
        let top = rows[lo];
        let bottom = rows[hi];
        if contains(bottom, top) {
            ok = ok & contains(top, inner);
            inner = top;
            lo += 1;
        } else {
            ok = ok & contains(bottom, inner);
            inner = bottom;
            hi -= 1;
        }
    }
    let rest = rows[lo];
    ok & contains(rest, inner)
}

// Is the board within the limits?
pub fn within(b: Board) -> bool
    ensures { Decides result (in_limits (board_of b)) (Within (board_of b)) }
{
    let n = b.count;
    let rows = b.rows;
    if (1 <= n) & (n <= 31) {
        rows_fit(rows, usize::from(n))
    } else {
        false
    }
}

// Is the board within the limits and convex?
pub fn is_convex(b: Board) -> bool
    ensures { Decides result (is_convex (board_of b)) (Within (board_of b) × Convex (board_of b)) }
{
    if within(b) {
        let n = b.count;
        let rows = b.rows;
        peel(rows, usize::from(n - 1))
    } else {
        false
    }
}
