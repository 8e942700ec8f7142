// Searches: the first overfull cut of a board, and its first odd vertex.
#![tactic(auto)]

ghost use Rattle.std.specs.Prelude.{◌≡◌};
ghost use mathlib.Core.List.{head?};
ghost use Rattle.board.specs.View.{board_of};
ghost use Rattle.net.specs.View.{pairs_of};
ghost use Rattle.cut.specs.Cut.{overfull_cuts};
ghost use Rattle.cut.specs.Odd.{odd_vertices};
ghost use Rattle.cut_search.specs.Found.{overfull_rows, overfull_columns, further, NoneCrossesFrom};
ghost use Rattle.cut_search.specs.Found.{found_cut, odd_with, found_vertex};

use board::{Board, Vertex};
use cut::Cut;
use net::Place;

// The first overfull row, from the top.
fn overfull_row(b: Board, nets: [Place; 64]) -> Option<Cut>
    ensures { result ≡ found_cut (head? (overfull_rows (board_of b) (pairs_of nets))) }
{
    let rows = b.count;
    for i in 0..rows {
        if cut::is_overfull(b, nets, Cut::Row(i)) {
            return Some(Cut::Row(i));
        }
    }
    None
}

// The greatest of m and the columns of what a place holds.
fn further(m: u8, place: Place) -> u8
    ensures { result ≡ further m place }
{
    place.map_or(m, |ends| m.max(ends.first.column).max(ends.second.column))
}

// The greatest column of a terminal: no net crosses that column or one right of it.
fn last_column(nets: [Place; 64]) -> u8
    ensures { NoneCrossesFrom (pairs_of nets) result }
{
    let mut last = 0;
    for place in &nets {
        last = further(last, *place);
    }
    last
}

// The first overfull column, from the left. A column that no net crosses is not overfull.
fn overfull_column(b: Board, nets: [Place; 64]) -> Option<Cut>
    ensures { result ≡ found_cut (head? (overfull_columns (board_of b) (pairs_of nets))) }
{
    let end = last_column(nets).min(31);
    for j in 0..end {
        if cut::is_overfull(b, nets, Cut::Column(j)) {
            return Some(Cut::Column(j));
        }
    }
    None
}

// The first overfull cut: rows from the top, then columns from the left.
pub fn first_overfull(b: Board, nets: [Place; 64]) -> Option<Cut>
    ensures { result ≡ found_cut (head? (overfull_cuts (board_of b) (pairs_of nets))) }
{
    match overfull_row(b, nets) {
        Some(row) => Some(row),
        None => overfull_column(b, nets),
    }
}

// Is v a vertex whose degree plus this count of terminals is odd?
pub fn is_odd(b: Board, terminals: u8, v: Vertex) -> bool
    ensures { result ≡ odd_with (board_of b) terminals v }
{
    if board::is_vertex(b, v) {
        (board_degree::degree_of(b, v) + terminals % 2) % 2 == 1
    } else {
        false
    }
}

// The first odd vertex, line by line and column by column, on the lines and columns that the board has.
pub fn first_odd(b: Board, nets: [Place; 64]) -> Option<Vertex>
    ensures { result ≡ found_vertex (head? (odd_vertices (board_of b) (pairs_of nets))) }
{
    let counts = net_terminals::count_terminals(nets);
    let mut found = None;
    let lines = cut::lines_of(b);
    'lines: for line in 0..lines {
        let columns = cut::columns_of(b, line);
        for column in 0..columns {
            let v = Vertex { line, column };
            let terminals = counts[usize::from(line) * 32 + usize::from(column)];
            if is_odd(b, terminals, v) {
                found = Some(v);
                break 'lines;
            }
        }
    }
    found
}
