// How the router starts: the lines of a board, and the table of the pairs that are to be joined.
#![tactic(auto)]

ghost use Rattle.std.specs.Prelude.{◌≡◌, ◌+◌, ◌≤◌, ◌<◌, length};
ghost use Rattle.board.specs.View.{board_of};
ghost use Rattle.net.specs.View.{pairs_of};
ghost use Rattle.router_start.specs.Lines.{Lined};
ghost use Rattle.router_start.specs.Table.{word_of, Emptied, FillsIn, PutsIn, RowIn, PlaceIn};

use board::{Board, Vertex};
use net::{Pair, Place};
use router_notes::{Lines, Notes, Table};

// The first and the last column of each line: those of the wider of the rows above and below it.
pub fn fill_lines(b: Board, lines: &mut Lines)
    requires { (1 ≤ b.count) × (b.count ≤ 31) }
    ensures { Lined (board_of b) (b.count + 1) lines.old.first lines.old.last lines.new.first lines.new.last }
{
    let rows = b.rows;
    let n = usize::from(b.count);
    for l in 0..n + 1 {
        let above = rows[l.saturating_sub(1)];
        let below = rows[l.min(n - 1)];
        lines.first[l] = above.left.min(below.left);
        lines.last[l] = above.right.max(below.right);
    }
}

// A vertex as a word.
fn word_of(v: Vertex) -> u16
    ensures { result ≡ word_of v }
{
    u16::from(v.line) * 32 + u16::from(v.column)
}

// Row k of the table: the ends of a pair, which is made with them, and k as its number.
fn fill_row(p: Pair, k: usize, table: &mut Table, notes: &mut Notes)
    requires { k < 64 }
    ensures { RowIn p k table.old notes.old table.new notes.new }
{
    let first = word_of(p.first);
    let second = word_of(p.second);
    router_table::add(table, k, k as u16, first, second);
    notes.start[k] = first;
    notes.end[k] = second;
}

// What a place holds becomes row k; answers with the next row.
fn fill_place(place: Place, k: usize, table: &mut Table, notes: &mut Notes) -> usize
    requires { k < 64 }
    ensures { PlaceIn place k table.old notes.old result table.new notes.new }
{
    match place {
        None => k,
        Some(p) => {
            fill_row(p, k, table, notes);
            k + 1
        }
    }
}

// The table of the nets' pairs, in rising number; answers with their count.
pub fn fill_table(nets: [Place; 64], table: &mut Table, notes: &mut Notes) -> usize
    requires { Emptied table.old notes.old }
    ensures fills { FillsIn (pairs_of nets) result table.old notes.old table.new notes.new }
    ensures upper_bound { result ≤ 64 }
{
    let mut k: usize = 0;
    for place in &nets {
        k = fill_place(*place, k, table, notes);
    }
    k
}

// Helper pairs in the rows from row k on; answers with the row after them.
pub fn fill_helpers(pairs: &[Pair], k: usize, table: &mut Table, notes: &mut Notes) -> usize
    requires { k + length pairs.now ≤ 64 }
    ensures puts_on { PutsIn pairs.now k table.old notes.old result table.new notes.new }
    ensures value { result ≡ k + length pairs.now }
{
    for (i, pair) in pairs.iter().enumerate() {
        fill_row(*pair, k + i, table, notes);
    }
    k + pairs.len()
}
