// Corners where no pair ends: a pair is divided there, or a helper pair is added.
#![tactic(auto)]

ghost use Rattle.std.specs.Prelude.{◌≡◌, ◌≤◌, ◌<◌};
ghost use Rattle.router_notes.specs.Limits.{pair_limit, last_pair};
ghost use Rattle.router_invariant.specs.Divide.{dir1, dir2};
ghost use Rattle.router_ends.specs.View.{Low, Near};
ghost use Rattle.router_bare.specs.Promise.{CutRow, NoEnds, VerticesKept};

use router_ends::Work;
use router_notes::{Lines, Notes, Table};

// The direction from the first half's end to the corner, and from the corner to the second half's start.
fn corner_moves(first: bool, up: bool) -> (u8, u8)
    ensures { (result.0 ≡ dir1 first up) × (result.1 ≡ dir2 first up) }
{
    match (first, up) {
        (true, false) => (3, 2),
        (true, true) => (3, 0),
        (false, false) => (0, 1),
        (false, true) => (2, 1),
    }
}

// Row i is divided; its first half ends at nul if its first end is the right one, else at bul.
fn cut_row(
    table: &mut Table,
    notes: &mut Notes,
    w: Work,
    i: usize,
    first: bool,
    nul: u16,
    bul: u16,
) -> Work
    requires { (i < w.n) × (w.n < pair_limit) × (w.next < last_pair) × Low table.old.number × (w.top ≤ 31) × (w.bottom ≤ 31) }
    ensures { CutRow table.old notes.old w i first nul bul table.new notes.new result }
{
    let a = table.first[i];
    let b = table.second[i];
    let k = usize::from(table.number[i]);
    let (x, y) = if first { (nul, bul) } else { (bul, nul) };
    let (dx, dy) = corner_moves(first, w.up);
    router_table::part(notes, k, w.next, a, b, x, y, dx, dy);
    router_table::divide(table, i, w.n, w.next, x, y);
    Work {
        n: w.n + 1,
        next: w.next + 2,
        ..w
    }
}

// Two edges and no end at the corner: a pair is divided there, or a helper pair is added.
pub fn no_end(
    table: &mut Table,
    notes: &mut Notes,
    lines: &mut Lines,
    w: Work,
    line: usize,
    x: usize,
) -> Option<Work>
    requires { (w.n < pair_limit) × (w.next < last_pair) × (line < 32) × (x < 32) × Low table.old.number × (w.top < w.bottom) × (w.bottom ≤ 31) }
    ensures no_ends { NoEnds table.old notes.old lines.old w line x
        table.new notes.new lines.new result }
    ensures near { Near w result }
    ensures low { Low table.new.number }
    ensures kept { VerticesKept notes.old lines.old notes.new lines.new }
{
    let from = router_ends::word(line, x);
    let nul = from + 1;
    let bul = router_ends::below(from, w.up);
    router_ends::shorten(lines, line, x);
    if router_table::crossing(table, w.n, x) == w.bottom - w.top + 1 {
        let i = router_table::least(table, w.n, x, w.up);
        if i == w.n {
            return None;
        }
        let c = usize::from(table.first[i]) % 32;
        return Some(cut_row(table, notes, w, i, x < c, nul, bul));
    }
    if router_table::leaving(table, w.n, line) + x == usize::from(lines.last[line]) + 1 {
        let i = router_table::first_at(table, nul, 0, w.n);
        if i == w.n {
            return None;
        }
        let a = table.first[i];
        return Some(cut_row(table, notes, w, i, a == nul, nul, bul));
    }
    router_table::add(table, w.n, w.next, nul, bul);
    Some(Work {
        n: w.n + 1,
        next: w.next + 1,
        ..w
    })
}
