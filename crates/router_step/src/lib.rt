// One step of the corner router on a table of live pairs: the corner is cut off, and what left it is noted.
#![tactic(auto)]

ghost use Rattle.std.specs.Prelude.{◌≡◌, ◌≤◌, ◌<◌};
ghost use Rattle.router_notes.specs.Limits.{pair_limit, last_pair};
ghost use Rattle.router_ends.specs.View.{Low, Near};
ghost use Rattle.router_step.specs.Stepped.{Stepped};

use router_ends::Work;
use router_notes::{Lines, Notes, Table};

// The corner is cut off, or the router is stuck, which it is only where the problem was not good. The corner's column is one of the frame in any
// case.
pub fn step(table: &mut Table, notes: &mut Notes, lines: &mut Lines, w: Work) -> Option<Work>
    requires { (w.n < pair_limit) × (w.next < last_pair) × Low table.old.number × (w.top ≤ 31) × (w.bottom ≤ 31) }
    ensures stepped { Stepped table.old notes.old lines.old w table.new notes.new lines.new result }
    ensures near { Near w result × Low table.new.number }
    ensures kept { lines.new.last ≡ lines.old.last }
{
    let line = router_table::seen(w.up, w.top);
    let x = usize::from(lines.first[line]) % 32;
    let i = router_table::first_at(table, router_ends::word(line, x), 0, w.n);
    if w.bottom <= w.top {
        router_ends::go_right(table, notes, lines, w, i, line, x)
    } else if usize::from(lines.last[line]) <= x {
        router_ends::go_down(table, notes, lines, w, i, line, x)
    } else if i < w.n {
        router_ends::two_ends(table, notes, lines, w, i, line, x)
    } else {
        router_bare::no_end(table, notes, lines, w, line, x)
    }
}
