// The corner router: corner after corner is cut off until no pair is live.
#![tactic(auto)]

ghost use Rattle.std.specs.Prelude.{◌≡◌, ◌+◌, ◌≤◌};
ghost use Rattle.router_ends.specs.View.{Low};
ghost use Rattle.router_loop.specs.Promise.{Turned, CutAll, Kept};

use router_ends::Work;
use router_notes::{Lines, Notes, Table, VERTICES};

// The shape read upside down, if the bottom line is narrower than the top line.
fn turned(lines: &Lines, w: Work) -> Work
    requires { (w.top ≤ 31) × (w.bottom ≤ 31) }
    ensures turned { Turned lines.now w result }
    ensures kept { Kept w result }
{
    let t = router_table::seen(w.up, w.top);
    let b = router_table::seen(w.up, w.bottom);
    let bottom = usize::from(lines.last[b]) + usize::from(lines.first[t]);
    let top = usize::from(lines.last[t]) + usize::from(lines.first[b]);
    if bottom < top {
        return Work {
            top: 31 - w.bottom,
            bottom: 31 - w.top,
            up: !w.up,
            ..w
        };
    }
    w
}

// Corner after corner until no pair is live: are all pairs done?
pub fn cut_all(table: &mut Table, notes: &mut Notes, lines: &mut Lines, start: Work) -> bool
    requires { (start.top ≤ 31) × (start.bottom ≤ 31) × (start.n ≤ 64) × (start.next ≤ 64) × Low table.old.number }
    ensures cut_all { CutAll table.old notes.old lines.old start table.new notes.new lines.new result }
    ensures kept { lines.new.last ≡ lines.old.last }
{
    let mut w = start;
    for t in 0..VERTICES {
        let n = router_tidy::tidy(table, w.n);
        if n == 0 {
            return true;
        }
        let v = turned(lines, Work { n, ..w });
        let Some(next) = router_step::step(table, notes, lines, v) else {
            return false;
        };
        w = next;
    }
    false
}
