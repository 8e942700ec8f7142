// The report on the paths of a list of routing words: edges used, turns, knock-knees. A path is traced run by run.
// A mark of each vertex says how many turns occurred there: none, one, or more.
#![tactic(auto)]

ghost use Rattle.std.specs.Prelude.{◌≡◌, ◌+◌, ◌*◌, ◌≤◌, ltb, length, count_by};
ghost use Rattle.call_rules.specs.Judge.{paths_in};
ghost use Rattle.call_rules.specs.Report.{report_of};
ghost use Rattle.call_rules.specs.Shape.{routing_limit, paths_from};
ghost use Rattle.session_rules.specs.Session.{pairs};
ghost use Rattle.net_places.specs.Places.{nets_of};
ghost use Rattle.judge_report.specs.Measures.{Measured, MeasuresPlace};
ghost use Rattle.judge_report.specs.Reports.{report_is};
ghost use Rattle.judge_report.specs.Traces.{
  turn_by,
  last_after,
  line_after,
  column_after,
  trace_run,
  Grows,
  marked,
  mark_at,
  mark_run,
};

use board::{Direction, Vertex};
use judge_walk::Part;
use net::Place;
use words::Run;

// Where a path has come to, the direction of its last step, and its edges and turns so far.
#[derive(Clone, Copy)]
pub struct Trace {
    pub line: u32,
    pub column: u32,
    pub last: Option<Direction>,
    pub edges: u32,
    pub turns: u32,
}

// The index of the next path word, and the edges and turns of the paths so far.
#[derive(Clone, Copy)]
pub struct Sum {
    pub at: usize,
    pub edges: u32,
    pub turns: u32,
}

// The report on a judged routing.
#[derive(Clone, Copy)]
pub struct Report {
    pub edges: u32,
    pub turns: u32,
    pub knocks: u32,
}

// 1 where the run begins with a turn.
fn turn_by(last: Option<Direction>, run: Run) -> u32
    ensures value { result ≡ turn_by last run }
    ensures upper_bound { result ≤ 1 }
{
    match last {
        None => 0,
        Some(d) => u32::from((0 < run.length) & (d != run.direction)),
    }
}

fn last_after(last: Option<Direction>, run: Run) -> Option<Direction>
    ensures { result ≡ last_after last run }
{
    if 0 < run.length {
        Some(run.direction)
    } else {
        last
    }
}

fn line_after(d: Direction, line: u32, n: u32) -> u32
    requires { (line ≤ 1000000) × (n ≤ 255) }
    ensures value { result ≡ line_after d line n }
    ensures upper_bound { result ≤ line + 255 }
{
    match d {
        Direction::Up => line.saturating_sub(n),
        Direction::Right => line,
        Direction::Down => line + n,
        Direction::Left => line,
    }
}

fn column_after(d: Direction, column: u32, n: u32) -> u32
    requires { (column ≤ 1000000) × (n ≤ 255) }
    ensures value { result ≡ column_after d column n }
    ensures upper_bound { result ≤ column + 255 }
{
    match d {
        Direction::Up => column,
        Direction::Right => column + n,
        Direction::Down => column,
        Direction::Left => column.saturating_sub(n),
    }
}

// The trace with one run more.
#[tactic(auto, unfolding(crate::specs::Traces::trace_run))]
fn trace_run(t: Trace, run: Run) -> Trace
    requires { (t.line ≤ 1000000) × (t.column ≤ 1000000) × (t.edges ≤ 1000000) × (t.turns ≤ 1000000) }
    ensures value { result ≡ trace_run t run }
    ensures grows { Grows t result }
{
    let d = run.direction;
    let last = t.last;
    let n = u32::from(run.length);
    Trace {
        line: line_after(d, t.line, n),
        column: column_after(d, t.column, n),
        last: last_after(last, run),
        edges: t.edges + n,
        turns: t.turns + turn_by(last, run),
    }
}

// A mark after one more turn.
fn mark_after(m: u8) -> u8
    ensures { result ≡ marked m }
{
    if m == 0 { 1 } else { 2 }
}

// Marks a turn at a vertex; one outside lines and columns 0 to 31 has no mark.
#[tactic(auto, unfolding(net::specs::Grid::changed_at))]
fn mark_at(line: u32, column: u32, marks: &mut [u8; 1024])
    ensures { marks.new ≡ mark_at line column marks.old }
{
    if line < 32 && column < 32 {
        let at = (line * 32 + column) as usize;
        marks[at] = mark_after(marks[at]);
    }
}

// Marks the turn with which a run begins, if it does.
#[tactic(auto, unfolding(crate::specs::Traces::mark_run))]
fn mark_run(t: Trace, run: Run, marks: &mut [u8; 1024])
    ensures { marks.new ≡ mark_run t run marks.old }
{
    let last = t.last;
    if turn_by(last, run) == 1 {
        mark_at(t.line, t.column, marks);
    }
}

// How many marks say two turns or more.
fn count_knocks(marks: &[u8; 1024]) -> u32
    ensures value { result ≡ count_by (λ m. ltb 1 m) marks.now }
    ensures upper_bound { result ≤ 1024 }
{
    marks.iter().filter(|m| 1 < **m).count() as u32
}

// Measures a path, given its runs as a part of the list.
fn measure_path(first: Vertex, runs: &[u32], marks: &mut [u8; 1024]) -> Trace
    requires { length runs.now ≤ routing_limit }
    ensures measured { Measured first runs.now result marks.old marks.new }
    ensures edges_bound { (result.edges ≤ 600000) × (result.turns ≤ 600000) }
{
    let mut t = Trace {
        line: u32::from(first.line),
        column: u32::from(first.column),
        last: None,
        edges: 0,
        turns: 0,
    };
    for &word in runs {
        let run = words::run_in(word);
        mark_run(t, run, marks);
        t = trace_run(t, run);
    }
    t
}

// Measures the path of what a place holds: its path word stands at the sum's index.
fn measure_place(place: Place, words: &[u32], sum: Sum, marks: &mut [u8; 1024]) -> Sum
    requires words_len_bound { length words.now ≤ routing_limit }
    requires edges_bound { (sum.edges ≤ 40000000) × (sum.turns ≤ 40000000) }
    ensures measures_place { MeasuresPlace place words.now sum marks.old result marks.new }
    ensures edges_bound_2 { (result.edges ≤ sum.edges + 600000) × (result.turns ≤ sum.turns + 600000) }
{
    match place {
        None => sum,
        Some(ends) => {
            let at = sum.at;
            match judge_walk::part_at(words, at) {
                None => sum,
                Some(Part { start, end }) => {
                    let t = measure_path(ends.first, &words[start..end], marks);
                    Sum {
                        at: end,
                        edges: sum.edges + t.edges,
                        turns: sum.turns + t.turns,
                    }
                }
            }
        }
    }
}

// The report on the paths of the nets in a list of words.
pub fn report_of(nets: [Place; 64], words: &[u32]) -> Report
    requires { length words.now ≤ routing_limit }
    ensures { report_is result ≡ report_of (pairs (nets_of nets)) (paths_in (paths_from 0 (nets_of nets) words.now)) }
{
    let mut marks = [0u8; 1024];
    let mut sum = Sum {
        at: 0,
        edges: 0,
        turns: 0,
    };
    for &place in &nets {
        sum = measure_place(place, words, sum, &mut marks);
    }
    Report {
        edges: sum.edges,
        turns: sum.turns,
        knocks: count_knocks(&marks),
    }
}
