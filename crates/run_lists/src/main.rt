// Judges stored lists of routing words and prints each verdict on a line: "passed" with edges, turns and knock-knees, or "refused" with
// number and place. Four comparisons stand between them.
#![tactic(auto)]

use board::{Board, Row, Vertex};
use judge_list::ListRefusal;
use judge_report::Report;
use judge_shape::Refusal;
use net::{Pair, Place};

fn show(v: Result<Report, Refusal>) {
    let mut out = [0u8; 128];
    let n = judge_text::verdict_line(v, &mut out);
    io::write_all(1, &out[..n]);
}

fn show_comparison(c: Result<bool, ListRefusal>) {
    let mut out = [0u8; 128];
    let n = judge_text::comparison_line(c, &mut out);
    io::write_all(1, &out[..n]);
}

// A board of n rows, at most 31, from column 0 to column right.
fn rectangle(n: u8, right: u8) -> Board {
    Board {
        count: n,
        rows: [Row { left: 0, right }; 31],
    }
}

fn pair(l: u8, c: u8, m: u8, d: u8) -> Pair {
    Pair {
        first: Vertex { line: l, column: c },
        second: Vertex { line: m, column: d },
    }
}

// The first nets, and none behind them.
fn nets_of<const N: usize>(pairs: [Pair; N]) -> [Place; 64] {
    let mut nets = [None; 64];
    for (place, ends) in nets.iter_mut().zip(&pairs) {
        *place = Some(*ends);
    }
    nets
}

// One cell, with a net along each of its sides.
fn ring() -> [Place; 64] {
    nets_of([
        pair(0, 0, 0, 1),
        pair(0, 1, 1, 1),
        pair(1, 1, 1, 0),
        pair(1, 0, 0, 0),
    ])
}

// The words of its routing.
fn ring_words() -> [u32; 9] {
    [
        1074790401, 1409286145, 1075838977, 1476395009, 1076887553, 1543503873, 1077936129,
        1342177281, 3758096388,
    ]
}

fn judge_ring(words: &[u32]) {
    show(judge_list::judge(rectangle(1, 1), ring(), words));
}

// The ring's words with the one at index k replaced, if there is one.
fn changed(k: usize, word: u32) -> [u32; 9] {
    let mut words = ring_words();
    if let Some(place) = words.get_mut(k) {
        *place = word;
    }
    words
}

fn judge_changed(k: usize, word: u32) {
    judge_ring(&changed(k, word));
}

// The first n of the words.
fn judge_first(words: &[u32], n: usize) {
    if let Some(first) = words.get(..n) {
        judge_ring(first);
    }
}

fn compare_changed(k: usize, word: u32) {
    let first = ring_words();
    let second = changed(k, word);
    show_comparison(judge_list::compare(rectangle(1, 1), ring(), &first, &second));
}

// The ring's words, one change of them for each refusal, and two comparisons.
fn ring_lists() {
    let words = ring_words();
    judge_first(&words, 9);
    judge_first(&words, 0);
    judge_changed(0, 268435457);
    judge_first(&words, 8);
    judge_changed(1, 1342177281);
    judge_changed(3, 1543503873);
    judge_changed(1, 1476395009);
    compare_changed(9, 0);
    compare_changed(1, 1476395009);
}

// One cell, and a net from corner to corner: round one side of it, and round the other.
fn other_side() {
    let nets = nets_of([pair(0, 0, 1, 1)]);
    let first: [u32; 4] = [1074790402, 1409286145, 1476395009, 3758096385];
    let second: [u32; 4] = [1074790402, 1476395009, 1409286145, 3758096385];
    show_comparison(judge_list::compare(rectangle(1, 1), nets, &first, &second));
}

// Two cells, and a net along the first that then goes round the second: right first, and down first.
fn either_way() {
    let nets = nets_of([pair(0, 0, 0, 1)]);
    let first: [u32; 6] = [
        1074790404, 1409286146, 1476395009, 1543503873, 1342177281, 3758096385,
    ];
    let second: [u32; 7] = [
        1074790405, 1409286145, 1476395009, 1409286145, 1342177281, 1543503873, 3758096385,
    ];
    show_comparison(judge_list::compare(rectangle(1, 2), nets, &first, &second));
}

// Two nets that both turn at (1,1): down, left and left, down.
fn knock_knee() {
    let nets = nets_of([pair(0, 1, 1, 0), pair(1, 2, 2, 1)]);
    let words: [u32; 7] = [
        1074790402, 1476395009, 1543503873, 1075838978, 1543503873, 1476395009, 3758096386,
    ];
    show(judge_list::judge(rectangle(2, 2), nets, &words));
}

// One net along all lines of the largest board, right and left in turn: 63 runs.
fn longest_board() {
    let nets = nets_of([pair(0, 0, 31, 0)]);
    let mut words = [1476395009u32; 65];
    words[0] = 1074790463;
    for turn in words[1..].chunks_exact_mut(4) {
        turn[0] = 1409286175;
        turn[2] = 1543503903;
    }
    words[64] = 3758096385;
    show(judge_list::judge(rectangle(31, 31), nets, &words));
}

fn main() {
    ring_lists();
    other_side();
    either_way();
    knock_knee();
    longest_board();
}
