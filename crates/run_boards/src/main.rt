// The boards of the table "Boards to be proved": what the library answers of each, on a line of its own.
#![tactic(auto)]

mod build;
mod say;

use board::{Board, Vertex};
use build::{no_nets, pair, row, with_net, with_row};
use cut::Cut;
use net::Place;

// The ring: the four sides of one cell.
fn ring() -> [Place; 64] {
    let nets = with_net(no_nets(), 0, pair(0, 0, 0, 1));
    let nets = with_net(nets, 1, pair(0, 1, 1, 1));
    let nets = with_net(nets, 2, pair(1, 1, 1, 0));
    with_net(nets, 3, pair(1, 0, 0, 0))
}

// Two nets on one diagonal of a cell,
fn diagonal() -> [Place; 64] {
    let nets = with_net(no_nets(), 0, pair(0, 0, 1, 1));
    with_net(nets, 1, pair(0, 0, 1, 1))
}

// and two on the other as well.
fn diagonals() -> [Place; 64] {
    let nets = with_net(diagonal(), 2, pair(0, 1, 1, 0));
    with_net(nets, 3, pair(0, 1, 1, 0))
}

// Two nets that turn at one vertex.
fn turning() -> [Place; 64] {
    let nets = with_net(no_nets(), 0, pair(0, 1, 1, 0));
    with_net(nets, 1, pair(1, 2, 2, 1))
}

// The answers that every line has: convex, the first odd vertex, the first overfull cut.
fn answers(name: &[u8], b: Board, nets: [Place; 64]) {
    io::write_all(1, name);
    io::write_all(1, b": ");
    say::convexity(b);
    say::then();
    say::first_odd(b, nets);
    say::then();
    say::first_overfull(b, nets);
}

fn line(name: &[u8], b: Board, nets: [Place; 64]) {
    answers(name, b, nets);
    say::end();
}

// The same, and the margin of row 0.
fn answers_and_row(name: &[u8], b: Board, nets: [Place; 64]) {
    answers(name, b, nets);
    say::then();
    say::cut_margin(b, nets, Cut::Row(0));
}

fn main() {
    let cell = row(0, 1);
    let two = row(0, 2);
    line(b"a", cell, ring());
    answers_and_row(b"b", cell, diagonal());
    say::then();
    say::cut_margin(cell, diagonal(), Cut::Column(0));
    say::end();
    line(b"c", cell, diagonals());
    answers_and_row(b"d", two, with_net(no_nets(), 0, pair(0, 1, 1, 1)));
    say::end();
    line(b"e", two, no_nets());
    line(b"f", with_row(cell, 1, 2), no_nets());
    line(b"g", with_row(with_row(two, 0, 1), 0, 2), no_nets());
    let cross = with_row(with_row(row(1, 2), 0, 3), 1, 2);
    answers(b"h", cross, no_nets());
    say::then();
    say::pins_at(cross, Vertex { line: 1, column: 1 });
    say::end();
    line(b"i", with_row(two, 0, 2), turning());
}
