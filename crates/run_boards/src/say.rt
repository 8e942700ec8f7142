// What the library answers of a board, as text on standard output.
// Kept: `io::write_all` and not `println!`, which reports a write that fails: the program goes on, and its exit status stays 0.
use board::{Board, Vertex};
use cut::{Cut, Tally};
use net::Place;

fn number(n: u8) {
    io::print_decimal(1, u64::from(n));
}

fn vertex(v: Vertex) {
    io::write_all(1, b"(");
    number(v.line);
    io::write_all(1, b",");
    number(v.column);
    io::write_all(1, b")");
}

fn name(x: Cut) {
    match x {
        Cut::Row(i) => {
            io::write_all(1, b"row ");
            number(i);
        }
        Cut::Column(j) => {
            io::write_all(1, b"column ");
            number(j);
        }
    }
}

// The margin of a tally, with its sign.
fn margin(t: Tally) {
    let m = cut::margin_of(t);
    if m < 0 {
        io::write_all(1, b"-");
    }
    io::print_decimal(1, u64::from(m.unsigned_abs()));
}

// A cut and its margin.
pub fn cut_margin(b: Board, nets: [Place; 64], x: Cut) {
    name(x);
    io::write_all(1, b", margin ");
    margin(cut::tally_of(b, nets, x));
}

// Is the board convex?
pub fn convexity(b: Board) {
    if board_convex::is_convex(b) {
        io::write_all(1, b"convex");
    } else {
        io::write_all(1, b"not convex");
    }
}

// The first odd vertex.
pub fn first_odd(b: Board, nets: [Place; 64]) {
    match cut_search::first_odd(b, nets) {
        None => {
            io::write_all(1, b"no odd vertex");
        }
        Some(v) => {
            io::write_all(1, b"odd ");
            vertex(v);
        }
    }
}

// The first overfull cut, and its margin.
pub fn first_overfull(b: Board, nets: [Place; 64]) {
    match cut_search::first_overfull(b, nets) {
        None => {
            io::write_all(1, b"no overfull cut");
        }
        Some(x) => {
            io::write_all(1, b"overfull ");
            cut_margin(b, nets, x);
        }
    }
}

// The pins of v.
pub fn pins_at(b: Board, v: Vertex) {
    vertex(v);
    io::write_all(1, b" has pins: ");
    number(board_degree::pins_of(b, v));
}

// The next part of a line, and the end of one.
pub fn then() {
    io::write_all(1, b"; ");
}

pub fn end() {
    io::write_all(1, b"\n");
}
