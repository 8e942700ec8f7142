// Many calls on a session, for timing them.
//
// Standard input is a number in decimal, at most 6 digits of it, with a word before it or none. So many laps are made:
//     NUMBER           one call, withdraw and take back by turns, on the session that the call before handed back. It has 64 nets, which take every
//                      pin of a board of 31 by 31 cells, and a pile of 64 changes, half of them "withdrawn"
//     names NUMBER     the same calls, where these 64 nets are kept under each of the eight names besides
//     list NUMBER      40 of these nets on the bare board, in one call
//     single NUMBER    the same nets in 40 calls
// Then the last answer is printed: "accepted", or "refused" with the number.
#![tactic(auto)]

use board::{Board, Row, Vertex};
use net::{Net, Pair};
use session::Session;
use session_answers::Told;

// A session, and what the last call on it answered.
#[derive(Clone, Copy)]
struct Lap {
    told: Told,
    session: Session,
}

// ── the session ──

fn join(number: u8, first: Vertex, second: Vertex) -> Net {
    Net {
        number,
        ends: Pair { first, second },
    }
}

// A net along a line.
fn along(number: u8, line: u8) -> Net {
    join(
        number,
        Vertex { line, column: 0 },
        Vertex { line, column: 31 },
    )
}

// Nets 1 to 30 go down their columns, 31 to 60 along their lines, two along the top and the others along the bottom.
fn net_of(number: u8) -> Net {
    match number {
        0..=30 => join(
            number,
            Vertex {
                line: 0,
                column: number,
            },
            Vertex {
                line: 31,
                column: number,
            },
        ),
        31..=60 => along(number, number - 30),
        61..=62 => along(number, 0),
        _ => along(number, 31),
    }
}

fn bare() -> Session {
    let row = Row { left: 0, right: 31 };
    session::fresh(board_block::plain(Board {
        count: 31,
        rows: [row; 31],
    }))
}

fn full() -> Session {
    let mut session = bare();
    for number in 1..=64 {
        let after = session.add(net_of(number));
        session = after.session;
    }
    session
}

// Nets 1 to 32 withdrawn and added again, which fills the pile anew.
fn changed(start: Session) -> Session {
    let mut session = start;
    for number in 1..=32 {
        let out = session.withdraw(number);
        let without = out.session;
        let after = without.add(net_of(number));
        session = after.session;
    }
    session
}

// The nets on the board kept under all eight names.
fn kept(start: Session) -> Session {
    let mut session = start;
    for name in 0..=session_names::LAST_NAME {
        let after = session.keep(name);
        session = after.session;
    }
    session
}

// ── the calls ──

fn withdrawn(session: Session) -> Lap {
    let after = session.withdraw(64);
    let answer = after.answer;
    let told = Told::of(answer);
    Lap {
        told,
        session: after.session,
    }
}

fn taken_back(session: Session) -> Lap {
    let after = session.take_back();
    let answer = after.answer;
    let told = Told::of(answer);
    Lap {
        told,
        session: after.session,
    }
}

fn laps(start: Session, calls: usize) -> Lap {
    let mut lap = Lap {
        told: Told {
            number: 0,
            place: 0,
        },
        session: start,
    };
    for turn in 0..calls {
        lap = if turn % 2 == 0 {
            withdrawn(lap.session)
        } else {
            taken_back(lap.session)
        };
    }
    lap
}

// ── 40 nets ──

// The nets 1 to 40, and others behind them.
fn listed() -> [Net; 65] {
    let mut nets = [net_of(1); 65];
    for (net, number) in nets.iter_mut().zip(1..=40) {
        *net = net_of(number);
    }
    nets
}

fn in_one_call(session: Session, nets: [Net; 65]) -> Lap {
    let after = session_list::add_first(session, nets, 40);
    let answer = after.answer;
    let last = answer.last;
    let told = Told::of(last);
    Lap {
        told,
        session: after.session,
    }
}

fn added(session: Session, net: Net) -> Lap {
    let after = session.add(net);
    let answer = after.answer;
    let told = Told::of(answer);
    Lap {
        told,
        session: after.session,
    }
}

fn in_single_calls(session: Session, nets: [Net; 65]) -> Lap {
    let mut lap = added(session, nets[0]);
    for net in &nets[1..40] {
        lap = added(lap.session, *net);
    }
    lap
}

// So many laps, but at least one, of 40 nets on the bare board.
fn forties<F: Fn(Session, [Net; 65]) -> Lap>(times: usize, forty: F) -> Lap
    requires { F.IsAlwaysCallable forty }
{
    let start = bare();
    let nets = listed();
    let mut lap = forty(start, nets);
    for _ in 1..times {
        lap = forty(start, nets);
    }
    lap
}

// ── in and out ──

// The value of the digits, of which those are left out for which there is no room.
fn number(s: &[u8]) -> usize {
    s.iter()
        .filter_map(|b| char::from(*b).to_digit(10))
        .fold(0, |value, digit| longer(value, digit))
}

// The value with one more digit, where there is room.
fn longer(value: usize, digit: u32) -> usize {
    if value < 100000 {
        value * 10 + digit as usize
    } else {
        value
    }
}

fn print_told(told: Told) {
    if told.number == 0 {
        text::print_line(b"accepted", &[0usize; 0]);
    } else {
        text::print_line(b"refused", &[usize::from(told.number)]);
    }
}

fn main() {
    let mut text = io::buffer();
    let n = io::read_full(0, &mut text);
    let calls = number(&text[..n]);
    let last = match text[0] {
        b'l' => forties(calls, in_one_call),
        b's' => forties(calls, in_single_calls),
        b'n' => laps(changed(kept(full())), calls),
        _ => laps(changed(full()), calls),
    };
    print_told(last.told);
}
