// Replays a list of calls on a session.
//
// Standard input is text, at most 65,536 bytes of it: a line for each row of the board and for each call, told by its first word.
//     row LEFT RIGHT                        one more row of the board, from the top; starts afresh on the board so far
//     taken LINE COLUMN COUNT               so many pins of the vertex are taken, in place of what was told of it before, 0 for none; a vertex beyond
//                                           line or column 31 is passed over; starts afresh on the board so far
//     book NUMBER                           the board's rule book, 0 the old rule, as at the start, or 1 the new; starts afresh on the board so far.
//                                           A line with another number is passed over
//     add NUMBER LINE COLUMN LINE COLUMN    the net with its first and its second terminal
//     adds NUMBER LINE COLUMN LINE COLUMN NUMBER LINE ..
//                                           a list of nets in one call, as many as begin on the line; of more than 65 the first 65
//     withdraw NUMBER
//     back                                  takes the last change back
//     keep NAME                             stores the nets under the name, 0 to 7
//     return NAME                           puts the nets that are kept under the name on the board, and empties the pile
//     move                                  moves the session to the new rule, with its nets, empties the pile and forgets the names; one that is
//                                           under the new rule already stays as it is. The rule stays when the session starts afresh
//     paths                                 routes the nets
//     wire                                  tells the sum of crossing nets over all rows and columns, and the board's edge count
// The word stands at the line's start, whole, and ends at a space or with the line. Numbers stand in decimal, parted by spaces; one above 249 is read
// as 255, and one that is missing as 0. Other lines are passed over.
//
// Each call prints a line: "accepted", or "refused", the number and the place, which of 39 is line and column. Of a list it is "accepted" and how
// many nets went on, or "refused", the number, the place, "after" and how many went on before. Routing prints its words, each on a line, and `wire`
// its two numbers, parted by a space. Then come the nets in rising number, each a line "net" with what add was given, and the pile from its top, each
// a line "added" or "withdrawn" with the net; then the names that hold something, each a line "kept" with the name and how many nets it holds, and
// these nets as above; then, where the board is under the new rule, a line "book 1".
#![tactic(auto)]

ghost use Rattle.std.specs.Prelude.{◌≤◌, length, replicate};
ghost use Rattle.std.specs.Fn.{FnOnceReturnsAtMut};

mod call;

use board::{Board, Row};
use board_block::{Block, Book, TakenPins};
use call::{Call, NetList};
use net::{Change, Net, Pair, Place};
use session::Session;
use session_answers::{AddAllAnswer, MoveRefusal, Told};
use session_names::{LAST_NAME, Layout, NAMES};
use session_pile::Pile;
use wire_call::{Figures, Unsound};

// ── writing ──

// Prints the line that is written into a buffer, whole: it fits there.
// Kept: `io::write_all` and not `println!`, which reports a write that fails: the program goes on, and its exit status stays 0.
fn print<F: FnOnce(&mut [u8; 128]) -> usize>(line: F)
    requires callable { F.IsAlwaysCallable line }
    requires fits { (n : _) (text : _) → FnOnceReturnsAtMut F.FnOnce line (replicate 128 0) n text → n ≤ 128 }
{
    let mut out = [0u8; 128];
    let count = line(&mut out);
    io::write_all(1, &out[..count]);
}

fn print_told(told: Told) {
    print(|out| session_text::told_line(told, out));
}

fn print_list_answer(answer: AddAllAnswer) {
    print(|out| session_text::list_line(answer, out));
}

fn print_move_answer(answer: Result<(), MoveRefusal>) {
    print(|out| session_text::move_line(answer, out));
}

fn print_wire_answer(answer: Result<Figures, Unsound>) {
    print(|out| wire_text::wire_line(answer, out));
}

// A net with what add was given.
fn print_net(name: &[u8], n: Net)
    requires { length name.now ≤ 16 }
{
    let Pair {
        first: u,
        second: v,
    } = n.ends;
    let numbers = [n.number, u.line, u.column, v.line, v.column];
    text::print_line(name, &numbers.map(usize::from))
}

fn print_place(number: u8, place: Place) {
    if let Some(ends) = place {
        print_net(b"net", Net { number, ends });
    }
}

fn print_change(change: Change) {
    match change {
        Change::Added(n) => print_net(b"added", n),
        Change::Withdrawn(n) => print_net(b"withdrawn", n),
    }
}

fn print_nets(nets: [Place; 64]) {
    for (number, place) in (1..=64).zip(&nets) {
        print_place(number, *place);
    }
}

fn print_pile(pile: Pile) {
    let mut rest = pile;
    for _ in 0..pile.depth {
        print_change(rest.top());
        rest = rest.lift();
    }
}

// What is kept under one name: how many nets, and the nets.
fn print_layout(number: u8, layout: Layout) {
    if let Some(nets) = layout {
        text::print_line(
            b"kept",
            &[
                usize::from(number),
                usize::from(net_places::count_nets(nets)),
            ],
        );
        print_nets(nets);
    }
}

fn print_names(names: [Layout; NAMES]) {
    for number in 0..=LAST_NAME {
        print_layout(number, session_names::layout_of(names, number));
    }
}

// A board under the old rule, which is 0, prints nothing.
fn print_book(book: Book) {
    let number = u8::from(book);
    if 0 < number {
        text::print_line(b"book", &[usize::from(number)]);
    }
}

// ── the calls ──

// The board with one more row. More than 31 are counted and not kept.
fn with_row(b: Board, row: Row) -> Board {
    let mut rows = b.rows;
    if let Some(place) = rows.get_mut(usize::from(b.count)) {
        *place = row;
    }
    Board {
        count: b.count.saturating_add(1),
        rows,
    }
}

fn row_line(session: Session, row: Row) -> Session {
    let block = session.block;
    session::fresh(Block {
        board: with_row(block.board, row),
        ..block
    })
}

fn taken_line(session: Session, pins: TakenPins) -> Session {
    session::fresh(board_block::with_taken(session.block, pins))
}

fn book_line(session: Session, number: u8) -> Session {
    if 1 < number {
        return session;
    }
    session::fresh(board_block::with_book(session.block, Book::from(number)))
}

fn add_line(session: Session, net: Net) -> Session {
    let after = session.add(net);
    let answer = after.answer;
    print_told(Told::of(answer));
    after.session
}

fn adds_line(session: Session, list: NetList) -> Session {
    let after = session_list::add_first(session, list.nets, list.count);
    let answer = after.answer;
    print_list_answer(answer);
    after.session
}

fn withdraw_line(session: Session, number: u8) -> Session {
    let after = session.withdraw(number);
    let answer = after.answer;
    print_told(Told::of(answer));
    after.session
}

fn back_line(session: Session) -> Session {
    let after = session.take_back();
    let answer = after.answer;
    print_told(Told::of(answer));
    after.session
}

fn keep_line(session: Session, name: u8) -> Session {
    let after = session.keep(name);
    let answer = after.answer;
    print_told(Told::of(answer));
    after.session
}

fn return_line(session: Session, name: u8) -> Session {
    let after = session.return_to(name);
    let answer = after.answer;
    print_told(Told::of(answer));
    after.session
}

fn move_line(session: Session) -> Session {
    let after = session_move::move_over(session);
    let answer = after.answer;
    print_move_answer(answer);
    after.session
}

fn paths_line(session: Session) {
    let mut out = [0u8; 18441];
    let n = route_text::session_text(session, &mut out);
    io::write_all(1, &out[..n]);
}

// The session after the call.
fn run(session: Session, call: Call) -> Session {
    match call {
        Call::Row(row) => row_line(session, row),
        Call::Taken(pins) => taken_line(session, pins),
        Call::Book(number) => book_line(session, number),
        Call::Add(net) => add_line(session, net),
        Call::Adds(list) => adds_line(session, list),
        Call::Withdraw(number) => withdraw_line(session, number),
        Call::Back => back_line(session),
        Call::Keep(name) => keep_line(session, name),
        Call::Return(name) => return_line(session, name),
        Call::Move => move_line(session),
        Call::Paths => {
            paths_line(session);
            session
        }
        Call::Wire => {
            print_wire_answer(wire_call::wire(session));
            session
        }
    }
}

fn replay(text: &[u8]) -> Session {
    let none = Row { left: 0, right: 0 };
    let mut session = session::fresh(board_block::plain(Board {
        count: 0,
        rows: [none; 31],
    }));
    for call in text.split(|b| *b == b'\n').filter_map(call::call_of) {
        session = run(session, call);
    }
    session
}

fn main() {
    let mut text = io::large_buffer();
    let n = io::read_full(0, &mut text);
    let last = replay(&text[..n]);
    print_nets(last.nets);
    print_pile(last.pile);
    print_names(last.names);
    print_book(last.block.book);
}
