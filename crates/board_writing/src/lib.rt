// Writing a session's board and nets as words into a lent buffer.
#![tactic(auto)]

ghost use Rattle.std.specs.Prelude.{◌≡◌, map, ◌+◌, ◌≤◌, ◌<◌, length};
ghost use Rattle.board_block.specs.View.{taken_of};
ghost use Rattle.session.specs.View.{session_of};
ghost use Rattle.words.specs.BoardWord.{taken_word};
ghost use Rattle.call_rules.specs.Reading.{board_limit};
ghost use Rattle.call_rules.specs.Writing.{board_words, written_into};
ghost use Rattle.board_writing.specs.Buffer.{Continues};
ghost use Rattle.board_writing.specs.Words.{row_words, pin_word, held_word, net_words};
ghost use Rattle.board_writing.specs.Promise.{write_number, WrittenWords, WritePromise};

use board::Board;
use board_block::{Block, TakenPins};
use net::{Net, Place};
use session::Session;
use words::{BOARD_WORDS, BoardEnd};

// Why a session is not written: it is unsound, or the buffer has under BOARD_WORDS words.
#[derive(Clone, Copy, PartialEq, Eq)]
pub enum WriteRefusal {
    Unsound,
    ShortBuffer,
}

impl WriteRefusal {
    // Its number in the table.
    pub fn number(self) -> u8
        ensures { result ≡ write_number self }
    {
        match self {
            WriteRefusal::Unsound => 20,
            WriteRefusal::ShortBuffer => 18,
        }
    }
}

// The row words, from the start of the buffer.
fn write_rows(b: Board, out: &mut [u32])
    requires count_bound { b.count ≤ 31 }
    requires in_bounds { 31 ≤ length out.old }
    ensures { out.new ≡ written_into out.old (row_words b.rows b.count) }
{
    for (i, row) in b.rows[..usize::from(b.count)].iter().enumerate() {
        out[i] = words::pack_row(*row);
    }
}

// The word of the pins that are taken at a place, if any are, at this index of the buffer; answers with the next index.
fn write_pin(place: usize, count: u8, out: &mut [u32], at: usize) -> usize
    requires place_bound { place < 1024 }
    requires count_in_bounds { at + length (pin_word place count) ≤ length out.old }
    ensures { Continues (pin_word place count) out.old out.new at result }
{
    if count == 0 {
        return at;
    }
    let vertex = board_block::vertex_at(place);
    out[at] = words::pack_taken(TakenPins { vertex, count });
    at + 1
}

// The words of taken pins, from this index of the buffer on; answers with the index after them.
fn write_pins(pins: [u8; 1024], out: &mut [u32], from: usize) -> usize
    requires { from + length (taken_of pins) ≤ length out.old }
    ensures { Continues (map taken_word (taken_of pins)) out.old out.new from result }
{
    let mut at = from;
    for (place, count) in pins.iter().enumerate() {
        at = write_pin(place, *count, out, at);
    }
    at
}

// The word of what a place holds, at this index of the buffer; answers with the next index.
fn write_place(place: Place, number: u8, out: &mut [u32], at: usize) -> usize
    requires { at < length out.old }
    ensures { Continues (held_word number place) out.old out.new at result }
{
    match place {
        None => at,
        Some(ends) => {
            out[at] = words::pack_net(Net { number, ends });
            at + 1
        }
    }
}

// The net words, from this index of the buffer on; answers with the index after them.
fn write_nets(nets: [Place; 64], out: &mut [u32], from: usize) -> usize
    requires { from + 64 ≤ length out.old }
    ensures { Continues (net_words nets 64) out.old out.new from result }
{
    let mut at = from;
    for (i, place) in nets.iter().enumerate() {
        at = write_place(*place, (i + 1) as u8, out, at);
    }
    at
}

// The board, its taken pins, the nets and the book of a sound session, from the start of the buffer.
fn write_sound(s: Session, out: &mut [u32]) -> usize
    requires count_bound { s.block.board.count ≤ 31 }
    requires taken_len_bound { length (taken_of s.block.taken) ≤ 128 }
    requires board_limit_in_bounds { board_limit ≤ length out.old }
    ensures { WrittenWords (board_words (session_of s)) out.old out.new result }
{
    let Block { board, book, taken } = s.block;
    write_rows(board, out);
    let from = write_pins(taken, out, usize::from(board.count));
    let at = write_nets(s.nets, out, from);
    out[at] = words::pack_end(BoardEnd {
        book,
        rows: board.count,
        nets: (at - from) as u8,
    });
    at + 1
}

// The session's board and nets as words at the start of the buffer; the words after them are untouched.
pub fn write_board(s: Session, out: &mut [u32]) -> Result<usize, WriteRefusal>
    ensures { WritePromise (session_of s) out.old result out.new }
{
    if !s.sound() {
        return Err(WriteRefusal::Unsound);
    }
    if out.len() < BOARD_WORDS {
        return Err(WriteRefusal::ShortBuffer);
    }
    Ok(write_sound(s, out))
}
