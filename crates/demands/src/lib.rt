// Cidrask's calls in one place, each with its promise: what specs/Demands.antt speaks of.
#![tactic(auto)]

ghost use Rattle.std.specs.Prelude.{◌≡◌, take};
ghost use Rattle.count.specs.Truth.{Decides};
ghost use Rattle.board.specs.Board.{Within};
ghost use Rattle.board.specs.Path.{Convex};
ghost use Rattle.board.specs.View.{board_of};
ghost use Rattle.board_block.specs.View.{plain_of, with_book};
ghost use Rattle.board_block.specs.Promise.{TakesPins};
ghost use Rattle.board_convex.specs.Test.{is_convex};
ghost use Rattle.session.specs.View.{session_of};
ghost use Rattle.session.specs.Promise.{FreshPromise, AddPromise, AddAllPromise, WithdrawPromise, TakeBackPromise};
ghost use Rattle.session.specs.Promise.{KeepPromise, ReturnPromise};
ghost use Rattle.session_move.specs.Promise.{MovePromise};
ghost use Rattle.call_rules.specs.Reading.{read_words, read_bytes};
ghost use Rattle.call_rules.specs.Judge.{judge_words, judge_bytes, compare_words, compare_bytes};
ghost use Rattle.call_rules.specs.Route.{Routes, RoutesBytes};
ghost use Rattle.call_rules.specs.Wire.{wire as wireOf};
ghost use Rattle.board_reading.specs.Promise.{ReadPromise};
ghost use Rattle.board_writing.specs.Promise.{WritePromise};
ghost use Rattle.judge_call.specs.Answers.{judgement_of, likeness_of};
ghost use Rattle.draw_call.specs.Promise.{DrawWordsPromise, DrawBytesPromise};
ghost use Rattle.route_call.specs.Answers.{route_answer};
ghost use Rattle.wire_call.specs.Answers.{wire_answer};

use board::Board;
use board_block::{Block, Book, TakenPins};
use board_reading::ReadRefusal;
use board_writing::WriteRefusal;
use draw_call::DrawRefusal;
use judge_call::{CompareRefusal, JudgeRefusal};
use judge_report::Report;
use net::Net;
use route_call::RouteRefusal;
use session::{After, Session};
use session_answers::{
    AddAllAnswer, AddRefusal, KeepRefusal, MoveRefusal, ReturnRefusal, TakeBackRefusal,
    WithdrawRefusal,
};
use wire_call::{Figures, Unsound};

// Is the board within the limits and convex?
pub fn is_convex(b: Board) -> bool
    ensures { Decides result (is_convex (board_of b)) (Within (board_of b) × Convex (board_of b)) }
{
    board_convex::is_convex(b)
}

// A board by itself as a block, under the old rule, of which no pin is taken.
pub fn plain(b: Board) -> Block
    ensures { result ≡ plain_of b }
{
    board_block::plain(b)
}

// The block with so many pins of a vertex taken, in place of what was taken of it; outside lines and columns 0 to 31 nothing is.
pub fn with_taken(b: Block, t: TakenPins) -> Block
    ensures { TakesPins b t result }
{
    board_block::with_taken(b, t)
}

// The block under this book; its board and taken pins stay.
pub fn with_book(b: Block, book: Book) -> Block
    ensures { result ≡ with_book b book }
{
    board_block::with_book(b, book)
}

// A session on the block, with no nets, an empty pile and nothing kept.
pub fn fresh(b: Block) -> Session
    ensures { FreshPromise b result }
{
    session::fresh(b)
}

pub fn add(s: Session, net: Net) -> After<Result<(), AddRefusal>>
    ensures { AddPromise s net result }
{
    s.add(net)
}

// A list of nets in one call: the first so many of an array of 65, all of them where the count is greater. A slice of nets is lent to the method
// `add_all` of a session, with the same promise.
pub fn add_first(s: Session, nets: [Net; 65], count: usize) -> After<AddAllAnswer>
    ensures { AddAllPromise s (take count nets) result }
{
    session_list::add_first(s, nets, count)
}

pub fn withdraw(s: Session, number: u8) -> After<Result<(), WithdrawRefusal>>
    ensures { WithdrawPromise s number result }
{
    s.withdraw(number)
}

pub fn take_back(s: Session) -> After<Result<(), TakeBackRefusal>>
    ensures { TakeBackPromise s result }
{
    s.take_back()
}

// Stores the nets on the board under a name, 0 to 7.
pub fn keep(s: Session, name: u8) -> After<Result<(), KeepRefusal>>
    ensures { KeepPromise s name result }
{
    s.keep(name)
}

// Puts the nets that are kept under a name on the board, and empties the pile.
pub fn return_to(s: Session, name: u8) -> After<Result<(), ReturnRefusal>>
    ensures { ReturnPromise s name result }
{
    s.return_to(name)
}

// Moves the session to the new rule, with its nets; the pile is emptied and the names are forgotten. One already under the new rule stays as it is.
pub fn move_over(s: Session) -> After<Result<(), MoveRefusal>>
    ensures { MovePromise s result }
{
    session_move::move_over(s)
}

// A session from a board's words, or bytes.
pub fn read_words(words: &[u32]) -> After<Result<(), ReadRefusal>>
    ensures { ReadPromise (read_words words.now) result }
{
    board_reading::read_words(words)
}

pub fn read_bytes(bytes: &[u8]) -> After<Result<(), ReadRefusal>>
    ensures { ReadPromise (read_bytes bytes.now) result }
{
    board_reading::read_bytes(bytes)
}

// A session's board and nets as words.
pub fn write_board(s: Session, out: &mut [u32]) -> Result<usize, WriteRefusal>
    ensures { WritePromise (session_of s) out.old result out.new }
{
    board_writing::write_board(s, out)
}

// The report on a list of routing words, given as words or bytes.
pub fn judge_words(s: Session, words: &[u32]) -> Result<Report, JudgeRefusal>
    ensures { judgement_of result ≡ judge_words (session_of s) words.now }
{
    judge_call::judge_words(s, words)
}

pub fn judge_bytes(s: Session, bytes: &[u8]) -> Result<Report, JudgeRefusal>
    ensures { judgement_of result ≡ judge_bytes (session_of s) bytes.now }
{
    judge_call::judge_bytes(s, bytes)
}

// Are two routings, given as words or bytes, alike?
pub fn compare_words(s: Session, first: &[u32], second: &[u32]) -> Result<bool, CompareRefusal>
    ensures { likeness_of result ≡ compare_words (session_of s) first.now second.now }
{
    judge_call::compare_words(s, first, second)
}

pub fn compare_bytes(s: Session, first: &[u8], second: &[u8]) -> Result<bool, CompareRefusal>
    ensures { likeness_of result ≡ compare_bytes (session_of s) first.now second.now }
{
    judge_call::compare_bytes(s, first, second)
}

// A routing, given as words or bytes, as a page of text.
pub fn draw_words(s: Session, words: &[u32], out: &mut [u8]) -> Result<usize, DrawRefusal>
    ensures { DrawWordsPromise (session_of s) words.now out.old result out.new }
{
    draw_call::draw_words(s, words, out)
}

pub fn draw_bytes(s: Session, bytes: &[u8], out: &mut [u8]) -> Result<usize, DrawRefusal>
    ensures { DrawBytesPromise (session_of s) bytes.now out.old result out.new }
{
    draw_call::draw_bytes(s, bytes, out)
}

// The sum of crossing nets over all rows and columns, and the board's edge count.
pub fn wire(s: Session) -> Result<Figures, Unsound>
    ensures { wire_answer result ≡ wireOf (session_of s) }
{
    wire_call::wire(s)
}

// A routing of a session's nets, into words or bytes.
pub fn route(s: Session, out: &mut [u32]) -> Result<usize, RouteRefusal>
    ensures { Routes (session_of s) out.old (route_answer result) out.new }
{
    route_call::route(s, out)
}

pub fn route_bytes(s: Session, out: &mut [u8]) -> Result<usize, RouteRefusal>
    ensures { RoutesBytes (session_of s) out.old (route_answer result) out.new }
{
    route_call::route_bytes(s, out)
}
