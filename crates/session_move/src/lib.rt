// The call that moves a session to the new rule, with its nets.
#![tactic(auto)]

ghost use Rattle.std.specs.Prelude.{◌≡◌};
ghost use Rattle.count.specs.Lists.{first};
ghost use Rattle.board.specs.Order.{reading_order};
ghost use Rattle.board.specs.View.{board_of};
ghost use Rattle.board_block.specs.View.{block_of};
ghost use Rattle.cut_search.specs.Found.{found_vertex};
ghost use Rattle.session_rules.specs.NewRule.{over_new?};
ghost use Rattle.net_places.specs.Places.{nets_of};
ghost use Rattle.session_move.specs.Value.{over_with, moved, move_old, move_sound};
ghost use Rattle.session_move.specs.Promise.{MovePromise};

use board::{Board, Vertex};
use board_block::{Block, Book};
use net::Place;
use session::{After, Session};
use session_answers::MoveRefusal;

// Is v a vertex that has fewer pins by the new rule, before any are taken, than are used? Most places have none used, which no rule forbids.
fn is_over(b: Board, v: Vertex, used: usize) -> bool
    ensures { result ≡ over_with (board_of b) v used }
{
    if used == 0 {
        return false;
    }
    board::is_vertex(b, v) & (usize::from(board_block::pins_by(Book::New, b, v)) < used)
}

// The first vertex in reading order that has more terminals and taken pins together than the new rule gives it pins.
fn first_over(b: Block, nets: [Place; 64]) -> Option<Vertex>
    ensures { result ≡ found_vertex (first (over_new? (block_of b) (nets_of nets)) reading_order) }
{
    let counts = net_terminals::count_terminals(nets);
    for i in 0..1024 {
        let v = board_block::vertex_at(i);
        if is_over(b.board, v, usize::from(counts[i]) + usize::from(b.taken[i])) {
            return Some(v);
        }
    }
    None
}

// The session under the new rule, with its nets, an empty pile and nothing kept.
fn moved(s: Session) -> Session
    ensures { result ≡ moved s }
{
    let bare = session::fresh(board_block::with_book(s.block, Book::New));
    // Kept: a variable of its own, since no proof covers another struct's array that is laid straight in a literal.
    let nets = s.nets;
    Session { nets, ..bare }
}

// The move of a sound session under the old rule.
#[tactic(auto, unfolding(crate::specs::Value::move_old))]
fn move_old(s: Session) -> After<Result<(), MoveRefusal>>
    ensures { result ≡ move_old s }
{
    match first_over(s.block, s.nets) {
        None => moved(s).accepted(),
        Some(v) => s.refused(MoveRefusal::PinsMissing(v)),
    }
}

// The move of a sound session. One already under the new rule is not changed at all, and the move is accepted.
#[tactic(auto, unfolding(crate::specs::Value::move_sound))]
fn move_sound(s: Session) -> After<Result<(), MoveRefusal>>
    ensures { result ≡ move_sound s }
{
    match s.block.book {
        Book::Old => move_old(s),
        Book::New => s.accepted(),
    }
}

// Moves the session to the new rule, with its nets; the pile is emptied and the names are forgotten. One already under the new rule stays as it is.
pub fn move_over(s: Session) -> After<Result<(), MoveRefusal>>
    ensures { MovePromise s result }
{
    if !s.sound() {
        return s.refused(MoveRefusal::Unsound);
    }
    move_sound(s)
}
