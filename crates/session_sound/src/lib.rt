// Does what a session holds stand on its board: could its nets all be added, and those under each name, and can its pile be lifted to the bottom?
#![tactic(auto)]

ghost use Rattle.std.specs.Prelude.{◌≡◌, length};
ghost use Rattle.board.specs.Board.{Within};
ghost use Rattle.board_block.specs.View.{block_of};
ghost use Rattle.session_rules.specs.Session.{name_count};
ghost use Rattle.session_rules.specs.Sound.{liftable?, lifts?, kept_fine?, all_fine?};
ghost use Rattle.net_places.specs.Places.{nets_of};
ghost use Rattle.session_pile.specs.Pile.{pile_of};
ghost use Rattle.session_names.specs.Names.{kept_in, kept_of};
ghost use Rattle.session_sound.specs.Room.{counted_at, room_at, held_room, roomy, layout_roomy, all_roomy};

use board::Vertex;
use board_block::Block;
use net::{Change, Place};
use session_names::{Layout, NAMES};
use session_pile::Pile;

// Are there pins at v for all the terminals counted there? Outside lines and columns 0 to 31 no place has pins.
fn has_pins(b: &Block, counts: &[u8; 1024], v: Vertex) -> bool
    ensures { result ≡ room_at (block_of b.now) (counted_at counts.now v) v }
{
    if v.line < 32 {
        if v.column < 32 {
            let at = usize::from(v.line) * 32 + usize::from(v.column);
            return counts[at] <= board_block::pins_left(b.book, b.board, &b.taken, v);
        }
    }
    false
}

// Do the terminals of what a place holds stand apart, each with pins enough?
fn has_room(b: &Block, counts: &[u8; 1024], place: Place) -> bool
    ensures { result ≡ held_room (block_of b.now) (counted_at counts.now) place }
{
    match place {
        None => true,
        Some(ends) => {
            (ends.first != ends.second)
                & (has_pins(b, counts, ends.first) & has_pins(b, counts, ends.second))
        }
    }
}

// Could the nets all be added to the bare board? Their terminals are counted once for all vertices, and then each net is looked at. On a board within
// the limits that is so exactly where they have room (law `room_addable`).
pub fn is_addable(b: Block, nets: [Place; 64]) -> bool
    ensures { (result ≡ roomy (block_of b) nets) × (length nets ≡ 64) }
{
    let counts = net_terminals::count_terminals(nets);
    for place in &nets {
        if !has_room(&b, &counts, *place) {
            return false;
        }
    }
    true
}

// Could the nets that are kept under a name all be added to the bare board? Yes where nothing is kept.
fn is_fine(b: Block, layout: Layout) -> bool
    ensures { (result ≡ layout_roomy (block_of b) layout) × (Within (block_of b).board → result ≡ kept_fine? (block_of b) (kept_in layout)) }
{
    match layout {
        None => true,
        Some(nets) => is_addable(b, nets),
    }
}

// Could each name's nets all be added to the bare board?
pub fn all_fine(b: Block, names: [Layout; NAMES]) -> bool
    ensures value { (result ≡ all_roomy (block_of b) names) × (Within (block_of b).board → result ≡ all_fine? (block_of b) (kept_of names)) }
    ensures names_len { length (kept_of names) ≡ name_count }
{
    for layout in &names {
        if !is_fine(b, *layout) {
            return false;
        }
    }
    true
}

// Can the change be reversed? An added net is on the board as recorded, a withdrawn net is one that add accepts.
fn is_liftable(b: Block, nets: [Place; 64], change: Change) -> bool
    ensures { result ≡ liftable? (block_of b) (nets_of nets) change }
{
    match change {
        Change::Added(net) => net_places::is_recorded(nets, net),
        Change::Withdrawn(net) => session_add::is_free(b, nets, net),
    }
}

// Can the pile be lifted to the bottom?
pub fn lifts(b: Block, nets: [Place; 64], pile: Pile) -> bool
    ensures { result ≡ lifts? (block_of b) (nets_of nets) (pile_of pile) }
{
    let mut on = nets;
    let mut rest = pile;
    while 0 < rest.depth {
        let top = rest.top();
        if !is_liftable(b, on, top) {
            return false;
        }
        // Kept: a variable of its own, since no proof covers a call's result that is laid straight in an array.
        let before = net_places::reversed(on, top);
        on = before;
        rest = rest.lift();
    }
    true
}
