// What adding a net answers: refusals 21 to 25, in the order of the table.
#![tactic(auto)]

ghost use Rattle.std.specs.Prelude.{◌≡◌};
ghost use Rattle.board_block.specs.View.{block_of};
ghost use Rattle.session_rules.specs.Add.{full, accepts};
ghost use Rattle.net_places.specs.Places.{nets_of};
ghost use Rattle.session_add.specs.Lines.{check_of};

use board::Vertex;
use board_block::Block;
use net::{Net, Pair, Place};
use session_answers::AddRefusal;

// Are the pins of v all taken?
fn is_full(b: Block, nets: [Place; 64], v: Vertex) -> bool
    ensures { result ≡ full (block_of b) (nets_of nets) v }
{
    board_block::pins_of(b, v) <= net::terminals_at(nets, v)
}

// What adding the net answers: the first condition that holds, in the order of the table.
#[tactic(auto, unfolding(crate::specs::Lines::check_of, crate::specs::Lines::first_of))]
pub fn check(b: Block, nets: [Place; 64], net: Net) -> Result<(), AddRefusal>
    ensures { result ≡ check_of (block_of b) (nets_of nets) net }
{
    let Pair { first, second } = net.ends;
    if !((1 <= net.number) & (net.number <= 64)) {
        return Err(AddRefusal::BadNumber);
    }
    if net_places::is_held(nets, net.number) {
        return Err(AddRefusal::NumberTaken);
    }
    if !board::is_vertex(b.board, first) {
        return Err(AddRefusal::NoVertex(0));
    }
    if !board::is_vertex(b.board, second) {
        return Err(AddRefusal::NoVertex(1));
    }
    if first == second {
        return Err(AddRefusal::SameVertex);
    }
    if is_full(b, nets, first) {
        return Err(AddRefusal::PinsTaken(0));
    }
    if is_full(b, nets, second) {
        return Err(AddRefusal::PinsTaken(1));
    }
    Ok(())
}

// Does add accept the net?
pub fn is_free(b: Block, nets: [Place; 64], net: Net) -> bool
    ensures { result ≡ accepts (block_of b) (nets_of nets) net }
{
    check(b, nets, net).is_ok()
}
