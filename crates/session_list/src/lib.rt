// A list of nets that stands in an array, added in one call: the array is lent to `add_all`, so that a caller needs no slice of nets of its own.
#![tactic(auto)]

ghost use Rattle.std.specs.Prelude.{◌≤◌, take};
ghost use Rattle.session.specs.Promise.{AddAllPromise};

use net::Net;
use session::{After, Session};
use session_answers::AddAllAnswer;

// The places of such an array: one more than the nets that a board can hold, so that a longer list has stopped at one of these (law `enough`).
pub const LISTED: usize = 65;

// Lends the first n nets.
fn lent(s: Session, nets: [Net; LISTED], n: usize) -> After<AddAllAnswer>
    requires { n ≤ 65 }
    ensures { AddAllPromise s (take n nets) result }
{
    s.add_all(&nets[..n])
}

// Adds the first nets, so many, in list order, and stops at the first that is refused; all 65 are tried where the count is greater.
pub fn add_first(s: Session, nets: [Net; LISTED], count: usize) -> After<AddAllAnswer>
    ensures { AddAllPromise s (take count nets) result }
{
    lent(s, nets, count.min(LISTED))
}
