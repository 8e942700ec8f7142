// The pile of changes that can be taken back. Every function is total: it answers for any value.
#![tactic(auto)]

ghost use Rattle.std.specs.Prelude.{◌≡◌, leb, length};
ghost use Rattle.session_pile.specs.Pile.{past_end, empty_pile, top_of, lifted, laid};

use board::Vertex;
use net::{Change, Net, Pair};

// A pile: its first `depth` changes, the lowest first. What stands in the other places plays no part.
#[derive(Clone, Copy)]
pub struct Pile {
    pub depth: u8,
    pub changes: [Change; 64],
}

// What stands past the last place: a change that can never be reversed.
pub fn past_end() -> Change
    ensures { result ≡ past_end }
{
    let v = Vertex { line: 0, column: 0 };
    let ends = Pair {
        first: v,
        second: v,
    };
    Change::Added(Net { number: 0, ends })
}

// The pile with no change on it.
pub fn empty() -> Pile
    ensures { result ≡ empty_pile }
{
    Pile {
        depth: 0,
        changes: [past_end(); 64],
    }
}

impl Pile {
    // Is the pile at most 64 long? That its array has 64 places is told besides.
    pub fn is_short(self) -> bool
        ensures { (result ≡ leb self.depth 64) × (length self.changes ≡ 64) }
    {
        self.depth <= 64
    }

    // The pile with one more change on top; a pile of 64 loses its lowest.
    pub fn lay(self, change: Change) -> Pile
        ensures { result ≡ laid change self }
    {
        let mut changes = self.changes;
        if self.depth < 64 {
            changes[usize::from(self.depth)] = change;
            return Pile {
                depth: self.depth + 1,
                changes,
            };
        }
        changes.copy_within(1..64, 0);
        changes[63] = change;
        Pile { depth: 64, changes }
    }

    // The change on top, or the one past the last place.
    pub fn top(self) -> Change
        ensures { result ≡ top_of self }
    {
        match self.changes.get(net_places::index_of(self.depth)) {
            Some(change) => *change,
            None => past_end(),
        }
    }

    // The pile without the change on top; an empty pile as it is.
    pub fn lift(self) -> Pile
        ensures { result ≡ lifted self }
    {
        Pile {
            depth: self.depth.saturating_sub(1),
            ..self
        }
    }
}
