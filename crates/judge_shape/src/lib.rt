// The shape of a list of routing words: what is wrong with a list, and the tests that come before its paths are walked.
#![tactic(auto)]

ghost use Rattle.std.specs.Prelude.{◌≡◌, suc, ◌≤◌, length, drop};
ghost use Rattle.call_rules.specs.Shape.{routing_limit, between, at_end, words_refused};
ghost use Rattle.net_places.specs.Places.{nets_from, nets_of};
ghost use Rattle.judge_shape.specs.Refused.{number_of, refused_of};
ghost use Rattle.judge_shape.specs.States.{
  due_of,
  due_after,
  between_move,
  path_move,
  move_to,
  Starts,
  shape_refused,
};

use board::Direction;
use net::Place;
use words::{ROUTING_WORDS, RoutingWord};

// What is wrong with a list.
#[derive(Clone, Copy, PartialEq, Eq)]
pub enum Fault {
    // It has no words, or more than a routing may have.
    Length,
    // A word is not of the kind that is due, or says nothing.
    Word,
    // A path is not of the next net, or the end word comes too soon, too late or with another count.
    Order,
    // An edge is not on the board.
    OffBoard,
    // An edge was used earlier.
    EdgeUsed,
    // A path does not end at the second terminal.
    NotThere,
}

impl Fault {
    // Its number in the table of refusals.
    pub fn number(self) -> u8
        ensures { result ≡ number_of self }
    {
        match self {
            Fault::Length => 41,
            Fault::Word => 42,
            Fault::Order => 43,
            Fault::OffBoard => 44,
            Fault::EdgeUsed => 45,
            Fault::NotThere => 46,
        }
    }
}

// What is wrong, and at which word of the list.
#[derive(Clone, Copy, PartialEq, Eq)]
pub struct Refusal {
    pub fault: Fault,
    pub place: u16,
}

// What is due: a path word or the end word; one more run word and then so many, after a run in a direction if there was one; nothing.
#[derive(Clone, Copy)]
pub enum Due {
    Between,
    InPath(u16, Option<Direction>),
    Over,
}

// What is due after a word, and whether the word is the path of the next net.
#[derive(Clone, Copy)]
pub enum Step {
    Same(Due),
    Taken(Due),
}

// The least number of a net above `number`, or 0 where there is none.
fn next_after(nets: [Place; 64], number: u8) -> u8
    ensures { Starts nets result (nets_from (suc number) (drop number nets)) }
{
    for i in number..64 {
        if nets[usize::from(i)].is_some() {
            return i + 1;
        }
    }
    0
}

// What is due after a path word with n runs, or after a run with n more to come.
fn due_after(n: u16, last: Option<Direction>) -> Due
    ensures { result ≡ due_after n last }
{
    if n == 0 {
        Due::Between
    } else {
        Due::InPath(n - 1, last)
    }
}

// A word between paths.
fn move_between(all: u8, next: u8, w: RoutingWord) -> Result<Step, Fault>
    ensures { result ≡ between_move all next w }
{
    match w {
        RoutingWord::Path(p) => {
            if (0 < next) & (p.number == next) {
                Ok(Step::Taken(due_after(p.runs, None)))
            } else {
                Err(Fault::Order)
            }
        }
        RoutingWord::End(k) => {
            if (next == 0) & (k == all) {
                Ok(Step::Same(Due::Over))
            } else {
                Err(Fault::Order)
            }
        }
        RoutingWord::Run(_) => Err(Fault::Word),
        RoutingWord::Unknown => Err(Fault::Word),
    }
}

// A word in a path.
fn move_in_path(more: u16, last: Option<Direction>, w: RoutingWord) -> Result<Step, Fault>
    ensures { result ≡ path_move more last w }
{
    match w {
        RoutingWord::Run(run) => {
            let now = Some(run.direction);
            if (run.length == 0) | (last == now) {
                Err(Fault::Word)
            } else {
                Ok(Step::Same(due_after(more, now)))
            }
        }
        RoutingWord::Path(_) => Err(Fault::Word),
        RoutingWord::End(_) => Err(Fault::Word),
        RoutingWord::Unknown => Err(Fault::Word),
    }
}

// A word of the list.
fn move_to(all: u8, next: u8, due: Due, w: u32) -> Result<Step, Fault>
    ensures { result ≡ move_to all next due w }
{
    match due {
        Due::Between => move_between(all, next, words::routing_word(w)),
        Due::InPath(more, last) => move_in_path(more, last, words::routing_word(w)),
        Due::Over => Err(Fault::Order),
    }
}

// The list is over: refused unless the end word has been.
fn at_end(len: u16, due: Due) -> Result<(), Refusal>
    ensures { refused_of result ≡ at_end len (due_of due) }
{
    match due {
        Due::Over => Ok(()),
        _ => Err(Refusal {
            fault: Fault::Order,
            place: len,
        }),
    }
}

// The words are taken one by one.
fn check_words(nets: [Place; 64], all: u8, words: &[u32]) -> Result<(), Refusal>
    requires { length words.now ≤ routing_limit }
    ensures { refused_of result ≡ words_refused all 0 between (nets_of nets) words.now }
{
    let mut due = Due::Between;
    let mut next = next_after(nets, 0);
    for (i, &w) in words.iter().enumerate() {
        let place = i as u16;
        let step = move_to(all, next, due, w).map_err(|fault| Refusal { fault, place })?;
        match step {
            Step::Same(d) => {
                due = d;
            }
            Step::Taken(d) => {
                due = d;
                next = next_after(nets, next);
            }
        }
    }
    at_end(words.len() as u16, due)
}

// The shape of a list for the nets: the count of its words, and then word by word.
pub fn check_shape(nets: [Place; 64], words: &[u32]) -> Result<(), Refusal>
    ensures { refused_of result ≡ shape_refused (nets_of nets) words.now }
{
    let len = words.len();
    if (len == 0) | (ROUTING_WORDS < len) {
        Err(Refusal {
            fault: Fault::Length,
            place: 0,
        })
    } else {
        check_words(nets, net_places::count_nets(nets), words)
    }
}
