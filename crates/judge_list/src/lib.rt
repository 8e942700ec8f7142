// Judging a list of routing words against a board and its nets, from words or bytes, and comparing two. That the session is sound is tested above.
#![tactic(auto)]

ghost use Rattle.std.specs.Prelude.{◌≡◌, ◌≤◌, Ok, length};
ghost use Rattle.session_rules.specs.Refusal as machine;
ghost use Rattle.call_rules.specs.Shape.{routing_limit};
ghost use Rattle.board.specs.View.{board_of};
ghost use Rattle.net_places.specs.Places.{nets_of};
ghost use Rattle.judge_shape.specs.Refused.{refusal_of};
ghost use Rattle.judge_list.specs.declared.BytesRefusal.TheVariants as bytes;
ghost use Rattle.judge_list.specs.Refusals.{which_number, unfilled, refusal_by};
ghost use Rattle.judge_list.specs.Verdicts.{
  Checks,
  ChecksBytes,
  verdict_by,
  verdict_of,
  comparison_by,
  comparison_of,
  refusal_in,
};

use board::Board;
use judge_report::Report;
use judge_shape::{Fault, Refusal};
use net::Place;
use words::ROUTING_WORDS;
use words_bytes::FillError;

// Why a list of bytes does not pass: their count is no multiple of 4, or their words are refused.
#[derive(Clone, Copy, PartialEq, Eq)]
pub enum BytesRefusal {
    UnevenBytes,
    List(Refusal),
}

impl From<Refusal> for BytesRefusal {
    ghost from_gives = { λ refusal result. result ≡ bytes.List refusal };

    fn from(refusal: Refusal) -> BytesRefusal {
        BytesRefusal::List(refusal)
    }
}

// Bytes that do not fit are more words than a routing may have.
impl From<FillError> for BytesRefusal {
    ghost from_gives = { λ error result. result ≡ unfilled error };

    fn from(error: FillError) -> BytesRefusal {
        match error {
            FillError::Uneven => BytesRefusal::UnevenBytes,
            FillError::Long => BytesRefusal::List(Refusal {
                fault: Fault::Length,
                place: 0,
            }),
        }
    }
}

// Which of two lists.
#[derive(Clone, Copy, PartialEq, Eq)]
pub enum Which {
    First,
    Second,
}

impl Which {
    // Its place number.
    pub fn number(self) -> u8
        ensures { result ≡ which_number self }
    {
        match self {
            Which::First => 0,
            Which::Second => 1,
        }
    }
}

// The refusal of one of two lists.
#[derive(Clone, Copy, PartialEq, Eq)]
pub struct ListRefusal {
    pub list: Which,
    pub refusal: Refusal,
}

// A refusal in numbers: its number in the table, and a place of one number or two.
#[derive(Clone, Copy, PartialEq, Eq)]
pub struct Numbers {
    pub number: u8,
    pub first: u16,
    pub second: Option<u16>,
}

impl Numbers {
    // Those of a refusal with a place of one number.
    pub fn at(number: u8, place: u16) -> Numbers
        ensures { refusal_by result ≡ machine.refusal number place }
    {
        Numbers {
            number,
            first: place,
            second: None,
        }
    }
}

// A reason why a list, or a call that takes one, is refused, and its numbers.
pub trait Reason {
    ghost refusal: { Self → machine.Refusal };

    fn numbers(self) -> Numbers
        ensures { refusal_by result ≡ refusal self };
}

impl Reason for Refusal {
    ghost refusal = { refusal_of };

    fn numbers(self) -> Numbers {
        Numbers::at(self.fault.number(), self.place)
    }
}

impl Reason for ListRefusal {
    ghost refusal = { refusal_in };

    fn numbers(self) -> Numbers {
        Numbers {
            number: self.refusal.fault.number(),
            first: u16::from(self.list.number()),
            second: Some(self.refusal.place),
        }
    }
}

// Does a list pass? First the shape of the whole list, then the paths in order, with a map of the edges used before.
pub fn check(
    b: Board,
    nets: [Place; 64],
    words: &[u32],
    used: &mut [u8; 2048],
) -> Result<(), Refusal>
    ensures checks { Checks (board_of b) (nets_of nets) words.now used.old used.new result }
    ensures words_len_bound { result ≡ Ok tt → length words.now ≤ routing_limit }
{
    judge_shape::check_shape(nets, words)?;
    judge_walk::walk_paths(b, nets, words, used)
}

// The same of bytes.
pub fn check_bytes(
    b: Board,
    nets: [Place; 64],
    bytes: &[u8],
    used: &mut [u8; 2048],
) -> Result<(), BytesRefusal>
    ensures { ChecksBytes (board_of b) (nets_of nets) bytes.now used.old used.new result }
{
    let mut words = [0u32; ROUTING_WORDS];
    let n = words_bytes::fill_all(bytes, &mut words)?;
    check(b, nets, &words[..n], used)?;
    Ok(())
}

// Judges a list of routing words for the nets on the board.
#[tactic(auto, using(crate::proofs::Judged::judged))]
pub fn judge(b: Board, nets: [Place; 64], words: &[u32]) -> Result<Report, Refusal>
    ensures { verdict_of result ≡ verdict_by (board_of b) (nets_of nets) words.now }
{
    let mut used = [0u8; 2048];
    check(b, nets, words, &mut used)?;
    Ok(judge_report::report_of(nets, words))
}

// Judges the first list, then the second, and compares the maps of their edges: are they alike?
pub fn compare(
    b: Board,
    nets: [Place; 64],
    first: &[u32],
    second: &[u32],
) -> Result<bool, ListRefusal>
    ensures { comparison_of result ≡ comparison_by (board_of b) (nets_of nets) first.now second.now }
{
    let mut one = [0u8; 2048];
    let mut two = [0u8; 2048];
    check(b, nets, first, &mut one).map_err(|refusal| ListRefusal {
        list: Which::First,
        refusal,
    })?;
    check(b, nets, second, &mut two).map_err(|refusal| ListRefusal {
        list: Which::Second,
        refusal,
    })?;
    Ok(judge_alike::is_alike(&one, &two))
}
