// Judging and comparing lists of routing words against a session, given as words or as bytes.
#![tactic(auto)]

ghost use Rattle.std.specs.Prelude.{◌≡◌};
ghost use Rattle.session.specs.View.{session_of};
ghost use Rattle.call_rules.specs.Judge.{judge_words, compare_words, judge_bytes, compare_bytes};
ghost use Rattle.judge_call.specs.declared.JudgeRefusal.TheVariants as judging;
ghost use Rattle.judge_call.specs.declared.CompareRefusal.TheVariants as comparing;
ghost use Rattle.judge_call.specs.Answers.{
  unfilled,
  in_list,
  judge_refusal,
  compare_refusal,
  judgement_of,
  likeness_of,
};

use judge_list::{BytesRefusal, ListRefusal, Numbers, Reason, Which};
use judge_report::Report;
use judge_shape::{Fault, Refusal};
use session::Session;
use words::ROUTING_WORDS;
use words_bytes::FillError;

// Why a list gets no report: the session is unsound, the count of bytes is no multiple of 4, or the list is refused.
#[derive(Clone, Copy, PartialEq, Eq)]
pub enum JudgeRefusal {
    Unsound,
    UnevenBytes,
    List(Refusal),
}

impl From<Refusal> for JudgeRefusal {
    ghost from_gives = { λ refusal result. result ≡ judging.List refusal };

    fn from(refusal: Refusal) -> JudgeRefusal {
        JudgeRefusal::List(refusal)
    }
}

// Bytes that do not fit are more words than a routing may have.
impl From<FillError> for JudgeRefusal {
    ghost from_gives = { λ error result. result ≡ unfilled error };

    fn from(error: FillError) -> JudgeRefusal {
        match error {
            FillError::Uneven => JudgeRefusal::UnevenBytes,
            FillError::Long => JudgeRefusal::List(Refusal {
                fault: Fault::Length,
                place: 0,
            }),
        }
    }
}

impl Reason for JudgeRefusal {
    ghost refusal = { judge_refusal };

    fn numbers(self) -> Numbers {
        match self {
            JudgeRefusal::Unsound => Numbers::at(20, 0),
            JudgeRefusal::UnevenBytes => Numbers::at(10, 0),
            JudgeRefusal::List(reason) => reason.numbers(),
        }
    }
}

// Why two lists are not compared: the session is unsound, the count of bytes of either is no multiple of 4, or one of the lists is refused.
#[derive(Clone, Copy, PartialEq, Eq)]
pub enum CompareRefusal {
    Unsound,
    UnevenBytes,
    List(ListRefusal),
}

impl From<ListRefusal> for CompareRefusal {
    ghost from_gives = { λ refusal result. result ≡ comparing.List refusal };

    fn from(refusal: ListRefusal) -> CompareRefusal {
        CompareRefusal::List(refusal)
    }
}

impl Reason for CompareRefusal {
    ghost refusal = { compare_refusal };

    fn numbers(self) -> Numbers {
        match self {
            CompareRefusal::Unsound => Numbers::at(20, 0),
            CompareRefusal::UnevenBytes => Numbers::at(10, 0),
            CompareRefusal::List(reason) => reason.numbers(),
        }
    }
}

// The refusal of bytes, where they are one of two lists.
fn in_list(list: Which, refusal: BytesRefusal) -> CompareRefusal
    ensures { result ≡ in_list list refusal }
{
    match refusal {
        BytesRefusal::UnevenBytes => CompareRefusal::UnevenBytes,
        BytesRefusal::List(refusal) => CompareRefusal::List(ListRefusal { list, refusal }),
    }
}

// Judges a list of routing words against a session.
pub fn judge_words(s: Session, words: &[u32]) -> Result<Report, JudgeRefusal>
    ensures { judgement_of result ≡ judge_words (session_of s) words.now }
{
    if !s.sound() {
        Err(JudgeRefusal::Unsound)
    } else {
        let report = judge_list::judge(s.block.board, s.nets, words)?;
        Ok(report)
    }
}

// Judges the first list, then the second, and tells whether they are alike.
pub fn compare_words(s: Session, first: &[u32], second: &[u32]) -> Result<bool, CompareRefusal>
    ensures { likeness_of result ≡ compare_words (session_of s) first.now second.now }
{
    if !s.sound() {
        return Err(CompareRefusal::Unsound);
    }
    let alike = judge_list::compare(s.block.board, s.nets, first, second)?;
    Ok(alike)
}

// The same of bytes: their count must be a multiple of 4.
pub fn judge_bytes(s: Session, bytes: &[u8]) -> Result<Report, JudgeRefusal>
    ensures { judgement_of result ≡ judge_bytes (session_of s) bytes.now }
{
    if !s.sound() {
        return Err(JudgeRefusal::Unsound);
    }
    let mut words = [0u32; ROUTING_WORDS];
    let n = words_bytes::fill_all(bytes, &mut words)?;
    judge_words(s, &words[..n])
}

// Two lists of bytes: the first whole, then the second.
pub fn compare_bytes(s: Session, first: &[u8], second: &[u8]) -> Result<bool, CompareRefusal>
    ensures { likeness_of result ≡ compare_bytes (session_of s) first.now second.now }
{
    if !s.sound() {
        return Err(CompareRefusal::Unsound);
    }
    let board = s.block.board;
    let nets = s.nets;
    let mut one = [0u8; 2048];
    let mut two = [0u8; 2048];
    judge_list::check_bytes(board, nets, first, &mut one).map_err(|r| in_list(Which::First, r))?;
    judge_list::check_bytes(board, nets, second, &mut two).map_err(|r| in_list(Which::Second, r))?;
    Ok(judge_alike::is_alike(&one, &two))
}
