// The numbers by which a program in C is told what a call answered.
#![tactic(auto)]

ghost use Rattle.std.specs.Prelude.{◌≡◌};
ghost use Rattle.session_rules.specs.Refusal.{refusal};
ghost use Rattle.call_rules.specs.Route.{overfull_refusal};
ghost use Rattle.route_call.specs.Answers.{route_answer};
ghost use Rattle.judge_list.specs.Verdicts.{report_by, value_by};
ghost use Rattle.wire_call.specs.Answers.{wire_answer};
ghost use Rattle.cidrask_told.specs.Told.{refused_told, count_told, wire_told, judge_told, alike_told};

use cut::Cut;
use judge_list::Reason;
use judge_report::Report;
use route_call::RouteRefusal;
use wire_call::{Figures, Unsound};

// The numbers by which a caller is told what came out.
#[derive(Clone, Copy, PartialEq, Eq, Default)]
pub struct Told {
    pub number: u32,
    pub first: u64,
    pub second: u64,
    pub third: u64,
}

// A refusal with a place of one number.
pub fn refused(number: u8, place: usize) -> Told
    ensures { result ≡ refused_told (refusal number place) }
{
    Told {
        number: u32::from(number),
        first: place as u64,
        ..Told::default()
    }
}

fn cut_told(x: Cut) -> Told
    ensures { result ≡ refused_told (overfull_refusal x) }
{
    match x {
        Cut::Row(i) => Told {
            number: 33,
            second: u64::from(i),
            ..Told::default()
        },
        Cut::Column(j) => Told {
            number: 33,
            first: 1,
            second: u64::from(j),
            ..Told::default()
        },
    }
}

pub fn route_told(answer: Result<usize, RouteRefusal>) -> Told
    ensures { result ≡ count_told (route_answer answer) }
{
    match answer {
        Ok(count) => Told {
            number: 0,
            first: count as u64,
            second: 0,
            third: 0,
        },
        Err(RouteRefusal::Unsound) => refused(20, 0),
        Err(RouteRefusal::ShortBuffer) => refused(31, 0),
        Err(RouteRefusal::Odd(v)) => Told {
            number: 32,
            first: v.line as u64,
            second: v.column as u64,
            third: 0,
        },
        Err(RouteRefusal::Overfull(x)) => cut_told(x),
        Err(RouteRefusal::NoRouting) => refused(34, 0),
    }
}

pub fn wire_told(answer: Result<Figures, Unsound>) -> Told
    ensures { result ≡ wire_told (wire_answer answer) }
{
    match answer {
        Ok(figures) => Told {
            number: 0,
            first: figures.crossings as u64,
            second: figures.edges as u64,
            third: 0,
        },
        Err(Unsound) => refused(20, 0),
    }
}

// A refusal for a reason, which has a place of one number or two.
fn reason_told<R: Reason + Copy>(reason: R) -> Told
    ensures { result ≡ refused_told (R.refusal reason) }
{
    let numbers = reason.numbers();
    match numbers.second {
        None => refused(numbers.number, usize::from(numbers.first)),
        Some(second) => Told {
            number: u32::from(numbers.number),
            first: u64::from(numbers.first),
            second: u64::from(second),
            third: 0,
        },
    }
}

pub fn judge_told<R: Reason + Copy>(judgement: Result<Report, R>) -> Told
    ensures { result ≡ judge_told (report_by R.refusal judgement) }
{
    match judgement {
        Ok(report) => Told {
            number: 0,
            first: u64::from(report.edges),
            second: u64::from(report.turns),
            third: u64::from(report.knocks),
        },
        Err(reason) => reason_told(reason),
    }
}

pub fn alike_told<R: Reason + Copy>(likeness: Result<bool, R>) -> Told
    ensures { result ≡ alike_told (value_by R.refusal likeness) }
{
    match likeness {
        Ok(alike) => Told {
            number: 0,
            first: u64::from(alike),
            second: 0,
            third: 0,
        },
        Err(reason) => reason_told(reason),
    }
}

pub fn draw_told<R: Reason + Copy>(answer: Result<usize, R>) -> Told
    ensures { result ≡ count_told (value_by R.refusal answer) }
{
    match answer {
        Ok(count) => Told {
            number: 0,
            first: count as u64,
            second: 0,
            third: 0,
        },
        Err(drawing) => reason_told(drawing),
    }
}
