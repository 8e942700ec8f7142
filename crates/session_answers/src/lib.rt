// Why each call that changes a session is refused, and the number and place by which that is told; that of a move, which may have a place of two
// numbers, is told in crate session_text.
#![tactic(auto)]

ghost use Rattle.std.specs.Prelude.{◌≡◌, ◌+◌, ◌<◌, ◌^◌, get_or};
ghost use Rattle.session_rules.specs.Refusal.{Refusal};
ghost use Rattle.session_answers.specs.Answers.{counting, answer_by, told};
ghost use Rattle.session_answers.specs.Answers.{add_refusal, withdraw_refusal, take_back_refusal, keep_refusal, return_refusal};

use board::Vertex;

// Why add is refused. The number is that of the terminal: 0 the first, 1 the second.
#[derive(Clone, Copy, PartialEq, Eq)]
pub enum AddRefusal {
    Unsound,
    BadNumber,
    NumberTaken,
    NoVertex(u8),
    SameVertex,
    PinsTaken(u8),
}

#[derive(Clone, Copy, PartialEq, Eq)]
pub enum WithdrawRefusal {
    Unsound,
    NotOnBoard,
}

#[derive(Clone, Copy, PartialEq, Eq)]
pub enum TakeBackRefusal {
    Unsound,
    PileEmpty,
}

#[derive(Clone, Copy, PartialEq, Eq)]
pub enum KeepRefusal {
    Unsound,
    NoName,
}

#[derive(Clone, Copy, PartialEq, Eq)]
pub enum ReturnRefusal {
    Unsound,
    NoName,
    NothingKept,
}

// Why a move to the new rule is refused. The vertex is the first that the new rule gives too few pins for its terminals and taken pins.
#[derive(Clone, Copy, PartialEq, Eq)]
pub enum MoveRefusal {
    Unsound,
    PinsMissing(Vertex),
}

// What adding a list of nets answers: how many went on, and why no more did. That is Ok where none was refused, Unsound where the session was
// unsound, and else what the add of the next net answered.
#[derive(Clone, Copy)]
pub struct AddAllAnswer {
    pub count: usize,
    pub last: Result<(), AddRefusal>,
}

impl AddAllAnswer {
    // The answer after one add more, which counts where it was accepted.
    pub fn counting(self, last: Result<(), AddRefusal>) -> AddAllAnswer
        requires { self.count + 1 < 2 ^ 64 }
        ensures { result ≡ counting self last }
    {
        let mut next = AddAllAnswer { last, ..self };
        if last.is_ok() {
            next.count += 1;
        }
        next
    }
}

// An answer by its number and place; both are 0 where the call is accepted.
#[derive(Clone, Copy)]
pub struct Told {
    pub number: u8,
    pub place: u8,
}

// A reason why a call is refused, which is told by one place number.
pub trait Reason {
    ghost refusal: { Self → Refusal };

    fn number(self) -> u8
        ensures { result ≡ (refusal self).number };

    fn place(self) -> u8
        ensures { result ≡ get_or (refusal self).place 0 0 };
}

impl Told {
    pub fn of<R: Reason + Copy>(answer: Result<(), R>) -> Told
        ensures { result ≡ told (answer_by R.refusal answer) }
    {
        match answer {
            Ok(()) => Told {
                number: 0,
                place: 0,
            },
            Err(reason) => Told {
                number: reason.number(),
                place: reason.place(),
            },
        }
    }
}

impl Reason for AddRefusal {
    ghost refusal = { add_refusal };

    fn number(self) -> u8 {
        match self {
            AddRefusal::Unsound => 20,
            AddRefusal::BadNumber => 21,
            AddRefusal::NumberTaken => 22,
            AddRefusal::NoVertex(_) => 23,
            AddRefusal::SameVertex => 24,
            AddRefusal::PinsTaken(_) => 25,
        }
    }

    fn place(self) -> u8 {
        match self {
            AddRefusal::NoVertex(terminal) => terminal,
            AddRefusal::PinsTaken(terminal) => terminal,
            _ => 0,
        }
    }
}

impl Reason for WithdrawRefusal {
    ghost refusal = { withdraw_refusal };

    fn number(self) -> u8 {
        match self {
            WithdrawRefusal::Unsound => 20,
            WithdrawRefusal::NotOnBoard => 26,
        }
    }

    fn place(self) -> u8 {
        0
    }
}

impl Reason for TakeBackRefusal {
    ghost refusal = { take_back_refusal };

    fn number(self) -> u8 {
        match self {
            TakeBackRefusal::Unsound => 20,
            TakeBackRefusal::PileEmpty => 27,
        }
    }

    fn place(self) -> u8 {
        0
    }
}

impl Reason for KeepRefusal {
    ghost refusal = { keep_refusal };

    fn number(self) -> u8 {
        match self {
            KeepRefusal::Unsound => 20,
            KeepRefusal::NoName => 35,
        }
    }

    fn place(self) -> u8 {
        0
    }
}

impl Reason for ReturnRefusal {
    ghost refusal = { return_refusal };

    fn number(self) -> u8 {
        match self {
            ReturnRefusal::Unsound => 20,
            ReturnRefusal::NoName => 35,
            ReturnRefusal::NothingKept => 36,
        }
    }

    fn place(self) -> u8 {
        0
    }
}
