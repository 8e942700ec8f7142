// What a line tells: the calls, and how their numbers are read.

ghost use Rattle.std.specs.Prelude.{length};
ghost use Rattle.std.specs.Iterator.{at_most};

use board::{Row, Vertex};
use board_block::TakenPins;
use net::{Net, Pair};
use session_list::LISTED;

// A call, as a line tells it.
#[derive(Clone, Copy)]
pub enum Call {
    Row(Row),
    Taken(TakenPins),
    Book(u8),
    Add(Net),
    Adds(NetList),
    Withdraw(u8),
    Back,
    Keep(u8),
    Return(u8),
    Move,
    Paths,
    Wire,
}

// A list of nets: the first of the array, so many.
#[derive(Clone, Copy)]
pub struct NetList {
    pub nets: [Net; LISTED],
    pub count: usize,
}

// The numbers that are left on a line: each is found by skipping to the next digit.
#[derive(Drop)]
struct Numbers<'a>(&'a [u8]);

impl<'a> Iterator for Numbers<'a> {
    type Item = u8;

    ghost remaining = { λ s. at_most (length s.0.now) };

    fn next(&mut self) -> Option<u8> {
        let start = self.0.iter().position(|b| b.is_ascii_digit())?;
        let rest = &self.0[start..];
        let end = rest
            .iter()
            .position(|b| !b.is_ascii_digit())
            .unwrap_or(rest.len());
        self.0 = rest.get(end + 1..).unwrap_or(&[]);
        Some(value(&rest[..end]))
    }
}

// The value of a number in decimal; one above 249 is 255.
fn value(digits: &[u8]) -> u8 {
    let value = digits.iter().fold(0u32, |value, digit| {
        value
            .saturating_mul(10)
            .saturating_add(u32::from(digit.saturating_sub(b'0')))
    });
    if value < 250 { value as u8 } else { 255 }
}

impl<'a> Numbers<'a> {
    // The next number, 0 where it is missing.
    fn number(&mut self) -> u8 {
        self.next().unwrap_or(0)
    }

    fn vertex(&mut self) -> Vertex {
        Vertex {
            line: self.number(),
            column: self.number(),
        }
    }

    fn row(&mut self) -> Row {
        Row {
            left: self.number(),
            right: self.number(),
        }
    }

    fn taken(&mut self) -> TakenPins {
        TakenPins {
            vertex: self.vertex(),
            count: self.number(),
        }
    }

    fn ends(&mut self) -> Pair {
        Pair {
            first: self.vertex(),
            second: self.vertex(),
        }
    }

    fn net(&mut self) -> Net {
        Net {
            number: self.number(),
            ends: self.ends(),
        }
    }

    // The nets that begin on the line. Of a longer list the first 65 are taken: a board can hold 64, so the list has stopped at one of them
    // (law `enough`).
    fn nets(&mut self) -> NetList {
        let mut nets = [Numbers(&[]).net(); LISTED];
        for count in 0..LISTED {
            let Some(number) = self.next() else {
                return NetList { nets, count };
            };
            nets[count] = Net {
                number,
                ends: self.ends(),
            };
        }
        NetList {
            nets,
            count: LISTED,
        }
    }
}

// The call that a line tells, by the word that stands at its start, whole.
pub fn call_of(line: &[u8]) -> Option<Call> {
    let end = line.iter().position(|b| *b == b' ').unwrap_or(line.len());
    let (word, rest) = line.split_at(end);
    let mut numbers = Numbers(rest);
    let call = match word {
        b"row" => Call::Row(numbers.row()),
        b"taken" => Call::Taken(numbers.taken()),
        b"book" => Call::Book(numbers.number()),
        b"add" => Call::Add(numbers.net()),
        b"adds" => Call::Adds(numbers.nets()),
        b"withdraw" => Call::Withdraw(numbers.number()),
        b"back" => Call::Back,
        b"keep" => Call::Keep(numbers.number()),
        b"return" => Call::Return(numbers.number()),
        b"move" => Call::Move,
        b"paths" => Call::Paths,
        b"wire" => Call::Wire,
        _ => return None,
    };
    Some(call)
}
