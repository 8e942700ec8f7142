// The call `route`: the nets of a session joined by edge-disjoint paths, or what stands in the way.
#![tactic(auto)]

ghost use Rattle.std.specs.Prelude.{◌≡◌, ◌≤◌, length, MatchResult};
ghost use Rattle.session.specs.View.{session_of};
ghost use Rattle.session_rules.specs.Sound.{Sound};
ghost use Rattle.call_rules.specs.Route.{route_room, HandsBack, Routes, RoutesBytes};
ghost use Rattle.route_call.specs.Answers.{OddsKnown, ManyOdd, Helped, route_answer};
ghost use Rattle.route_call.specs.Filled.{first_work, Filled};

use board::Vertex;
use cut::Cut;
use pairing_search::{HelperPairs, Odds};
use router_ends::Work;
use router_notes::{Lines, Notes, PAIRS, Table, VERTICES};
use session::Session;
use words::ROUTING_WORDS;

// No board asks for more words.
const WORDS: usize = ROUTING_WORDS;

// Why a session is not routed: it is unsound, 20; the buffer has fewer than 1 + nets + edges words, 31; the first of more than 12 odd
// vertices, 32; the first overfull cut, 33; there is no routing though no cut is overfull, 34.
#[derive(Clone, Copy, PartialEq, Eq)]
pub enum RouteRefusal {
    Unsound,
    ShortBuffer,
    Odd(Vertex),
    Overfull(Cut),
    NoRouting,
}

// Where the router starts: on all the lines of a board of so many rows, with n pairs.
fn first_work(rows: u8, n: usize) -> Work
    requires { n ≤ 64 }
    ensures { result ≡ first_work rows n }
{
    Work {
        top: 0,
        bottom: usize::from(rows),
        up: false,
        n,
        next: n as u16,
    }
}

// The words of a routing of the nets at the start of the buffer, from a table of n rows: the nets' pairs and then helpers. Answers with the count of
// words.
fn wire_table(s: Session, n: usize, table: &mut Table, notes: &mut Notes, out: &mut [u32]) -> usize
    requires sound { Sound (session_of s) × Filled (session_of s) n table.old notes.old }
    requires s_in_bounds { route_room (session_of s) ≤ length out.old }
    ensures { HandsBack (session_of s) out.old out.new result }
{
    let board = s.block.board;
    let nets = s.nets;
    let mut lines = Lines {
        first: [0; 32],
        last: [0; 32],
    };
    router_start::fill_lines(board, &mut lines);
    let work = first_work(board.count, n);
    router_loop::cut_all(table, notes, &mut lines, work);
    router_writer::write_paths(notes, nets, out)
}

// The same with helper pairs that leave no cut overfull. Their paths are left out.
fn wire(s: Session, helpers: HelperPairs, out: &mut [u32]) -> usize
    requires helped { Helped (session_of s) helpers }
    requires s_in_bounds { route_room (session_of s) ≤ length out.old }
    ensures { HandsBack (session_of s) out.old out.new result }
{
    let mut table = Table {
        first: [0; PAIRS],
        second: [0; PAIRS],
        number: [0; PAIRS],
    };
    let mut notes = Notes {
        side: [0; VERTICES],
        vert: [0; VERTICES],
        half: [0; PAIRS],
        start: [0; PAIRS],
        end: [0; PAIRS],
        to_corner: [0; PAIRS],
        from_corner: [0; PAIRS],
    };
    let pairs = helpers.pairs;
    let n = router_start::fill_table(s.nets, &mut table, &mut notes);
    let all = router_start::fill_helpers(&pairs[..helpers.count], n, &mut table, &mut notes);
    wire_table(s, all, &mut table, &mut notes, out)
}

// The odd vertices of a sound session; or the first of them, where they are more than 12.
fn odds_of(s: Session) -> Result<Odds, RouteRefusal>
    requires { Sound (session_of s) }
    ensures { MatchResult result (λ odds. OddsKnown (session_of s) odds) (λ e. ManyOdd (session_of s) e) }
{
    let board = s.block.board;
    match cut_search::first_odd(board, s.nets) {
        Some(v) => pairing_search::odd_vertices(board, s.nets).ok_or(RouteRefusal::Odd(v)),
        None => Ok(pairing_search::no_odds()),
    }
}

// Routes a session's nets into a lent buffer of words: the count of words written. The words after them are untouched; on a refusal all of
// them.
pub fn route(s: Session, out: &mut [u32]) -> Result<usize, RouteRefusal>
    ensures { Routes (session_of s) out.old (route_answer result) out.new }
{
    if !s.sound() {
        return Err(RouteRefusal::Unsound);
    }
    if out.len() < wire_call::word_limit(s) {
        return Err(RouteRefusal::ShortBuffer);
    }
    let board = s.block.board;
    let odds = odds_of(s)?;
    if let Some(x) = cut_search::first_overfull(board, s.nets) {
        return Err(RouteRefusal::Overfull(x));
    }
    let helpers = pairing_search::helpers_of(board, s.nets, odds).ok_or(RouteRefusal::NoRouting)?;
    Ok(wire(s, helpers, out))
}

// The same into a lent buffer of bytes, four to a word, lowest first.
pub fn route_bytes(s: Session, out: &mut [u8]) -> Result<usize, RouteRefusal>
    ensures { RoutesBytes (session_of s) out.old (route_answer result) out.new }
{
    let mut words = [0u32; WORDS];
    let room = (out.len() / 4).min(WORDS);
    let count = route(s, &mut words[..room])?;
    words_bytes::put_words(&words, count, out);
    Ok(count)
}
