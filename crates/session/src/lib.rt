// Sessions: a block, the nets on its board, the pile of changes that can be taken back, and the trial layouts kept under eight names.
// Each call takes a session and hands back the next. A refused call hands back the session that it was given; `add_all` hands back the one that the
// nets before the refused one left.
#![tactic(auto)]

ghost use Rattle.std.specs.Prelude.{◌≡◌, ◌+◌, ◌<◌, ◌^◌, Ok, Err};
ghost use Rattle.count.specs.Truth.{Decides};
ghost use Rattle.session_rules.specs.Sound.{Sound, sound?};
ghost use Rattle.session.specs.View.{session_of, Sized};
ghost use Rattle.session.specs.Value.{after, with_places, changed};
ghost use Rattle.session.specs.Value.{add_sound, withdraw_sound, take_back_sound, keep_sound, return_sound, none_added, with_net};
ghost use Rattle.session.specs.Promise.{AddPromise, AddAllPromise, WithdrawPromise, TakeBackPromise, KeepPromise, ReturnPromise};
ghost use Rattle.session.specs.Promise.{FreshPromise, BlankPromise};

use board::{Board, Row};
use board_block::Block;
use net::{Change, Net, Place};
use session_answers::{
    AddAllAnswer, AddRefusal, KeepRefusal, ReturnRefusal, TakeBackRefusal, WithdrawRefusal,
};
use session_names::{Layout, NAMES};
use session_pile::Pile;

// Net n is held at place n - 1.
#[derive(Clone, Copy)]
pub struct Session {
    pub block: Block,
    pub nets: [Place; 64],
    pub pile: Pile,
    pub names: [Layout; NAMES],
}

// What each call hands back: its answer and the next session.
#[derive(Clone, Copy)]
pub struct After<A> {
    pub answer: A,
    pub session: Session,
}

// A session on the block, with no nets, an empty pile and nothing kept.
pub fn fresh(block: Block) -> Session
    ensures { FreshPromise block result }
{
    Session {
        block,
        nets: [None; 64],
        pile: session_pile::empty(),
        names: [None; NAMES],
    }
}

// The blank session: row 0 from 0 to 1, no nets.
pub fn blank() -> Session
    ensures { BlankPromise result }
{
    fresh(board_block::plain(Board {
        count: 1,
        rows: [Row { left: 0, right: 1 }; 31],
    }))
}

impl Session {
    // The test of soundness. That the arrays of nets and changes have 64 places is told to the calls besides.
    fn is_sound(self) -> bool
        ensures { Decides result (sound? (session_of self)) (Sound (session_of self)) × Sized self }
    {
        let b = self.block;
        (board_convex::is_convex(b.board) & board_block::is_fine(b))
            & (session_sound::is_addable(b, self.nets)
                & ((self.pile.is_short() & session_sound::lifts(b, self.nets, self.pile))
                    & session_sound::all_fine(b, self.names)))
    }

    // Is the session sound?
    pub fn sound(self) -> bool
        ensures { Decides result (sound? (session_of self)) (Sound (session_of self)) }
    {
        self.is_sound()
    }

    // What an accepted call hands back, whose next session this is.
    pub fn accepted<R>(self) -> After<Result<(), R>>
        ensures { result ≡ after (Ok tt) self }
    {
        After {
            answer: Ok(()),
            session: self,
        }
    }

    // What a refused call hands back, which was made on this session.
    pub fn refused<R>(self, reason: R) -> After<Result<(), R>>
        ensures { result ≡ after (Err reason) self }
    {
        After {
            answer: Err(reason),
            session: self,
        }
    }

    // The session with these places and this pile; all else that it holds stays.
    pub fn with_places(self, nets: [Place; 64], pile: Pile) -> Session
        ensures { result ≡ with_places self nets pile }
    {
        Session { nets, pile, ..self }
    }

    // The session with other places, and the change laid on the pile.
    fn changed(self, nets: [Place; 64], change: Change) -> Session
        ensures { result ≡ changed self nets change }
    {
        self.with_places(nets, self.pile.lay(change))
    }

    // The single add, on a sound session: `add` calls it after its test, and `add_all` for each net after one test.
    #[tactic(auto, unfolding(crate::specs::Value::add_sound))]
    fn add_sound(self, net: Net) -> After<Result<(), AddRefusal>>
        ensures { result ≡ add_sound self net }
    {
        match session_add::check(self.block, self.nets, net) {
            Err(reason) => self.refused(reason),
            Ok(()) => {
                let nets = net_places::stored(self.nets, net.number, Some(net.ends));
                self.changed(nets, Change::Added(net)).accepted()
            }
        }
    }

    #[tactic(auto, unfolding(crate::specs::Value::withdraw_sound))]
    fn withdraw_sound(self, number: u8) -> After<Result<(), WithdrawRefusal>>
        ensures { result ≡ withdraw_sound self number }
    {
        match net_places::place_of(self.nets, number) {
            None => self.refused(WithdrawRefusal::NotOnBoard),
            Some(ends) => {
                let nets = net_places::stored(self.nets, number, None);
                self.changed(nets, Change::Withdrawn(Net { number, ends }))
                    .accepted()
            }
        }
    }

    #[tactic(auto, unfolding(crate::specs::Value::take_back_sound))]
    fn take_back_sound(self) -> After<Result<(), TakeBackRefusal>>
        ensures { result ≡ take_back_sound self }
    {
        if self.pile.depth == 0 {
            return self.refused(TakeBackRefusal::PileEmpty);
        }
        let nets = net_places::reversed(self.nets, self.pile.top());
        self.with_places(nets, self.pile.lift()).accepted()
    }

    #[tactic(auto, unfolding(crate::specs::Value::keep_sound))]
    fn keep_sound(self, name: u8) -> After<Result<(), KeepRefusal>>
        ensures { result ≡ keep_sound self name }
    {
        if !session_names::is_name(name) {
            return self.refused(KeepRefusal::NoName);
        }
        let names = session_names::stored(self.names, name, self.nets);
        Session { names, ..self }.accepted()
    }

    #[tactic(auto, unfolding(crate::specs::Value::return_sound))]
    fn return_sound(self, name: u8) -> After<Result<(), ReturnRefusal>>
        ensures { result ≡ return_sound self name }
    {
        if !session_names::is_name(name) {
            return self.refused(ReturnRefusal::NoName);
        }
        match session_names::layout_of(self.names, name) {
            None => self.refused(ReturnRefusal::NothingKept),
            Some(nets) => self.with_places(nets, session_pile::empty()).accepted(),
        }
    }

    // Puts the net in and lays "added" with it on the pile.
    pub fn add(self, net: Net) -> After<Result<(), AddRefusal>>
        ensures { AddPromise self net result }
    {
        if !self.is_sound() {
            return self.refused(AddRefusal::Unsound);
        }
        self.add_sound(net)
    }

    // None of a list of nets is added so far; an unsound session is refused. That the arrays have 64 places is told to the walk of `add_all`.
    #[tactic(auto, unfolding(crate::specs::Value::none_added))]
    fn none_added(self) -> After<AddAllAnswer>
        ensures { (result ≡ none_added self) × Sized self }
    {
        let last = if self.is_sound() {
            Ok(())
        } else {
            Err(AddRefusal::Unsound)
        };
        After {
            answer: AddAllAnswer { count: 0, last },
            session: self,
        }
    }

    // Adds the nets one by one in list order, and stops at the first that is refused; the nets before it stay on.
    pub fn add_all(self, nets: &[Net]) -> After<AddAllAnswer>
        ensures { AddAllPromise self nets.now result }
    {
        // The answer and the session are kept apart: as one value they would be copied at each turn.
        let After {
            mut answer,
            mut session,
        } = self.none_added();
        for net in nets {
            if answer.last.is_err() {
                break;
            }
            let next = session.add_sound(*net);
            answer = answer.counting(next.answer);
            session = next.session;
        }
        After { answer, session }
    }

    // Takes the net of that number out and lays "withdrawn" with it on the pile.
    pub fn withdraw(self, number: u8) -> After<Result<(), WithdrawRefusal>>
        ensures { WithdrawPromise self number result }
    {
        if !self.is_sound() {
            return self.refused(WithdrawRefusal::Unsound);
        }
        self.withdraw_sound(number)
    }

    // Lifts the top change and reverses it: the added net leaves, the withdrawn net returns with its terminals.
    #[tactic(auto, using(crate::proofs::Kept::take_back_promise), unfolding(crate::specs::Value::take_back_of))]
    pub fn take_back(self) -> After<Result<(), TakeBackRefusal>>
        ensures { TakeBackPromise self result }
    {
        if !self.is_sound() {
            return self.refused(TakeBackRefusal::Unsound);
        }
        self.take_back_sound()
    }

    // Stores the nets on the board under a name, 0 to 7, over what it held. The pile stays as it is.
    pub fn keep(self, name: u8) -> After<Result<(), KeepRefusal>>
        ensures { KeepPromise self name result }
    {
        if !self.is_sound() {
            return self.refused(KeepRefusal::Unsound);
        }
        self.keep_sound(name)
    }

    // Puts the nets that are kept under a name on the board, in place of those that are on it, and empties the pile. The names stay as they are.
    pub fn return_to(self, name: u8) -> After<Result<(), ReturnRefusal>>
        ensures { ReturnPromise self name result }
    {
        if !self.is_sound() {
            return self.refused(ReturnRefusal::Unsound);
        }
        self.return_sound(name)
    }
}
