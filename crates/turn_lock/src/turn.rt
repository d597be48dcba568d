//! The lock.
ghost use Rattle.std.specs.Prelude.{◌≡◌, ◌≢◌, ℕ, ◌<◌, Some, [], ◌∷◌, ◌++◌, length, IfOk, IfErr};
ghost use Rattle.turn_lock.specs.Views.{BeginsWith, Agrees, IsOnce, AllBelow, later, start_row, birth_of, start_of, seen_of, owned_of, row_of, lifted_of, IsFree, HasTurn, IsSamePass, OnlySees};

use crate::booked::Booked;
use crate::pass::Pass;
use crate::rule::{Board, Count, Cut, Glue};
use ed2k_outside::NoMemory;
use std::alloc::Global;
use std::snapshot::Snapshot;
use std::sync::Wait;

pub(crate) const WORDS: usize = 20;

pub(crate) const TICKETS: usize = 0;

pub(crate) const TURN: usize = 1;

pub(crate) const COUNT: usize = 2;

pub(crate) const NUMBERS: usize = 3;

/// The first of the bells, which are all words from here on.
pub(crate) const BELLS: usize = 4;

/// A lock over a value with a log, whose passes take turns by tickets.
///
/// A pass takes the value out for its turn and lays it back. What it finds is the value that was
/// laid back last: its log begins with all that the pass has seen, and its row of the pass's number
/// is what this pass last put.
#[derive(Drop)]
pub struct Turn<T: Booked> {
    /// The table that the passes share: the lock's words, and the slot of the value.
    pub board: Board<T>,
    ghost sized: { (board.shared.table_id.words ≡ 20) × (board.shared.table_id.slots ≡ 1) },
}

impl<T: Booked> Turn<T> {
    /// A lock over the value, and its first pass, which has number 0 and has seen the value's log.
    /// Where memory is refused, the value comes back.
    pub fn new(alloc: Global, value: T) -> Result<(Turn<T>, Pass<T>), (T, NoMemory)>
        ensures own { IfOk result (λ made. made.1.seat.table_id ≡ made.0.board.shared.table_id) }
        ensures number { IfOk result (λ made. made.1.number ≡ 0) }
        ensures free { IfOk result (λ made. IsFree made.1.seat) }
        ensures log { IfOk result (λ made. seen_of made.1.seat ≡ T.log value) }
        ensures birth { IfOk result (λ made. (birth_of made.1.seat ≡ T.birth value) × (start_of made.1.seat ≡ Some value)) }
        ensures rows { IfOk result (λ made. owned_of made.1.seat ≡ (0, T.rows value 0) ∷ []) }
        ensures refused { IfErr result (λ refusal. refusal.0 ≡ value) }
    {
        let about = Snapshot::of(&value);
        let mut words = [0u64; WORDS];
        words[COUNT] = value.booked();
        words[NUMBERS] = 1;
        let mut slots = Vec::new(alloc);
        if let Err(refused) = slots.push(Some(value)) {
            slots.destroy_empty();
            return Err((refused.value.unwrap(), NoMemory));
        }
        match Board::<T>::new(alloc, &words, slots, &about) {
            Ok((board, seat)) => Ok((Turn { board }, Pass { seat, number: 0 })),
            Err(refused) => {
                let mut slots = refused.slots;
                let value = slots.pop().unwrap();
                slots.destroy_empty();
                Err((value.unwrap(), NoMemory))
            }
        }
    }

    /// Waits for the pass's turn, and takes the value out. It waits for good where no ticket is left, after
    /// 2^64 - 1 of them.
    pub fn take<R: Wait>(&self, rt: &R, pass: &mut Pass<T>) -> T
        requires own { pass.old.seat.table_id ≡ self.now.board.shared.table_id }
        requires free { IsFree pass.old.seat }
        ensures turn { HasTurn pass.new.seat × (lifted_of pass.new.seat ≡ Some result) }
        ensures log { (seen_of pass.new.seat ≡ T.log result) × BeginsWith (T.log result) (seen_of pass.old.seat) }
        ensures birth { T.birth result ≡ birth_of pass.old.seat }
        ensures rows { (owned_of pass.new.seat ≡ owned_of pass.old.seat) × Agrees (T.rows result) (owned_of pass.old.seat) }
        ensures row { row_of pass.old.seat ≡ T.rows result pass.old.number }
        ensures same { IsSamePass pass.old.seat pass.new.seat × (pass.new.number ≡ pass.old.number) }
    {
        let ticket = self.draw_ticket(rt, &mut pass.seat);
        self.await_turn(rt, &mut pass.seat, ticket);
        self.lift(&mut pass.seat)
    }

    /// Lays the value back, and calls the next ticket. The value's log may have grown, and its row
    /// of the pass's number may be another.
    pub fn give(&self, pass: &mut Pass<T>, value: T)
        requires own { pass.old.seat.table_id ≡ self.now.board.shared.table_id }
        requires turn { HasTurn pass.old.seat }
        requires log { BeginsWith (T.log value) (seen_of pass.old.seat) }
        requires birth { T.birth value ≡ birth_of pass.old.seat }
        requires rows { (x : T) → lifted_of pass.old.seat ≡ Some x → (n : ℕ) → n ≢ pass.old.number → T.rows value n ≡ T.rows x n }
        ensures free { IsFree pass.new.seat }
        ensures log { seen_of pass.new.seat ≡ T.log value }
        ensures rows { owned_of pass.new.seat ≡ (pass.old.number, T.rows value pass.old.number) ∷ later (owned_of pass.old.seat) }
        ensures same { IsSamePass pass.old.seat pass.new.seat × (pass.new.number ≡ pass.old.number) }
    {
        self.lay_back(pass, value);
        self.call_next(&mut pass.seat);
    }

    /// The length of the log, which the pass has seen from then on. It waits for no one.
    pub fn count(&self, pass: &mut Pass<T>) -> u64
        requires own { pass.old.seat.table_id ≡ self.now.board.shared.table_id }
        ensures count { result ≡ length (seen_of pass.new.seat) }
        ensures log { BeginsWith (seen_of pass.new.seat) (seen_of pass.old.seat) }
        ensures once { IsOnce (owned_of pass.new.seat) }
        ensures same { OnlySees pass.old.seat pass.new.seat × (pass.new.number ≡ pass.old.number) }
    {
        self.board.shared.load::<Count>(&mut pass.seat, COUNT)
    }

    /// A pass with a number of its own, which has seen as much as this one. It waits for good where no
    /// number is left, after 2^64 - 1 of them.
    pub fn split<R: Wait>(&self, rt: &R, pass: &mut Pass<T>) -> Pass<T>
        requires own { pass.old.seat.table_id ≡ self.now.board.shared.table_id }
        ensures own { result.seat.table_id ≡ self.now.board.shared.table_id }
        ensures free { IsFree result.seat }
        ensures log { seen_of result.seat ≡ seen_of pass.old.seat }
        ensures birth { (birth_of result.seat ≡ birth_of pass.old.seat) × (start_of result.seat ≡ start_of pass.old.seat) }
        ensures number { AllBelow result.number (owned_of pass.old.seat) }
        ensures rows { owned_of result.seat ≡ (result.number, start_row T.rows (start_of pass.old.seat) result.number) ∷ [] }
        ensures same { (pass.new.seat.table_id ≡ pass.old.seat.table_id) × (pass.new.seat.me ≡ pass.old.seat.me) × (pass.new.number ≡ pass.old.number) }
    {
        let mut seat = self.board.shared.split_seat::<Cut>(&mut pass.seat);
        let number = self.draw_number(rt, &mut pass.seat, &mut seat);
        Pass { seat, number }
    }

    /// Takes another pass in. The pass has then seen a log that begins with what either had seen,
    /// and has the other's numbers and rows behind its own.
    pub fn join(&self, pass: &mut Pass<T>, other: Pass<T>)
        requires own { (pass.old.seat.table_id ≡ self.now.board.shared.table_id) × (other.seat.table_id ≡ self.now.board.shared.table_id) }
        requires free { IsFree pass.old.seat × IsFree other.seat }
        ensures free { IsFree pass.new.seat }
        ensures log { BeginsWith (seen_of pass.new.seat) (seen_of pass.old.seat) × BeginsWith (seen_of pass.new.seat) (seen_of other.seat) }
        ensures rows { owned_of pass.new.seat ≡ owned_of pass.old.seat ++ owned_of other.seat }
        ensures once { IsOnce (owned_of pass.new.seat) }
        ensures same { IsSamePass pass.old.seat pass.new.seat × (pass.new.number ≡ pass.old.number) }
    {
        let Pass { seat, number: _ } = other;
        let shared = &self.board.shared;
        shared.join_seat::<Glue>(&mut pass.seat, seat);
        shared.load::<Count>(&mut pass.seat, COUNT);
    }

    /// Waits for the pass's turn, takes the value out and ends the lock. Other passes that are left can't be
    /// used any more.
    pub fn close<R: Wait>(self, rt: &R, mut pass: Pass<T>) -> T
        requires own { pass.seat.table_id ≡ self.board.shared.table_id }
        requires free { IsFree pass.seat }
        ensures log { BeginsWith (T.log result) (seen_of pass.seat) }
        ensures birth { T.birth result ≡ birth_of pass.seat }
        ensures rows { Agrees (T.rows result) (owned_of pass.seat) }
    {
        let value = self.take(rt, &mut pass);
        self.lay_back(&mut pass, value);
        let Pass { seat, number: _ } = pass;
        let Turn { board } = self;
        let mut closed = board.close_with(seat);
        let slot = closed.take(0);
        closed.free();
        slot.unwrap()
    }
}
