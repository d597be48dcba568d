//! The steps of a turn, on the seat of a pass.
ghost use Rattle.std.specs.Prelude.{◌≡◌, ◌≢◌, ℕ, ◌<◌, ◌≤◌, Some, None, [], ◌∷◌, false};
ghost use Rattle.turn_lock.specs.declared.known.Stage.TheVariants.{Idle, Waits, Calls};
ghost use Rattle.turn_lock.specs.Views.{BeginsWith, AllBelow, first_from, start_row, birth_of, start_of, seen_of, owned_of, lifted_of, HasTurn, is_spent, at_stage};
ghost use Rattle.turn_lock.specs.Steps.{lifts};

use crate::booked::Booked;
use crate::pass::Pass;
use crate::rule::{CallNext, DrawNumber, DrawTicket, Look, LookUp, Place, Raise, Ring};
use crate::turn::{BELLS, COUNT, NUMBERS, TICKETS, TURN, Turn, WORDS};
use std::sync::Wait;
use std::thread;

/// The place of the value among the table's slots.
const SLOT: usize = 0;

/// How often a pass looks at the turn before it sleeps.
const YIELDS: u32 = 4;

/// The word of the bell that is rung for a ticket.
fn bell_of(ticket: u64) -> usize
    ensures bell { 4 ≤ result }
    ensures word { result < 20 }
{
    let bells = WORDS - BELLS;
    BELLS + ticket as usize % bells
}

impl<T: Booked> Turn<T> {
    /// Draws a ticket. Where none is left it waits for good.
    pub(crate) fn draw_ticket<R: Wait>(&self, rt: &R, seat: &mut Place<T>) -> u64
        requires own { seat.old.table_id ≡ self.now.board.shared.table_id }
        requires idle { seat.old.me.0.stage ≡ Idle }
        ensures own { seat.new.table_id ≡ seat.old.table_id }
        ensures ticket { seat.new.me ≡ (at_stage seat.old.me.0 (Waits result), seat.old.me.1) }
    {
        let shared = &self.board.shared;
        for _ in rt.forever() {
            let next = shared.peek(TICKETS);
            if next == u64::MAX {
                shared.park(rt, TICKETS, u32::MAX);
            } else if shared.compare_exchange::<DrawTicket>(seat, TICKETS, next, next + 1) == next {
                return next;
            }
        }
        unreachable!()
    }

    /// Waits until the ticket is called. The value is then out with the seat.
    pub(crate) fn await_turn<R: Wait>(&self, rt: &R, seat: &mut Place<T>, ticket: u64)
        requires own { seat.old.table_id ≡ self.now.board.shared.table_id }
        requires waits { seat.old.me.0.stage ≡ Waits ticket }
        ensures own { seat.new.table_id ≡ seat.old.table_id }
        ensures value { (x : T) × lifts T.rows T.birth T.log ticket seat.old.me x seat.new.me }
    {
        let shared = &self.board.shared;
        let bell = bell_of(ticket);
        let mut looks = 0;
        for _ in rt.forever() {
            // The bell is read first, so a ring between the look and the sleep is not missed.
            let rings = shared.peek(bell);
            if shared.load::<Look>(seat, TURN) == ticket {
                return;
            }
            if looks < YIELDS {
                looks += 1;
                thread::yield_now();
            } else {
                shared.park(rt, bell, (rings % (1 << 32)) as u32);
            }
        }
        unreachable!()
    }

    /// Moves the value out of its slot.
    pub(crate) fn lift(&self, seat: &mut Place<T>) -> T
        requires own { seat.old.table_id ≡ self.now.board.shared.table_id }
        requires value { (x : T) × (seat.old.me.1 ≡ (0, Some x) ∷ []) }
        ensures own { seat.new.table_id ≡ seat.old.table_id }
        ensures value { seat.old.me.1 ≡ (0, Some result) ∷ [] }
        ensures slot { seat.new.me ≡ (seat.old.me.0, (0, None) ∷ []) }
    {
        let slot = self.board.shared.exchange(seat, SLOT, None);
        slot.unwrap()
    }

    /// Lays the value back and raises the count.
    pub(crate) fn lay_back(&self, pass: &mut Pass<T>, value: T)
        requires own { pass.old.seat.table_id ≡ self.now.board.shared.table_id }
        requires turn { HasTurn pass.old.seat }
        requires log { BeginsWith (T.log value) (seen_of pass.old.seat) }
        requires birth { T.birth value ≡ birth_of pass.old.seat }
        requires rows { (x : T) → lifted_of pass.old.seat ≡ Some x → (n : ℕ) → n ≢ pass.old.number → T.rows value n ≡ T.rows x n }
        ensures own { (pass.new.seat.table_id ≡ pass.old.seat.table_id) × (pass.new.number ≡ pass.old.number) }
        ensures laid { (t : ℕ) × (pass.new.seat.me ≡ (record pass.old.seat.me.0 { stage = Calls t; seen = T.log value; owned = first_from (T.rows value) (owned_of pass.old.seat) }, [])) }
    {
        let count = value.booked();
        let empty = self
            .board
            .shared
            .exchange(&mut pass.seat, SLOT, Some(value));
        let None = empty else { unreachable!() };
        self.board
            .shared
            .store::<Raise>(&mut pass.seat, COUNT, count);
    }

    /// Calls the next ticket. Where it was not drawn yet there is no one to wake.
    pub(crate) fn call_next(&self, seat: &mut Place<T>)
        requires own { seat.old.table_id ≡ self.now.board.shared.table_id }
        requires calls { (t : ℕ) × (seat.old.me.0.stage ≡ Calls t) }
        ensures own { seat.new.table_id ≡ seat.old.table_id }
        ensures idle { seat.new.me ≡ (at_stage seat.old.me.0 Idle, seat.old.me.1) }
    {
        let shared = &self.board.shared;
        let called = shared.fetch_add::<CallNext>(seat, TURN, 1);
        let next = called.wrapping_add(1);
        if shared.peek(TICKETS) > next {
            self.ring(seat, next);
        }
    }

    /// Wakes those who sleep on the bell of a ticket.
    fn ring(&self, seat: &mut Place<T>, ticket: u64)
        requires own { seat.old.table_id ≡ self.now.board.shared.table_id }
        ensures own { seat.new.table_id ≡ seat.old.table_id }
        ensures same { seat.new.me ≡ seat.old.me }
    {
        let shared = &self.board.shared;
        let bell = bell_of(ticket);
        shared.fetch_add::<Ring>(seat, bell, 1);
        shared.wake_all(bell);
    }

    /// Draws a number for a seat that was just split off. Where none is left it waits for good.
    pub(crate) fn draw_number<R: Wait>(
        &self,
        rt: &R,
        parent: &mut Place<T>,
        seat: &mut Place<T>,
    ) -> u64
        requires own { (parent.old.table_id ≡ self.now.board.shared.table_id) × (seat.old.table_id ≡ self.now.board.shared.table_id) }
        requires live { is_spent seat.old.me.0.stage ≡ false }
        requires bare { owned_of seat.old ≡ [] }
        ensures own { (parent.new.table_id ≡ parent.old.table_id) × (seat.new.table_id ≡ seat.old.table_id) }
        ensures parent { (parent.new.me ≡ parent.old.me) × AllBelow result (owned_of parent.old) }
        ensures number { seat.new.me ≡ (record seat.old.me.0 { owned = (result, start_row T.rows (start_of seat.old) result) ∷ [] }, seat.old.me.1) }
    {
        let shared = &self.board.shared;
        for _ in rt.forever() {
            let next = shared.load::<LookUp>(parent, NUMBERS);
            if next == u64::MAX {
                shared.park(rt, NUMBERS, u32::MAX);
            } else if shared.compare_exchange::<DrawNumber>(seat, NUMBERS, next, next + 1) == next {
                return next;
            }
        }
        unreachable!()
    }
}
