//! The rule of the table, and the kinds of step that a pass makes on it.
use crate::booked::Booked;
use crate::known::Known;
use atomic_table::{Join, Play, Seat, Split, Table, TableRule};
use std::alloc::Global;
use std::snapshot::Snapshot;

pub(crate) type View<T> = Known<T, <T as Booked>::Entry, <T as Booked>::Item>;

pub(crate) type Place<T> = Seat<Option<T>, View<T>>;

pub(crate) type Board<T> = Table<Option<T>, View<T>, Snapshot<T>, InTurn, Global>;

/// Passes take turns by their tickets.
pub struct InTurn;

impl<T: Booked> TableRule<Option<T>, Known<T, T::Entry, T::Item>, Snapshot<T>> for InTurn {
    ghost use Rattle.turn_lock.specs.Rule.{Kept};
    ghost use Rattle.turn_lock.specs.Steps.{opens};

    ghost holds = { λ key. Kept T.birth T.log T.rows key.value };

    ghost first = { λ key. opens T.rows T.birth T.log key.value };
}

/// A ticket is drawn.
pub(crate) struct DrawTicket;

impl<T: Booked> Play<Option<T>, Known<T, T::Entry, T::Item>> for DrawTicket {
    ghost use Rattle.turn_lock.specs.Steps.{draws_ticket};

    ghost then = { draws_ticket };
}

/// A number is drawn.
pub(crate) struct DrawNumber;

impl<T: Booked> Play<Option<T>, Known<T, T::Entry, T::Item>> for DrawNumber {
    ghost use Rattle.turn_lock.specs.Steps.{draws_number};

    ghost then = { draws_number T.rows };
}

/// A look at the turn, which takes the slot where the turn is that of the pass's ticket.
pub(crate) struct Look;

impl<T: Booked> Play<Option<T>, Known<T, T::Entry, T::Item>> for Look {
    ghost use Rattle.turn_lock.specs.Steps.{looks};

    ghost then = { looks T.rows T.birth T.log };
}

/// The count is raised, and the slot given back.
pub(crate) struct Raise;

impl<T: Booked> Play<Option<T>, Known<T, T::Entry, T::Item>> for Raise {
    ghost use Rattle.turn_lock.specs.Steps.{raises};

    ghost then = { raises T.rows T.birth T.log };
}

/// The next ticket is called.
pub(crate) struct CallNext;

impl<T: Booked> Play<Option<T>, Known<T, T::Entry, T::Item>> for CallNext {
    ghost use Rattle.turn_lock.specs.Steps.{calls_next};

    ghost then = { calls_next };
}

/// A bell is rung.
pub(crate) struct Ring;

impl<T: Booked> Play<Option<T>, Known<T, T::Entry, T::Item>> for Ring {
    ghost use Rattle.turn_lock.specs.Steps.{rings};

    ghost then = { rings };
}

/// A look at the count.
pub(crate) struct Count;

impl<T: Booked> Play<Option<T>, Known<T, T::Entry, T::Item>> for Count {
    ghost use Rattle.turn_lock.specs.Steps.{counts};

    ghost then = { counts };
}

/// A look at the numbers.
pub(crate) struct LookUp;

impl<T: Booked> Play<Option<T>, Known<T, T::Entry, T::Item>> for LookUp {
    ghost use Rattle.turn_lock.specs.Steps.{looks_up};

    ghost then = { looks_up };
}

/// A view is cut in two.
pub(crate) struct Cut;

impl<T: Booked> Split<Known<T, T::Entry, T::Item>> for Cut {
    ghost use Rattle.turn_lock.specs.Steps.{fresh};

    ghost left = { λ v. v };

    ghost right = { fresh };
}

/// Two views are made one.
pub(crate) struct Glue;

impl<T: Booked> Join<Known<T, T::Entry, T::Item>> for Glue {
    ghost use Rattle.turn_lock.specs.Steps.{both, spent};

    ghost both = { both };

    ghost spent = { spent };
}
