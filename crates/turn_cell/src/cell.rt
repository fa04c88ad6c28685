// The cell, and its passes.
ghost use Rattle.std.specs.Prelude.{◌≡◌, [], false, IfOk};

use crate::object::TurnObject;
use crate::place::Place;
use crate::steps::{Hear, OneHistory, Rejoining, Splitting};
use crate::view::View;
use atomic_table::{Refused, Seat, Table, TableRule};
use std::alloc::{AllocError, Global};
use std::marker::Model;
use std::snapshot::Snapshot;

/// The right to call an object, and what its holder knows of the history. It has no bytes, and may move into a thread and back.
pub type Pass<T> = Seat<
    Place<T, <T as TurnObject>::Event, <T as TurnObject>::Reply>,
    View<T, <T as TurnObject>::Event, <T as TurnObject>::Reply>,
>;

/// An object that threads share. One of them at a time has the turn.
pub type TurnCell<T> = Turnstile<
    Place<T, <T as TurnObject>::Event, <T as TurnObject>::Reply>,
    View<T, <T as TurnObject>::Event, <T as TurnObject>::Reply>,
    Snapshot<T>,
    OneHistory<T>,
>;

/// The table of a cell: one word, which is twice the number of events and 1 more while the turn is held, and one slot for the object. Clauses see which table it is.
///
/// It stands apart from the alias `TurnCell`, since a struct over associated types gets no proof that threads may share it.
#[derive(Drop)]
pub struct Turnstile<S, V, K, Q: TableRule<S, V, K>> {
    pub(crate) table: Table<S, V, K, Q, Global>,
}

impl<S, V, K, Q: TableRule<S, V, K>> Model for Turnstile<S, V, K, Q> {
    ghost use Rattle.std.specs.Prelude.{◌≡◌};
    ghost use Rattle.atomic_table.specs.Seated.{TableId, table_id_coded};

    ghost Value = { TableId };

    ghost coded = { table_id_coded };

    ghost view = { λ c. c.table.shared.table_id };

    ghost invariant = { λ c. (c.table.shared.table_id.words ≡ 1) × (c.table.shared.table_id.slots ≡ 1) };
}

impl<T: TurnObject> TurnCell<T> {
    ghost use Rattle.turn_cell.specs.Hands.{first_hand, IsWhole};
    ghost use Rattle.turn_cell.specs.Passes.{view, IsPassOf, IsSameSeat, pass_view, splitter_view, split_off_view, Joins, Closes};

    /// A cell with this object, and the first pass, which has seen nothing and made no calls. `Err` where there is no memory.
    pub fn new(alloc: Global, object: T) -> Result<(TurnCell<T>, Pass<T>), AllocError>
        ensures own { IfOk result (λ c. IsPassOf c.0 c.1) }
        ensures first { IfOk result (λ c. pass_view c.1 ≡ view object [] false first_hand) }
    {
        let first = Snapshot::of(&object);
        let mut slots = Vec::new(alloc);
        let boxed = Box::new(alloc, object)?;
        slots.push(Place::Home(boxed))?;
        match Table::new(alloc, &[0], slots, &first) {
            Ok((table, pass)) => Ok((Turnstile { table }, pass)),
            Err(Refused { slots: _ }) => Err(AllocError),
        }
    }

    /// A second pass, which has seen as much. Its number is that of `pass`, followed by how many passes that had split off before, and it has no calls.
    pub fn split(&self, mut pass: Pass<T>) -> (Pass<T>, Pass<T>)
        requires { IsPassOf self.now pass }
        ensures own { IsPassOf self.now result.0 × IsPassOf self.now result.1 }
        ensures same { IsSameSeat pass result.0 }
        ensures splitter { pass_view result.0 ≡ splitter_view (pass_view pass) }
        ensures split_off { pass_view result.1 ≡ split_off_view (pass_view pass) }
    {
        let other = self.table.shared.split_seat::<Splitting>(&mut pass);
        (pass, other)
    }

    /// One pass of two. It has the number and the calls of `one`, has seen what both had seen, and keeps the number of `other` with its calls.
    pub fn join(&self, mut one: Pass<T>, other: Pass<T>) -> Pass<T>
        requires { IsPassOf self.now one × IsPassOf self.now other }
        ensures own { IsPassOf self.now result }
        ensures same { IsSameSeat one result }
        ensures joins { Joins T.state T.after T.reply (pass_view one) (pass_view other) (pass_view result) }
    {
        self.table.shared.join_seat::<Rejoining<T>>(&mut one, other);
        self.table.shared.load::<Hear<T>>(&mut one, 0);
        one
    }

    /// The object, after the whole history. `pass` is the first pass, and each pass that was split off was joined back.
    pub fn close(self, pass: Pass<T>) -> T
        requires { IsPassOf self pass × IsWhole (pass_view pass).hand }
        ensures { Closes T.state T.after T.reply (pass_view pass) result }
    {
        let Turnstile { table } = self;
        let mut closed = table.close_with(pass);
        let place = closed.take(0);
        closed.free();
        Box::into_inner(place.into_object())
    }
}
