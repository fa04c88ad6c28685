// The rule of a cell's table, and the names of the steps on it.
ghost use Rattle.std.specs.Prelude.{[], false};
ghost use Rattle.turn_cell.specs.Hands.{first_hand, spent_hand};
ghost use Rattle.turn_cell.specs.Passes.{view, told_of, splitter_view, split_off_view};
ghost use Rattle.turn_cell.specs.Rule.{IsOneHistory, loads, tries, releases, publishes, hears};

use crate::object::TurnObject;
use crate::place::Place;
use crate::view::View;
use atomic_table::{Join, Play, Split, TableRule};
use std::marker::PhantomData;
use std::snapshot::Snapshot;

/// The rule of a cell: its calls stand in one legal history.
pub struct OneHistory<T> {
    object: PhantomData<T>,
}

impl<T: TurnObject> TableRule<
    Place<T, T::Event, T::Reply>,
    View<T, T::Event, T::Reply>,
    Snapshot<T>,
> for OneHistory<T> {
    ghost holds = { λ _. IsOneHistory T.state T.after T.reply };

    ghost first = { λ key. view key.value [] false first_hand };
}

// A load, which changes nothing.
pub(crate) struct Load<T> {
    object: PhantomData<T>,
}

impl<T: TurnObject> Play<Place<T, T::Event, T::Reply>, View<T, T::Event, T::Reply>> for Load<T> {
    ghost then = { loads };
}

// A compare_exchange, which takes the turn or changes nothing.
pub(crate) struct Take<T> {
    object: PhantomData<T>,
}

impl<T: TurnObject> Play<Place<T, T::Event, T::Reply>, View<T, T::Event, T::Reply>> for Take<T> {
    ghost then = { tries T.state T.after T.reply };
}

// A store that gives the turn back as it was taken.
pub(crate) struct Release<T> {
    object: PhantomData<T>,
}

impl<T: TurnObject> Play<Place<T, T::Event, T::Reply>, View<T, T::Event, T::Reply>> for Release<T> {
    ghost then = { releases };
}

// A store that gives the turn back with one entry more.
pub(crate) struct Publish<T> {
    object: PhantomData<T>,
}

impl<T: TurnObject> Play<Place<T, T::Event, T::Reply>, View<T, T::Event, T::Reply>> for Publish<T> {
    ghost then = { publishes };
}

// A load after a join, which shows which of two histories is the longer.
pub(crate) struct Hear<T> {
    object: PhantomData<T>,
}

impl<T: TurnObject> Play<Place<T, T::Event, T::Reply>, View<T, T::Event, T::Reply>> for Hear<T> {
    ghost then = { hears T.state T.after T.reply };
}

/// How a pass is split.
pub struct Splitting;

impl<T, E, R> Split<View<T, E, R>> for Splitting {
    ghost left = { splitter_view };

    ghost right = { split_off_view };
}

/// How a pass is joined into another.
pub struct Rejoining<T> {
    object: PhantomData<T>,
}

impl<T: TurnObject> Join<View<T, T::Event, T::Reply>> for Rejoining<T> {
    ghost both = { told_of };

    ghost spent = { view T.some_object [] false spent_hand };
}
