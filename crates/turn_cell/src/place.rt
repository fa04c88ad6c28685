// What lies in the cell's one slot.
ghost use Rattle.std.specs.Prelude.{◌≡◌, Some};
ghost use Rattle.turn_cell.specs.Places.{object_in};

use std::snapshot::Snapshot;

/// Where the object is.
///
/// It stands in a box: a turn moves a pointer out of the place and back, and no event or question costs a copy of the object.
#[derive(Drop)]
pub enum Place<T, E, R> {
    /// With the thread that has the turn.
    Out,
    /// At home, as the last turn found it.
    Home(Box<T>),
    /// At home, after this event with this reply.
    Done(Box<T>, Snapshot<E>, Snapshot<R>),
}

impl<T, E, R> Place<T, E, R> {
    // Gives the object that is at home.
    pub(crate) fn into_object(self) -> Box<T>
        requires { (object : T) × (object_in self ≡ Some object) }
        ensures { object_in self ≡ Some result.value }
    {
        match self {
            Place::Home(object) => object,
            Place::Done(object, _, _) => object,
            Place::Out => unreachable!(),
        }
    }

    // Lets a place go at which nothing is.
    pub(crate) fn end(self)
        requires { self ≡ Place.Out }
    {
        let Place::Out = self else { unreachable!() };
    }
}
