ghost use Rattle.std.specs.Prelude.{◌≡◌, List, [], ◌∷◌, ◌++◌};
ghost use Rattle.std.specs.Borrow.{ftrue};
ghost use Rattle.core_model.specs.declared.events.CoreEvent.{CoreEvent};

use core_model::CoreEvent;
use std::marker::Model;

/// The events so far, oldest first, for contracts alone.
#[derive(Drop)]
pub struct History {
    pub ghost events: { List CoreEvent },
}

impl Model for History {
    ghost also_owns = { λ _. ftrue };
}

// A struct with `also_owns` may cross threads only where it is said. This one owns nothing.
unsafe impl Send for History {}

unsafe impl Sync for History {}

impl History {
    /// No event. Takes no memory.
    pub fn new() -> History
        ensures { result.events ≡ [] }
    {
        History {}
    }

    /// Adds the event, as the newest. Takes no memory, and reads nothing of the event when it runs.
    pub fn note(&mut self, event: &CoreEvent)
        ensures { self.new.events ≡ self.old.events ++ event.now ∷ [] }
    {
        *self = History::with(self, event);
    }

    /// The history with one event more. Takes no memory, and reads nothing of the event when it runs.
    pub fn with(_before: &History, _event: &CoreEvent) -> History
        ensures { result.events ≡ _before.now.events ++ _event.now ∷ [] }
    {
        History {}
    }
}
