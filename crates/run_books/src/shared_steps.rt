ghost use Rattle.std.specs.Prelude.{◌≡◌, false, Bool, Result as AResult};
ghost use Rattle.base_types.specs.declared.shapes.Shape.{Shape as AShape};
ghost use Rattle.base_types.specs.Lists.{Member};
ghost use Rattle.core_model.specs.LegalRuns.{ends};
ghost use Rattle.core_model.specs.declared.events.CoreEvent.{CoreEvent as AnEvent};
ghost use Rattle.core_model.specs.declared.events.CoreEvent.TheVariants.{Halt};
ghost use Rattle.core_model.specs.declared.events.CoreReply.{CoreReply as AReply};
ghost use Rattle.core_access.specs.Histories.{Told};
ghost use Rattle.core_access.specs.Sights.{Sight, run_seen, Looks, Tells, Counts, IsAlone};
ghost use Rattle.worker_rules.specs.Work.{is_work};
ghost use Rattle.settle_loop.specs.SettlerStep.{TurnsAs};
ghost use Rattle.settle_loop.specs.declared.settler.Settler.{Settler as ASettler};
ghost use Rattle.settle_loop.specs.declared.settler.Turned.{Turned as ATurned};
ghost use Rattle.run_books.specs.Beginnings.{Outset};
ghost use Rattle.run_books.specs.SharedSteps.{MayRely, SeesOn, OthersKeepBooks, SharedStepsKeep};

use host_trait::Host;

/// A step of the settler keeps the books of a core that others have too, whatever it answers: where it will be known that others
/// put lines' and units' events alone, and where no stop stands. What others put before the step's look, between the look and the
/// step's event, and behind it, is in the books too.
pub fn shared_steps_keep_the_books<H: Host, E>()
    ensures { SharedStepsKeep H E H.tells H.world H.faults }
{}

/// Events that aren't the settler's keep the books, a stop among them.
pub fn others_keep_the_books()
    ensures { OthersKeepBooks }
{}

/// What may be relied on of what was seen may be relied on of what was seen before, through the same access.
pub fn relied_on_before()
    ensures before { (o : Outset) (s t : Sight) → SeesOn s t → Counts s → MayRely o t → MayRely o s }
    ensures going { (s t : Sight) → SeesOn s t → (ends (run_seen t)).units.halt ≡ false → (ends (run_seen s)).units.halt ≡ false }
    ensures counts { (s t : Sight) → SeesOn s t → Counts s → Counts t }
{}

/// Each call of an access sees on, and so does each step of a settler.
pub fn calls_see_on<H: Host, E>()
    ensures looks { (may : AnEvent → Bool) (s t : Sight) → Looks may s t → SeesOn s t }
    ensures tells { (may : AnEvent → Bool) (s t : Sight) (e : AnEvent) (r : AReply) → Tells may s e r t → SeesOn s t }
    ensures both { (s t u : Sight) → SeesOn s t → SeesOn t u → SeesOn s u }
    ensures steps { (may : AnEvent → Bool) (shape : AShape) (s t : Sight) (before after : ASettler) (old new : H) (result : AResult ATurned E)
        → TurnsAs H.tells H.world H.faults may shape before after s t old new result → SeesOn s t }
{}

/// Where others put lines' and units' events alone, and none of one's own is a stop, the run isn't stopped.
pub fn none_stops()
    ensures { (s : Sight) → (ends s.first).units.halt ≡ false → IsAlone is_work s → ((x : Told) → Member x s.mine → x.event ≡ Halt → ⊥)
        → (ends (run_seen s)).units.halt ≡ false }
{}
