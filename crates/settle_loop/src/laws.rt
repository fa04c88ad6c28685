ghost use Rattle.std.specs.Prelude.{◌≡◌, ◌||◌, [], ◌∷◌, not, ℕ, List, Bool, IsTrue};
ghost use Rattle.core_model.specs.declared.events.CoreEvent.{CoreEvent as AnEvent};
ghost use Rattle.core_model.specs.declared.events.CoreReply.{CoreReply as AReply};
ghost use Rattle.core_model.specs.Events.{is_after_halt};
ghost use Rattle.core_model.specs.Laws.{extended};
ghost use Rattle.core_model.specs.Settler.{settler_step, MakesEvent};
ghost use Rattle.core_access.specs.OneHolder.{none_comes};
ghost use Rattle.core_access.specs.Sights.{Sight, run_seen, Tells};
ghost use Rattle.settle_loop.specs.ShownWork.{has_applied};
ghost use Rattle.promise_spec.specs.Programs.{Program, shape_in};
ghost use Rattle.promise_spec.specs.Records.{Commit};
ghost use Rattle.promise_spec.specs.Entries.{Log};
ghost use Rattle.batch_disk.specs.Writers.{KeepsDisk};
ghost use Rattle.settle_loop.specs.HostSteps.{batch_made};
ghost use Rattle.settle_loop.specs.SettlerStep.{state_shown, ActsNext};
ghost use Rattle.settle_loop.specs.StepJournal.{IsFair, JournalsAs};
ghost use Rattle.settle_loop.specs.declared.settler.Settler.{Settler as ASettler};

use host_trait::Host;

/// What a step that makes an event leaves of all images, as a run's journal takes it, where the core's batch is as its units made
/// it. A sealed batch makes the journal longer by its records, and a batch in doubt does or may; an entry makes the output
/// longer by its line; each other event leaves logs and output as they are, at each moment. The writer keeps the disk again,
/// unless the batch is in doubt.
pub fn steps_are_journaled<H: Host>()
    ensures { (may : AnEvent → Bool) (p : Program) (head : List ℕ) (log : Log) (bodies : List (List ℕ)) (before after : ASettler) (s : Sight)
        (e : AnEvent) (old new : H)
        → IsTrue H.tells → (a : ActsNext H.tells H.world H.faults may (shape_in p) before after s e old new)
        → IsFair (shape_in p) before.writer (state_shown a.seen) → KeepsDisk before.writer.slot (shape_in p) head log bodies before.writer (H.world old).disk
        → JournalsAs before.writer.slot p head log bodies before.writer after.writer (H.world old) (H.world new) e before.quiet (state_shown a.seen)
        (batch_made H.tells H.world H.faults before.writer.slot e before.quiet (shape_in p) (state_shown a.seen) before.writer after.writer old new a.does) }
{}

/// Where one has a core alone, the event that a step puts is one more of its run; and it applies, unless a stop stands after which
/// it can't.
pub fn a_step_alone_applies()
    ensures run { (s t : Sight) (e : AnEvent) (r : AReply) → Tells none_comes s e r t → run_seen t ≡ extended (run_seen s) (e ∷ []) }
    ensures applies { (s t : Sight) (e : AnEvent) (r : AReply) → Tells none_comes s e r t → MakesEvent (settler_step (state_shown s)) e
        → has_applied r ≡ (not (state_shown s).units.halt || is_after_halt e) }
{}
