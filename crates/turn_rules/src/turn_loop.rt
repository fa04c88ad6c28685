ghost use Rattle.std.specs.Prelude.{◌≡◌, ◌+◌, ◌<◌, ◌≤◌, ℕ, Bool, true, false, List, [], length, filter, Some, None};
ghost use Rattle.base_types.specs.declared.calls.Origin.TheVariants.{Line, Child};
ghost use Rattle.core_model.specs.declared.events.CoreEvent.{CoreEvent};
ghost use Rattle.core_model.specs.declared.events.CoreEvent.TheVariants.{Begin, Want};
ghost use Rattle.core_model.specs.CoreState.{UnitNo, GrainId, Call, Member, Mode};
ghost use Rattle.core_model.specs.Events.{applies};
ghost use Rattle.core_model.specs.LegalRuns.{Run, ends};
ghost use Rattle.promise_spec.specs.UnitAnswers.{got_in};
ghost use Rattle.promise_spec.specs.UnitRule.{Basis};
ghost use Rattle.core_model.specs.Settler.{IsLoadOf, MakesEvent, settler_step};
ghost use Rattle.promise_spec.specs.TurnRule.{OfLine, OfUnit, OfSettler, lock_asked, mover_of};
ghost use Rattle.promise_spec.specs.Windows.{window_lines};
ghost use Rattle.turn_rules.specs.NextEvent.{is_begin, MayCome, NobodyGoes};
ghost use Rattle.turn_rules.specs.CarriedUnits.{is_kept, movers_of};
ghost use Rattle.turn_rules.specs.QuietRun.{HasRun};
ghost use Rattle.turn_rules.specs.TurnLoop.{TurnLoop, IsPicked, IsThrough, IsTurning, has_room, no_pass, passed_on, turned, waits_in, with_new};

/// What a loop of turns keeps, over a run of turns alone or not: it holds of a run without events within the first window. Units that
/// are no more to be looked at may be dropped. Where the pass has come to its end, no mover and no line is left and there is no doubt,
/// all is settled, each line has its entry, and nobody wants a grain.
pub fn turns_begin_and_end()
    ensures none { (s : Basis) (windowed ruled : Bool) (width : ℕ) (picks : List ℕ) (r : Run) → r.events ≡ [] → 0 < r.base
        → (windowed ≡ true → length s.lines ≤ window_lines)
        → IsTurning (record { basis = s; windowed = windowed; ruled = ruled; width = width; picks = picks; run = r; units = []; used = 0; pass = no_pass }) }
    ensures dropped { (l : TurnLoop) → IsTurning l → (stays : UnitNo → Bool) → ((u : UnitNo) → is_kept (ends l.run) u ≡ true → stays u ≡ true)
        → IsTurning (record l { units = filter stays l.units }) }
    ensures ended { (l : TurnLoop) → IsTurning l → (ends l.run).manager.doubt ≡ None → movers_of l.basis.types l.run l.units ≡ [] → IsThrough l
        → 0 < l.width → has_room l ≡ false → HasRun (length l.basis.lines) (ends l.run) × NobodyGoes l.basis.types l.run }
{}

/// A loop of turns goes on by an event that doesn't apply, and, where a line can begin, by a bad line or by one that begins. The unit
/// that begins is carried last, and no pass has begun then.
pub fn turns_go_on_by_lines()
    ensures unapplied { (l : TurnLoop) → IsTurning l → (e : CoreEvent) → applies (ends l.run) e ≡ false → IsTurning (passed_on l e l.pass) }
    ensures bad { (l : TurnLoop) → IsTurning l → (e : CoreEvent) → l.pass.due ≡ None → is_begin e ≡ false → mover_of e ≡ OfLine → has_room l ≡ true
        → MayCome l.basis l.run e → applies (ends l.run) e ≡ true → IsTurning (turned l e l.units l.used) }
    ensures line { (l : TurnLoop) → IsTurning l → (n : ℕ) (call : Call) (plain : Bool) → l.pass.due ≡ None → has_room l ≡ true
        → MayCome l.basis l.run (Begin (Line n) call plain) → applies (ends l.run) (Begin (Line n) call plain) ≡ true
        → IsTurning (turned l (Begin (Line n) call plain) (with_new l) l.used) }
{}

/// Where no line can begin, the pass of a turn goes over the carried units in number order: past those that wait for no grain; by the
/// wish of one that waits for its grain; and by the load of that grain, which comes right behind it. Each leaves who asked and where
/// the pass stands. What was loaded stays to the pass's end, and whoever wished for it last can move then.
pub fn turns_go_on_by_wishes()
    ensures looks { (l : TurnLoop) → IsTurning l → (n : ℕ) → l.pass.due ≡ None → l.pass.before ≤ n
        → ((u : UnitNo) → Member u l.units → l.pass.before ≤ u.0 → u.0 < n → waits_in l.basis.types l.run u ≡ false)
        → IsTurning (record l { pass = record l.pass { before = n } }) }
    ensures wishes { (l : TurnLoop) → IsTurning l → (u : UnitNo) (g : GrainId) (mode : Mode) → has_room l ≡ false → (ends l.run).manager.doubt ≡ None
        → l.pass.due ≡ None → l.pass.before ≤ u.0
        → ((v : UnitNo) → Member v l.units → l.pass.before ≤ v.0 → v.0 < u.0 → waits_in l.basis.types l.run v ≡ false)
        → lock_asked l.basis.types (ends l.run) (got_in l.run) u ≡ Some (g, mode) → waits_in l.basis.types l.run u ≡ true
        → MayCome l.basis l.run (Want u g) → applies (ends l.run) (Want u g) ≡ true
        → IsTurning (passed_on l (Want u g) (record { before = u.0 + 1; last = u.0 + 1; due = Some g })) }
    ensures loads { (l : TurnLoop) → IsTurning l → (g : GrainId) (e : CoreEvent) → l.pass.due ≡ Some g → (ends l.run).manager.doubt ≡ None
        → IsLoadOf g e → MayCome l.basis l.run e → applies (ends l.run) e ≡ true → IsTurning (passed_on l e (record l.pass { due = None })) }
{}

/// Where no line can begin a loop of turns goes on by an event of the mover at the pick: of the unit's own, of a child that the unit
/// begins, which is carried last, or of the settler's step.
pub fn turns_go_on_by_movers()
    ensures unit { (l : TurnLoop) → IsTurning l → (u : UnitNo) (e : CoreEvent) → IsPicked l (OfUnit u) → mover_of e ≡ OfUnit u → is_begin e ≡ false
        → MayCome l.basis l.run e → applies (ends l.run) e ≡ true → IsTurning (turned l e l.units (l.used + 1)) }
    ensures child { (l : TurnLoop) → IsTurning l → (u : UnitNo) (index depth : ℕ) (call : Call) → IsPicked l (OfUnit u)
        → MayCome l.basis l.run (Begin (Child u index depth) call false)
        → applies (ends l.run) (Begin (Child u index depth) call false) ≡ true
        → IsTurning (turned l (Begin (Child u index depth) call false) (with_new l) (l.used + 1)) }
    ensures settler { (l : TurnLoop) → IsTurning l → (e : CoreEvent) → IsPicked l OfSettler → MakesEvent (settler_step (ends l.run)) e
        → applies (ends l.run) e ≡ true → IsTurning (turned l e l.units (l.used + 1)) }
{}
