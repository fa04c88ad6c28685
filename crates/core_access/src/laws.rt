ghost use Rattle.std.specs.Prelude.{◌≡◌, Bool, false, List, [], ◌∷◌};
ghost use Rattle.core_model.specs.declared.events.CoreEvent.{CoreEvent};
ghost use Rattle.core_model.specs.declared.events.CoreReply.{CoreReply};
ghost use Rattle.core_model.specs.LegalRuns.{Run, ends};
ghost use Rattle.core_model.specs.Laws.{extended};
ghost use Rattle.core_model.specs.Replies.{OnlyExtends};
ghost use Rattle.turn_cell.specs.declared.view.View.{View};
ghost use Rattle.turn_cell.specs.Passes.{Adds, Sees, state_seen};
ghost use Rattle.core_access.specs.Histories.{reply_in};
ghost use Rattle.core_access.specs.Sights.{Sight, run_seen, IsHistory, saw, told, AllPass, Looks, Tells, Counts, IsAlone};
ghost use Rattle.core_access.specs.SettlerEvents.{is_settling, LeavesBatches};
ghost use Rattle.core_access.specs.OneHolder.{own_sight, none_comes};
ghost use Rattle.core_access.specs.PassSights.{sight_of, all_come};

/// No call is a look, two looks are one, and a look before an event is part of it.
pub fn calls_follow_one_another()
    ensures none { (may : CoreEvent → Bool) (s : Sight) → Looks may s s }
    ensures looks { (may : CoreEvent → Bool) (s t u : Sight) → Looks may s t → Looks may t u → Looks may s u }
    ensures tells { (may : CoreEvent → Bool) (s t u : Sight) (e : CoreEvent) (r : CoreReply) → Looks may s t → Tells may t e r u → Tells may s e r u }
{}

/// Where nothing may come from others, a look changes nothing, and an event leaves exactly the run with it, with the reply of
/// the run before.
pub fn nothing_comes_to_one_alone()
    ensures looks { (s t : Sight) → Looks none_comes s t → t ≡ s }
    ensures tells { (s t : Sight) (e : CoreEvent) (r : CoreReply) → Tells none_comes s e r t → t ≡ told s e r }
    ensures reply { (s t : Sight) (e : CoreEvent) (r : CoreReply) → Tells none_comes s e r t → r ≡ reply_in (run_seen s) e }
    ensures run { (s t : Sight) (e : CoreEvent) (r : CoreReply) → Tells none_comes s e r t → run_seen t ≡ extended (run_seen s) (e ∷ []) }
{}

/// One's own entries are among those that were seen, whatever is seen and put.
pub fn own_entries_are_counted()
    ensures looks { (may : CoreEvent → Bool) (s t : Sight) → Looks may s t → Counts s → Counts t }
    ensures tells { (may : CoreEvent → Bool) (s t : Sight) (e : CoreEvent) (r : CoreReply) → Tells may s e r t → Counts s → Counts t }
{}

/// If nobody else interfered by the end of a call, nobody had before it, and what came in between was harmless. An event of
/// one's own leaves that so, and others' harmless ones do.
pub fn who_is_alone_was_alone()
    ensures looks { (may harmless : CoreEvent → Bool) (s t : Sight) (l : Looks may s t) → Counts s → IsAlone harmless t
        → IsAlone harmless s × AllPass harmless l.rest }
    ensures tells { (may harmless : CoreEvent → Bool) (s t : Sight) (e : CoreEvent) (r : CoreReply) (l : Tells may s e r t) → Counts s → IsAlone harmless t
        → IsAlone harmless s × AllPass harmless l.rest × IsAlone harmless (saw s l.rest) }
    ensures stays { (harmless : CoreEvent → Bool) (s : Sight) (e : CoreEvent) (r : CoreReply) → IsAlone harmless s → IsAlone harmless (told s e r) }
{}

/// What was seen only grows: the finish order, the closed batches and the settled entries stay as they are, and more may
/// follow.
pub fn what_was_seen_only_grows()
    ensures looks { (may : CoreEvent → Bool) (s t : Sight) → Looks may s t → OnlyExtends (ends (run_seen s)) (ends (run_seen t)) }
    ensures tells { (may : CoreEvent → Bool) (s t : Sight) (e : CoreEvent) (r : CoreReply) → Tells may s e r t
        → OnlyExtends (ends (run_seen s)) (ends (run_seen t)) }
{}

/// An event that isn't the settler's leaves the batches, the doubt and what is written.
pub fn others_leave_the_batches()
    ensures { (r : Run) (e : CoreEvent) → is_settling e ≡ false → LeavesBatches (ends r) (ends (extended r (e ∷ []))) }
{}

/// One who has a core alone sees all of its run, which is a true history; each event that is put makes it longer, and nobody
/// else interferes.
pub fn a_core_alone_is_seen_whole()
    ensures run { (r : Run) → run_seen (own_sight r) ≡ r }
    ensures legal { (r : Run) → IsHistory (own_sight r) }
    ensures tells { (r : Run) (e : CoreEvent) → Tells none_comes (own_sight r) e (reply_in r e) (own_sight (extended r (e ∷ []))) }
    ensures counts { (r : Run) → Counts (own_sight r) }
    ensures alone { (harmless : CoreEvent → Bool) (r : Run) → IsAlone harmless (own_sight r) }
{}

/// What a call of a turn cell leaves of a pass is what a call of an access leaves of what is known, where an object's meaning
/// is a run and its events are the core's.
pub fn a_pass_sees_as_an_access<T>()
    ensures run { (state : T → Run) (v : View T CoreEvent CoreReply) → run_seen (sight_of state v) ≡ state_seen state (λ r e. extended r (e ∷ [])) reply_in v }
    ensures looks { (state : T → Run) (v w : View T CoreEvent CoreReply) → Sees state (λ r e. extended r (e ∷ [])) reply_in v w
        → Looks all_come (sight_of state v) (sight_of state w) × IsHistory (sight_of state w) }
    ensures tells { (state : T → Run) (v w : View T CoreEvent CoreReply) (e : CoreEvent) (r : CoreReply)
        → Adds state (λ r e. extended r (e ∷ [])) reply_in v e r w
        → Tells all_come (sight_of state v) e r (sight_of state w) × IsHistory (sight_of state w) }
{}
