ghost use Rattle.std.specs.Prelude.{◌≡◌, ◌≢◌, ◌<◌, ℕ, List, [], ◌∷◌, Bool, true, false};
ghost use Rattle.core_model.specs.CoreState.{UnitNo, GrainId, Member, Value, Version};
ghost use Rattle.core_model.specs.declared.events.CoreEvent.{CoreEvent};
ghost use Rattle.core_model.specs.declared.events.CoreEvent.TheVariants.{Vote};
ghost use Rattle.core_model.specs.Events.{applies};
ghost use Rattle.core_model.specs.Laws.{extended};
ghost use Rattle.core_model.specs.LegalRuns.{Run, ends};
ghost use Rattle.core_model.specs.Settler.{Votes, settler_step, to_commit, versions_to_write};
ghost use Rattle.core_access.specs.SettlerEvents.{is_settling};
ghost use Rattle.settler_rules.specs.Votes.{IsUnvoted, VoteStands, HasLeft, IsOfVote};

/// Where the settler's next step is a vote, it is on a grain of the open batch's plan that has no vote: none that was voted on
/// in the batch of that number.
pub fn next_vote_is_new()
    ensures unvoted { (r : Run) (number : ℕ) (g : GrainId) → settler_step (ends r) ≡ Votes number g → IsUnvoted (ends r) number g }
    ensures other { (r : Run) (number : ℕ) (g k : GrainId) (kept : Bool) → settler_step (ends r) ≡ Votes number g
        → VoteStands (ends r) number k kept → k ≢ g }
{}

/// A vote that applies stands as long as its batch is open, whatever comes. What is shown for a vote is what finished units wrote
/// there, and stays what they wrote. So a version that a file has by a vote stays one.
pub fn voted_versions_stay()
    ensures made { (r : Run) (number : ℕ) (g : GrainId) (kept : Bool) → applies (ends r) (Vote number g kept) ≡ true
        → VoteStands (ends (extended r (Vote number g kept ∷ []))) number g kept }
    ensures votes { (r : Run) (more : List CoreEvent) (number : ℕ) (g : GrainId) (kept : Bool)
        → VoteStands (ends r) number g kept → VoteStands (ends (extended r more)) number g kept }
    ensures shown { (r : Run) → 0 < r.base → (g : GrainId) (x : Version) → Member x (versions_to_write (ends r) (ends r).manager.batch g)
        → HasLeft (ends r) x.unit g x.state }
    ensures left { (r : Run) (more : List CoreEvent) → 0 < r.base → (u : UnitNo) (g : GrainId) (state : List Value)
        → HasLeft (ends r) u g state → HasLeft (ends (extended r more)) u g state }
    ensures stays { (r : Run) (more : List CoreEvent) → 0 < r.base → (number : ℕ) (u : UnitNo) (g : GrainId) (state : List Value)
        → IsOfVote (ends r) number u g state → IsOfVote (ends (extended r more)) number u g state }
{}

/// What is shown for a seal stays what it was while others put their events.
pub fn shown_effects_stay()
    ensures { (r : Run) → 0 < r.base → (e : CoreEvent) → is_settling e ≡ false
        → to_commit (ends (extended r (e ∷ []))) (ends (extended r (e ∷ []))).manager.batch ≡ to_commit (ends r) (ends r).manager.batch }
{}
