ghost use Rattle.std.specs.Prelude.{◌≡◌, ◌<◌, ◌≤◌, ◌^◌, ℕ, List, length, slice_get, Some};
ghost use Rattle.core_model.specs.CoreState.{GrainId, Member, Value, Version, Write};
ghost use Rattle.core_model.specs.declared.effects.Effect.{Effect};
ghost use Rattle.core_model.specs.LegalRuns.{Run, ends};
ghost use Rattle.core_model.specs.Settler.{to_commit, versions_to_write};
ghost use Rattle.promise_laws.specs.Legality.{is_play};
ghost use Rattle.grain_log.specs.Reads.{fields_of};
ghost use Rattle.prepare_batch.specs.CoreWork.{PlaysWriteOnce};
ghost use Rattle.promise_spec.specs.UnitRule.{Basis, KeepsUnitRule};
ghost use Rattle.script_check.specs.AcceptedPrograms.{IsAcceptedProgram};
ghost use Rattle.script_tree.specs.Programs.{ProgramTree};
ghost use Rattle.settler_rules.specs.LoggedUnits.{FitsFormat, FitsProgram, shape_with};
ghost use Rattle.settler_rules.specs.Votes.{IsOfVote};

/// A play writes each grain once, so a batch's work, as it is planned, is the core's.
pub fn plays_write_once()
    ensures { (types : ProgramTree) → PlaysWriteOnce (is_play types) }
{}

/// Each version that is shown for a grain's vote is of a type of the program, and has a value for each of its fields.
pub fn shown_versions_fit()
    ensures { (s : Basis) (r : Run) → 0 < r.base → KeepsUnitRule s r → r.kinds ≡ length s.types → (g : GrainId) (x : Version)
        → Member x (versions_to_write (ends r) (ends r).manager.batch g)
        → fields_of (slice_get (shape_with s.types).types g.kind) ≡ Some (length x.state) }
{}

/// What is shown of a unit to commit is within the program and the formats, and what a file has by a vote is what it wrote.
pub fn units_to_commit_can_be_logged()
    ensures program { (s : Basis) (r : Run) → 0 < r.base → KeepsUnitRule s r → r.kinds ≡ length s.types → IsAcceptedProgram s.types
        → (ends r).units.next ≤ 2 ^ 63
        → (e : Effect) → Member e (to_commit (ends r) (ends r).manager.batch) → FitsProgram s.types e }
    ensures format { (s : Basis) (r : Run) → 0 < r.base → KeepsUnitRule s r → IsAcceptedProgram s.types
        → (e : Effect) → Member e (to_commit (ends r) (ends r).manager.batch) → FitsFormat e }
    ensures as_written { (s : Basis) (r : Run) → 0 < r.base → KeepsUnitRule s r
        → (e : Effect) → Member e (to_commit (ends r) (ends r).manager.batch) → (number : ℕ) (g : GrainId) (state : List Value)
        → IsOfVote (ends r) number e.unit g state → (x : Write) → Member x e.writes → g ≡ x.0 → state ≡ x.1 }
{}
