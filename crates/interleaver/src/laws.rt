ghost use Rattle.std.specs.Prelude.{◌≡◌, ◌<◌, ◌≤◌, ℕ, Bool, true, List, [], length};
ghost use Rattle.request_wire.specs.declared.requests.Line.{Line as ALine};
ghost use Rattle.core_model.specs.LegalRuns.{Run, ends};
ghost use Rattle.script_tree.specs.Programs.{ProgramTree};
ghost use Rattle.promise_spec.specs.TurnRule.{at_seam, picks_used};
ghost use Rattle.promise_spec.specs.UnitRule.{KeepsUnitRule};
ghost use Rattle.promise_spec.specs.Windows.{window_lines};
ghost use Rattle.turn_rules.specs.NextEvent.{NobodyGoes};
ghost use Rattle.settle_loop.specs.declared.settler.Settler.{Settler as ASettler};
ghost use Rattle.run_lines.specs.LineReadings.{lines_from_texts};
ghost use Rattle.run_books.specs.Beginnings.{Outset, CanTurn, GoUpFrom, basis_of, with_more};
ghost use Rattle.run_books.specs.Books.{Books};
ghost use Rattle.run_books.specs.Records.{KeepsRecord, HasCarriedAll};
ghost use Rattle.interleaver.specs.Turns.{IsFreshRecord, KeepsTurns, LinesMayBegin, StandsBehind};
ghost use Rattle.run_books.specs.Stages.{Stage};

/// Where lines can begin to be carried, nobody can move or wants a grain, and none is due.
pub fn nobody_moves_where_lines_begin()
    ensures { (types : ProgramTree) (o : Outset) (r : Run) (settler : ASettler) (lines : List ALine) → 0 < r.base
        → KeepsUnitRule (basis_of o) r → CanTurn r settler lines → NobodyGoes types r }
{}

/// Where all is carried, in turns or by workers, lines that are numbered behind those so far can be carried from there; and their
/// record may begin there, with the picks that were used by then.
pub fn who_has_carried_all_can_go_on()
    ensures can { (tells : Bool) (o : Outset) (b : Books) (s : Stage) → KeepsRecord tells o b s → HasCarriedAll o s
        → (lines : List ALine) → GoUpFrom (ends s.run).units.lines lines → CanTurn s.run s.settler lines }
    ensures fresh { (tells : Bool) (o : Outset) (b : Books) (s : Stage) → KeepsRecord tells o b s → HasCarriedAll o s → b.rest ≡ []
        → (next : Outset) (used : ℕ) → (next.ruled ≡ true → picks_used s.run (length s.run.events) ≡ used) → IsFreshRecord next b used s.run }
{}

/// Window after window: where all lines so far were carried the run stands behind them, and there the lines of the next window may begin,
/// over an outset with these behind those so far. The record of the windows so far is that of these and the next.
pub fn windows_follow()
    ensures ends { (tells : Bool) (o : Outset) (b : Books) (used : ℕ) (s : Stage) → KeepsTurns tells o b s → HasCarriedAll o s → b.rest ≡ []
        → (o.ruled ≡ true → picks_used s.run (length s.run.events) ≡ used) → StandsBehind tells o b used s }
    ensures begins { (tells : Bool) (o : Outset) (b : Books) (used : ℕ) (s : Stage) (types : ProgramTree) (more : List (List ℕ)) → StandsBehind tells o b used s
        → at_seam o.windowed (length o.asked) ≡ true → length more ≤ window_lines → o.program.types ≡ types → s.run.kinds ≡ length types → 0 < o.width
        → LinesMayBegin tells (with_more o more) b types (lines_from_texts types (length o.asked) more) o.width o.picks used s }
    ensures record_kept { (tells : Bool) (o : Outset) (b : Books) (s : Stage) (more : List (List ℕ)) → KeepsTurns tells o b s
        → at_seam o.windowed (length o.asked) ≡ true → KeepsTurns tells (with_more o more) b s }
{}
