ghost use Rattle.std.specs.Prelude.{◌≡◌, ◌<◌, true, false, [], ◌∷◌, ◌++◌, is_some, MatchOption, IfSome, vec_len, vec_capacity, IfOk, OnOk};
ghost use Rattle.std.specs.Option.{option_copied};
ghost use Rattle.core_model.specs.declared.phases.Phase.TheVariants as phases;
ghost use Rattle.core_model.specs.Tests.{is_running, is_over, is_final, outcome_in};
ghost use Rattle.unit_table.specs.Parts.{deps_after};
ghost use Rattle.unit_table.specs.KnownUnits.{HasKidRoom, HasReadRoom, IsBlank, just_begun, known_running, known_entry, known_over, known_past, phase_at, outcome_over, outcome_past, entry_outcome};

use base_types::{Call, GrainId, List, Origin, Outcome, UnitNo};
use core_model::{Phase, Read, Verdict};
use dependency_sets::DepSet;
use std::alloc::{AllocError, Global};
use std::mem;
use std::snapshot::Snapshot;

/// What is kept of a unit while it runs.
#[derive(Drop)]
pub struct RunningUnit {
    pub origin: Origin,
    pub call: Call,
    /// Whether it is a plain run.
    pub plain: bool,
    /// Its children, in the order in which they began.
    pub kids: Vec<UnitNo>,
    /// What it read, in the order of first locks.
    pub reads: Vec<Read>,
    /// The sources of what it read that weren't known committed.
    pub deps: DepSet,
}

/// How a unit came to its end.
#[derive(Clone, Copy)]
pub enum Ending {
    Finished,
    Refused,
    Ended,
}

/// What is kept of a unit that is over. What it was is for contracts alone, and takes no bytes.
#[derive(Drop)]
pub struct OverUnit {
    pub ending: Ending,
    pub verdict: Verdict,
    pub result: Outcome,
    pub gone: Snapshot<RunningUnit>,
}

/// What is kept of a unit whose result is.
#[derive(Drop)]
pub enum UnitEntry {
    Running(Box<RunningUnit>),
    Over(OverUnit),
}

/// What is kept of a unit that is decided, and whose result has gone. What it was is for contracts alone, and takes no
/// bytes.
#[derive(Drop)]
pub struct PastUnit {
    pub ending: Ending,
    pub verdict: Verdict,
    pub gone: Snapshot<OverUnit>,
}

// So many bytes a unit takes that is over, beside what its result owns.
const _: () = prove!(mem::size_of::<UnitEntry>() == 56);

// And so many once its result has gone.
const _: () = prove!(mem::size_of::<PastUnit>() == 2);

impl Ending {
    /// The phase of a unit that ended so.
    pub fn phase(self) -> Phase
        ensures { result ≡ phase_at self }
    {
        match self {
            Ending::Finished => Phase::Finished,
            Ending::Refused => Phase::Refused,
            Ending::Ended => Phase::Ended,
        }
    }
}

impl RunningUnit {
    /// A unit without children, reads and dependencies, with a call to be written over. Takes no memory.
    pub fn blank(alloc: Global) -> Result<RunningUnit, AllocError>
        ensures { IfOk result (λ unit. IsBlank unit) }
    {
        let deps = DepSet::new(alloc)?;
        Ok(RunningUnit {
            origin: Origin::Line(0),
            call: Call {
                grain: GrainId { kind: 0, key: 0 },
                method: 0,
                args: List::new(alloc),
            },
            plain: false,
            kids: Vec::new(alloc),
            reads: Vec::new(alloc),
            deps,
        })
    }

    /// A blank unit begins, with that call. Takes no memory.
    pub fn begin(&mut self, origin: Origin, call: Call, plain: bool)
        requires { IsBlank self.old }
        ensures { known_running self.new ≡ just_begun origin call plain }
    {
        self.origin = origin;
        self.call = call;
        self.plain = plain;
    }

    /// Makes room for one more child.
    pub fn reserve_kid(&mut self) -> Result<(), AllocError>
        ensures same { known_running self.new ≡ known_running self.old }
        ensures room { OnOk result (vec_len self.new.kids < vec_capacity self.new.kids) }
    {
        self.kids.reserve(1)
    }

    /// Makes room for one more read, and for one more dependency.
    pub fn reserve_read(&mut self) -> Result<(), AllocError>
        ensures same { known_running self.new ≡ known_running self.old }
        ensures reads { OnOk result (vec_len self.new.reads < vec_capacity self.new.reads) }
        ensures deps { OnOk result (0 < self.new.deps.spare) }
    {
        self.reads.reserve(1)?;
        self.deps.reserve()?;
        Ok(())
    }

    /// Adds a child, in room that was made. Takes no memory.
    pub fn add_kid(&mut self, kid: UnitNo)
        requires { vec_len self.old.kids < vec_capacity self.old.kids }
        ensures { known_running self.new ≡ record (known_running self.old) { kids = (known_running self.old).kids ++ kid ∷ [] } }
    {
        let done = self.kids.push(kid);
        prove!(done.is_ok());
    }

    /// Adds what the unit read, and its source where the unit depends on it, in room that was made. Takes no
    /// memory.
    pub fn add_read(&mut self, read: Read, depends: bool)
        requires reads { vec_len self.old.reads < vec_capacity self.old.reads }
        requires deps { 0 < self.old.deps.spare }
        ensures { known_running self.new ≡ record (known_running self.old) {
          reads = (known_running self.old).reads ++ read ∷ [];
          deps = deps_after depends (known_running self.old).deps read.source;
        } }
    {
        self.add_source(read.source, depends);
        let done = self.reads.push(read);
        prove!(done.is_ok());
    }

    // Adds the source, where the unit depends on it.
    fn add_source(&mut self, source: UnitNo, depends: bool)
        requires { 0 < self.old.deps.spare }
        ensures known { known_running self.new ≡ record (known_running self.old) { deps = deps_after depends (known_running self.old).deps source } }
        ensures reads { self.new.reads ≡ self.old.reads }
    {
        if depends {
            self.deps.insert(source);
        }
    }
}

impl OverUnit {
    /// Whether its outcome is decided for good.
    pub fn is_decided(&self) -> bool
        ensures { result ≡ is_some (outcome_over self.now) }
    {
        match self.ending {
            Ending::Refused => true,
            Ending::Ended => true,
            Ending::Finished => is_final(self.verdict),
        }
    }

    /// What stays of it once its result has gone.
    pub fn past(&self) -> PastUnit
        ensures { known_past result ≡ known_over self.now }
    {
        PastUnit {
            ending: self.ending,
            verdict: self.verdict,
            gone: Snapshot::of(self),
        }
    }

    /// A copy of its outcome, `None` where it isn't decided for good.
    pub fn outcome(&self) -> Result<Option<Outcome>, AllocError>
        ensures { IfOk result (λ known. known ≡ outcome_over self.now) }
    {
        match self.ending {
            Ending::Refused => Ok(Some(Outcome::Aborted)),
            Ending::Ended => Ok(Some(self.result.copy()?)),
            Ending::Finished => self.outcome_finished(),
        }
    }

    // A copy of the outcome of a transaction that has finished.
    fn outcome_finished(&self) -> Result<Option<Outcome>, AllocError>
        ensures { IfOk result (λ known. known ≡ outcome_in phases.Finished self.now.verdict self.now.result) }
    {
        match self.verdict {
            Verdict::Committed => Ok(Some(self.result.copy()?)),
            Verdict::Aborted => Ok(Some(Outcome::Aborted)),
            Verdict::Open => Ok(None),
            Verdict::Chosen => Ok(None),
            Verdict::Condemned => Ok(None),
        }
    }
}

impl PastUnit {
    /// Whether its outcome is decided for good.
    pub fn is_decided(&self) -> bool
        ensures { result ≡ is_some (outcome_past self.now) }
    {
        match self.ending {
            Ending::Refused => true,
            Ending::Ended => true,
            Ending::Finished => is_final(self.verdict),
        }
    }

    /// Its outcome, where it is an abort; `None` where it isn't decided for good. A result has gone: it is wanting as where
    /// there is no memory.
    pub fn outcome(&self) -> Result<Option<Outcome>, AllocError>
        ensures { IfOk result (λ known. known ≡ outcome_past self.now) }
    {
        match self.ending {
            Ending::Refused => Ok(Some(Outcome::Aborted)),
            Ending::Ended => Err(AllocError),
            Ending::Finished => self.outcome_finished(),
        }
    }

    // The outcome of a transaction that has finished, where it is an abort.
    fn outcome_finished(&self) -> Result<Option<Outcome>, AllocError>
        ensures { IfOk result (λ known. known ≡ outcome_in phases.Finished self.now.verdict self.now.gone.value.result) }
    {
        match self.verdict {
            Verdict::Committed => Err(AllocError),
            Verdict::Aborted => Ok(Some(Outcome::Aborted)),
            Verdict::Open => Ok(None),
            Verdict::Chosen => Ok(None),
            Verdict::Condemned => Ok(None),
        }
    }
}

impl UnitEntry {
    /// What stays of it once its result has gone, where it is decided for good.
    pub fn past(&self) -> Option<PastUnit>
        ensures { IfSome result (λ past. known_past past ≡ known_entry self.now) }
    {
        match self {
            UnitEntry::Running(_) => None,
            UnitEntry::Over(unit) => {
                if !unit.is_decided() {
                    return None;
                }
                Some(unit.past())
            }
        }
    }

    /// What is kept of it while it runs.
    pub fn running(&self) -> Option<&RunningUnit>
        ensures { MatchOption (option_copied result) (is_running (known_entry self.now).phase ≡ false) (λ kept. known_entry self.now ≡ known_running kept) }
    {
        match self {
            UnitEntry::Running(unit) => Some(unit.as_ref()),
            UnitEntry::Over(_) => None,
        }
    }

    /// Where it is in its life.
    pub fn phase(&self) -> Phase
        ensures { result ≡ (known_entry self.now).phase }
    {
        match self {
            UnitEntry::Running(_) => Phase::Running,
            UnitEntry::Over(unit) => unit.ending.phase(),
        }
    }

    /// What is decided of it.
    pub fn verdict(&self) -> Verdict
        ensures { result ≡ (known_entry self.now).verdict }
    {
        match self {
            UnitEntry::Running(_) => Verdict::Open,
            UnitEntry::Over(unit) => unit.verdict,
        }
    }

    /// Its result, once it is over.
    pub fn result(&self) -> Option<&Outcome>
        ensures over { is_some (option_copied result) ≡ is_over (known_entry self.now).phase }
        ensures result { IfSome (option_copied result) (λ kept. kept ≡ (known_entry self.now).result) }
    {
        match self {
            UnitEntry::Running(_) => None,
            UnitEntry::Over(unit) => Some(&unit.result),
        }
    }

    /// Whether its outcome is decided for good.
    pub fn is_decided(&self) -> bool
        ensures { result ≡ is_some (entry_outcome self.now) }
    {
        match self {
            UnitEntry::Running(_) => false,
            UnitEntry::Over(unit) => unit.is_decided(),
        }
    }

    /// A copy of its outcome, `None` where it isn't decided for good.
    pub fn outcome(&self) -> Result<Option<Outcome>, AllocError>
        ensures { IfOk result (λ known. known ≡ entry_outcome self.now) }
    {
        match self {
            UnitEntry::Running(_) => Ok(None),
            UnitEntry::Over(unit) => unit.outcome(),
        }
    }

    /// Makes room for one more child of a running unit.
    pub fn reserve_kid(&mut self) -> Result<(), AllocError>
        requires { is_running (known_entry self.old).phase ≡ true }
        ensures same { known_entry self.new ≡ known_entry self.old }
        ensures room { OnOk result (HasKidRoom self.new) }
    {
        match self {
            UnitEntry::Running(unit) => unit.reserve_kid(),
            UnitEntry::Over(_) => unreachable!(),
        }
    }

    /// Makes room for one more read of a running unit, and for one more dependency.
    pub fn reserve_read(&mut self) -> Result<(), AllocError>
        requires { is_running (known_entry self.old).phase ≡ true }
        ensures same { known_entry self.new ≡ known_entry self.old }
        ensures room { OnOk result (HasReadRoom self.new) }
    {
        match self {
            UnitEntry::Running(unit) => unit.reserve_read(),
            UnitEntry::Over(_) => unreachable!(),
        }
    }

    /// A running unit has one child more, in room that was made. Takes no memory.
    pub fn add_kid(&mut self, kid: UnitNo)
        requires { HasKidRoom self.old }
        ensures { known_entry self.new ≡ record (known_entry self.old) { kids = (known_entry self.old).kids ++ kid ∷ [] } }
    {
        match self {
            UnitEntry::Running(unit) => unit.add_kid(kid),
            UnitEntry::Over(_) => unreachable!(),
        }
    }

    /// A running unit has read a grain, in room that was made. Takes no memory.
    pub fn add_read(&mut self, read: Read, depends: bool)
        requires { HasReadRoom self.old }
        ensures { known_entry self.new ≡ record (known_entry self.old) {
          reads = (known_entry self.old).reads ++ read ∷ [];
          deps = deps_after depends (known_entry self.old).deps read.source;
        } }
    {
        match self {
            UnitEntry::Running(unit) => unit.add_read(read, depends),
            UnitEntry::Over(_) => unreachable!(),
        }
    }

    /// A unit that is over is decided. Takes no memory.
    pub fn set_verdict(&mut self, verdict: Verdict)
        requires { is_over (known_entry self.old).phase ≡ true }
        ensures { known_entry self.new ≡ record (known_entry self.old) { verdict = verdict } }
    {
        match self {
            UnitEntry::Running(_) => unreachable!(),
            UnitEntry::Over(unit) => unit.verdict = verdict,
        }
    }

    /// A running unit comes to its end, and what it was goes but for its dependencies, which are handed out. Takes
    /// no memory.
    pub fn end(&mut self, ending: Ending, verdict: Verdict, outcome: Outcome) -> DepSet
        requires { is_running (known_entry self.old).phase ≡ true }
        ensures known { known_entry self.new ≡ record (known_entry self.old) { phase = phase_at ending; verdict = verdict; result = outcome } }
        ensures deps { result.sources ≡ (known_entry self.old).deps }
    {
        let gone = self.remembered();
        let over = UnitEntry::Over(OverUnit {
            ending,
            verdict,
            result: outcome,
            gone,
        });
        match mem::replace(self, over) {
            UnitEntry::Running(unit) => deps_of(Box::into_inner(unit)),
            UnitEntry::Over(_) => unreachable!(),
        }
    }

    // What a running unit is, for contracts.
    fn remembered(&self) -> Snapshot<RunningUnit>
        requires { is_running (known_entry self.now).phase ≡ true }
        ensures { known_entry self.now ≡ known_running result.value }
    {
        match self {
            UnitEntry::Running(unit) => Snapshot::of(unit.as_ref()),
            UnitEntry::Over(_) => unreachable!(),
        }
    }
}

// Whether a transaction with that verdict is decided for good.
fn is_final(verdict: Verdict) -> bool
    ensures { result ≡ is_final verdict }
{
    match verdict {
        Verdict::Committed => true,
        Verdict::Aborted => true,
        Verdict::Open => false,
        Verdict::Chosen => false,
        Verdict::Condemned => false,
    }
}

// The unit's dependencies. All else of it goes.
fn deps_of(unit: RunningUnit) -> DepSet
    ensures { result ≡ unit.deps }
{
    let RunningUnit { deps, .. } = unit;
    deps
}
