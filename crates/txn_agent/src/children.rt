ghost use Rattle.std.specs.Prelude.{◌≡◌, IfOk};
ghost use Rattle.core_access.specs.FitAccess.{StaysFit};
ghost use Rattle.core_access.specs.Sights.{Counts, Looks};
ghost use Rattle.script_tree.specs.Programs.{program_tree};
ghost use Rattle.script_machine.specs.declared.machine.Pause.TheVariants.{NeedUnit as NeedsUnit};
ghost use Rattle.txn_agent.specs.CoreLink.{KnowsPaused, KnowsWaiting, KnowsDoing};
ghost use Rattle.txn_agent.specs.AgentStep.{HasStepped, Hears, children_of};

use crate::agent::Advanced;
use crate::looks::known_of;
use crate::puts::put_begin;
use crate::work::{Carried, Doing, Work};
use base_types::{Call, Origin, UnitNo};
use core_access::Access;
use core_model::KnownOutcome;
use script_check::Checked;
use script_machine::{Input, Pause};
use std::alloc::{AllocError, Global};

/// Hands the outcome of its child to the unit's script, where the core shows that the child is decided.
pub fn hear<A: Access>(
    alloc: Global,
    checked: &Checked,
    access: &mut A,
    carried: Carried,
    work: Work,
    child: UnitNo,
) -> Result<Doing, AllocError>
    requires fit { A.is_fit access.old }
    requires counts { Counts (A.sight access.old) }
    requires waits { KnowsWaiting (program_tree checked.now) (A.sight access.old) carried work child }
    ensures kept { StaysFit (A.is_fit access.new) (A.aside access.old) (A.aside access.new) }
    ensures looked { Looks A.may_come (A.sight access.old) (A.sight access.new) }
    ensures heard { IfOk result (λ made. Hears (A.sight access.new) made) }
    ensures children { IfOk result (λ made. children_of made ≡ work.kids) }
    ensures doing { IfOk result (λ made. KnowsDoing (program_tree checked.now) (A.sight access.new) carried made) }
{
    match known_of(access, child)? {
        KnownOutcome::Undecided => Ok(Doing::Awaits { work, child }),
        KnownOutcome::Decided(outcome) => {
            let (work, pause) = work.resume(alloc, checked, Input::Unit { outcome })?;
            Ok(Doing::Asks { work, pause })
        }
    }
}

/// Begins a unit of its own that the unit's script asks for.
pub fn begin_child<A: Access>(
    checked: &Checked,
    access: &mut A,
    carried: Carried,
    work: Work,
    call: Call,
    depth: u16,
) -> Result<(Doing, Advanced), AllocError>
    requires fit { A.is_fit access.old }
    requires counts { Counts (A.sight access.old) }
    requires paused { KnowsPaused (program_tree checked.now) (A.sight access.old) carried work (NeedsUnit call depth) }
    ensures stepped { HasStepped A.is_fit A.aside A.may_come A.sight (program_tree checked.now) carried work.kids access.old access.new result }
{
    let index = work.kids;
    let begun = index + 1;
    let asked = call.copy()?;
    let origin = Origin::Child {
        parent: carried.unit,
        index,
        depth,
    };
    let begun_as = put_begin(access, origin, call)?;
    match begun_as {
        Some(child) => {
            let mut work = work;
            work.kids = begun;
            Ok((
                Doing::Awaits { work, child },
                Advanced::Began {
                    child,
                    call: asked,
                    depth,
                },
            ))
        }
        None => {
            let pause = Pause::NeedUnit { call: asked, depth };
            Ok((Doing::Asks { work, pause }, Advanced::Moved))
        }
    }
}
