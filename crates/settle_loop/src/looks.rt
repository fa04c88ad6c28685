ghost use Rattle.std.specs.Prelude.{◌≡◌, Bool, false, IfOk, OnErr};
ghost use Rattle.core_model.specs.declared.events.CoreReply.{CoreReply as AReply};
ghost use Rattle.core_model.specs.Settler.{settler_step};
ghost use Rattle.core_model.specs.WantedGrains.{next_wanted};
ghost use Rattle.core_access.specs.FitAccess.{StaysFit};
ghost use Rattle.core_access.specs.Sights.{run_seen, Looks, Tells};
ghost use Rattle.core_access.specs.CallsWithoutMemory.{is_spared};
ghost use Rattle.settle_loop.specs.ShownWork.{ShowsWork, has_applied};
ghost use Rattle.settle_loop.specs.SettlerStep.{state_shown, has_unwritten};

use base_types::GrainId;
use core_access::Access;
use core_model::{CoreAnswer, CoreEvent, CoreQuestion, CoreReply, SettlerWork};
use std::alloc::AllocError;

/// What the settler does next, by one look at the core.
#[tactic(auto, using(crate::proofs::ShownWork::work_of))]
pub fn look<A: Access>(access: &mut A) -> Result<SettlerWork, AllocError>
    requires fit { A.is_fit access.old }
    ensures kept { StaysFit (A.is_fit access.new) (A.aside access.old) (A.aside access.new) }
    ensures looked { Looks A.may_come (A.sight access.old) (A.sight access.new) }
    ensures work { IfOk result (λ work. ShowsWork (state_shown (A.sight access.new)) (settler_step (state_shown (A.sight access.new))) work) }
{
    match access.see(&CoreQuestion::NextStep)? {
        CoreAnswer::NextStep(work) => Ok(work),
        _ => unreachable!(),
    }
}

/// The lowest grain that a unit wants and that isn't in memory, by one look at the core.
pub fn see_wanted<A: Access>(access: &mut A) -> Result<Option<GrainId>, AllocError>
    requires fit { A.is_fit access.old }
    ensures kept { StaysFit (A.is_fit access.new) (A.aside access.old) (A.aside access.new) }
    ensures looked { Looks A.may_come (A.sight access.old) (A.sight access.new) }
    ensures wanted { IfOk result (λ grain. grain ≡ next_wanted (state_shown (A.sight access.new))) }
{
    let answer = access.see(&CoreQuestion::NextWanted)?;
    match answer {
        CoreAnswer::NextWanted(grain) => {
            drop(answer);
            Ok(grain)
        }
        _ => unreachable!(),
    }
}

/// Puts an event. Without memory it wasn't put.
pub fn put<A: Access>(access: &mut A, event: CoreEvent) -> Result<CoreReply, AllocError>
    requires fit { A.is_fit access.old }
    ensures kept { StaysFit (A.is_fit access.new) (A.aside access.old) (A.aside access.new) }
    ensures told { IfOk result (λ reply. Tells A.may_come (A.sight access.old) event reply (A.sight access.new)) }
    ensures refused { OnErr result (Looks A.may_come (A.sight access.old) (A.sight access.new)) }
    ensures unspared { OnErr result (is_spared (run_seen (A.sight access.new)) event ≡ false) }
{
    match access.put(event) {
        Ok(reply) => Ok(reply),
        Err((fault, event)) => {
            drop(event);
            Err(fault)
        }
    }
}

/// Whether a settled entry isn't written.
pub fn sees_unwritten<A: Access>(access: &mut A) -> Result<bool, AllocError>
    requires fit { A.is_fit access.old }
    ensures kept { StaysFit (A.is_fit access.new) (A.aside access.old) (A.aside access.new) }
    ensures looked { Looks A.may_come (A.sight access.old) (A.sight access.new) }
    ensures answer { IfOk result (λ found. found ≡ has_unwritten (state_shown (A.sight access.new))) }
{
    match access.see(&CoreQuestion::NextSettled)? {
        CoreAnswer::NextSettled(entry) => {
            let is_some = entry.is_some();
            drop(entry);
            Ok(is_some)
        }
        _ => unreachable!(),
    }
}

/// Whether the reply says that the event applied.
pub fn has_applied(reply: &CoreReply) -> bool
    ensures { result ≡ has_applied reply.now }
{
    match reply {
        CoreReply::Unapplied => false,
        CoreReply::Done => true,
        CoreReply::Began { .. } => true,
        CoreReply::Granted { .. } => true,
        CoreReply::NotGranted(_) => false,
        CoreReply::Doomed { .. } => false,
        CoreReply::NotActive => false,
        CoreReply::Taken { .. } => true,
        CoreReply::Decided { .. } => true,
        CoreReply::NotLoaded => false,
    }
}
