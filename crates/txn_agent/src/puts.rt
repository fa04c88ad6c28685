ghost use Rattle.std.specs.Prelude.{◌≡◌, false, IfOk, IfErr};
ghost use Rattle.core_model.specs.declared.events.CoreEvent.TheVariants as event;
ghost use Rattle.core_access.specs.FitAccess.{StaysFit};
ghost use Rattle.core_access.specs.Sights.{Looks, Tells, run_seen};
ghost use Rattle.core_access.specs.CallsWithoutMemory.{is_spared};
ghost use Rattle.txn_agent.specs.Replies.{Says, began_by, end_event, granted_by, is_done};

use base_types::{Call, GrainId, Mode, Origin, State, UnitNo};
use core_access::Access;
use core_model::{CoreEvent, CoreReply, Effect};
use std::alloc::AllocError;

/// Puts an event, and answers the core's reply. Where there is no memory it wasn't put, which is never so of one that applies
/// and has no need of room.
fn put<A: Access>(access: &mut A, event: CoreEvent) -> Result<CoreReply, AllocError>
    requires fit { A.is_fit access.old }
    ensures kept { StaysFit (A.is_fit access.new) (A.aside access.old) (A.aside access.new) }
    ensures put { IfOk result (λ reply. Tells A.may_come (A.sight access.old) event reply (A.sight access.new)) }
    ensures looked { IfErr result (λ _. Looks A.may_come (A.sight access.old) (A.sight access.new)) }
    ensures unspared { IfErr result (λ _. is_spared (run_seen (A.sight access.new)) event ≡ false) }
{
    match access.put(event) {
        Ok(reply) => Ok(reply),
        Err(refused) => {
            drop(refused);
            Err(AllocError)
        }
    }
}

/// Whether the reply says that the event was done.
fn is_done(reply: CoreReply) -> bool
    ensures { result ≡ is_done reply }
{
    match reply {
        CoreReply::Done => true,
        CoreReply::Unapplied
        | CoreReply::Began { .. }
        | CoreReply::Granted { .. }
        | CoreReply::NotGranted(_)
        | CoreReply::Doomed { .. }
        | CoreReply::NotActive
        | CoreReply::NotLoaded
        | CoreReply::Taken { .. }
        | CoreReply::Decided { .. } => false,
    }
}

/// The unit that began, by the reply.
fn began(reply: CoreReply) -> Option<UnitNo>
    ensures { result ≡ began_by reply }
{
    match reply {
        CoreReply::Began { unit } => Some(unit),
        CoreReply::Unapplied
        | CoreReply::Done
        | CoreReply::Granted { .. }
        | CoreReply::NotGranted(_)
        | CoreReply::Doomed { .. }
        | CoreReply::NotActive
        | CoreReply::NotLoaded
        | CoreReply::Taken { .. }
        | CoreReply::Decided { .. } => None,
    }
}

/// The state that was found under the lock, and the unit whose version it is, by the reply.
fn granted(reply: CoreReply) -> Option<(State, UnitNo)>
    ensures { result ≡ granted_by reply }
{
    match reply {
        CoreReply::Granted { state, source } => Some((state, source)),
        CoreReply::Unapplied
        | CoreReply::Done
        | CoreReply::Began { .. }
        | CoreReply::NotGranted(_)
        | CoreReply::Doomed { .. }
        | CoreReply::NotActive
        | CoreReply::NotLoaded
        | CoreReply::Taken { .. }
        | CoreReply::Decided { .. } => None,
    }
}

/// Puts an event, and answers whether it was done.
fn put_done<A: Access>(access: &mut A, event: CoreEvent) -> Result<bool, AllocError>
    requires fit { A.is_fit access.old }
    ensures kept { StaysFit (A.is_fit access.new) (A.aside access.old) (A.aside access.new) }
    ensures said { IfOk result (λ said. Says A.may_come (A.sight access.old) (event) is_done said (A.sight access.new)) }
    ensures looked { IfErr result (λ _. Looks A.may_come (A.sight access.old) (A.sight access.new)) }
{
    let reply = put(access, event)?;
    Ok(is_done(reply))
}

/// Puts the begin of a child, and answers its number.
pub fn put_begin<A: Access>(
    access: &mut A,
    origin: Origin,
    call: Call,
) -> Result<Option<UnitNo>, AllocError>
    requires fit { A.is_fit access.old }
    ensures kept { StaysFit (A.is_fit access.new) (A.aside access.old) (A.aside access.new) }
    ensures said { IfOk result (λ said. Says A.may_come (A.sight access.old) (event.Begin origin call false) began_by said (A.sight access.new)) }
    ensures looked { IfErr result (λ _. Looks A.may_come (A.sight access.old) (A.sight access.new)) }
{
    let reply = put(
        access,
        CoreEvent::Begin {
            origin,
            call,
            plain: false,
        },
    )?;
    Ok(began(reply))
}

/// Puts the grant of a lock, and answers what was found under it.
pub fn put_grant<A: Access>(
    access: &mut A,
    unit: UnitNo,
    grain: GrainId,
    mode: Mode,
) -> Result<Option<(State, UnitNo)>, AllocError>
    requires fit { A.is_fit access.old }
    ensures kept { StaysFit (A.is_fit access.new) (A.aside access.old) (A.aside access.new) }
    ensures said { IfOk result (λ said. Says A.may_come (A.sight access.old) (event.Grant unit grain mode) granted_by said (A.sight access.new)) }
    ensures looked { IfErr result (λ _. Looks A.may_come (A.sight access.old) (A.sight access.new)) }
{
    let reply = put(access, CoreEvent::Grant { unit, grain, mode })?;
    Ok(granted(reply))
}

/// Puts the refusal of a lock, and answers whether it was done.
pub fn put_refuse<A: Access>(
    access: &mut A,
    unit: UnitNo,
    grain: GrainId,
    mode: Mode,
) -> Result<bool, AllocError>
    requires fit { A.is_fit access.old }
    ensures kept { StaysFit (A.is_fit access.new) (A.aside access.old) (A.aside access.new) }
    ensures said { IfOk result (λ said. Says A.may_come (A.sight access.old) (event.Refuse unit grain mode) is_done said (A.sight access.new)) }
    ensures looked { IfErr result (λ _. Looks A.may_come (A.sight access.old) (A.sight access.new)) }
{
    put_done(access, CoreEvent::Refuse { unit, grain, mode })
}

/// The event by which a unit ends, as a plain run or a transaction.
fn end_event(plain: bool, unit: UnitNo, effect: Effect) -> CoreEvent
    ensures { result ≡ end_event plain unit effect }
{
    if plain {
        CoreEvent::EndPlain { unit, effect }
    } else {
        CoreEvent::Finish { unit, effect }
    }
}

/// Puts the end of a unit, of a plain run or a transaction, and answers whether it was done.
pub fn put_end<A: Access>(
    access: &mut A,
    plain: bool,
    unit: UnitNo,
    effect: Effect,
) -> Result<bool, AllocError>
    requires fit { A.is_fit access.old }
    ensures kept { StaysFit (A.is_fit access.new) (A.aside access.old) (A.aside access.new) }
    ensures said { IfOk result (λ said. Says A.may_come (A.sight access.old) (end_event plain unit effect) is_done said (A.sight access.new)) }
    ensures looked { IfErr result (λ _. Looks A.may_come (A.sight access.old) (A.sight access.new)) }
{
    let event = end_event(plain, unit, effect);
    put_done(access, event)
}

/// Puts the giving back of a lock, and answers whether it was done.
pub fn put_release<A: Access>(
    access: &mut A,
    unit: UnitNo,
    grain: GrainId,
) -> Result<bool, AllocError>
    requires fit { A.is_fit access.old }
    ensures kept { StaysFit (A.is_fit access.new) (A.aside access.old) (A.aside access.new) }
    ensures said { IfOk result (λ said. Says A.may_come (A.sight access.old) (event.Release unit grain) is_done said (A.sight access.new)) }
    ensures looked { IfErr result (λ _. Looks A.may_come (A.sight access.old) (A.sight access.new)) }
{
    put_done(access, CoreEvent::Release { unit, grain })
}

/// Puts a unit's wish for a grain, and answers whether it was done.
pub fn put_want<A: Access>(access: &mut A, unit: UnitNo, grain: GrainId) -> Result<bool, AllocError>
    requires fit { A.is_fit access.old }
    ensures kept { StaysFit (A.is_fit access.new) (A.aside access.old) (A.aside access.new) }
    ensures said { IfOk result (λ said. Says A.may_come (A.sight access.old) (event.Want unit grain) is_done said (A.sight access.new)) }
    ensures looked { IfErr result (λ _. Looks A.may_come (A.sight access.old) (A.sight access.new)) }
{
    put_done(access, CoreEvent::Want { unit, grain })
}
