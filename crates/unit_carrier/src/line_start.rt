// How the next line comes to the core, and is carried from then on.
ghost use Rattle.std.specs.Prelude.{◌≡◌, ◌⊎◌, Ok, IfOk, OnErr, option_map, slice_get};
ghost use Rattle.std.specs.Option.{option_copied};
ghost use Rattle.core_access.specs.FitAccess.{StaysFit};
ghost use Rattle.core_access.specs.Sights.{Looks, Tells};
ghost use Rattle.core_model.specs.declared.events.CoreReply.{CoreReply as AReply};
ghost use Rattle.script_tree.specs.Programs.{method_tree, program_tree, type_tree};
ghost use Rattle.script_meaning.specs.Calls.{numbered};
ghost use Rattle.txn_agent.specs.Replies.{began_by};
ghost use Rattle.unit_carrier.specs.CarriedUnits.{AreCarried, units_carried};
ghost use Rattle.unit_carrier.specs.Lines.{BeginsOn, PutsLine, StartsCall, StartsLine, is_new_unit, makes_unit};

use crate::agents::Agents;
use base_types::{Call, Origin, UnitNo};
use core_access::Access;
use core_model::{CoreEvent, CoreReply};
use request_wire::Line;
use script_check::Checked;
use script_tree::{Entered, Method, TypeDecl};
use std::alloc::{AllocError, Global};
use txn_options::enter;

/// The type of this number.
fn type_at(checked: &Checked, number: u16) -> Option<&TypeDecl>
    ensures { option_map type_tree (option_copied result) ≡ slice_get (program_tree checked.now) number }
{
    checked.program().types.get(usize::from(number))
}

/// The method of this number.
fn method_at(of_type: &TypeDecl, number: u16) -> Option<&Method>
    ensures { option_map method_tree (option_copied result) ≡ slice_get (type_tree of_type.now).methods number }
{
    of_type.methods.get(usize::from(number))
}

/// Whether a call that enters so is a unit of its own.
fn is_new_unit(entered: Entered) -> bool
    ensures { result ≡ is_new_unit entered }
{
    match entered {
        Entered::NewUnit => true,
        Entered::Joined | Entered::Plain { .. } | Entered::Refused(_) => false,
    }
}

/// Whether the call makes a transaction of its own: its method is there, and has an option by which it does.
fn makes_transaction(checked: &Checked, call: &Call) -> bool
    ensures { result ≡ makes_unit (numbered (slice_get (program_tree checked.now) call.now.grain.kind) call.now.method) }
{
    match type_at(checked, call.grain.kind) {
        None => false,
        Some(of_type) => match method_at(of_type, call.method) {
            None => false,
            Some(method) => is_new_unit(enter(method.option, false)),
        },
    }
}

/// Puts an event of a line.
fn put<A: Access>(access: &mut A, event: CoreEvent) -> Result<CoreReply, AllocError>
    requires fit { A.is_fit access.old }
    ensures kept { StaysFit (A.is_fit access.new) (A.aside access.old) (A.aside access.new) }
    ensures told { IfOk result (λ reply. Tells A.may_come (A.sight access.old) event reply (A.sight access.new)) }
    ensures refused { OnErr result (Looks A.may_come (A.sight access.old) (A.sight access.new)) }
{
    match access.put(event) {
        Ok(reply) => Ok(reply),
        Err((fault, event)) => {
            drop(event);
            Err(fault)
        }
    }
}

/// The unit that began, where the reply says so.
fn begun(reply: &CoreReply) -> Option<UnitNo>
    ensures { result ≡ began_by reply.now }
{
    match reply {
        CoreReply::Began { unit } => Some(*unit),
        CoreReply::Unapplied
        | CoreReply::Done
        | CoreReply::Granted { .. }
        | CoreReply::NotGranted(_)
        | CoreReply::Doomed { .. }
        | CoreReply::NotActive
        | CoreReply::NotLoaded
        | CoreReply::Taken { .. }
        | CoreReply::Decided { .. } => None,
    }
}

/// Begins a line's call as a unit, and carries it.
fn start_call<A: Access>(
    alloc: Global,
    checked: &Checked,
    access: &mut A,
    agents: &mut Agents,
    line: u32,
    call: &Call,
) -> Result<Option<UnitNo>, AllocError>
    requires fit { A.is_fit access.old }
    ensures kept { StaysFit (A.is_fit access.new) (A.aside access.old) (A.aside access.new) }
    ensures put { OnErr result (Looks A.may_come (A.sight access.old) (A.sight access.new)
        ⊎ ((r : AReply) × PutsLine A.may_come (program_tree checked.now) line (Ok call.now) (A.sight access.old) (A.sight access.new) r)) }
    ensures same { OnErr result (agents.new.list.items ≡ agents.old.list.items) }
    ensures starts { IfOk result (λ began. StartsCall A.may_come (program_tree checked.now) line call.now (A.sight access.old) (A.sight access.new)
        agents.old.list.items agents.new.list.items began) }
{
    let plain = !makes_transaction(checked, call);
    let origin = Origin::Line(line);
    let asked = call.copy()?;
    let call = call.copy()?;
    let reply = put(
        access,
        CoreEvent::Begin {
            origin,
            call,
            plain,
        },
    )?;
    let began = begun(&reply);
    drop(reply);
    match began {
        Some(unit) => {
            agents.carry(alloc, checked, unit, origin, asked, plain)?;
            Ok(Some(unit))
        }
        None => Ok(None),
    }
}

/// Puts the event of a line, by whatever access: its call begins as a unit, which is carried and answered, or, where it is bad,
/// that is told. Without memory nobody more is carried.
pub fn start_line<A: Access>(
    alloc: Global,
    checked: &Checked,
    access: &mut A,
    agents: &mut Agents,
    line: &Line,
) -> Result<Option<UnitNo>, AllocError>
    requires fit { A.is_fit access.old }
    ensures kept { StaysFit (A.is_fit access.new) (A.aside access.old) (A.aside access.new) }
    ensures put { OnErr result (Looks A.may_come (A.sight access.old) (A.sight access.new)
        ⊎ ((r : AReply) × PutsLine A.may_come (program_tree checked.now) line.now.number line.now.what (A.sight access.old) (A.sight access.new) r)) }
    ensures same { OnErr result (agents.new.list.items ≡ agents.old.list.items) }
    ensures starts { IfOk result (λ began. StartsLine A.may_come (program_tree checked.now) line.now.number line.now.what (A.sight access.old)
        (A.sight access.new) agents.old.list.items agents.new.list.items began) }
{
    match &line.what {
        Ok(call) => start_call(alloc, checked, access, agents, line.number, call),
        Err(why) => {
            let reply = put(
                access,
                CoreEvent::Bad {
                    line: line.number,
                    why: *why,
                },
            )?;
            drop(reply);
            Ok(None)
        }
    }
}

/// Begins the next line over a core that nobody else puts events into: its unit, which it answers, or, where it is bad, no unit.
/// Without memory nobody more is carried.
pub fn begin_line<A: Access>(
    alloc: Global,
    checked: &Checked,
    access: &mut A,
    agents: &mut Agents,
    line: &Line,
) -> Result<Option<UnitNo>, AllocError>
    requires fit { A.is_fit access.old }
    requires carried { AreCarried (program_tree checked.now) A.may_come (A.sight access.old) agents.old.list.items }
    ensures kept { StaysFit (A.is_fit access.new) (A.aside access.old) (A.aside access.new) }
    ensures put { OnErr result (Looks A.may_come (A.sight access.old) (A.sight access.new)
        ⊎ ((r : AReply) × PutsLine A.may_come (program_tree checked.now) line.now.number line.now.what (A.sight access.old) (A.sight access.new) r)) }
    ensures same { OnErr result (agents.new.list.items ≡ agents.old.list.items) }
    ensures begins { IfOk result (λ began. BeginsOn A.may_come (program_tree checked.now) line.now.number line.now.what (A.sight access.old)
        (A.sight access.new) (units_carried agents.old.list.items) (units_carried agents.new.list.items) began) }
    ensures carried { IfOk result (λ _. AreCarried (program_tree checked.now) A.may_come (A.sight access.new) agents.new.list.items) }
{
    let began = start_line(alloc, checked, access, agents, line)?;
    Ok(began)
}
