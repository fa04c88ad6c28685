ghost use Rattle.std.specs.Prelude.{◌≡◌, true, IfOk};
ghost use Rattle.core_model.specs.LockAnswers.{IsGoing};
ghost use Rattle.core_model.specs.LegalRuns.{ends};
ghost use Rattle.core_access.specs.FitAccess.{StaysFit};
ghost use Rattle.core_access.specs.Sights.{run_seen};
ghost use Rattle.script_tree.specs.Programs.{program_tree};
ghost use Rattle.promise_spec.specs.UnitAnswers.{got_in};
ghost use Rattle.promise_spec.specs.TurnRule.{can_move};
ghost use Rattle.txn_agent.specs.CoreLink.{Knows};
ghost use Rattle.txn_agent.specs.Wishes.{LacksNoGrain, Wishes};
ghost use Rattle.unit_carrier.specs.CarriedUnits.{HasCoreAlone, WishesAt};

use core_access::Access;
use script_check::Checked;
use std::alloc::{AllocError, Global};
use txn_agent::Agent;

/// Whether the unit can move. First it hears of a child that is decided. Of one that is over and has given back all its locks nothing
/// is asked.
pub(crate) fn can_move_now<A: Access>(
    alloc: Global,
    checked: &Checked,
    access: &mut A,
    agent: &mut Agent,
) -> Result<bool, AllocError>
    requires fit { A.is_fit access.old }
    requires holds { HasCoreAlone A.may_come (A.sight access.old) }
    requires knows { Knows (program_tree checked.now) (A.sight access.old) agent.old }
    ensures kept { StaysFit (A.is_fit access.new) (A.aside access.old) (A.aside access.new) }
    ensures same { A.sight access.new ≡ A.sight access.old }
    ensures carried { agent.new.carried ≡ agent.old.carried }
    ensures knows { IfOk result (λ _. Knows (program_tree checked.now) (A.sight access.new) agent.new) }
    ensures moves { IsGoing (ends (run_seen (A.sight access.old)))
        → IfOk result (λ b. b ≡ can_move (program_tree checked.now) (ends (run_seen (A.sight access.old))) (got_in (run_seen (A.sight access.old)))
        agent.old.carried.unit) }
{
    if agent.has_freed_all() {
        return Ok(false);
    }
    agent.ready(alloc, checked, access)?;
    let moves = agent.can_move(access)?;
    Ok(moves)
}

/// Whether the unit asks for no lock, or for one whose grain is shown to be in memory. First it hears of a child that is decided.
pub(crate) fn has_grain_now<A: Access>(
    alloc: Global,
    checked: &Checked,
    access: &mut A,
    agent: &mut Agent,
) -> Result<bool, AllocError>
    requires fit { A.is_fit access.old }
    requires holds { HasCoreAlone A.may_come (A.sight access.old) }
    requires knows { Knows (program_tree checked.now) (A.sight access.old) agent.old }
    ensures kept { StaysFit (A.is_fit access.new) (A.aside access.old) (A.aside access.new) }
    ensures same { A.sight access.new ≡ A.sight access.old }
    ensures carried { agent.new.carried ≡ agent.old.carried }
    ensures knows { IfOk result (λ _. Knows (program_tree checked.now) (A.sight access.new) agent.new) }
    ensures has { IfOk result (λ has. has ≡ true → IsGoing (ends (run_seen (A.sight access.old)))
        → LacksNoGrain (program_tree checked.now) agent.old.carried.unit (run_seen (A.sight access.old))) }
{
    agent.ready(alloc, checked, access)?;
    let has = agent.has_grain(access);
    Ok(has)
}

/// The unit wishes for the grain of the lock for which its script asks, where that isn't in memory. First it hears of a child that is
/// decided. Answers whether the wish was done.
pub(crate) fn want_now<A: Access>(
    alloc: Global,
    checked: &Checked,
    access: &mut A,
    agent: &mut Agent,
) -> Result<bool, AllocError>
    requires fit { A.is_fit access.old }
    requires holds { HasCoreAlone A.may_come (A.sight access.old) }
    requires knows { Knows (program_tree checked.now) (A.sight access.old) agent.old }
    ensures kept { StaysFit (A.is_fit access.new) (A.aside access.old) (A.aside access.new) }
    ensures carried { agent.new.carried ≡ agent.old.carried }
    ensures wishes { Wishes A.may_come (program_tree checked.now) agent.old.carried.unit (A.sight access.old) (A.sight access.new) }
    ensures knows { IfOk result (λ _. Knows (program_tree checked.now) (A.sight access.new) agent.new) }
    ensures told { IfOk result (λ wished. WishesAt (program_tree checked.now) agent.old.carried.unit (A.sight access.old) (A.sight access.new) wished) }
{
    agent.ready(alloc, checked, access)?;
    let wished = agent.want(access)?;
    Ok(wished)
}
