ghost use Rattle.std.specs.Prelude.{◌≡◌, ◌<◌, ◌≤◌, ◌++◌, [], ℕ, List, IsTrue, Ok, Some, IfOk, is_ok, length, map, slice_get, string_bytes};
ghost use Rattle.base_types.specs.declared.calls.GrainId.{GrainId as AGrain};
ghost use Rattle.host_trait.specs.Runs.{OnlyAsked};
ghost use Rattle.host_trait.specs.declared.channels.FileId.TheVariants.{Manager};
ghost use Rattle.field_codec.specs.declared.formats.Format.TheVariants.{Two};
ghost use Rattle.log_reading.specs.Blocks.{LogRead as ALog, log_in_file};
ghost use Rattle.log_reading.specs.Steps.{seen_in};
ghost use Rattle.script_tree.specs.Programs.{program_tree};
ghost use Rattle.script_meaning.specs.Play.{found_in};
ghost use Rattle.program_file.specs.Succession.{ArePrograms};
ghost use Rattle.silo_opening.specs.OpenedSilo.{IsOpenedFrom, programs_of};
ghost use Rattle.silo_opening.specs.CommandCalls.{HasCalledAs};
ghost use Rattle.promise_spec.specs.Programs.{Program};
ghost use Rattle.promise_spec.specs.Words.{Manner};
ghost use Rattle.promise_spec.specs.Entries.{standing_of};
ghost use Rattle.promise_spec.specs.Reports.{line_of, AreHeld, show_text};
ghost use Rattle.promise_spec.specs.Commands.{ShowsStates};
ghost use Rattle.promise_spec.specs.Endings.{BadUse};
ghost use Rattle.log_audit.specs.Lines.{grain_data, grain_lines, count_data};
ghost use Rattle.log_audit.specs.WrittenGrains.{grains_of_log, grains_added};
ghost use Rattle.log_audit.specs.ReportOutput.{PutsPart};
ghost use Rattle.log_audit.specs.Endings.{report_ending, reported_as, MayEnd};

use crate::faults::{ReportFault, unopened, unread};
use crate::grains::read_grains;
use crate::in_force::InForce;
use crate::line_writer::write_line;
use crate::lines::{count_line, grain_line};
use base_types::{GrainId, List, Shape, Store};
use host_trait::Host;
use script_check::Checked;
use script_meaning::initial;
use silo_opening::{Opened, open_silo, states};
use std::alloc::{AllocError, Global};
use std::collections::BTreeSet;
use std::mem;

// A grain with the state that it has in the store.
fn state_line(
    alloc: Global,
    checked: &Checked,
    store: &Store,
    shape: &Shape,
    grain: GrainId,
) -> Result<String, AllocError>
    ensures { IfOk result (λ line. let types = program_tree checked.now in
        string_bytes line ≡ line_of (grain_data shape.now types grain (found_in types store.now grain))) }
{
    let program = checked.program();
    let types = program.types.as_slice();
    match store.get(grain) {
        Some(state) => grain_line(alloc, types, shape, grain, state.as_slice()),
        None => {
            let state = initial(alloc, program, grain)?;
            grain_line(alloc, types, shape, grain, state.as_slice())
        }
    }
}

// Writes a line for each of these grains, in their order.
fn write_grains<H: Host>(
    alloc: Global,
    host: &mut H,
    checked: &Checked,
    store: &Store,
    shape: &Shape,
    grains: BTreeSet<GrainId>,
) -> Result<(), ReportFault>
    ensures puts { IsTrue H.tells → PutsPart (grain_lines shape.now (program_tree checked.now) store.now grains.keys)
        (is_ok result) (H.world host.old) (H.world host.new) }
    ensures ended { MayEnd (report_ending result) }
    ensures calls { HasCalledAs (report_ending result) H.is_ready H.faults host.old host.new }
{
    let mut left = grains;
    while let Some(grain) = left.pop_first() {
        let line = state_line(alloc, checked, store, shape, grain)?;
        write_line(host, line.as_bytes())?;
    }
    Ok(())
}

// The grains that a slot's log names, ascending; these are the programs that came into force in it.
fn log_grains<H: Host>(
    alloc: Global,
    host: &mut H,
    slot: u8,
    programs: List<Checked>,
) -> Result<BTreeSet<GrainId>, ReportFault>
    requires slot { slot ≤ 1 }
    requires some { 0 < length programs }
    ensures found { IfOk result (λ grains. IsTrue H.tells → (p : Program) → slice_get (map program_tree programs) 0 ≡ Some p.types
        → (log : ALog) → log_in_file Two p ((H.world host.old).disk (Manager slot)).seen ≡ Ok log
        → grains.keys ≡ grains_added [] (grains_of_log log)) }
    ensures ended { IsTrue H.tells → (p : Program) → slice_get (map program_tree programs) 0 ≡ Some p.types
        → (log : ALog) → log_in_file Two p ((H.world host.old).disk (Manager slot)).seen ≡ Ok log
        → MayEnd (report_ending result) }
    ensures asked { IsTrue H.tells → OnlyAsked (H.world host.old) (H.world host.new) }
    ensures calls { HasCalledAs (report_ending result) H.is_ready H.faults host.old host.new }
{
    let mut first = InForce::first(programs)?;
    match read_grains(alloc, host, slot, &mut first) {
        Ok(grains) => Ok(grains),
        Err(fault) => Err(unread(fault)),
    }
}

// Writes a line for each of these grains, in their order, and at last the number of entries.
fn write_states<H: Host>(
    alloc: Global,
    host: &mut H,
    checked: &Checked,
    store: &Store,
    shape: &Shape,
    grains: BTreeSet<GrainId>,
    count: u64,
) -> Result<(), ReportFault>
    ensures puts { IsTrue H.tells
        → PutsPart (grain_lines shape.now (program_tree checked.now) store.now grains.keys ++ line_of (count_data count)) (is_ok result)
        (H.world host.old) (H.world host.new) }
    ensures ended { MayEnd (report_ending result) }
    ensures calls { HasCalledAs (report_ending result) H.is_ready H.faults host.old host.new }
{
    write_grains(alloc, host, checked, store, shape, grains)?;
    let line = count_line(alloc, count)?;
    write_line(host, line.as_bytes())
}

// Writes the report of an opened silo, and takes its programs out of it.
fn write_show<H: Host>(alloc: Global, host: &mut H, opened: &mut Opened) -> Result<(), ReportFault>
    requires slot { opened.old.slot ≤ 1 }
    requires programs { ArePrograms (programs_of opened.old) }
    ensures puts { IsTrue H.tells → (o : IsOpenedFrom (seen_in (H.world host.old).disk) opened.old)
        → (grains : List AGrain) × AreHeld grains (standing_of o.log) × PutsPart (show_text grains o.log) (is_ok result) (H.world host.old) (H.world host.new) }
    ensures ended { IsTrue H.tells → IsOpenedFrom (seen_in (H.world host.old).disk) opened.old → MayEnd (report_ending result) }
    ensures calls { HasCalledAs (report_ending result) H.is_ready H.faults host.old host.new }
{
    let store = match states(alloc, host, opened) {
        Ok(store) => store,
        Err(fault) => return Err(unopened(fault)),
    };
    let shape = opened.checked.shape()?;
    let programs = mem::replace(&mut opened.programs, List::new(alloc));
    let grains = log_grains(alloc, host, opened.slot, programs)?;
    write_states(
        alloc,
        host,
        &opened.checked,
        &store,
        &shape,
        grains,
        opened.count,
    )
}

/// Writes a line for each grain that the log names, in ascending order, with its state, and at last the number of entries.
///
/// It opens the folder, reads each grain's last version again for its state, and the log again for the grains, before it writes a byte.
/// Nothing of the folder changes.
///
/// # Errors
///
/// `NotASilo`, `OldFormat` and `Damaged` as the folder reads; then nothing is written. `DiskFault`, `WriteFault` and `Memory` at any place.
pub fn show<H: Host>(alloc: Global, host: &mut H) -> Result<(), ReportFault>
    // What the command promises of any folder.
    ensures reports { IsTrue H.tells → (manner : Manner) (asked : List (List ℕ)) → ShowsStates
        (reported_as manner asked (H.world host.old) (H.world host.new) (H.faults host.old) (H.faults host.new) result) }
    // Exactly the call that the answer names has failed, and each file that was ready is, over any host.
    ensures calls { HasCalledAs (report_ending result) H.is_ready H.faults host.old host.new }
    ensures good { report_ending result ≡ BadUse → ⊥ }
{
    match open_silo(alloc, host) {
        Ok(mut opened) => write_show(alloc, host, &mut opened),
        Err(fault) => Err(unopened(fault)),
    }
}
