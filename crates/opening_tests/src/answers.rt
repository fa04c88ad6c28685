ghost use Rattle.silo_opening.specs.OpenedSilo.{IsOpenedInBounds};

use crate::names::{NAMES, add_bytes, add_file, grain_of};
use base_types::{GrainId, State, Store};
use field_codec::{Format, put_state};
use host_memory::MemoryHost;
use silo_opening::{InitFault, OpenFault, Opened, init, open_silo, open_silo_in, states};
use std::alloc::{AllocError, Global};

fn add_open_fault(out: &mut String, fault: OpenFault) -> Result<(), AllocError> {
    match fault {
        OpenFault::NotASilo => out.push_str("no silo"),
        OpenFault::OldFormat => out.push_str("old format"),
        OpenFault::Damaged { file, place } => {
            add_file(out, file)?;
            write!(out, " at {place}")
        }
        OpenFault::DiskFault { file } => {
            out.push_str("fault of ")?;
            add_file(out, file)
        }
        OpenFault::LastGeneration => out.push_str("last generation"),
        OpenFault::Memory => out.push_str("no memory"),
    }
}

fn add_state(alloc: Global, out: &mut String, state: &State) -> Result<(), AllocError> {
    let mut bytes = Vec::new(alloc);
    put_state(&mut bytes, state)?;
    add_bytes(out, &bytes)
}

// The grain's state and the end of its file, where the log has one.
fn add_grain(
    alloc: Global,
    out: &mut String,
    opened: &Opened,
    store: &Store,
    grain: GrainId,
) -> Result<(), AllocError> {
    let GrainId { kind, key } = grain;
    if let Some(state) = store.get(grain) {
        write!(out, "; {kind}/{key} ")?;
        add_state(alloc, out, state)?;
    }
    if let Some(end) = opened.ends.get(grain) {
        write!(out, " to {end}")?;
    }
    Ok(())
}

// An opened silo, with the states that are read at its places.
fn add_opened(
    alloc: Global,
    out: &mut String,
    host: &mut MemoryHost,
    opened: &Opened,
) -> Result<(), AllocError>
    requires { IsOpenedInBounds opened.now }
{
    let store = match states(alloc, host, opened) {
        Ok(store) => store,
        Err(fault) => return add_open_fault(out, fault),
    };
    let count = opened.count;
    let next = opened.next_unit.0;
    let session = opened.session;
    let gate = opened.gate_at;
    if opened.slot == 1 {
        out.push_str("slot 1: ")?;
    }
    write!(
        out,
        "{count} records, next unit {next}, session {session}, gate {gate}"
    )?;
    for name in NAMES {
        if let Some(grain) = grain_of(name) {
            add_grain(alloc, out, opened, &store, grain)?;
        }
    }
    Ok(())
}

/// Writes what opening answers.
pub fn add_opening(
    alloc: Global,
    out: &mut String,
    host: &mut MemoryHost,
) -> Result<(), AllocError> {
    match open_silo(alloc, host) {
        Ok(opened) => add_opened(alloc, out, host, &opened),
        Err(fault) => add_open_fault(out, fault),
    }
}

/// Writes what opening in format 1 answers.
pub fn add_old_opening(
    alloc: Global,
    out: &mut String,
    host: &mut MemoryHost,
) -> Result<(), AllocError> {
    match open_silo_in(alloc, host, Format::One) {
        Ok(Some(opened)) => add_opened(alloc, out, host, &opened),
        Ok(None) => out.push_str("new format"),
        Err(fault) => add_open_fault(out, fault),
    }
}

/// Writes what making answers.
pub fn add_making(
    alloc: Global,
    out: &mut String,
    host: &mut MemoryHost,
) -> Result<(), AllocError> {
    match init(alloc, host) {
        Ok(()) => out.push_str("made"),
        Err(InitFault::DiskFault { file }) => {
            out.push_str("fault of ")?;
            add_file(out, file)
        }
        Err(InitFault::BadProgram(fault)) => write!(out, "{fault:?}"),
        Err(fault) => write!(out, "{fault}"),
    }
}
