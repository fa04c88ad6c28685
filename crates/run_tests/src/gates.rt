// Runs whose threads a gate holds at places, until others were reached: two transactions are carried side by side, one reads what
// another has written before its batch is on disk, and sixteen are in flight at once.
use crate::answers::add_end;
use crate::commands::carry_by;
use host_memory::MemoryHost;
use silo_top::{Gate, GatePlace, Status};
use std::alloc::{AllocError, Global};
use std::sync::Wait;
use std::sync::atomic::{AtomicBool, AtomicU64, Ordering};
use std::thread::Threads;

// How often a hold looks before it gives up.
const PATIENCE: u64 = 1_000_000_000;

const WORKERS: &str = "run --workers 2";

// Waits until the place was reached. Marks the run where that takes too long.
fn hold(reached: &AtomicBool, missed: &AtomicBool) {
    for _look in 0..PATIENCE {
        if reached.load(Ordering::SeqCst) {
            return;
        }
    }
    missed.store(true, Ordering::SeqCst);
}

/// Holds the second unit's begin until the first batch is to be sealed, and holds that until the second unit has read the first
/// one's version.
#[derive(Drop)]
struct ReadBeforeSeal {
    sealing: AtomicBool,
    has_read: AtomicBool,
    missed: AtomicBool,
}

impl Gate for ReadBeforeSeal {
    fn reach(&self, place: GatePlace) {
        match place {
            GatePlace::Begun { unit } => {
                if unit.0 == 2 {
                    hold(&self.sealing, &self.missed);
                }
            }
            GatePlace::Granted {
                unit,
                grain: _grain,
                source,
            } => {
                if unit.0 == 2 && source.0 == 1 {
                    self.has_read.store(true, Ordering::SeqCst);
                }
            }
            GatePlace::BeforeGateSync { batch: _batch } => {
                self.sealing.store(true, Ordering::SeqCst);
                hold(&self.has_read, &self.missed);
            }
        }
    }
}

/// Holds each of two units at its lock until the other has one.
#[derive(Drop)]
struct BothGranted {
    first: AtomicBool,
    second: AtomicBool,
    missed: AtomicBool,
}

impl Gate for BothGranted {
    fn reach(&self, place: GatePlace) {
        if let GatePlace::Granted { unit, .. } = place {
            if unit.0 == 1 {
                self.first.store(true, Ordering::SeqCst);
                hold(&self.second, &self.missed);
            } else {
                self.second.store(true, Ordering::SeqCst);
                hold(&self.first, &self.missed);
            }
        }
    }
}

/// Holds each unit that begins until sixteen have begun.
#[derive(Drop)]
struct AllBegun {
    begun: AtomicU64,
    all: AtomicBool,
    missed: AtomicBool,
}

impl Gate for AllBegun {
    fn reach(&self, place: GatePlace) {
        if let GatePlace::Begun { .. } = place {
            if self.begun.fetch_add(1, Ordering::SeqCst) == 15 {
                self.all.store(true, Ordering::SeqCst);
            }
            hold(&self.all, &self.missed);
        }
    }
}

// Whether what the gate waits for came, and whether a place was waited for in vain.
fn add_places(out: &mut String, came: bool, missed: &AtomicBool) -> Result<(), AllocError> {
    let missed = missed.load(Ordering::SeqCst);
    write!(out, ", came to its places: {came}, missed one: {missed}")
}

// The second unit reads the first one's version before the batch of that is sealed.
fn add_seal<R: Threads + Wait + Sync>(
    rt: &R,
    alloc: Global,
    out: &mut String,
    host: &mut MemoryHost,
    input: &str,
) -> Result<Status, AllocError> {
    let gate = ReadBeforeSeal {
        sealing: AtomicBool::new(false),
        has_read: AtomicBool::new(false),
        missed: AtomicBool::new(false),
    };
    let status = carry_by(rt, alloc, host, &gate, WORKERS, input)?;
    add_end(out, status, host)?;
    let came = gate.has_read.load(Ordering::SeqCst);
    add_places(out, came, &gate.missed)?;
    Ok(status)
}

// Each of the two units has a lock while the other has one.
fn add_locks<R: Threads + Wait + Sync>(
    rt: &R,
    alloc: Global,
    out: &mut String,
    host: &mut MemoryHost,
    input: &str,
) -> Result<Status, AllocError> {
    let gate = BothGranted {
        first: AtomicBool::new(false),
        second: AtomicBool::new(false),
        missed: AtomicBool::new(false),
    };
    let status = carry_by(rt, alloc, host, &gate, WORKERS, input)?;
    add_end(out, status, host)?;
    let came = gate.first.load(Ordering::SeqCst) && gate.second.load(Ordering::SeqCst);
    add_places(out, came, &gate.missed)?;
    Ok(status)
}

// Sixteen workers have a unit each at once.
fn add_all<R: Threads + Wait + Sync>(
    rt: &R,
    alloc: Global,
    out: &mut String,
    host: &mut MemoryHost,
    input: &str,
) -> Result<Status, AllocError> {
    let gate = AllBegun {
        begun: AtomicU64::new(0),
        all: AtomicBool::new(false),
        missed: AtomicBool::new(false),
    };
    let status = carry_by(rt, alloc, host, &gate, "run --workers 16", input)?;
    add_end(out, status, host)?;
    let came = gate.all.load(Ordering::SeqCst);
    add_places(out, came, &gate.missed)?;
    Ok(status)
}

/// Carries lines by workers that a gate holds, and writes how that ended: at the word `seal` two by [`ReadBeforeSeal`], at `locks`
/// two by [`BothGranted`], and at `all` sixteen by [`AllBegun`].
pub fn add_held<R: Threads + Wait + Sync>(
    rt: &R,
    alloc: Global,
    out: &mut String,
    host: &mut MemoryHost,
    word: &str,
    input: &str,
) -> Result<Status, AllocError> {
    match word {
        "seal" => add_seal(rt, alloc, out, host, input),
        "locks" => add_locks(rt, alloc, out, host, input),
        "all" => add_all(rt, alloc, out, host, input),
        _ => {
            out.push_str("no such case")?;
            Ok(Status::BadUse)
        }
    }
}
