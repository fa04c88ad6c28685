// The program over a host in memory, what it puts out, and what a crash leaves of the host.
use host_memory::MemoryHost;
use silo_top::{ByWorkers, Gate, GatePlace, Status, run_alone, run_silo};
use std::alloc::{AllocError, Global};
use std::sync::Wait;
use std::thread::Threads;

/// How many images of a crash are looked at.
pub const IMAGES: u64 = 16;

#[derive(Drop)]
struct OpenGate;

impl Gate for OpenGate {
    fn reach(&self, _place: GatePlace) {}
}

fn words_of(alloc: Global, list: &str) -> Result<Vec<String>, AllocError> {
    let mut words = Vec::new(alloc);
    for word in list.split_whitespace() {
        words.push(String::from_str(alloc, word)?)?;
    }
    Ok(words)
}

/// Carries out the command of these words over this input, with a gate.
pub fn carry_by<R: Threads + Wait + Sync, G: Gate + Sync>(
    rt: &R,
    alloc: Global,
    host: &mut MemoryHost,
    gate: &G,
    list: &str,
    input: &str,
) -> Result<Status, AllocError> {
    host.set_input(input.as_bytes())?;
    let words = words_of(alloc, list)?;
    let status = run_silo(rt, alloc, words.as_slice(), host, gate);
    drop(words);
    Ok(status)
}

/// Carries out the command of these words over this input.
pub fn carry<R: Threads + Wait + Sync>(
    rt: &R,
    alloc: Global,
    host: &mut MemoryHost,
    list: &str,
    input: &str,
) -> Result<Status, AllocError> {
    carry_by(rt, alloc, host, &OpenGate, list, input)
}

/// Carries out the command of these words over this input, and gives the host back with how it ended.
pub fn carried<R: Threads + Wait + Sync>(
    rt: &R,
    alloc: Global,
    mut host: MemoryHost,
    list: &str,
    input: &str,
) -> Result<(MemoryHost, Status), AllocError> {
    match carry(rt, alloc, &mut host, list, input) {
        Ok(status) => Ok((host, status)),
        Err(error) => {
            drop(host);
            Err(error)
        }
    }
}

/// Carries out the command of these words over this input, but by workers, without a runtime.
pub fn carry_alone(
    alloc: Global,
    host: &mut MemoryHost,
    list: &str,
    input: &str,
) -> Result<Result<Status, ByWorkers>, AllocError> {
    host.set_input(input.as_bytes())?;
    let words = words_of(alloc, list)?;
    let ended = run_alone(alloc, words.as_slice(), host, &OpenGate);
    drop(words);
    Ok(ended)
}

/// What was put out, as text.
pub fn output_of(host: &MemoryHost) -> &str {
    std::str::from_utf8(host.output()).unwrap_or("?")
}

/// How many lines a text has.
pub fn count_lines(text: &str) -> usize {
    text.lines().count()
}

/// An image that a crash may leave after so many calls, or within the next one; after all calls where there were fewer.
pub fn image_of(host: &MemoryHost, after: u64, pick: u64) -> Result<MemoryHost, AllocError> {
    host.crashed(after.min(host.calls()), pick)
}

/// A host with what another one has on its disk.
pub fn copied(host: &MemoryHost) -> Result<MemoryHost, AllocError> {
    host.crashed(host.calls(), 0)
}
