// A run that stops after each of its calls, and a crash after and within each of them: what was answered stands in each image, and
// each image stands for the first of the run's transfers.
use crate::bank::read_books;
use crate::commands::{IMAGES, copied, count_lines, image_of, output_of};
use crate::transfers::{is_cut, transfer, transferred};
use host_memory::MemoryHost;
use silo_top::Status;
use std::alloc::{AllocError, Global};
use std::sync::Wait;
use std::thread::Threads;

// An image that a crash may leave after so many calls, of a host that stopped there, or within the next one, of the whole run.
fn image_at(
    stopped: &MemoryHost,
    whole: &MemoryHost,
    stop: u64,
    pick: u64,
) -> Result<MemoryHost, AllocError> {
    if pick % 2 == 0 {
        return image_of(stopped, stop, pick);
    }
    image_of(whole, stop, pick)
}

// Whether an image stands for the first of the replies, so many or more.
fn is_sound<R: Threads + Wait + Sync>(
    rt: &R,
    alloc: Global,
    mut image: MemoryHost,
    replies: &str,
    answered: usize,
) -> Result<bool, AllocError> {
    let read = read_books(rt, alloc, &mut image);
    drop(image);
    match read? {
        Some(books) => Ok(is_cut(books, replies, answered)),
        None => Ok(false),
    }
}

// Whether the images of a crash there, where so many lines were answered, are sound.
fn are_sound<R: Threads + Wait + Sync>(
    rt: &R,
    alloc: Global,
    stopped: &MemoryHost,
    whole: &MemoryHost,
    stop: u64,
    answered: usize,
) -> Result<bool, AllocError> {
    for pick in 0..IMAGES {
        let image = image_at(stopped, whole, stop, pick)?;
        if !is_sound(rt, alloc, image, output_of(whole), answered)? {
            return Ok(false);
        }
    }
    Ok(true)
}

// Whether a run that stops after so many calls has answered first of what the whole one has, and leaves sound images.
fn stops_well<R: Threads + Wait + Sync>(
    rt: &R,
    alloc: Global,
    host: &mut MemoryHost,
    whole: &MemoryHost,
    stop: u64,
) -> Result<bool, AllocError> {
    host.stop_after(stop);
    let status = transfer(rt, alloc, host)?;
    if status == Status::Done || host.calls() != stop {
        return Ok(false);
    }
    let output = output_of(host);
    if !output_of(whole).starts_with(output) {
        return Ok(false);
    }
    are_sound(rt, alloc, host, whole, stop, count_lines(output))
}

// Whether a copy of the host stops well after so many calls.
fn stops_well_after<R: Threads + Wait + Sync>(
    rt: &R,
    alloc: Global,
    before: &MemoryHost,
    whole: &MemoryHost,
    stop: u64,
) -> Result<bool, AllocError> {
    let mut host = copied(before)?;
    let is_well = stops_well(rt, alloc, &mut host, whole, stop);
    drop(host);
    is_well
}

// The first call after which the six transfers don't stop well.
fn bad_stop<R: Threads + Wait + Sync>(
    rt: &R,
    alloc: Global,
    before: &MemoryHost,
    whole: &MemoryHost,
) -> Result<Option<u64>, AllocError> {
    for stop in 0..whole.calls() {
        if !stops_well_after(rt, alloc, before, whole, stop)? {
            return Ok(Some(stop));
        }
    }
    Ok(None)
}

// Writes whether the run stops well, and leaves sound images behind the last call.
fn add_stopped<R: Threads + Wait + Sync>(
    rt: &R,
    alloc: Global,
    out: &mut String,
    before: &MemoryHost,
    whole: &MemoryHost,
) -> Result<(), AllocError> {
    let calls = whole.calls();
    if let Some(stop) = bad_stop(rt, alloc, before, whole)? {
        return write!(out, "not well after {stop} calls");
    }
    if !are_sound(rt, alloc, whole, whole, calls, 6)? {
        return out.push_str("not well in the end");
    }
    write!(out, "well after each of {calls} calls")
}

/// Writes whether the six transfers stop well after each of their calls, and leave sound images behind the last one.
pub fn add_stops<R: Threads + Wait + Sync>(
    rt: &R,
    alloc: Global,
    out: &mut String,
    before: &MemoryHost,
) -> Result<(), AllocError> {
    let whole = transferred(rt, alloc, before)?;
    let added = add_stopped(rt, alloc, out, before, &whole);
    drop(whole);
    added
}
