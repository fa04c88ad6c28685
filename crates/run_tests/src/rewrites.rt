// A silo whose next generation is written, with a stop after each call, and with each call failing in turn: `show` prints the same of
// each image that a crash may leave.
use crate::commands::{IMAGES, carried, copied, image_of, output_of};
use host_memory::MemoryHost;
use silo_top::Status;
use std::alloc::{AllocError, Global};
use std::sync::Wait;
use std::thread::Threads;

// Whether a folder's states are those that are wanted.
fn shows<R: Threads + Wait + Sync>(
    rt: &R,
    alloc: Global,
    image: MemoryHost,
    wanted: &str,
) -> Result<bool, AllocError> {
    let (image, status) = carried(rt, alloc, image, "show", "")?;
    let is_wanted = output_of(&image) == wanted;
    drop(image);
    Ok(status == Status::Done && is_wanted)
}

// Whether each image that a crash there may leave has these states.
fn all_show<R: Threads + Wait + Sync>(
    rt: &R,
    alloc: Global,
    host: &MemoryHost,
    after: u64,
    wanted: &str,
) -> Result<bool, AllocError> {
    for pick in 0..IMAGES {
        let image = image_of(host, after, pick)?;
        if !shows(rt, alloc, image, wanted)? {
            return Ok(false);
        }
    }
    Ok(true)
}

// Whether a next generation that wasn't written to its end left the silo whole.
fn ends_well<R: Threads + Wait + Sync>(
    rt: &R,
    alloc: Global,
    host: MemoryHost,
    wanted: &str,
) -> Result<bool, AllocError> {
    let (host, status) = carried(rt, alloc, host, "compact", "")?;
    let is_whole = all_show(rt, alloc, &host, host.calls(), wanted);
    drop(host);
    Ok(status != Status::Done && is_whole?)
}

// Whether the silo is whole where the host stops after so many calls, where the next one fails, and where a crash comes within that.
fn stops_well<R: Threads + Wait + Sync>(
    rt: &R,
    alloc: Global,
    before: &MemoryHost,
    whole: &MemoryHost,
    stop: u64,
    wanted: &str,
) -> Result<bool, AllocError> {
    let mut stopped = copied(before)?;
    stopped.stop_after(stop);
    if !ends_well(rt, alloc, stopped, wanted)? {
        return Ok(false);
    }
    let mut failing = copied(before)?;
    failing.fail_call(stop.saturating_add(1));
    Ok(ends_well(rt, alloc, failing, wanted)? && all_show(rt, alloc, whole, stop, wanted)?)
}

// The states of a folder.
fn states<R: Threads + Wait + Sync>(
    rt: &R,
    alloc: Global,
    before: &MemoryHost,
) -> Result<String, AllocError> {
    let (host, _status) = carried(rt, alloc, copied(before)?, "show", "")?;
    let states = String::from_str(alloc, output_of(&host));
    drop(host);
    states
}

// The first call after which the next generation doesn't stop well.
fn bad_stop<R: Threads + Wait + Sync>(
    rt: &R,
    alloc: Global,
    before: &MemoryHost,
    whole: &MemoryHost,
    wanted: &str,
) -> Result<Option<u64>, AllocError> {
    for stop in 0..whole.calls() {
        if !stops_well(rt, alloc, before, whole, stop, wanted)? {
            return Ok(Some(stop));
        }
    }
    Ok(None)
}

// Writes whether the next generation stops well after each of its calls, and is whole in the end.
fn add_rewritten<R: Threads + Wait + Sync>(
    rt: &R,
    alloc: Global,
    out: &mut String,
    before: &MemoryHost,
    whole: &MemoryHost,
    wanted: &str,
) -> Result<(), AllocError> {
    if let Some(stop) = bad_stop(rt, alloc, before, whole, wanted)? {
        return write!(out, "not well after {stop} calls");
    }
    if !all_show(rt, alloc, whole, whole.calls(), wanted)? {
        return out.push_str("not well in the end");
    }
    out.push_str("well after each call")
}

/// Writes whether the next generation of a copy of the host stops well after each of its calls, and is whole in the end.
pub fn add_rewrites<R: Threads + Wait + Sync>(
    rt: &R,
    alloc: Global,
    out: &mut String,
    before: &MemoryHost,
) -> Result<(), AllocError> {
    let wanted = states(rt, alloc, before)?;
    let (whole, status) = carried(rt, alloc, copied(before)?, "compact", "")?;
    let added = match status {
        Status::Done => add_rewritten(rt, alloc, out, before, &whole, wanted.as_str()),
        _ => write!(out, "{status:?}"),
    };
    drop(whole);
    added
}
