use crate::changes::copied;
use host_memory::MemoryHost;
use silo_opening::{OpenFault, init, open_silo};
use std::alloc::{AllocError, Global};

// Whether the folder is a silo with so many records; or none, and can be made one, where none may be.
fn is_sound(
    alloc: Global,
    image: &mut MemoryHost,
    input: Option<&str>,
    count: u64,
) -> Result<bool, AllocError> {
    match open_silo(alloc, image) {
        Ok(opened) => Ok(opened.count == count),
        Err(OpenFault::NotASilo) => match input {
            Some(text) => {
                image.set_input(text.as_bytes())?;
                Ok(init(alloc, image).is_ok() && open_silo(alloc, image).is_ok())
            }
            None => Ok(false),
        },
        Err(_) => Ok(false),
    }
}

// Whether the first eight images that a crash leaves after so many calls are sound.
fn are_sound(
    alloc: Global,
    whole: &MemoryHost,
    calls: u64,
    input: Option<&str>,
    count: u64,
) -> Result<bool, AllocError> {
    if calls > whole.calls() {
        return Ok(false);
    }
    for pick in 0..8u64 {
        let mut image = whole.crashed(calls, pick)?;
        if !is_sound(alloc, &mut image, input, count)? {
            return Ok(false);
        }
    }
    Ok(true)
}

// Whether a making that stops after so many calls fails.
fn is_refused(alloc: Global, text: &str, calls: u64) -> Result<bool, AllocError> {
    let mut host = MemoryHost::new(alloc, text.as_bytes())?;
    host.stop_after(calls);
    Ok(init(alloc, &mut host).is_err())
}

/// Writes whether a making of a program that stops after each of its calls fails, and leaves no silo or a new one.
pub fn add_stopped_making(alloc: Global, out: &mut String, text: &str) -> Result<(), AllocError> {
    let mut whole = MemoryHost::new(alloc, text.as_bytes())?;
    let made = init(alloc, &mut whole).is_ok();
    for calls in 0..whole.calls() {
        let refused = is_refused(alloc, text, calls)?;
        if !refused || !are_sound(alloc, &whole, calls, Some(text), 0)? {
            return write!(out, "not so after {calls} calls");
        }
    }
    let lasts = made && are_sound(alloc, &whole, whole.calls(), None, 0)?;
    out.push_str(if lasts {
        "so after each"
    } else {
        "not so in the end"
    })
}

// Whether an opening that stops after so many calls fails.
fn is_unopened(alloc: Global, folder: &MemoryHost, calls: u64) -> Result<bool, AllocError> {
    let mut host = copied(alloc, folder)?;
    host.stop_after(calls);
    Ok(open_silo(alloc, &mut host).is_err())
}

/// Writes whether an opening that stops after each of its calls fails, and leaves the folder with so many records.
pub fn add_stopped_opening(
    alloc: Global,
    out: &mut String,
    folder: &MemoryHost,
    count: u64,
) -> Result<(), AllocError> {
    let mut whole = copied(alloc, folder)?;
    let opened = open_silo(alloc, &mut whole).is_ok();
    for calls in 0..whole.calls() {
        let refused = is_unopened(alloc, folder, calls)?;
        if !refused || !are_sound(alloc, &whole, calls, None, count)? {
            return write!(out, "not so after {calls} calls");
        }
    }
    out.push_str(if opened {
        "so after each"
    } else {
        "not opened"
    })
}
