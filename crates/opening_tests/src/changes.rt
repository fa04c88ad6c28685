use crate::answers::add_opening;
use crate::names::{NAMES, file_of};
use host_memory::MemoryHost;
use std::alloc::{AllocError, Global};

// A host with the files of another one, of which one has other bytes.
fn host_with(
    alloc: Global,
    host: &MemoryHost,
    changed: &str,
    bytes: &[u8],
) -> Result<MemoryHost, AllocError> {
    let mut made = MemoryHost::new(alloc, &[])?;
    for name in NAMES {
        let Some(file) = file_of(name) else {
            continue;
        };
        if name == changed {
            made.set_file(file, bytes)?;
        } else if let Some(old) = host.file(file) {
            made.set_file(file, old)?;
        }
    }
    Ok(made)
}

/// A host with the files of another one.
pub fn copied(alloc: Global, host: &MemoryHost) -> Result<MemoryHost, AllocError> {
    host_with(alloc, host, "", &[])
}

// What opening answers where a file has these bytes.
fn answer_with(
    alloc: Global,
    host: &MemoryHost,
    changed: &str,
    bytes: &[u8],
) -> Result<String, AllocError> {
    let mut made = host_with(alloc, host, changed, bytes)?;
    let mut out = String::new(alloc);
    add_opening(alloc, &mut out, &mut made)?;
    Ok(out)
}

// The byte that stands at a place in turn for the old one: `next` or another.
fn byte_for(how: &str, at: usize, old: u8) -> u8 {
    match at % 4 {
        _ if how == "next" => old.wrapping_add(1),
        0 => 0,
        1 => 255,
        2 => old ^ 128,
        _ => old.wrapping_sub(1),
    }
}

// The bytes, cut at a place, or with another byte there.
fn changed_at(alloc: Global, whole: &[u8], how: &str, at: usize) -> Result<Vec<u8>, AllocError> {
    let mut bytes = whole.to_vec(alloc)?;
    if how.is_empty() {
        bytes.truncate(at);
    } else if at < bytes.len() {
        bytes[at] = byte_for(how, at, bytes[at]);
    }
    Ok(bytes)
}

/// Writes what opening answers where the file is cut at each place, or has another byte there. An answer stands at the first place
/// that has it.
pub fn add_changes(
    alloc: Global,
    out: &mut String,
    host: &MemoryHost,
    name: &str,
    how: &str,
) -> Result<(), AllocError> {
    let Some(file) = file_of(name) else {
        return out.push_str("no such file");
    };
    let whole = host.file(file).unwrap_or(&[]);
    let mut last = String::new(alloc);
    for at in 0..whole.len() {
        let bytes = changed_at(alloc, whole, how, at)?;
        let told = answer_with(alloc, host, name, &bytes)?;
        if told.as_str() != last.as_str() {
            write!(out, "\n  {at}: {told}")?;
            last = told;
        }
    }
    Ok(())
}
