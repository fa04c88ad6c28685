// What is told of a command's end and of what a host has.
use crate::bank::{is_new_silo, program_text, read_books, sum_of};
use crate::commands::{IMAGES, carried, copied, count_lines, image_of, output_of};
use crate::names::{MANAGER, file_of};
use host_memory::MemoryHost;
use silo_top::Status;
use std::alloc::{AllocError, Global};
use std::sync::Wait;
use std::thread::Threads;

/// Writes a status, and on lines of their own what the host has put out.
pub fn add_output(out: &mut String, status: Status, host: &MemoryHost) -> Result<(), AllocError> {
    let output = output_of(host);
    write!(out, "{status:?}\n{output}")
}

/// Writes a status, and how many lines the host has put out where all is done.
pub fn add_end(out: &mut String, status: Status, host: &MemoryHost) -> Result<(), AllocError> {
    write!(out, "{status:?}")?;
    if status != Status::Done {
        return Ok(());
    }
    let replies = count_lines(output_of(host));
    write!(out, ", {replies} replies")
}

/// Writes a status, and how many lines the host has put out.
pub fn add_any_end(out: &mut String, status: Status, host: &MemoryHost) -> Result<(), AllocError> {
    let replies = count_lines(output_of(host));
    write!(out, "{status:?}, {replies} replies")
}

/// Writes the number and the text of a status.
pub fn add_said(alloc: Global, out: &mut String, status: Status) -> Result<(), AllocError> {
    let number = status.number();
    let text = status.text(alloc)?;
    let text = std::str::from_utf8(text.as_slice()).unwrap_or("?");
    write!(out, "{number}, {text}")
}

/// Writes how many syncs were asked since there were this many, and how long the log is.
pub fn add_left(out: &mut String, host: &MemoryHost, before: u64) -> Result<(), AllocError> {
    let syncs = host.syncs().wrapping_sub(before);
    write!(out, "syncs {syncs}, log ")?;
    add_size(out, host, "manager")
}

/// Writes how long a file is.
pub fn add_size(out: &mut String, host: &MemoryHost, name: &str) -> Result<(), AllocError> {
    let Some(file) = file_of(name) else {
        return out.push_str("no such file");
    };
    match host.file(file) {
        Some(bytes) => {
            let size = bytes.len();
            write!(out, "{size}")
        }
        None => out.push_str("none"),
    }
}

/// Writes whether the host has put out whole lines, and one of them is this one.
pub fn add_whether_has(
    out: &mut String,
    host: &MemoryHost,
    wanted: &str,
) -> Result<(), AllocError> {
    let output = output_of(host);
    let has = output.ends_with("\n") && has_line(output, wanted);
    write!(out, "{has}")
}

fn has_line(text: &str, wanted: &str) -> bool {
    for line in text.lines() {
        if line == wanted {
            return true;
        }
    }
    false
}

/// Writes whether the host is a new silo of the bank program.
pub fn add_whether_new(
    alloc: Global,
    out: &mut String,
    host: &MemoryHost,
) -> Result<(), AllocError> {
    let text = program_text(alloc)?;
    let is_new = is_new_silo(host, text.as_bytes());
    write!(out, "{is_new}")
}

/// The sum of the three accounts in what the host holds by now, none where no run over it is done.
pub fn money_in<R: Threads + Wait + Sync>(
    rt: &R,
    alloc: Global,
    host: &MemoryHost,
) -> Result<Option<i64>, AllocError> {
    let mut image = copied(host)?;
    let read = read_books(rt, alloc, &mut image);
    drop(image);
    match read? {
        Some(books) => Ok(Some(sum_of(books))),
        None => Ok(None),
    }
}

/// Writes the sum of the three accounts in what the host holds by now.
pub fn add_money<R: Threads + Wait + Sync>(
    rt: &R,
    alloc: Global,
    out: &mut String,
    host: &MemoryHost,
) -> Result<(), AllocError> {
    match money_in(rt, alloc, host)? {
        Some(sum) => write!(out, "{sum}"),
        None => out.push_str("none"),
    }
}

// Writes a status, what the host has put out, and an empty line, where these aren't written already.
fn add_once(
    alloc: Global,
    out: &mut String,
    status: Status,
    host: &MemoryHost,
) -> Result<(), AllocError> {
    let mut end = String::new(alloc);
    add_output(&mut end, status, host)?;
    end.push_str("\n")?;
    if out.contains(end.as_str()) {
        return Ok(());
    }
    out.push_str(end.as_str())
}

// Carries a command over an image, and writes its end once.
fn add_image<R: Threads + Wait + Sync>(
    rt: &R,
    alloc: Global,
    out: &mut String,
    image: MemoryHost,
    words: &str,
    input: &str,
) -> Result<(), AllocError> {
    let (image, status) = carried(rt, alloc, image, words, input)?;
    let added = add_once(alloc, out, status, &image);
    drop(image);
    added
}

/// Writes each end, with what is put out, that a command has over the images of a crash, once.
pub fn add_images<R: Threads + Wait + Sync>(
    rt: &R,
    alloc: Global,
    out: &mut String,
    host: &MemoryHost,
    words: &str,
    input: &str,
) -> Result<(), AllocError> {
    write!(out, "in {IMAGES} images one of these\n")?;
    for pick in 0..IMAGES {
        let image = image_of(host, host.calls(), pick)?;
        add_image(rt, alloc, out, image, words, input)?;
    }
    Ok(())
}
