// The six transfers with one of their calls failing: how the run ends, and that each image that a crash may leave then stands for
// what the replies say.
use crate::answers::add_end;
use crate::bank::read_books;
use crate::commands::{IMAGES, copied, count_lines, image_of, output_of};
use crate::names::Fault;
use crate::transfers::{books_after, is_cut, transfer, transferred};
use host_memory::MemoryHost;
use silo_top::Status;
use std::alloc::{AllocError, Global};
use std::sync::Wait;
use std::thread::Threads;

// Whether these books may stand behind a run that ended so. Behind an emit that failed they may be those of what was to be
// put out. In doubt they may be those of the whole batch too, whose lines are the whole run's.
fn may_stand(books: i64, status: Status, output: &str, whole: &str) -> bool {
    let replies = count_lines(output);
    match status {
        Status::WriteFault => is_cut(books, whole, replies),
        Status::Done => books == books_after(output, replies),
        _ => books == books_after(output, replies) || books == books_after(whole, replies),
    }
}

// Whether an image's books are what a run's end says of them.
fn is_sound<R: Threads + Wait + Sync>(
    rt: &R,
    alloc: Global,
    mut image: MemoryHost,
    status: Status,
    output: &str,
    whole: &str,
) -> Result<bool, AllocError> {
    let read = read_books(rt, alloc, &mut image);
    drop(image);
    match read? {
        Some(books) => Ok(may_stand(books, status, output, whole)),
        None => Ok(false),
    }
}

// How many images of a crash behind the run are sound.
fn count_sound<R: Threads + Wait + Sync>(
    rt: &R,
    alloc: Global,
    host: &MemoryHost,
    status: Status,
    whole: &str,
) -> Result<u64, AllocError> {
    let mut count = 0u64;
    for pick in 0..IMAGES {
        let image = image_of(host, host.calls(), pick)?;
        if is_sound(rt, alloc, image, status, output_of(host), whole)? {
            count = count.wrapping_add(1);
        }
    }
    Ok(count)
}

// Has this host carry the six transfers with a call that fails.
fn add_failed<R: Threads + Wait + Sync>(
    rt: &R,
    alloc: Global,
    out: &mut String,
    host: &mut MemoryHost,
    fault: Fault,
    whole: &str,
) -> Result<(), AllocError> {
    host.fail_on(fault.what, fault.channel, fault.nth)?;
    let status = transfer(rt, alloc, host)?;
    add_end(out, status, host)?;
    if output_of(host) == whole {
        out.push_str(", as if no call failed")?;
    }
    let sound = count_sound(rt, alloc, host, status, whole)?;
    write!(out, ", {sound} of {IMAGES} images are sound")
}

// Has a copy of the host carry the six transfers with a call that fails.
fn add_copy<R: Threads + Wait + Sync>(
    rt: &R,
    alloc: Global,
    out: &mut String,
    before: &MemoryHost,
    fault: Fault,
    whole: &str,
) -> Result<(), AllocError> {
    let mut host = copied(before)?;
    let added = add_failed(rt, alloc, out, &mut host, fault, whole);
    drop(host);
    added
}

/// Writes how the run of a copy of the host ends whose call fails, how many replies it has where all is done, and how many images
/// are sound.
pub fn add_fault<R: Threads + Wait + Sync>(
    rt: &R,
    alloc: Global,
    out: &mut String,
    before: &MemoryHost,
    fault: Fault,
) -> Result<(), AllocError> {
    let whole = transferred(rt, alloc, before)?;
    let added = add_copy(rt, alloc, out, before, fault, output_of(&whole));
    drop(whole);
    added
}
