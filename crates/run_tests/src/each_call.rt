// Commands one after another with each of their calls failing in turn, and with a stop after each call. Each command ends as its faults
// say, and each image that a crash may leave behind it replays, and has a record for each line that says that one is there.
use crate::commands::{carry, copied, count_lines, image_of, output_of};
use base_types::GrainId;
use host_memory::MemoryHost;
use host_trait::{Channel, FileId};
use silo_top::Status;
use std::alloc::{AllocError, Global};
use std::sync::Wait;
use std::thread::Threads;

// How many images of a crash are looked at: all that is pending is lost, or kept, or torn, or garbage. Those are the picks 0 to 7, since
// behind the last call an odd pick gives the image of the one before it.
const WAYS: u64 = 4;

// The channels of each silo.
const CHANNELS: [Channel; 6] = [
    Channel::Input,
    Channel::Output,
    Channel::File(FileId::Manager { slot: 0 }),
    Channel::File(FileId::Manager { slot: 1 }),
    Channel::File(FileId::Program { slot: 0 }),
    Channel::File(FileId::Program { slot: 1 }),
];

// How many files of grains there may be: two slots, four types, and keys below four.
const GRAIN_FILES: u64 = 32;

// What comes of the calls behind the first so many: the next one fails, or all do.
#[derive(Clone, Copy)]
enum Trouble {
    Failure,
    Stop,
}

// Commands, of which the first has an input, over copies of a host that has so many records; and how many calls come before a line.
#[derive(Clone, Copy)]
struct Case<'a> {
    before: &'a MemoryHost,
    list: &'a str,
    input: &'a str,
    records: u64,
    quiet: u64,
}

fn make_trouble(host: &mut MemoryHost, trouble: Trouble, good: u64) {
    match trouble {
        Trouble::Failure => host.fail_call(good.saturating_add(1)),
        Trouble::Stop => host.stop_after(good),
    }
}

// The file of a grain, by a number.
fn grain_file(number: u64) -> FileId {
    FileId::Grain {
        slot: (number % 2) as u8,
        grain: GrainId {
            kind: (number / 2 % 4) as u16,
            key: (number / 8 % 4) as u32,
        },
    }
}

fn count_grain_faults(host: &MemoryHost) -> u64 {
    let mut count = 0u64;
    for number in 0..GRAIN_FILES {
        count = count.saturating_add(host.faults(Channel::File(grain_file(number))));
    }
    count
}

// How many calls have failed by now.
fn count_faults(host: &MemoryHost) -> u64 {
    let mut count = count_grain_faults(host);
    for channel in CHANNELS {
        count = count.saturating_add(host.faults(channel));
    }
    count
}

// Whether a fault of its own kind bears the end of a command out of which a call failed. A grain's file ends a run too, where a version of
// it was to be read for a line.
fn is_borne_out(host: &MemoryHost, status: Status, is_begun: bool) -> bool {
    match status {
        Status::Done => {
            is_begun && host.faults(Channel::Input) == 0 && host.faults(Channel::Output) == 0
        }
        Status::ReadFault => host.faults(Channel::Input) > 0,
        Status::WriteFault => host.faults(Channel::Output) > 0,
        Status::DiskFault { file } => host.faults(Channel::File(file)) > 0,
        _ => false,
    }
}

// How many lines say that a record is there.
fn count_logged(output: &str) -> u64 {
    let mut count = 0u64;
    for line in output.lines() {
        if line.starts_with("{\"n\":") || line.starts_with("{\"fault\":") {
            count = count.wrapping_add(1);
        }
    }
    count
}

// The records that an audit counts which finds none that is bad.
fn count_in(output: &str) -> Option<u64> {
    let (_, behind) = output.split_once("{\"count\":")?;
    let (count, rest) = behind.split_once(",")?;
    if rest != "\"first_bad\":null}\n" {
        return None;
    }
    count.parse::<u64>().ok()
}

// Audits what a host holds, which is migrated before that where it is of format 1.
fn audit<R: Threads + Wait + Sync>(
    rt: &R,
    alloc: Global,
    image: &mut MemoryHost,
) -> Result<Status, AllocError> {
    let status = carry(rt, alloc, image, "audit", "")?;
    if status != Status::OldFormat {
        return Ok(status);
    }
    let migrated = carry(rt, alloc, image, "migrate", "")?;
    if migrated != Status::Done {
        return Ok(migrated);
    }
    carry(rt, alloc, image, "audit", "")
}

// The records of what a host holds, which is audited, none where they don't replay.
fn audited_records<R: Threads + Wait + Sync>(
    rt: &R,
    alloc: Global,
    image: &mut MemoryHost,
) -> Result<Option<u64>, AllocError> {
    let status = audit(rt, alloc, image)?;
    if status != Status::Done {
        return Ok(None);
    }
    Ok(count_in(output_of(image)))
}

// The records of what a host holds, none where they don't replay.
fn records_in<R: Threads + Wait + Sync>(
    rt: &R,
    alloc: Global,
    mut image: MemoryHost,
) -> Result<Option<u64>, AllocError> {
    let records = audited_records(rt, alloc, &mut image);
    drop(image);
    records
}

// What is untrue of the images that a crash may leave, which replay, and have a record for each line that told of one.
fn untruth_of_images<R: Threads + Wait + Sync>(
    rt: &R,
    alloc: Global,
    case: &Case,
    host: &MemoryHost,
) -> Result<Option<&'static str>, AllocError> {
    let least = case.records.wrapping_add(count_logged(output_of(host)));
    for way in 0..WAYS {
        let image = image_of(host, host.calls(), 2 * way)?;
        match records_in(rt, alloc, image)? {
            Some(count) => {
                if count < least {
                    return Ok(Some("an image without a record that was told"));
                }
            }
            None => return Ok(Some("an image that doesn't replay")),
        }
    }
    Ok(None)
}

// What is untrue of the end of a command: done where no call failed, borne out where one did; and each line has its reply where all is done.
fn untruth_of_end<R: Threads + Wait + Sync>(
    rt: &R,
    alloc: Global,
    host: &mut MemoryHost,
    words: &str,
    input: &str,
    is_begun: bool,
) -> Result<Option<&'static str>, AllocError> {
    let before = count_faults(host);
    let told = count_lines(output_of(host));
    let status = carry(rt, alloc, host, words, input)?;
    if count_faults(host) == before {
        if status != Status::Done {
            return Ok(Some("not done, and no call failed"));
        }
    } else if !is_borne_out(host, status, is_begun) {
        return Ok(Some("an end that no fault bears out"));
    }
    let is_run = words.starts_with("run") && status == Status::Done;
    let wanted = told.wrapping_add(count_lines(input));
    if is_run && count_lines(output_of(host)) != wanted {
        return Ok(Some("done, and a line has no reply"));
    }
    Ok(None)
}

// What is untrue of the images behind a command: where a call has failed by then. A host that has stopped is looked at in the end.
fn untruth_between<R: Threads + Wait + Sync>(
    rt: &R,
    alloc: Global,
    case: &Case,
    trouble: Trouble,
    host: &MemoryHost,
) -> Result<Option<&'static str>, AllocError> {
    match trouble {
        Trouble::Failure => {
            if count_faults(host) == 0 {
                return Ok(None);
            }
            untruth_of_images(rt, alloc, case, host)
        }
        Trouble::Stop => Ok(None),
    }
}

// The input of a command, which only the first one has.
fn given_to(is_first: bool, input: &str) -> &str {
    if is_first { input } else { "" }
}

// What is untrue of commands over a copy of the host, whose calls go so far without trouble.
fn untruth_of_copy<R: Threads + Wait + Sync>(
    rt: &R,
    alloc: Global,
    case: &Case,
    trouble: Trouble,
    good: u64,
    host: &mut MemoryHost,
) -> Result<Option<&'static str>, AllocError> {
    make_trouble(host, trouble, good);
    let mut is_first = true;
    for words in case.list.split("; ") {
        let input = given_to(is_first, case.input);
        let is_begun = is_first && good >= case.quiet;
        let ended = untruth_of_end(rt, alloc, host, words, input, is_begun)?;
        if ended.is_some() {
            return Ok(ended);
        }
        let left = untruth_between(rt, alloc, case, trouble, host)?;
        if left.is_some() {
            return Ok(left);
        }
        is_first = false;
    }
    match trouble {
        Trouble::Failure => Ok(None),
        Trouble::Stop => untruth_of_images(rt, alloc, case, host),
    }
}

// What is untrue of commands whose calls go so far without trouble.
fn untruth_of_all<R: Threads + Wait + Sync>(
    rt: &R,
    alloc: Global,
    case: &Case,
    trouble: Trouble,
    good: u64,
) -> Result<Option<&'static str>, AllocError> {
    let mut host = copied(case.before)?;
    let untruth = untruth_of_copy(rt, alloc, case, trouble, good, &mut host);
    drop(host);
    untruth
}

// Writes the first untruth of the commands in that trouble behind none, one, .. of so many calls; answers whether there is one.
fn add_untruth<R: Threads + Wait + Sync>(
    rt: &R,
    alloc: Global,
    out: &mut String,
    case: &Case,
    trouble: Trouble,
    calls: u64,
) -> Result<bool, AllocError> {
    for good in 0..calls {
        if let Some(untruth) = untruth_of_all(rt, alloc, case, trouble, good)? {
            let what = match trouble {
                Trouble::Failure => "a failing call",
                Trouble::Stop => "a stop",
            };
            write!(out, "{what} behind {good} others: {untruth}")?;
            return Ok(true);
        }
    }
    Ok(false)
}

// Carries commands, one after another.
fn carry_all<R: Threads + Wait + Sync>(
    rt: &R,
    alloc: Global,
    host: &mut MemoryHost,
    list: &str,
    input: &str,
) -> Result<(), AllocError> {
    let mut is_first = true;
    for words in list.split("; ") {
        carry(rt, alloc, host, words, given_to(is_first, input))?;
        is_first = false;
    }
    Ok(())
}

// How many calls commands make over a copy of the host where there is no trouble.
fn count_calls<R: Threads + Wait + Sync>(
    rt: &R,
    alloc: Global,
    before: &MemoryHost,
    list: &str,
    input: &str,
) -> Result<u64, AllocError> {
    let mut host = copied(before)?;
    let carried = carry_all(rt, alloc, &mut host, list, input);
    let calls = host.calls();
    drop(host);
    carried?;
    Ok(calls)
}

// How many calls the first of the commands makes that has no line to carry.
fn count_quiet<R: Threads + Wait + Sync>(
    rt: &R,
    alloc: Global,
    before: &MemoryHost,
    list: &str,
) -> Result<u64, AllocError> {
    let (first, _) = list.split_once("; ").unwrap_or((list, ""));
    count_calls(rt, alloc, before, first, "")
}

// Writes what is untrue of the commands in each trouble, or how much was looked at.
fn add_cases<R: Threads + Wait + Sync>(
    rt: &R,
    alloc: Global,
    out: &mut String,
    case: &Case,
    calls: u64,
) -> Result<(), AllocError> {
    if add_untruth(rt, alloc, out, case, Trouble::Failure, calls)?
        || add_untruth(rt, alloc, out, case, Trouble::Stop, calls)?
    {
        return Ok(());
    }
    write!(
        out,
        "{calls} failing calls, {calls} stops, {WAYS} images behind each: no untruth"
    )
}

/// Writes what is untrue of commands over copies of the host, of which each of so many calls fails, or which stop after each of them, or
/// how much was looked at. Where nothing fails they make so many calls, and with workers at most so many. A `; ` stands between two.
pub fn add_each_call<R: Threads + Wait + Sync>(
    rt: &R,
    alloc: Global,
    out: &mut String,
    before: &MemoryHost,
    calls: u64,
    list: &str,
    input: &str,
) -> Result<(), AllocError> {
    let Some(records) = records_in(rt, alloc, copied(before)?)? else {
        return out.push_str("no silo");
    };
    let made = count_calls(rt, alloc, before, list, input)?;
    if made > calls || (made < calls && !list.contains("--workers")) {
        return write!(out, "it makes {made} calls");
    }
    let quiet = count_quiet(rt, alloc, before, list)?;
    let case = Case {
        before,
        list,
        input,
        records,
        quiet,
    };
    add_cases(rt, alloc, out, &case, calls)
}
