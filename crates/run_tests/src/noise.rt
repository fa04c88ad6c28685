// Runs by workers whose threads are held up at each place, as a seed draws it: nothing, a yield, a spin or a sleep. However they
// come, each line is answered once at most, the log replays, and the money stays.
use crate::answers::money_in;
use crate::commands::{carried, carry_by, copied, count_lines, output_of};
use crate::names::{Fault, fault_of};
use host_memory::MemoryHost;
use silo_top::{Gate, GatePlace, Status};
use std::alloc::{AllocError, Global};
use std::hint::spin_loop;
use std::sync::Wait;
use std::sync::atomic::{AtomicU64, Ordering};
use std::thread::{Threads, yield_now};
use std::time::Duration;

// What three accounts with 100 each come to.
const MONEY: i64 = 300;

// How many lines a run may have.
const MOST_LINES: usize = 1024;

// Calls of a host, each of which fails in a run of its own.
const FAULTS: [&str; 12] = [
    "sync manager 1",
    "sync manager 2",
    "sync manager 5",
    "write manager 1",
    "write manager 4",
    "write account/1 1",
    "write account/2 3",
    "sync account/1 1",
    "sync account/3 2",
    "emit output 1",
    "emit output 2",
    "emit output 9",
];

/// A gate that holds whoever reaches a place up, as a seed draws it.
#[derive(Drop)]
struct Noise<'a, R> {
    rt: &'a R,
    drawn: AtomicU64,
    never: AtomicU64,
}

// The bits of a number, mixed.
fn mixed(number: u64) -> u64 {
    let one = (number ^ (number >> 30)).wrapping_mul(0xbf58476d1ce4e5b9);
    let two = (one ^ (one >> 27)).wrapping_mul(0x94d049bb133111eb);
    two ^ (two >> 31)
}

fn spin(turns: u64) {
    for _turn in 0..turns {
        spin_loop();
    }
}

impl<'a, R: Wait> Gate for Noise<'a, R> {
    fn reach(&self, _place: GatePlace) {
        let drawn = mixed(self.drawn.fetch_add(0x9e3779b97f4a7c15, Ordering::SeqCst));
        match drawn % 8 {
            0 | 1 => yield_now(),
            2 => spin(100),
            3 => spin(10_000),
            4 => self
                .never
                .park_timeout(self.rt, 0, Duration::from_micros(drawn / 8 % 200)),
            _ => {}
        }
    }
}

// Carries a run with this noise.
fn carry_noisy<R: Threads + Wait + Sync>(
    rt: &R,
    alloc: Global,
    host: &mut MemoryHost,
    seed: u64,
    words: &str,
    input: &str,
) -> Result<Status, AllocError> {
    let gate = Noise {
        rt,
        drawn: AtomicU64::new(mixed(seed)),
        never: AtomicU64::new(0),
    };
    carry_by(rt, alloc, host, &gate, words, input)
}

// The line that a reply is of.
fn line_of(reply: &str) -> Option<usize> {
    let (_, behind) = reply.split_once("\"n\":")?;
    let (number, _) = behind.split_once(",")?;
    number.parse::<usize>().ok()
}

// Whether no line has two replies.
fn answers_once(alloc: Global, output: &str) -> Result<bool, AllocError> {
    let mut seen = Vec::new(alloc);
    for _ in 0..MOST_LINES {
        seen.push(false)?;
    }
    for reply in output.lines() {
        let Some(number) = line_of(reply) else {
            return Ok(false);
        };
        match seen.get_mut(number) {
            Some(place) => {
                if *place {
                    return Ok(false);
                }
                *place = true;
            }
            None => return Ok(false),
        }
    }
    Ok(true)
}

// Whether the log of what the host holds replays.
fn replays<R: Threads + Wait + Sync>(
    rt: &R,
    alloc: Global,
    host: &MemoryHost,
) -> Result<bool, AllocError> {
    let (image, status) = carried(rt, alloc, copied(host)?, "audit", "")?;
    let is_good = output_of(&image).ends_with("\"first_bad\":null}\n");
    drop(image);
    Ok(status == Status::Done && is_good)
}

// Whether a run ended well: no line has two replies, each has one where all was done, the log replays, and the money is there.
fn is_sound<R: Threads + Wait + Sync>(
    rt: &R,
    alloc: Global,
    host: &MemoryHost,
    status: Status,
    lines: usize,
) -> Result<bool, AllocError> {
    let output = output_of(host);
    if status == Status::Done && count_lines(output) != lines {
        return Ok(false);
    }
    if !answers_once(alloc, output)? || !replays(rt, alloc, host)? {
        return Ok(false);
    }
    Ok(money_in(rt, alloc, host)? == Some(MONEY))
}

// Whether the host carries the run well with this noise, where this call fails.
fn carries_well<R: Threads + Wait + Sync>(
    rt: &R,
    alloc: Global,
    host: &mut MemoryHost,
    seed: u64,
    fault: Option<Fault>,
    words: &str,
    input: &str,
) -> Result<bool, AllocError> {
    if let Some(fault) = fault {
        host.fail_on(fault.what, fault.channel, fault.nth)?;
    }
    let status = carry_noisy(rt, alloc, host, seed, words, input)?;
    if fault.is_none() && status != Status::Done {
        return Ok(false);
    }
    is_sound(rt, alloc, host, status, count_lines(input))
}

// Whether a copy of the host does.
fn goes_well<R: Threads + Wait + Sync>(
    rt: &R,
    alloc: Global,
    before: &MemoryHost,
    seed: u64,
    fault: Option<Fault>,
    words: &str,
    input: &str,
) -> Result<bool, AllocError> {
    let mut host = copied(before)?;
    let is_well = carries_well(rt, alloc, &mut host, seed, fault, words, input);
    drop(host);
    is_well
}

// Whether the host carries the run well with this noise, which ends by a stop of the host.
fn ends_well<R: Threads + Wait + Sync>(
    rt: &R,
    alloc: Global,
    host: &mut MemoryHost,
    seed: u64,
    words: &str,
    input: &str,
) -> Result<bool, AllocError> {
    let status = carry_noisy(rt, alloc, host, seed, words, input)?;
    is_sound(rt, alloc, host, status, count_lines(input))
}

// Whether a copy of the host carries the run well with this noise, and stops after so many calls.
fn stops_well<R: Threads + Wait + Sync>(
    rt: &R,
    alloc: Global,
    before: &MemoryHost,
    stop: u64,
    words: &str,
    input: &str,
) -> Result<bool, AllocError> {
    let mut host = copied(before)?;
    host.stop_after(stop);
    let is_well = ends_well(rt, alloc, &mut host, stop, words, input);
    drop(host);
    is_well
}

/// Carries the input over so many copies of the host, each with a noise of its own, and writes how many went well.
pub fn add_noisy<R: Threads + Wait + Sync>(
    rt: &R,
    alloc: Global,
    out: &mut String,
    host: &MemoryHost,
    runs: u64,
    words: &str,
    input: &str,
) -> Result<(), AllocError> {
    let mut well = 0u64;
    for seed in 0..runs {
        if goes_well(rt, alloc, host, seed, None, words, input)? {
            well = well.wrapping_add(1);
        }
    }
    write!(out, "{well} of {runs} runs went well")
}

/// Has each of some calls fail in a run of its own, with noise, and writes how many went well.
pub fn add_noisy_faults<R: Threads + Wait + Sync>(
    rt: &R,
    alloc: Global,
    out: &mut String,
    host: &MemoryHost,
    words: &str,
    input: &str,
) -> Result<(), AllocError> {
    let mut well = 0u64;
    for (seed, fault) in FAULTS.iter().enumerate() {
        let fault = fault_of(fault);
        if fault.is_some() && goes_well(rt, alloc, host, seed as u64, fault, words, input)? {
            well = well.wrapping_add(1);
        }
    }
    write!(out, "{well} of 12 runs went well")
}

/// Stops a run with noise after every seventh of its first calls, so many times, and writes how often it went well.
pub fn add_noisy_stops<R: Threads + Wait + Sync>(
    rt: &R,
    alloc: Global,
    out: &mut String,
    host: &MemoryHost,
    runs: u64,
    words: &str,
    input: &str,
) -> Result<(), AllocError> {
    let mut well = 0u64;
    for run in 0..runs {
        if stops_well(rt, alloc, host, run.wrapping_mul(7), words, input)? {
            well = well.wrapping_add(1);
        }
    }
    write!(out, "{well} of {runs} runs went well")
}
