// The host over the system in memory that tells what it holds, while one of its calls is answered otherwise.
ghost use Rattle.std.specs.Prelude.{◌≤◌};

use crate::steps::MANAGER;
use host_files::FolderHost;
use host_trait::Host;
use std::alloc::{AllocError, Global};
use system_memory::{Fault, MemorySystem};

fn fault_of(word: &str) -> Fault {
    match word {
        "refused" => Fault::Refused,
        "interrupted" => Fault::Interrupted,
        "short" => Fault::Short,
        _ => Fault::None,
    }
}

fn host_on(alloc: Global, nth: u64, fault: Fault) -> Result<FolderHost<MemorySystem>, AllocError> {
    let mut system = MemorySystem::new(alloc, b"input")?;
    system.fail(nth, fault);
    FolderHost::new(alloc, system, "f")
}

// One letter for each call of the host: it failed, it didn't, or it gave something else than it should.
fn letter_of(is_ok: bool, is_true: bool) -> char {
    match (is_ok, is_true) {
        (false, _) => 'f',
        (true, true) => '.',
        (true, false) => '!',
    }
}

fn is_text(found: &[u8], wanted: &[u8]) -> bool {
    found == wanted
}

// What a host answers that writes, reads, syncs and reads again.
fn disk_letters(host: &mut FolderHost<MemorySystem>) -> [char; 4] {
    let written = host.write_at(MANAGER, 0, b"abcd").is_ok();
    let mut into = [0; 4];
    let read = host.read_at(MANAGER, 0, &mut into);
    let is_read = !written || (matches!(read, Ok(4)) && is_text(&into, b"abcd"));
    let synced = host.sync(MANAGER).is_ok();
    let again = host.read_at(MANAGER, 2, &mut into);
    let is_again = !written || (matches!(again, Ok(2)) && is_text(&into[..2], b"cd"));
    [
        letter_of(written, true),
        letter_of(read.is_ok(), is_read),
        letter_of(synced, true),
        letter_of(again.is_ok(), is_again),
    ]
}

// What a host answers that pulls and emits.
fn stream_letters(host: &mut FolderHost<MemorySystem>) -> [char; 2] {
    let mut bytes = [0; 8];
    let pulled = host.pull(&mut bytes);
    let is_pulled = matches!(pulled, Ok(1..=5)) && bytes.starts_with(b"in");
    let emitted = host.emit(b"line\n").is_ok();
    [
        letter_of(pulled.is_ok(), is_pulled),
        letter_of(emitted, true),
    ]
}

fn add_letters(out: &mut String, letters: &[char]) -> Result<(), AllocError> {
    for letter in letters {
        out.push(*letter)?;
    }
    Ok(())
}

// What a host answers, the nth of whose system's calls is answered so: it writes, reads, syncs, reads again, pulls and emits.
fn add_run(alloc: Global, nth: u64, fault: Fault, out: &mut String) -> Result<(), AllocError> {
    let mut host = host_on(alloc, nth, fault)?;
    let of_disk = disk_letters(&mut host);
    let of_streams = stream_letters(&mut host);
    drop(host);
    add_letters(out, &of_disk)?;
    add_letters(out, &of_streams)
}

/// Writes what the host answers where each call of the system in turn is answered so.
pub fn add_told(alloc: Global, word: &str, out: &mut String) -> Result<(), AllocError> {
    for nth in 1..16 {
        if nth > 1 {
            out.push(' ')?;
        }
        add_run(alloc, nth, fault_of(word), out)?;
    }
    Ok(())
}
