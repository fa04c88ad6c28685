ghost use Rattle.std.specs.Prelude.{IfSome, ◌≤◌};
ghost use Rattle.host_trait.specs.Files.{HasSlot};

use base_types::GrainId;
use host_memory::CallKind;
use host_trait::{Channel, FileId};
use std::alloc::{AllocError, Global};

/// The files that a folder may have here.
pub const NAMES: [&str; 11] = [
    "program",
    "program-1",
    "manager",
    "manager-1",
    "0/1",
    "0/1-1",
    "0/2",
    "0/255",
    "0/258",
    "1/0",
    "1/1",
];

/// The file of a name, which ends with `-1` where it is one of slot 1.
pub fn file_of(name: &str) -> Option<FileId>
    ensures { IfSome result HasSlot }
{
    match name.strip_suffix("-1") {
        Some(name) => file_in(name, 1),
        None => file_in(name, 0),
    }
}

// The file of a name in a slot.
fn file_in(name: &str, slot: u8) -> Option<FileId>
    requires { slot ≤ 1 }
    ensures { IfSome result HasSlot }
{
    match name {
        "program" => Some(FileId::Program { slot }),
        "manager" => Some(FileId::Manager { slot }),
        _ => match grain_of(name) {
            Some(grain) => Some(FileId::Grain { slot, grain }),
            None => None,
        },
    }
}

/// The grain of a name.
pub fn grain_of(name: &str) -> Option<GrainId> {
    let (kind, key) = name.split_once('/')?;
    let kind = kind.parse::<u16>().ok()?;
    let key = key.parse::<u32>().ok()?;
    Some(GrainId { kind, key })
}

/// Writes a file's name.
pub fn add_file(out: &mut String, file: FileId) -> Result<(), AllocError> {
    let slot = match file {
        FileId::Program { slot } => {
            out.push_str("program")?;
            slot
        }
        FileId::Manager { slot } => {
            out.push_str("manager")?;
            slot
        }
        FileId::Grain { slot, grain } => {
            let GrainId { kind, key } = grain;
            write!(out, "{kind}/{key}")?;
            slot
        }
    };
    if slot == 0 {
        return Ok(());
    }
    write!(out, "-{slot}")
}

/// The channel of a name: a file, or else the input.
pub fn channel_of(name: &str) -> Channel {
    match file_of(name) {
        Some(file) => Channel::File(file),
        None => Channel::Input,
    }
}

/// The kind of call that a word names.
pub fn kind_of(word: &str) -> CallKind {
    match word {
        "length" => CallKind::Length,
        "read" => CallKind::Read,
        "write" => CallKind::Write,
        "sync" => CallKind::Sync,
        _ => CallKind::Pull,
    }
}

fn digit_of(letter: u8) -> u8 {
    match letter {
        b'0'..=b'9' => letter - b'0',
        b'a'..=b'f' => letter - b'a' + 10,
        _ => 0,
    }
}

// Puts the bytes of some pairs of digits.
fn put_pairs(into: &mut Vec<u8>, digits: &[u8]) -> Result<(), AllocError> {
    for pair in digits.chunks(2) {
        if let [high, low] = pair {
            into.push(
                digit_of(*high)
                    .wrapping_mul(16)
                    .wrapping_add(digit_of(*low)),
            )?;
        }
    }
    Ok(())
}

// Puts the bytes of a word, as `0a61`, or so many times, as `61*256`.
fn put_word(into: &mut Vec<u8>, word: &str) -> Result<(), AllocError> {
    let (digits, count) = word.split_once('*').unwrap_or((word, "1"));
    for _ in 0..count.parse::<u16>().unwrap_or(0) {
        put_pairs(into, digits.as_bytes())?;
    }
    Ok(())
}

/// The bytes of some words.
pub fn bytes_of(alloc: Global, words: &str) -> Result<Vec<u8>, AllocError> {
    let mut bytes = Vec::new(alloc);
    for word in words.split_whitespace() {
        put_word(&mut bytes, word)?;
    }
    Ok(bytes)
}

/// Writes bytes in hexadecimal.
pub fn add_bytes(out: &mut String, bytes: &[u8]) -> Result<(), AllocError> {
    for byte in bytes {
        write!(out, "{byte:02x}")?;
    }
    Ok(())
}
