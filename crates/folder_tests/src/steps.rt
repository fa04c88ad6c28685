// Calls of a host on a file, as words.
ghost use Rattle.std.specs.Prelude.{ℕ, ◌≤◌, IsTrue, IfSome};
ghost use Rattle.host_trait.specs.Files.{HasSlot};

use base_types::GrainId;
use host_trait::{FileId, Host};
use std::alloc::{AllocError, Global};

/// The file `manager`.
pub const MANAGER: FileId = FileId::Manager { slot: 1 };

/// The file `grain`.
pub const GRAIN: FileId = FileId::Grain {
    slot: 0,
    grain: GrainId {
        kind: 3,
        key: 70_000,
    },
};

/// The file of a name.
pub fn file_of(name: &str) -> Option<FileId>
    ensures { IfSome result HasSlot }
{
    match name {
        "program" => Some(FileId::Program { slot: 0 }),
        "manager" => Some(MANAGER),
        "grain" => Some(GRAIN),
        _ => None,
    }
}

/// What is asked of a file: how many bytes a read is of, at most 8, and those that are written.
#[derive(Drop)]
pub struct Step<'a> {
    pub word: &'a str,
    pub at: u64,
    pub count: usize,
    pub bytes: &'a [u8],
}

fn digit_of(letter: u8) -> u8 {
    match letter {
        b'0'..=b'9' => letter - b'0',
        b'a'..=b'f' => letter - b'a' + 10,
        _ => 0,
    }
}

/// The bytes of some pairs of hexadecimal digits.
pub fn bytes_of(alloc: Global, digits: &str) -> Result<Vec<u8>, AllocError> {
    let mut bytes = Vec::new(alloc);
    for pair in digits.as_bytes().chunks(2) {
        if let [high, low] = pair {
            bytes.push(
                digit_of(*high)
                    .wrapping_mul(16)
                    .wrapping_add(digit_of(*low)),
            )?;
        }
    }
    Ok(bytes)
}

fn add_read(out: &mut String, bytes: &[u8]) -> Result<(), AllocError> {
    let count = bytes.len();
    write!(out, "{count} bytes {bytes:?}")
}

/// Writes what a host that tells nothing answers, with the file's path made before.
pub fn add_answer<H: Host>(
    out: &mut String,
    host: &mut H,
    file: FileId,
    step: &Step<'_>,
) -> Result<(), AllocError>
    requires file { HasSlot file }
    requires untold { (at count : ℕ) → IsTrue H.tells → at ≤ count }
{
    host.ready(file)?;
    match step.word {
        "length" => match host.length(file) {
            Ok(length) => write!(out, "{length}"),
            Err(_) => out.push_str("failed"),
        },
        "read" => {
            let mut into = [0; 8];
            let count = step.count.min(8);
            match host.read_at(file, step.at, &mut into[..count]) {
                Ok(found) => add_read(out, into.get(..found).unwrap_or(&[])),
                Err(_) => out.push_str("failed"),
            }
        }
        "write" => match host.write_at(file, step.at, step.bytes) {
            Ok(()) => out.push_str("done"),
            Err(_) => out.push_str("failed"),
        },
        _ => match host.sync(file) {
            Ok(()) => out.push_str("done"),
            Err(_) => out.push_str("failed"),
        },
    }
}
