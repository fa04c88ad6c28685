// The folder of the first deposit.
use base_types::GrainId;
use host_memory::MemoryHost;
use host_trait::FileId;
use std::alloc::Global;
use std::test::Fail;

/// The program file.
pub const PROGRAM: FileId = FileId::Program { slot: 0 };

/// The manager file.
pub const MANAGER: FileId = FileId::Manager { slot: 0 };

/// The file of the one grain.
pub const GRAIN: FileId = FileId::Grain {
    slot: 0,
    grain: GrainId { kind: 0, key: 1 },
};

// One type with one field and one method, which has one parameter.
const TEXT: &str =
    "type account { field balance = 0; method deposit(n) createorjoin update { set balance = balance + n; return balance; } }";

// The manager file, as `docs/FORMATS.md` shows it: the header, the gate, and the block, whose session is 1.
const MANAGER_BYTES: [u8; 97] = [
    1, 79, 84, 88, 76, 79, 71, 48, 50, 0, 0, 0, 0, 0, 0, 1, 76, 0, 0, 0, 1, 0, 0, 0, 0, 0, 0, 0, 1,
    0, 0, 0, 1, 0, 0, 0, 0, 0, 0, 0, 0, 1, 0, 0, 0, 0, 0, 1, 0, 0, 0, 0, 0, 1, 0, 0, 5, 0, 0, 0, 0,
    0, 0, 0, 0, 0, 1, 0, 5, 0, 0, 0, 0, 0, 0, 0, 1, 0, 0, 0, 1, 0, 0, 0, 0, 0, 0, 0, 0, 0, 0, 0,
    19, 0, 0, 0, 0,
];

// The grain's file: unit 1, one value, Int 5.
const GRAIN_BYTES: [u8; 19] = [1, 0, 0, 0, 0, 0, 0, 0, 1, 0, 0, 5, 0, 0, 0, 0, 0, 0, 0];

// The folder, with its manager file cut to this length, and this byte of it set.
pub fn folder_of(alloc: Global, length: usize, at: usize, byte: u8) -> Result<MemoryHost, Fail> {
    let mut host = MemoryHost::new(alloc, b"")?;
    let mut program = Vec::new(alloc);
    let size = u32::try_from(TEXT.len()).ok().ok_or("a text too long")?;
    program.extend_from_slice(&size.to_le_bytes())?;
    program.extend_from_slice(TEXT.as_bytes())?;
    host.set_file(PROGRAM, &program)?;
    let mut manager = MANAGER_BYTES.to_vec(alloc)?;
    if at < manager.len() {
        manager[at] = byte;
    }
    manager.truncate(length);
    host.set_file(MANAGER, &manager)?;
    host.set_file(GRAIN, &GRAIN_BYTES)?;
    Ok(host)
}
