ghost use Rattle.std.specs.Prelude.{◌<◌, ◌^◌};

use crate::bodies::{Reading, add_body, block_of, said_in};
use crate::cases::{Case, case_of};
use crate::fields::add_field;
use crate::folder::Folder;
use crate::pieces::add_piece;
use crate::printer::add_bytes;
use base_types::{GrainId, List, Place, Shape, State, Text, TypeShape, UnitNo, Value, Version};
use commit_log::seal;
use field_codec::{Format, get_state};
use gate_block::{append_closed, open_gate, read_block};
use grain_log::{read_version, write_versions};
use host_trait::FileId;
use std::alloc::{AllocError, Global};
use test_cases::add_values;

// The slot of both files.
const SLOT: u8 = 0;

const MANAGER: FileId = FileId::Manager { slot: SLOT };

const GRAIN: FileId = FileId::Grain {
    slot: SLOT,
    grain: GrainId { kind: 0, key: 1 },
};

/// A folder, its format, and the fields that its program's only type has. That type has a method of one parameter, one of none and one of 8.
#[derive(Drop)]
pub struct Bench {
    alloc: Global,
    folder: Folder,
    format: Format,
    fields: u64,
}

// One type with so many fields, at most 64.
fn shape_of(alloc: Global, fields: u64) -> Result<Shape, AllocError> {
    let mut initial = State::new(alloc);
    for _ in 0..fields.min(64) {
        if initial.len() < 64 {
            initial.push(Value::Int(0))?;
        }
    }
    let mut types = List::new(alloc);
    let name = Text::new(alloc, "account")?.ok_or(AllocError)?;
    types.push(TypeShape {
        name,
        initial,
        params: params_of(alloc)?,
    })?;
    Ok(Shape { types })
}

fn params_of(alloc: Global) -> Result<List<u16>, AllocError> {
    let mut params = List::new(alloc);
    for count in [1, 0, 8] {
        params.push(count)?;
    }
    Ok(params)
}

// The versions of this unit and of those behind it, whose states stand one behind the other in the bytes.
fn versions_of(
    alloc: Global,
    unit: u64,
    bytes: &[u8],
    format: Format,
) -> Result<List<Version>, AllocError> {
    let mut versions = List::new(alloc);
    let mut at = 0;
    for i in 0..64 {
        let Ok((state, end)) = get_state(alloc, bytes, at, format) else {
            return Ok(versions);
        };
        versions.push(Version {
            unit: UnitNo(unit.saturating_add(i)),
            state,
        })?;
        at = end;
    }
    Ok(versions)
}

impl Bench {
    /// An empty folder of format 2, and a type of one field.
    pub fn new(alloc: Global) -> Bench {
        Bench {
            alloc,
            folder: Folder::new(alloc),
            format: Format::Two,
            fields: 1,
        }
    }

    /// What is told of a line: nothing of one that only says what cases show, or that lays the folder out.
    pub fn told(&mut self, line: &str) -> Result<String, AllocError> {
        let mut out = String::new(self.alloc);
        if line.is_empty() || line.starts_with('#') {
            return Ok(out);
        }
        let case = case_of(self.alloc, line)?;
        if self.lay(&case)? {
            return Ok(out);
        }
        out.push_str(" -> ")?;
        self.add_case(&mut out, &case)?;
        Ok(out)
    }

    // Lays the folder out by a case that does so.
    fn lay(&mut self, case: &Case) -> Result<bool, AllocError> {
        match case.word {
            "manager" => {
                self.folder.reset();
                self.folder.manager.clear();
                self.folder.manager.extend_from_slice(&case.bytes)?;
            }
            "grain" => {
                self.folder.reset();
                self.folder.grain.clear();
                self.folder.grain.extend_from_slice(&case.bytes)?;
            }
            "fail" => {
                self.folder.bad_write = case.number(0);
                self.folder.bad_sync = case.number(1);
            }
            "fields" => self.fields = case.number(0),
            "format" => {
                self.format = match case.number(0) {
                    1 => Format::One,
                    _ => Format::Two,
                }
            }
            _ => return Ok(false),
        }
        Ok(true)
    }

    fn add_case(&mut self, out: &mut String, case: &Case) -> Result<(), AllocError> {
        match case.word {
            "body" => self.add_body(out, case, false),
            "log" => self.add_body(out, case, true),
            "piece" => self.add_piece(out, &case.bytes),
            "append" | "open" | "block" | "seal" => self.add_gate(out, case),
            "write" => self.add_write(out, case),
            "read" => self.add_read(out, case),
            "calls" => self.add_calls(out),
            "reads" => {
                let reads = self.folder.reads;
                write!(out, "{reads}")
            }
            "files" => self.add_files(out),
            _ => add_field(self.alloc, out, case, self.format),
        }
    }

    fn add_body(&self, out: &mut String, case: &Case, logged: bool) -> Result<(), AllocError> {
        let shape = shape_of(self.alloc, self.fields)?;
        let reading = Reading {
            logged,
            format: self.format,
            session: case.number(0),
        };
        add_body(self.alloc, out, &case.bytes, &shape, reading)
    }

    fn add_piece(&self, out: &mut String, body: &[u8]) -> Result<(), AllocError> {
        let shape = shape_of(self.alloc, self.fields)?;
        add_piece(self.alloc, out, body, &shape, self.format)
    }

    // A call on the manager file, at the gate that the case says.
    fn add_gate(&mut self, out: &mut String, case: &Case) -> Result<(), AllocError> {
        let gate = case.number(0);
        if gate >= 1 << 62 {
            return out.push_str("no such gate");
        }
        match case.word {
            "append" => {
                let done = append_closed(&mut self.folder, MANAGER, gate, &case.bytes);
                write!(out, "{done:?}")
            }
            "open" => {
                let done = open_gate(&mut self.folder, MANAGER, gate);
                write!(out, "{done:?}")
            }
            "block" => self.add_block(out, gate),
            _ => self.add_seal(out, gate, &case.bytes),
        }
    }

    fn add_block(&mut self, out: &mut String, gate: u64) -> Result<(), AllocError>
        requires { gate < 2 ^ 62 }
    {
        match read_block(self.alloc, &mut self.folder, MANAGER, gate) {
            Ok(Some(body)) => {
                out.push_str("body ")?;
                add_bytes(out, body.as_slice())
            }
            Ok(None) => out.push_str("closed"),
            Err(fault) => write!(out, "{fault}"),
        }
    }

    // Seals the block of what a body says.
    fn add_seal(&mut self, out: &mut String, gate: u64, body: &[u8]) -> Result<(), AllocError>
        requires { gate < 2 ^ 62 }
    {
        let shape = shape_of(self.alloc, self.fields)?;
        let reading = Reading {
            logged: true,
            format: self.format,
            session: 0,
        };
        let (session, said) = match said_in(self.alloc, body, &shape, reading) {
            Ok(said) => said,
            Err(fault) => return write!(out, "{fault}"),
        };
        let block = block_of(self.alloc, session, &said)?;
        let sealing = seal(&mut self.folder, SLOT, gate, block.as_slice());
        write!(out, "{sealing:?}")
    }

    fn add_write(&mut self, out: &mut String, case: &Case) -> Result<(), AllocError> {
        let at = case.number(0);
        if at >= 1 << 62 {
            return out.push_str("no such place");
        }
        let versions = versions_of(self.alloc, case.number(1), &case.bytes, self.format)?;
        match write_versions(self.alloc, &mut self.folder, GRAIN, at, &versions) {
            Ok(places) => add_places(out, places.as_slice()),
            Err(fault) => write!(out, "{fault}"),
        }
    }

    fn add_read(&mut self, out: &mut String, case: &Case) -> Result<(), AllocError> {
        let place = Place {
            offset: case.number(0),
            len: u32::try_from(case.number(1)).unwrap_or(0),
        };
        let shape = shape_of(self.alloc, self.fields)?;
        match read_version(
            self.alloc,
            &mut self.folder,
            GRAIN,
            place,
            &shape,
            self.format,
        ) {
            Ok(version) => {
                let unit = version.unit.0;
                write!(out, "unit {unit} ")?;
                add_values(out, version.state.as_slice())
            }
            Err(fault) => write!(out, "{fault}"),
        }
    }

    fn add_calls(&self, out: &mut String) -> Result<(), AllocError> {
        let writes = self.folder.writes;
        let syncs = self.folder.syncs;
        write!(out, "{writes} writes, {syncs} syncs")
    }

    fn add_files(&self, out: &mut String) -> Result<(), AllocError> {
        add_bytes(out, &self.folder.manager)?;
        out.push_str(" ")?;
        add_bytes(out, &self.folder.grain)
    }
}

fn add_places(out: &mut String, places: &[Place]) -> Result<(), AllocError> {
    let mut between = "";
    for Place { offset, len } in places {
        write!(out, "{between}at {offset} of {len}")?;
        between = ", ";
    }
    Ok(())
}
