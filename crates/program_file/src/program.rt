ghost use Rattle.std.specs.Prelude.{◌≡◌, ◌≤◌, ℕ, List, IsTrue, length, Ok, Err, IfOk, IsErrOf};
ghost use Rattle.host_trait.specs.Faults.{HasCalled};
ghost use Rattle.host_trait.specs.Runs.{OnlyAsked};
ghost use Rattle.script_tree.specs.Programs.{program_tree};
ghost use Rattle.program_file.specs.declared.faults.ProgramFileFault.{ProgramFileFault as Fault};
ghost use Rattle.program_file.specs.Programs.{program_in};
ghost use Rattle.host_trait.specs.declared.channels.FileId.TheVariants.{Program as ProgramFile};
ghost use Rattle.program_file.specs.Files.{program_in_file, with_types};
ghost use Rattle.program_file.specs.Answers.{parse_named, check_named, program_fault_place, damage, Accepts, FileFaulted};

use crate::faults::{ProgramFault, ProgramFileFault};
use crate::text::read_text;
use base_types::List;
use host_trait::Host;
use script_check::{CheckFault, Checked, check};
use script_parser::{ParseFault, parse};
use std::alloc::Global;

fn parse_place(fault: ParseFault) -> Option<u32>
    ensures { result ≡ parse_named fault }
{
    match fault {
        ParseFault::BadToken { at } => Some(at),
        ParseFault::Unexpected { at } => Some(at),
        ParseFault::TooDeep { at } => Some(at),
        ParseFault::Memory => None,
    }
}

fn check_place(fault: CheckFault) -> Option<u32>
    ensures { result ≡ check_named fault }
{
    match fault {
        CheckFault::UnknownName { at } => Some(at),
        CheckFault::TwiceNamed { at } => Some(at),
        CheckFault::Arity { at } => Some(at),
        CheckFault::FieldInPlain { at } => Some(at),
        CheckFault::SetInRead { at } => Some(at),
        CheckFault::TooMany { at } => Some(at),
        CheckFault::NeedsTransaction { at } => Some(at),
        CheckFault::Memory => None,
    }
}

impl ProgramFault {
    /// The place in the text, none where memory ran out.
    pub fn place(self) -> Option<u32>
        ensures { result ≡ program_fault_place self }
    {
        match self {
            ProgramFault::Unparsed(fault) => parse_place(fault),
            ProgramFault::Unchecked(fault) => check_place(fault),
        }
    }
}

/// The program that a text is, or why it is none: the first fault in the order of the text, that of the grammar before that of
/// a name.
pub fn accept(alloc: Global, text: &[u8]) -> Result<Checked, ProgramFault>
    requires { length text.now ≤ 262144 }
    ensures { Accepts result text.now }
{
    let program = match parse(alloc, text) {
        Ok(program) => program,
        Err(fault) => return Err(ProgramFault::Unparsed(fault)),
    };
    match check(alloc, program) {
        Ok(checked) => Ok(checked),
        Err(fault) => Err(ProgramFault::Unchecked(fault)),
    }
}

// The fault of a program file whose text has this fault.
fn in_file(fault: ProgramFault) -> ProgramFileFault
    ensures { result ≡ damage (program_fault_place fault) }
{
    match fault.place() {
        Some(at) => ProgramFileFault::Damaged {
            place: 4 + at as u64,
        },
        None => ProgramFileFault::Memory,
    }
}

// The program of a text that stands in the program file.
fn accept_text(alloc: Global, text: &[u8]) -> Result<Checked, ProgramFileFault>
    requires { length text.now ≤ 262144 }
    ensures found { IfOk result (λ checked. program_in text.now ≡ Ok (program_tree checked)) }
    ensures damaged { (place : ℕ) → IsErrOf result (Fault.Damaged place) → with_types text.now (program_in text.now) ≡ Err place }
    ensures quiet { IsErrOf result Fault.Failed → ⊥ }
{
    match accept(alloc, text) {
        Ok(checked) => Ok(checked),
        Err(fault) => Err(in_file(fault)),
    }
}

/// Reads a slot's program file, and changes no file: the text, and the program that it is. `Damaged` names the first place that is
/// damaged.
pub fn read_program<H: Host>(
    alloc: Global,
    host: &mut H,
    slot: u8,
) -> Result<(List<u8>, Checked), ProgramFileFault>
    requires slot { slot ≤ 1 }

    // The program is the file's and that of the text, and else the first damage is named.
    ensures found { IfOk result (λ found. IsTrue H.tells
        → program_in_file ((H.world host.old).disk (ProgramFile slot)).seen ≡ Ok (record { text = found.0; types = program_tree found.1 })) }
    ensures small { IfOk result (λ found. length found.0 ≤ 262144) }
    ensures program { IfOk result (λ found. program_in found.0 ≡ Ok (program_tree found.1)) }
    ensures damaged { (place : ℕ) → IsErrOf result (Fault.Damaged place) → IsTrue H.tells
        → program_in_file ((H.world host.old).disk (ProgramFile slot)).seen ≡ Err place }

    ensures asked { IsTrue H.tells → OnlyAsked (H.world host.old) (H.world host.new) }

    // No count changes unless the answer is `Failed`; then the program file's rose, and no other changed.
    ensures calls { HasCalled (FileFaulted slot) result H.is_ready H.faults host.old host.new }
{
    let text = read_text(alloc, host, slot)?;
    match accept_text(alloc, &text) {
        Ok(checked) => Ok((List::from_vec(text), checked)),
        Err(fault) => Err(fault),
    }
}
