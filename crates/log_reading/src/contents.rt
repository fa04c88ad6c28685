ghost use Rattle.std.specs.Prelude.{◌≡◌, ◌∷◌, ◌<◌, ◌≤◌, IsTrue, length, Ok, None, OnOk, IfOk, IfErr};
ghost use Rattle.base_types.specs.declared.calls.GrainId.{GrainId};
ghost use Rattle.base_types.specs.Stores.{end_in};
ghost use Rattle.base_types.specs.Places.{placed_in};
ghost use Rattle.host_trait.specs.Faults.{HasCalled};
ghost use Rattle.host_trait.specs.Runs.{OnlyAsked};
ghost use Rattle.script_tree.specs.Programs.{program_tree};
ghost use Rattle.program_file.specs.Programs.{program_in};
ghost use Rattle.program_file.specs.Succession.{shapes_in_turn};
ghost use Rattle.program_file.specs.ProgramsInTurn.{programs_in, HasShapes};
ghost use Rattle.log_reading.specs.Counts.{ReadFaulted};
ghost use Rattle.log_reading.specs.Steps.{seen_in};
ghost use Rattle.log_reading.specs.Versions.{named_by_grain, first_missing};
ghost use Rattle.log_reading.specs.Sums.{placed_after, end_after, AreNear, AreOfPrograms, AreUnread};
ghost use Rattle.log_reading.specs.Contents.{HasContents, AreContentsInBounds, IsUnread};

use crate::faults::FolderFault;
use crate::log::{read_log, sort_by_grain};
use crate::versions::read_versions;
use base_types::{Ends, List, Places, UnitNo};
use commit_log::Named;
use field_codec::Format;
use host_trait::Host;
use program_file::ProgramsInTurn;
use script_check::Checked;
use std::alloc::{AllocError, Global};

/// What is kept of a log and of its versions: the programs that came into force one after the other, from that of the program file, and the
/// text of the last; how many entries the log has, the number of the next unit, the greatest session, the gate at which it ends, where
/// each grain's last version stands, and where the places in its file end. No state is kept.
#[derive(Drop)]
pub struct Contents {
    pub programs: List<Checked>,
    pub text: List<u8>,
    pub count: u64,
    pub next_unit: UnitNo,
    pub session: u64,
    pub gate_at: u64,
    pub places: Places,
    pub ends: Ends,
}

// A program, and those that came into force behind it.
fn in_turn(
    alloc: Global,
    first: Checked,
    later: List<Checked>,
) -> Result<ProgramsInTurn, AllocError>
    ensures programs { IfOk result (λ made. made.checked ≡ first ∷ later) }
    ensures shapes { IfOk result HasShapes }
{
    let mut programs = later.into_vec();
    programs.insert(0, first)?;
    ProgramsInTurn::new(alloc, List::from_vec(programs))
}

// Where the last version of each grain stands among those that a log names, in the log's order, and the greatest end in its file: by
// reading each of them, grain by grain.
fn read_named<H: Host>(
    alloc: Global,
    host: &mut H,
    slot: u8,
    programs: &ProgramsInTurn,
    format: Format,
    named: List<Named>,
) -> Result<(Places, Ends), FolderFault>
    requires slot { slot ≤ 1 }
    requires shapes { HasShapes programs.now }
    ensures whole { OnOk result (IsTrue H.tells
        → first_missing slot format (shapes_in_turn (programs_in programs.now)) (seen_in (H.world host.old).disk) (named_by_grain named) ≡ None) }
    ensures places { IfOk result (λ found. IsTrue H.tells → (grain : GrainId) → placed_in found.0 grain
        ≡ placed_after slot format (programs_in programs.now) (seen_in (H.world host.old).disk) None (named_by_grain named) grain) }
    ensures ends { IfOk result (λ found. (grain : GrainId) → end_in found.1 grain ≡ end_after None (named_by_grain named) grain) }
    ensures near { IfOk result (λ found. AreNear found.1) }
    ensures numbered { IfOk result (λ found. AreOfPrograms (length (programs_in programs.now)) found.0) }
    ensures unread { IfErr result (λ e. IsTrue H.tells
        → AreUnread slot format (shapes_in_turn (programs_in programs.now)) (seen_in (H.world host.old).disk) (named_by_grain named) e) }
    ensures asked { IsTrue H.tells → OnlyAsked (H.world host.old) (H.world host.new) }
    ensures calls { HasCalled ReadFaulted result H.is_ready H.faults host.old host.new }
{
    let mut named = named.into_vec();
    sort_by_grain(&mut named)?;
    let mut places = Places::new(alloc);
    let mut ends = Ends::new(alloc);
    read_versions(
        alloc,
        host,
        slot,
        programs,
        format,
        named.as_slice(),
        &mut places,
        &mut ends,
    )?;
    Ok((places, ends))
}

/// Reads the log of a slot's files, within the limits of a format, under the program of the program file and those that come into force
/// behind it: block by block, and then each version that a record names, once, grain by grain and those of a grain in the log's order, by
/// the program of its time. `Damaged` names the first damage in this order.
/// `Failed` names a file on which a call failed; `Memory` may come at any place. Nothing is written.
pub fn read_contents<H: Host>(
    alloc: Global,
    host: &mut H,
    slot: u8,
    text: List<u8>,
    first: Checked,
    format: Format,
) -> Result<Contents, FolderFault>
    requires slot { slot ≤ 1 }
    requires small { length text ≤ 262144 }
    requires program { program_in text ≡ Ok (program_tree first) }
    ensures opened { IfOk result (λ o. IsTrue H.tells
        → HasContents slot format (record { text = text; types = program_tree first }) (seen_in (H.world host.old).disk) o) }
    ensures bounds { IfOk result (λ o. AreContentsInBounds o) }
    ensures refused { IfErr result (λ e. IsTrue H.tells
        → IsUnread slot format (record { text = text; types = program_tree first }) (seen_in (H.world host.old).disk) e) }
    ensures asked { IsTrue H.tells → OnlyAsked (H.world host.old) (H.world host.new) }
    ensures calls { HasCalled ReadFaulted result H.is_ready H.faults host.old host.new }
{
    let log = match read_log(alloc, host, slot, &first, format) {
        Ok(log) => log,
        Err(fault) => return Err(fault),
    };
    let text = log.text.unwrap_or(text);
    let programs = in_turn(alloc, first, log.later)?;
    match read_named(alloc, host, slot, &programs, format, log.named) {
        Ok((places, ends)) => Ok(Contents {
            programs: programs.into_list(),
            text,
            count: log.count,
            next_unit: log.next_unit,
            session: log.session,
            gate_at: log.gate_at,
            places,
            ends,
        }),
        Err(fault) => Err(fault),
    }
}
