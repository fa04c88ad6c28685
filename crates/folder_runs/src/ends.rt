// What is untrue of a command's end, whatever stands in the folder then.
use crate::command_runs::{Asked, Ended, count_lines};
use crate::records::answers_all;
use host_trait::FileId;
use silo_top::Status;
use std::alloc::{AllocError, Global};
use system_machine::{Fault, HeldFile};

/// What a command does.
#[derive(Clone, Copy, PartialEq, Eq)]
pub enum Kind {
    Makes,
    Compacts,
    Runs,
    Reports,
}

/// What the command of these words does.
pub fn kind_of(words: &str) -> Kind {
    if words.starts_with("init") {
        return Kind::Makes;
    }
    if words.starts_with("compact") {
        return Kind::Compacts;
    }
    if words.starts_with("run") {
        return Kind::Runs;
    }
    Kind::Reports
}

/// Whether an end is the same as another.
pub fn is_same(ended: &Ended, whole: &Ended) -> bool {
    ended.status == whole.status && ended.output.as_str() == whole.output.as_str()
}

// An interruption and a part change nothing, and a refusal is told.
fn is_told(fault: Fault, is_same: bool) -> bool {
    match fault {
        Fault::Interrupted | Fault::Short => is_same,
        Fault::Refused | Fault::Dead => !is_same,
        _ => true,
    }
}

// A run that is done has answered each line, and a report has printed the front of the whole.
fn is_whole(kind: Kind, asked: Asked<'_>, ended: &Ended, whole: &Ended) -> bool {
    let output = ended.output.as_str();
    match kind {
        Kind::Makes => output.is_empty(),
        Kind::Compacts => output.is_empty(),
        Kind::Runs => {
            ended.status != Status::Done || answers_all(output, count_lines(asked.input) as u64)
        }
        Kind::Reports => {
            let is_front = whole.output.as_str().starts_with(output);
            is_front && (ended.status != Status::Done || is_same(ended, whole))
        }
    }
}

fn names_grain(status: Status) -> bool {
    match status {
        Status::DiskFault {
            file: FileId::Grain { .. },
        } => true,
        _ => false,
    }
}

/// What is untrue of an end, beside that of the same command where no call fails. Once lines are carried no grain's file ends them.
pub fn untruth_of_end(
    asked: Asked<'_>,
    fault: Fault,
    ended: &Ended,
    whole: &Ended,
    is_begun: bool,
) -> Option<&'static str> {
    if !is_told(fault, is_same(ended, whole)) {
        return Some("a fault that is passed over, or changes what it mustn't");
    }
    if !ended.is_borne_out || (is_begun && names_grain(ended.status)) {
        return Some("an end that no fault bears out");
    }
    if !is_whole(kind_of(asked.words), asked, ended, whole) {
        return Some("an output that isn't whole");
    }
    None
}

fn are_alike(left: &HeldFile, other: &HeldFile) -> bool {
    left.file == other.file && left.bytes.as_slice() == other.bytes.as_slice()
}

/// Whether two folders have the same files, in the same order.
pub fn are_same(left: &[HeldFile], before: &[HeldFile]) -> bool {
    if left.len() != before.len() {
        return false;
    }
    for (one, other) in left.iter().zip(before.iter()) {
        if !are_alike(one, other) {
            return false;
        }
    }
    true
}

/// Writes the number's text of an end.
pub fn text_of(alloc: Global, ended: &Ended) -> Result<String, AllocError> {
    let text = ended.status.text(alloc)?;
    String::from_str(alloc, std::str::from_utf8(text.as_slice()).unwrap_or("?"))
}
