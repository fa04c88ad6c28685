// What is untrue of a folder that is opened again.
use crate::command_runs::{Asked, Ended, carry, count_lines};
use crate::money::{balances_behind, balances_in};
use crate::records::{Said, has_value, untruth_of_records};
use silo_top::Status;
use std::alloc::{AllocError, Global};
use system_machine::Machine;

const DEPOSIT: &str = r#"{"args":[5],"call":"account/1.deposit"}"#;

// A report that no fault disturbs.
fn report(alloc: Global, machine: &Machine, words: &str) -> Result<Ended, AllocError> {
    carry(alloc, machine, Asked { words, input: "" })
}

// Whether a run goes on, and answers a deposit.
fn goes_on(alloc: Global, machine: &Machine) -> Result<bool, AllocError> {
    let asked = Asked {
        words: "run",
        input: DEPOSIT,
    };
    let ended = carry(alloc, machine, asked)?;
    let output = ended.output.as_str();
    let goes_on = ended.status == Status::Done && has_value(output) && count_lines(output) == 1;
    drop(ended);
    Ok(goes_on)
}

// Three reports.
#[derive(Drop)]
struct Reports {
    audit: Ended,
    history: Ended,
    shown: Ended,
}

fn three_reports(alloc: Global, machine: &Machine) -> Result<Reports, AllocError> {
    let audit = report(alloc, machine, "audit")?;
    let history = report(alloc, machine, "history")?;
    let shown = report(alloc, machine, "show")?;
    Ok(Reports {
        audit,
        history,
        shown,
    })
}

// What is untrue of three reports.
fn untruth_of_reports(said: Said<'_>, reports: &Reports) -> Option<&'static str> {
    let Reports {
        audit,
        history,
        shown,
    } = reports;
    if audit.status != Status::Done || history.status != Status::Done {
        return Some("an audit or a history that isn't done");
    }
    if !audit.output.ends_with("\"first_bad\":null}\n") {
        return Some("an audit that finds a bad record");
    }
    if shown.status != Status::Done {
        return Some("a show that isn't done");
    }
    let history = history.output.as_str();
    if balances_in(shown.output.as_str()) != balances_behind(history) {
        return Some("other money than the records say");
    }
    untruth_of_records(said, history)
}

/// What is untrue of a folder that was a silo before.
pub fn untruth_of_silo(
    alloc: Global,
    machine: &Machine,
    said: Said<'_>,
) -> Result<Option<&'static str>, AllocError> {
    let reports = three_reports(alloc, machine)?;
    let untruth = untruth_of_reports(said, &reports);
    drop(reports);
    if untruth.is_some() {
        return Ok(untruth);
    }
    if !goes_on(alloc, machine)? {
        return Ok(Some("a run that doesn't go on"));
    }
    Ok(None)
}

// Whether a report is done, and ends with this text.
fn ends_with(
    alloc: Global,
    machine: &Machine,
    words: &str,
    wanted: &str,
) -> Result<bool, AllocError> {
    let ended = report(alloc, machine, words)?;
    let ends = ended.status == Status::Done && ended.output.ends_with(wanted);
    drop(ended);
    Ok(ends)
}

// Whether a report is done, and prints this text.
fn prints(alloc: Global, machine: &Machine, words: &str, wanted: &str) -> Result<bool, AllocError> {
    let ended = report(alloc, machine, words)?;
    let prints = ended.status == Status::Done && ended.output.as_str() == wanted;
    drop(ended);
    Ok(prints)
}

/// What is untrue of a folder whose silo was written anew, or wasn't, and that showed these states before.
pub fn untruth_of_rewriting(
    alloc: Global,
    machine: &Machine,
    states: &str,
) -> Result<Option<&'static str>, AllocError> {
    if !ends_with(alloc, machine, "audit", "\"first_bad\":null}\n")? {
        return Ok(Some("an audit that finds a bad record"));
    }
    if !prints(alloc, machine, "show", states)? {
        return Ok(Some("other states than before"));
    }
    if !goes_on(alloc, machine)? {
        return Ok(Some("a run that doesn't go on"));
    }
    Ok(None)
}

// Whether the folder is a new silo, where it is one.
fn is_new(audit: &Ended, shown: &Ended) -> bool {
    let is_audited = audit.output.as_str() == "{\"count\":0,\"first_bad\":null}\n";
    is_audited && shown.status == Status::Done && shown.output.as_str() == "{\"count\":0}\n"
}

// Whether the folder is no silo, and whether it is a new one.
fn looks_new(alloc: Global, machine: &Machine) -> Result<(bool, bool), AllocError> {
    let audit = report(alloc, machine, "audit")?;
    let shown = report(alloc, machine, "show")?;
    let is_none = audit.status == Status::NotASilo && shown.status == Status::NotASilo;
    let is_silo = audit.status == Status::Done && is_new(&audit, &shown);
    drop(audit);
    drop(shown);
    Ok((is_none, is_silo))
}

// Makes the silo again, and answers whether that ends so.
fn makes_again(
    alloc: Global,
    machine: &Machine,
    input: &str,
    wanted: Status,
) -> Result<bool, AllocError> {
    let asked = Asked {
        words: "init",
        input,
    };
    let again = carry(alloc, machine, asked)?;
    let status = again.status;
    drop(again);
    Ok(status == wanted)
}

/// What is untrue of a folder of which a silo of this program was made, or wasn't.
pub fn untruth_of_making(
    alloc: Global,
    machine: &Machine,
    input: &str,
    status: Status,
) -> Result<Option<&'static str>, AllocError> {
    let (is_none, is_silo) = looks_new(alloc, machine)?;
    if !is_silo && (!is_none || status == Status::Done) {
        return Ok(Some("something else than a new silo"));
    }
    let wanted = if is_silo {
        Status::AlreadyASilo
    } else {
        Status::Done
    };
    if !makes_again(alloc, machine, input, wanted)? || !goes_on(alloc, machine)? {
        return Ok(Some("a second init that ends otherwise"));
    }
    Ok(None)
}
