use base_types::{BadRequest, Entry, GrainId, Outcome, Settled, State, UnitNo, Version};
use cell_model::{Ask, Decision};
use core_model::{
    AskAnswer, BatchView, CoreAnswer, CoreReply, Effect, KnownOutcome, Read, SettlerWork,
};
use history_core::Core;
use std::alloc::AllocError;
use test_cases::{add_grain, add_items, add_outcome};

fn bad_name(why: BadRequest) -> &'static str {
    match why {
        BadRequest::Json => "json",
        BadRequest::Shape => "shape",
        BadRequest::Grain => "grain",
        BadRequest::Method => "method",
        BadRequest::Args => "args",
    }
}

// Writes words, and a number behind them.
fn add_number(out: &mut String, words: &str, number: u64) -> Result<(), AllocError> {
    write!(out, "{words}{number}")
}

// Writes words, and a grain behind them.
fn add_at(out: &mut String, words: &str, grain: GrainId) -> Result<(), AllocError> {
    out.push_str(words)?;
    add_grain(out, grain)
}

// Writes words, and a number and a grain behind them, as `learns 5 at 0/1`.
fn add_number_at(
    out: &mut String,
    words: &str,
    number: u64,
    grain: GrainId,
) -> Result<(), AllocError> {
    add_number(out, words, number)?;
    add_at(out, " at ", grain)
}

// Writes words, and an outcome behind them.
fn add_end(out: &mut String, words: &str, outcome: &Outcome) -> Result<(), AllocError> {
    out.push_str(words)?;
    add_outcome(out, outcome)
}

fn add_bad(out: &mut String, why: BadRequest) -> Result<(), AllocError> {
    out.push_str("bad ")?;
    out.push_str(bad_name(why))
}

fn add_settled(out: &mut String, what: &Settled) -> Result<(), AllocError> {
    match what {
        Settled::Done(outcome) => add_end(out, "done ", outcome),
        Settled::Lock { by, grain } => add_number_at(out, "lock of ", by.0, *grain),
        Settled::Vote { grain } => add_at(out, "vote at ", *grain),
        Settled::Dependency { on } => add_number(out, "dependency on ", on.0),
        Settled::Disk => out.push_str("disk"),
        Settled::InDoubt => out.push_str("in doubt"),
        Settled::Bad(why) => add_bad(out, *why),
    }
}

/// Writes `line 1 unit 2 done 5`.
pub fn add_entry(out: &mut String, entry: &Entry) -> Result<(), AllocError> {
    let line = entry.line;
    let unit = entry.unit.0;
    write!(out, "line {line} unit {unit} ")?;
    add_settled(out, &entry.what)
}

/// Writes the settled entries, of which these are written.
pub fn add_entries(out: &mut String, written: &[Entry], core: &Core) -> Result<(), AllocError> {
    let (first, second) = core.settled();
    let between = add_piece(out, "", written)?;
    let between = add_piece(out, between, first)?;
    add_piece(out, between, second)?;
    Ok(())
}

// These entries, behind what is told already. Answers what stands before the next one.
fn add_piece(
    out: &mut String,
    before: &'static str,
    entries: &[Entry],
) -> Result<&'static str, AllocError> {
    let mut between = before;
    for entry in entries {
        out.push_str(between)?;
        add_entry(out, entry)?;
        between = "; ";
    }
    Ok(between)
}

fn add_lock_answer(out: &mut String, answer: Ask) -> Result<(), AllocError> {
    match answer {
        Ask::Free => out.push_str("free"),
        Ask::Held => out.push_str("held"),
        Ask::MustWait { holder } => add_number(out, "waits for ", holder.0),
        Ask::MustDie { holder } => add_number(out, "dies by ", holder.0),
    }
}

fn add_granted(out: &mut String, state: &State, source: UnitNo) -> Result<(), AllocError> {
    add_items(out, state.as_slice())?;
    add_number(out, " of ", source.0)
}

/// Writes a reply: a granted one as the state and its source.
pub fn add_reply(out: &mut String, reply: &CoreReply) -> Result<(), AllocError> {
    match reply {
        CoreReply::Unapplied => out.push_str("no"),
        CoreReply::Done => out.push_str("done"),
        CoreReply::Began { unit } => add_number(out, "unit ", unit.0),
        CoreReply::Granted { state, source } => add_granted(out, state, *source),
        CoreReply::NotGranted(answer) => add_lock_answer(out, *answer),
        CoreReply::Doomed { source } => add_number(out, "doomed by ", source.0),
        CoreReply::NotActive => out.push_str("not active"),
        CoreReply::NotLoaded => out.push_str("not loaded"),
        CoreReply::Taken { batch } => add_number(out, "batch ", *batch),
        CoreReply::Decided { commits } => write!(out, "{commits} commit"),
    }
}

fn add_ask(out: &mut String, answer: AskAnswer) -> Result<(), AllocError> {
    match answer {
        AskAnswer::NotActive => out.push_str("n"),
        AskAnswer::Doomed { source } => add_number(out, "doomed", source.0),
        AskAnswer::Held => out.push_str("h"),
        AskAnswer::MustDie { holder } => add_number(out, "die", holder.0),
        AskAnswer::MustWait { holder } => add_number(out, "wait", holder.0),
        AskAnswer::Absent => out.push_str("absent"),
        AskAnswer::Free => out.push_str("f"),
    }
}

fn add_units(out: &mut String, units: &[UnitNo]) -> Result<(), AllocError> {
    for unit in units {
        add_number(out, " ", unit.0)?;
    }
    Ok(())
}

// Writes words, and a grain and its state behind them.
fn add_state_at(
    out: &mut String,
    words: &str,
    grain: GrainId,
    state: &State,
) -> Result<(), AllocError> {
    add_at(out, words, grain)?;
    out.push_str("=")?;
    add_items(out, state.as_slice())
}

fn add_reads(out: &mut String, reads: &[Read]) -> Result<(), AllocError> {
    for read in reads {
        add_state_at(out, " r", read.grain, &read.state)?;
        add_number(out, "of", read.source.0)?;
    }
    Ok(())
}

fn add_writes(out: &mut String, writes: &[(GrainId, State)]) -> Result<(), AllocError> {
    for write in writes {
        add_state_at(out, " w", write.0, &write.1)?;
    }
    Ok(())
}

fn add_outcomes(out: &mut String, outcomes: &[Outcome]) -> Result<(), AllocError> {
    for outcome in outcomes {
        add_end(out, " a=", outcome)?;
    }
    Ok(())
}

fn add_effect(out: &mut String, effect: &Effect) -> Result<(), AllocError> {
    add_number(out, "(", effect.unit.0)?;
    add_end(out, " ", &effect.result)?;
    add_outcomes(out, effect.answers.as_slice())?;
    add_reads(out, effect.reads.as_slice())?;
    add_writes(out, effect.writes.as_slice())?;
    out.push_str(")")
}

fn add_effects(out: &mut String, effects: &[Effect]) -> Result<(), AllocError> {
    for effect in effects {
        add_effect(out, effect)?;
    }
    Ok(())
}

fn add_votes(out: &mut String, votes: &[(GrainId, bool)]) -> Result<(), AllocError> {
    for vote in votes {
        add_at(out, if vote.1 { " yes" } else { " no" }, vote.0)?;
    }
    Ok(())
}

fn add_decision(out: &mut String, decision: &Decision) -> Result<(), AllocError> {
    match decision {
        Decision::Commit => out.push_str(" c"),
        Decision::Vote { grain } => add_at(out, " v", *grain),
        Decision::Dependency { on } => add_number(out, " d", on.0),
    }
}

fn add_decisions(out: &mut String, decisions: &[Decision]) -> Result<(), AllocError> {
    out.push_str(" decided")?;
    for decision in decisions {
        add_decision(out, decision)?;
    }
    Ok(())
}

fn add_batch(out: &mut String, view: &BatchView) -> Result<(), AllocError> {
    add_number(out, "batch ", view.batch)?;
    out.push_str(" ")?;
    add_effects(out, view.effects.as_slice())?;
    out.push_str(" aborted")?;
    add_units(out, view.aborted.as_slice())?;
    add_votes(out, view.votes.as_slice())?;
    match &view.decisions {
        None => Ok(()),
        Some(decisions) => add_decisions(out, decisions.as_slice()),
    }
}

fn add_versions(out: &mut String, versions: &[Version]) -> Result<(), AllocError> {
    for version in versions {
        add_number(out, " ", version.unit.0)?;
        out.push_str("=")?;
        add_items(out, version.state.as_slice())?;
    }
    Ok(())
}

fn add_vote(
    out: &mut String,
    batch: u64,
    grain: GrainId,
    versions: &[Version],
) -> Result<(), AllocError> {
    add_number_at(out, "votes in ", batch, grain)?;
    add_versions(out, versions)
}

fn add_seal(out: &mut String, batch: u64, effects: &[Effect]) -> Result<(), AllocError> {
    add_number(out, "seals ", batch)?;
    out.push_str(" ")?;
    add_effects(out, effects)
}

fn add_writing(out: &mut String, entry: &Entry) -> Result<(), AllocError> {
    out.push_str("writes ")?;
    add_entry(out, entry)
}

fn add_work(out: &mut String, work: &SettlerWork) -> Result<(), AllocError> {
    match work {
        SettlerWork::Vote {
            batch,
            grain,
            versions,
        } => add_vote(out, *batch, *grain, versions.as_slice()),
        SettlerWork::Decide { batch } => add_number(out, "decides ", *batch),
        SettlerWork::Seal { batch, effects } => add_seal(out, *batch, effects.as_slice()),
        SettlerWork::Learn { unit, grain } => add_number_at(out, "learns ", unit.0, *grain),
        SettlerWork::Write { entry } => add_writing(out, entry),
        SettlerWork::Load { grain } => add_at(out, "loads ", *grain),
        SettlerWork::Take => out.push_str("takes"),
        SettlerWork::Nothing => out.push_str("rests"),
    }
}

fn add_flag(out: &mut String, flag: bool) -> Result<(), AllocError> {
    out.push_str(if flag { "y" } else { "n" })
}

fn add_learn(out: &mut String, learn: Option<(UnitNo, GrainId)>) -> Result<(), AllocError> {
    match learn {
        None => out.push_str("-"),
        Some((unit, grain)) => add_number_at(out, "", unit.0, grain),
    }
}

fn add_known(out: &mut String, known: &KnownOutcome) -> Result<(), AllocError> {
    match known {
        KnownOutcome::Undecided => out.push_str("?"),
        KnownOutcome::Decided(outcome) => add_outcome(out, outcome),
    }
}

/// Writes an answer.
pub fn add_answer(out: &mut String, answer: &CoreAnswer) -> Result<(), AllocError> {
    match answer {
        CoreAnswer::Ask(answer) => add_ask(out, *answer),
        CoreAnswer::Outcome(known) => add_known(out, known),
        CoreAnswer::Batch(None) => out.push_str("no batch"),
        CoreAnswer::Batch(Some(view)) => add_batch(out, view),
        CoreAnswer::NextLearn(learn) => add_learn(out, *learn),
        CoreAnswer::CanTake(flag) => add_flag(out, *flag),
        CoreAnswer::NextLine(line) => add_number(out, "", *line),
        CoreAnswer::NextSettled(None) => out.push_str("-"),
        CoreAnswer::NextSettled(Some(entry)) => add_entry(out, entry),
        CoreAnswer::Halted(flag) => add_flag(out, *flag),
        CoreAnswer::NextWanted(None) => out.push_str("-"),
        CoreAnswer::NextWanted(Some(grain)) => add_grain(out, *grain),
        CoreAnswer::NextStep(work) => add_work(out, work),
        CoreAnswer::IsDecided(flag) => add_flag(out, *flag),
    }
}

/// Writes a last state, `-` where there is none.
pub fn add_last(out: &mut String, state: Option<&State>) -> Result<(), AllocError> {
    match state {
        None => out.push_str("-"),
        Some(state) => add_items(out, state.as_slice()),
    }
}
