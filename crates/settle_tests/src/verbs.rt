/// The first word of a line.
#[derive(Clone, Copy)]
pub enum Verb {
    /// A new bench; a quiet settler where the number is 1, in slot 1 where the second is, and with so many accounts in memory that
    /// aren't in use as the third says, or all where that is 0.
    Open,
    /// The nth call of this kind fails: a file, -1 for the manager's or an account's number, and n.
    FailWrite,
    FailSync,
    FailRead,
    /// The same, on the output and the input: n.
    FailEmit,
    FailPull,
    /// After so many further calls every call fails.
    StopAfter,
    /// The next emit puts out so many bytes, or all, and fails.
    CutEmit,
    /// The unit of a line adds a number to an account, or reads it where that is 0.
    Add,
    /// The unit of a line moves 1 from an account to another one.
    Transfer,
    /// The unit of a line begins, called to add a number to an account, and wants that to be in memory; and it goes on.
    Want,
    GoOn,
    /// An account's file loses its bytes.
    Damage,
    /// A new bench with an empty log, where an account's file has its last version, with this number, from before.
    Reopen,
    /// The settler brings a wanted grain into memory.
    Load,
    /// One step of the settler; all of them, up to a stop.
    Step,
    Settle,
    Look(Look),
}

/// A look at what there is.
#[derive(Clone, Copy)]
pub enum Look {
    /// Whether the settler has something to do.
    Applies,
    /// How many calls of the host there were, and how many entries were written.
    Calls,
    /// How many writes and syncs there were.
    Noted,
    /// Whether a batch is in doubt.
    Doubt,
    Output,
    /// Of each block of the log, which session it is of; how many records it has; whose the first one is.
    Sessions,
    Counts,
    Units,
    /// How many writes and syncs an account's file had, or the manager's where the number is -1; and how many bytes it has.
    File,
    Bytes,
    /// In how many of sixteen images that a crash after so many calls may leave, or within the next one, the log has no block,
    /// where the second number is 1, or one block, of the third number's count of records, or whose first record is that unit's.
    ImageCounts,
    ImageUnits,
    /// Whether none, some or all of them have a block.
    Spread,
}

/// What a word stands for.
pub fn verb_of(word: &str) -> Option<Verb> {
    match word {
        "open" => Some(Verb::Open),
        "fail_write" => Some(Verb::FailWrite),
        "fail_sync" => Some(Verb::FailSync),
        "fail_read" => Some(Verb::FailRead),
        "fail_emit" => Some(Verb::FailEmit),
        "fail_pull" => Some(Verb::FailPull),
        "stop_after" => Some(Verb::StopAfter),
        "cut_emit" => Some(Verb::CutEmit),
        _ => act(word),
    }
}

// Something that is done, or another word.
fn act(word: &str) -> Option<Verb> {
    match word {
        "add" => Some(Verb::Add),
        "transfer" => Some(Verb::Transfer),
        "want" => Some(Verb::Want),
        "go_on" => Some(Verb::GoOn),
        "damage" => Some(Verb::Damage),
        "reopen" => Some(Verb::Reopen),
        "load" => Some(Verb::Load),
        "step" => Some(Verb::Step),
        "settle" => Some(Verb::Settle),
        _ => look_of(word),
    }
}

fn look_of(word: &str) -> Option<Verb> {
    match word {
        "applies" => Some(Verb::Look(Look::Applies)),
        "calls" => Some(Verb::Look(Look::Calls)),
        "noted" => Some(Verb::Look(Look::Noted)),
        "doubt" => Some(Verb::Look(Look::Doubt)),
        "output" => Some(Verb::Look(Look::Output)),
        "counts" => Some(Verb::Look(Look::Counts)),
        _ => look_behind(word),
    }
}

// A look at files or images.
fn look_behind(word: &str) -> Option<Verb> {
    match word {
        "sessions" => Some(Verb::Look(Look::Sessions)),
        "units" => Some(Verb::Look(Look::Units)),
        "file" => Some(Verb::Look(Look::File)),
        "bytes" => Some(Verb::Look(Look::Bytes)),
        "image_counts" => Some(Verb::Look(Look::ImageCounts)),
        "image_units" => Some(Verb::Look(Look::ImageUnits)),
        "spread" => Some(Verb::Look(Look::Spread)),
        _ => None,
    }
}
