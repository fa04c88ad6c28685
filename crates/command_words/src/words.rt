//! What words say.

/// The options of `run`, as they are given.
#[derive(Debug, Drop)]
pub struct RunOptions {
    /// How many lines may be in flight, from 1 to 64; 1 where it isn't given.
    pub width: Option<u32>,
    /// Whose turn it is in turn, 1 to 4,096 picks; none where it isn't given.
    pub turns: Option<Vec<u32>>,
    /// How many workers there are, from 1 to 16, beside no other option; where it isn't given one thread carries the lines.
    pub workers: Option<u32>,
}

/// The two numbers and the options of `load`, as they are given.
#[derive(Debug, Clone, Copy, PartialEq, Eq)]
pub struct LoadOptions {
    /// How many transfers are drawn, from 1 to 100,000.
    pub transfers: u32,
    /// The seed that they are drawn from.
    pub seed: u64,
    /// How many lines may be in flight, from 1 to 64; 1 where it isn't given.
    pub width: Option<u32>,
    /// How many workers there are, from 1 to 16, beside no width; where it isn't given one thread carries the lines.
    pub workers: Option<u32>,
}

/// The two numbers of `check`, which takes no option.
#[derive(Debug, Clone, Copy, PartialEq, Eq)]
pub struct CheckNumbers {
    /// How many transactions are started, from 0 to 10,000.
    pub starts: u32,
    /// The seed that they are drawn from.
    pub seed: u64,
}

/// A command with its options.
#[derive(Debug, Drop)]
pub enum Words {
    /// Makes a silo.
    Init,
    /// Carries the lines of the input.
    Run(RunOptions),
    /// Writes the states.
    Show,
    /// Writes the records.
    History,
    /// Plays the log again.
    Audit,
    /// Makes a silo and carries lines that it draws.
    Load(LoadOptions),
    /// Runs two-phase commit between silos.
    Check(CheckNumbers),
    /// Writes the next generation of a silo.
    Compact,
    /// Brings a program into force in a silo.
    Upgrade,
    /// Writes a silo of format 1 into its other slot as one of format 2.
    Migrate,
}
