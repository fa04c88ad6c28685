ghost use Rattle.script_meaning.specs.Laws.{PlayIsNext, NextIsPlay, PlayRestsOnReads, PlayIsAgain, EqualStoresPlayAlike, PlaysAreOrderly, PlainRunsLockNothing, NextIsMissing, TrailsGrow, TrailsReadOnce, NextIsOfTypes, LoopsGoOn};
ghost use Rattle.script_meaning.specs.Texts.{FaultsAreKnown};

/// A play is a run of `next` to its end: a unit that is given what `next` names, one after the other, over states of
/// the store and the outcomes of its children, ends as the play says, and the play's reads, units and answers are
/// what it was given.
pub fn play_is_next()
    ensures { PlayIsNext }
{}

/// Each run of `next` to its end is the play over every store with the states that it found.
pub fn next_is_play()
    ensures { NextIsPlay }
{}

/// A play depends on no state but those that it reads, and on no answer but those of the units that it asks for.
pub fn play_rests_on_reads()
    ensures { PlayRestsOnReads }
{}

/// Over its own reads and answers a play gives the same again.
pub fn play_is_again()
    ensures { PlayIsAgain }
{}

/// Equal stores give equal plays.
pub fn equal_stores_play_alike()
    ensures { EqualStoresPlayAlike }
{}

/// A play ends with a value or a fault. It reads each grain once, at most 64 of them, and writes grains that it read,
/// in ascending order and with all their fields. It asks for at most 64 units, each a transaction of its own, deeper
/// than the first frame and no deeper than a frame may be; in a program that was checked it has as many arguments as
/// its method has parameters.
pub fn plays_are_orderly()
    ensures { PlaysAreOrderly }
{}

/// A plain run, whose option makes no transaction, reads and writes nothing.
pub fn plain_runs_lock_nothing()
    ensures { PlainRunsLockNothing }
{}

/// What `next` names is missing still: a first lock of a grain that isn't locked, an exclusive lock of one that is
/// locked shared, a unit where fewer than 64 were asked for.
pub fn next_is_missing()
    ensures { NextIsMissing }
{}

/// A trail of what a unit was given begins empty and grows by what `next` names, and each beginning of one is one.
pub fn trails_grow()
    ensures { TrailsGrow }
{}

/// A trail reads each grain once, so the states that it found are those of its reads.
pub fn trails_read_once()
    ensures { TrailsReadOnce }
{}

/// Whatever locks and answers a unit was given, `next` names no grain but those of the program's types: neither a lock's
/// nor a call's.
pub fn next_is_of_types()
    ensures { NextIsOfTypes }
{}

/// A `while` is a step, then its test, then its block and the same `while` again, or what follows.
pub fn loops_go_on()
    ensures { LoopsGoOn }
{}

/// In a program that was checked, a play of a call of it ends with a fault of the language, with one that a method may
/// fail with, or with a child's; so each name stands for something.
pub fn faults_are_known()
    ensures { FaultsAreKnown }
{}
