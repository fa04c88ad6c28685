// The signals by which workers and the settler wait for each other.
use crate::stand::Stand;
use std::sync::Wait;
use std::sync::atomic::{AtomicBool, AtomicU64, Ordering};
use std::time::Duration;

/// How long a thread sleeps at most, in milliseconds. Each sleep is ended by whoever makes its reason go; this is for the case
/// that one of them forgets it, and bounds how long the one who settles lets a batch grow.
const LONGEST_SLEEP: u64 = 1;

/// How many lines workers may be ahead of what is written, and how many lines may begin behind one whose unit waits.
const MOST_AHEAD: u64 = 256;

/// A worker that was too far ahead goes on once it is no more than so many lines ahead.
const NEAR_AGAIN: u64 = 128;

/// How many workers carry at most.
const MOST_WORKERS: u64 = 16;

/// After so many lines of which none met another, one worker more may carry.
const CALM_LINES: u64 = 64;

/// After so many lines the one who settles is called, where it sleeps.
const LINES_A_CALL: u64 = 16;

/// How often a worker tries for a place before it takes it that there is none.
const MOST_TRIES: usize = 64;

/// The low 32 bits of a count.
fn low(count: u64) -> u32 {
    (count % (1 << 32)) as u32
}

/// What threads tell one another beside the core.
#[derive(Drop)]
pub struct Signals {
    /// How often somebody went on, and how many workers sleep by it.
    moves: AtomicU64,
    asleep: AtomicU64,
    /// How often the one who settles was called, and whether it sleeps.
    calls: AtomicU64,
    resting: AtomicU64,
    /// How many workers are at work.
    workers: AtomicU64,
    /// The line that was begun last, how many lines are written, and how many workers sleep since they are ahead.
    begun: AtomicU64,
    written: AtomicU64,
    early: AtomicU64,
    /// How often there was room for one more to carry, how many workers carry by now, and how many may.
    rooms: AtomicU64,
    carrying: AtomicU64,
    most: AtomicU64,
    /// How many lines ended since two met, and the line that had begun last when fewer workers were let carry.
    calm: AtomicU64,
    lowered: AtomicU64,
    /// How many workers' units wait while too many lines began behind theirs.
    behind: AtomicU64,
    failed: AtomicBool,
}

impl Signals {
    /// Nobody has moved, sleeps, works, settles or failed.
    pub fn new() -> Signals {
        Signals {
            moves: AtomicU64::new(0),
            asleep: AtomicU64::new(0),
            calls: AtomicU64::new(0),
            resting: AtomicU64::new(0),
            workers: AtomicU64::new(0),
            begun: AtomicU64::new(0),
            written: AtomicU64::new(u64::MAX),
            early: AtomicU64::new(0),
            rooms: AtomicU64::new(0),
            carrying: AtomicU64::new(0),
            most: AtomicU64::new(MOST_WORKERS),
            calm: AtomicU64::new(0),
            lowered: AtomicU64::new(0),
            behind: AtomicU64::new(0),
            failed: AtomicBool::new(false),
        }
    }

    /// Tells that somebody may go on who couldn't: the count of moves goes up, and workers that sleep by it are woken. Where
    /// nobody sleeps it costs no call of the system.
    pub fn changed(&self) {
        self.moves.fetch_add(1, Ordering::SeqCst);
        if self.asleep.load(Ordering::SeqCst) > 0 {
            self.moves.wake_all();
        }
    }

    /// The count of moves by now, in its low 32 bits.
    pub fn seen(&self) -> u32 {
        low(self.moves.load(Ordering::SeqCst))
    }

    /// A worker whose units can't go on calls the one who settles, and sleeps while no move came since this count was seen; it may
    /// also return for no reason. Where too many lines began behind its own, no worker begins another before it has ended that.
    pub fn wait<R: Wait>(&self, rt: &R, seen: u32, stand: &mut Stand) {
        if !stand.is_behind && self.is_passed(stand.line) {
            stand.is_behind = true;
            self.behind.fetch_add(1, Ordering::SeqCst);
        }
        self.asleep.fetch_add(1, Ordering::SeqCst);
        self.call();
        self.moves
            .park_timeout(rt, seen, Duration::from_millis(LONGEST_SLEEP));
        self.asleep.fetch_sub(1, Ordering::SeqCst);
    }

    /// The count of calls by now, in its low 32 bits.
    pub fn called(&self) -> u32 {
        low(self.calls.load(Ordering::SeqCst))
    }

    /// The one who settles sleeps while no worker called since this count was seen, at most a millisecond; it may also return
    /// for no reason.
    pub fn rest<R: Wait>(&self, rt: &R, called: u32) {
        self.resting.fetch_add(1, Ordering::SeqCst);
        self.calls
            .park_timeout(rt, called, Duration::from_millis(LONGEST_SLEEP));
        self.resting.fetch_sub(1, Ordering::SeqCst);
    }

    /// Tells that a worker found no memory.
    pub fn fail(&self) {
        self.failed.store(true, Ordering::SeqCst);
        self.call();
    }

    /// Whether a worker found no memory.
    pub fn has_failed(&self) -> bool {
        self.failed.load(Ordering::SeqCst)
    }

    /// A worker begins its work.
    pub fn begin(&self) {
        self.workers.fetch_add(1, Ordering::SeqCst);
    }

    /// A worker that began has ended its work.
    pub fn end(&self) {
        self.workers.fetch_sub(1, Ordering::SeqCst);
        self.call();
        self.changed();
    }

    /// How many workers are at work.
    pub fn working(&self) -> u64 {
        self.workers.load(Ordering::SeqCst)
    }

    /// A worker comes to this line.
    pub fn come_to(&self, number: u64) {
        self.begun.store(number, Ordering::SeqCst);
    }

    /// A worker carries this line from now on.
    pub fn carry(&self, stand: &mut Stand, number: u64) {
        stand.line = number;
    }

    /// The line that a worker carries met an older one's lock and died. The first such line of those that began since it was so
    /// last leaves half of the workers that carry by now to do so, and one at least.
    pub fn meet(&self, stand: &Stand) {
        if stand.line <= self.lowered.load(Ordering::SeqCst) {
            return;
        }
        self.lowered
            .store(self.begun.load(Ordering::SeqCst), Ordering::SeqCst);
        let half = self.carrying.load(Ordering::SeqCst) / 2;
        self.most.store(half.max(1), Ordering::SeqCst);
        self.calm.store(0, Ordering::SeqCst);
    }

    /// The line that a worker carried has ended, if it carried one. After every 64 such lines of which none died one worker more
    /// may carry.
    pub fn end_line(&self, stand: &mut Stand) {
        if stand.line == 0 {
            return;
        }
        stand.line = 0;
        self.catch_up(stand);
        let calm = self.calm.fetch_add(1, Ordering::SeqCst).wrapping_add(1);
        if calm % CALM_LINES == 0 {
            self.let_one_more();
        }
        if calm % LINES_A_CALL == 0 {
            self.call();
        }
    }

    /// Whether a worker that carries no line may begin one. It may not while lines that have begun are more than 256 ahead of what
    /// is written, by one who goes on to write, or of one whose unit waits, nor while as many workers carry as may.
    pub fn may_begin(&self, stand: &mut Stand) -> bool {
        stand.written = self.written.load(Ordering::SeqCst);
        stand.is_early = self.ahead_of(stand.written) > MOST_AHEAD;
        if stand.is_early || self.behind.load(Ordering::SeqCst) > 0 {
            return false;
        }
        if stand.has_place {
            stand.has_place = !self.gives_place();
        } else {
            stand.has_place = self.takes_place();
        }
        stand.has_place
    }

    /// The count of rooms by now, in its low 32 bits.
    pub fn room(&self) -> u32 {
        low(self.rooms.load(Ordering::SeqCst))
    }

    /// A worker that may not begin a line calls the one who settles, and sleeps, by what [`Signals::may_begin`] found: until enough
    /// is written, or while no room came since this count was seen; it may also return for no reason.
    pub fn keep_back<R: Wait>(&self, rt: &R, room: u32, stand: &Stand) {
        let longest = Duration::from_millis(LONGEST_SLEEP);
        self.call();
        if !stand.is_early {
            self.rooms.park_timeout(rt, room, longest);
            return;
        }
        self.early.fetch_add(1, Ordering::SeqCst);
        self.written.park_timeout(rt, low(stand.written), longest);
        self.early.fetch_sub(1, Ordering::SeqCst);
    }

    /// A worker carries no more lines.
    pub fn leave(&self, stand: &mut Stand) {
        stand.line = 0;
        self.catch_up(stand);
        if stand.has_place {
            stand.has_place = false;
            self.carrying.fetch_sub(1, Ordering::SeqCst);
        }
        self.make_room();
    }

    /// So many lines have their entries written by now, by one who goes on to write. Workers that were ahead are woken once they
    /// are near again.
    pub fn write(&self, lines: u64) {
        if self.written.swap(lines, Ordering::SeqCst) == lines {
            return;
        }
        if self.early.load(Ordering::SeqCst) > 0 && self.ahead_of(lines) <= NEAR_AGAIN {
            self.written.wake_all();
        }
    }

    /// Nobody writes any more: workers need not wait for it, and whoever is kept back looks again.
    pub fn write_no_more(&self) {
        self.written.store(u64::MAX, Ordering::SeqCst);
        self.written.wake_all();
        self.make_room();
    }

    // How many lines have begun behind the written ones.
    fn ahead_of(&self, written: u64) -> u64 {
        self.begun.load(Ordering::SeqCst).saturating_sub(written)
    }

    // Whether too many lines began behind this one.
    fn is_passed(&self, line: u64) -> bool {
        line > 0 && self.ahead_of(line) > MOST_AHEAD
    }

    // A worker whose unit waited too long has ended that line.
    fn catch_up(&self, stand: &mut Stand) {
        if stand.is_behind {
            stand.is_behind = false;
            self.behind.fetch_sub(1, Ordering::SeqCst);
            self.make_room();
        }
    }

    // Lets one worker more carry, up to 16.
    fn let_one_more(&self) {
        let most = self.most.load(Ordering::SeqCst);
        if most < MOST_WORKERS {
            self.most.store(most + 1, Ordering::SeqCst);
            self.make_room();
        }
    }

    // Wakes workers that are kept back.
    fn make_room(&self) {
        self.rooms.fetch_add(1, Ordering::SeqCst);
        self.rooms.wake_all();
    }

    // Takes a place among those that carry, where there is one.
    fn takes_place(&self) -> bool {
        for _ in 0..MOST_TRIES {
            let carrying = self.carrying.load(Ordering::SeqCst);
            if carrying >= self.most.load(Ordering::SeqCst) {
                return false;
            }
            if self.moves_on(carrying, carrying + 1) {
                return true;
            }
        }
        false
    }

    // Gives a place back, where more carry than may.
    fn gives_place(&self) -> bool {
        for _ in 0..MOST_TRIES {
            let carrying = self.carrying.load(Ordering::SeqCst);
            if carrying <= self.most.load(Ordering::SeqCst) {
                return false;
            }
            if self.moves_on(carrying, carrying - 1) {
                return true;
            }
        }
        false
    }

    // Sets how many carry, where nobody did so meanwhile.
    fn moves_on(&self, from: u64, to: u64) -> bool {
        self.carrying
            .compare_exchange(from, to, Ordering::SeqCst, Ordering::SeqCst)
            .is_ok()
    }

    fn call(&self) {
        self.calls.fetch_add(1, Ordering::SeqCst);
        if self.resting.load(Ordering::SeqCst) > 0 {
            self.calls.wake_all();
        }
    }
}
