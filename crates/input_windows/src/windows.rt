ghost use Rattle.std.specs.Prelude.{◌≡◌, ◌+◌, ◌-◌, ◌^◌, ◌<◌, ◌≤◌, ◌++◌, [], false, min, length, take, drop, IsTrue, IfOk, OnOk, IfErr, OnErr};
ghost use Rattle.host_trait.specs.Faults.{NoneFailed, Counted, HasCalled};
ghost use Rattle.host_trait.specs.Files.{StaysReady};
ghost use Rattle.host_trait.specs.World.{Asked, Pulled};
ghost use Rattle.host_trait.specs.declared.channels.Channel.TheVariants.{Input};
ghost use Rattle.request_wire.specs.Lines.{lines_of};
ghost use Rattle.input_windows.specs.Lines.{IsNextLine};
ghost use Rattle.input_windows.specs.Pulls.{PulledOnly, Took};

use crate::scan::{Found, WINDOW_LINES, scan};
use host_trait::{Failed, Host};
use std::alloc::{AllocError, Global};
use thiserror::Error;

/// How many bytes are pulled at once, at most.
const PIECE: usize = 65_536;

/// Why no window was given.
#[derive(Clone, Copy, Debug, PartialEq, Eq, Error)]
pub enum WindowFault {
    /// No memory was left for the window.
    #[error("no memory for the input")]
    Memory,
    /// A pull failed.
    #[error("the input couldn't be read")]
    Failed,
    /// This line has more than [`LINE_LIMIT`](crate::LINE_LIMIT) bytes; or it is 0, and a line follows whose number has more than 32
    /// bits.
    #[error("line {line} of the input is too long")]
    TooLong { line: u32 },
}

impl From<Failed> for WindowFault {
    ghost use Rattle.input_windows.specs.declared.windows.WindowFault.TheVariants.{Failed};

    ghost from_gives = { λ _ e. e ≡ Failed };

    fn from(_: Failed) -> WindowFault {
        WindowFault::Failed
    }
}

impl From<AllocError> for WindowFault {
    ghost use Rattle.input_windows.specs.declared.windows.WindowFault.TheVariants.{Memory};

    ghost from_gives = { λ _ e. e ≡ Memory };

    fn from(_: AllocError) -> WindowFault {
        WindowFault::Memory
    }
}

/// An input that is cut into windows. It holds what was pulled of the window that was given last and behind it: a window of 4,096
/// lines and a piece of 65,536 bytes at most, so its buffer has never more than 268,505,087 bytes. A buffer that grows takes up to
/// twice as much memory, and three times while its bytes are moved.
///
/// Each byte is looked at once, and moved once at most after it was pulled. After a refusal all that was pulled stays, and the next
/// call begins the same window anew.
#[derive(Drop)]
pub struct InputWindows {
    /// What was pulled, and room behind it.
    buffer: Vec<u8>,
    /// Where the window that was given last begins and ends, and up to where bytes were pulled.
    start: usize,
    end: usize,
    filled: usize,
    /// How many lines the windows before it have, and how many it has.
    before: u32,
    lines: u32,
    /// Whether the input ended behind it.
    last: bool,
    ghost order: { start ≤ end },
    ghost within: { end ≤ filled },
    ghost room: { filled ≤ length buffer.items },
    ghost small: { length buffer.items ≤ 268505087 },
    ghost few: { before + lines < 2 ^ 32 },
    ghost counted: { length (lines_of (take (end - start) (drop start buffer.items))) ≡ lines },
}

/// Pulls a piece into a buffer, behind so many bytes that stay.
fn pull_behind<H: Host>(host: &mut H, buffer: &mut [u8], filled: usize) -> Result<usize, Failed>
    requires { filled + 65536 ≤ length buffer.old }
    ensures stays { take filled buffer.new ≡ take filled buffer.old }
    ensures bound { IfOk result (λ n. n ≤ 65536) }
    ensures ok { IfOk result (λ n. IsTrue H.tells → Pulled n (drop filled buffer.new) (H.world host.old) (H.world host.new)) }
    ensures err { OnErr result (IsTrue H.tells → Asked (H.world host.old) (H.world host.new)) }
    ensures faults { Counted Input result (H.faults host.old) (H.faults host.new) }
    ensures ready { StaysReady (H.is_ready host.old) (H.is_ready host.new) }
{
    let end = filled + PIECE;
    host.pull(&mut buffer[filled..end])
}

/// How many lines stand where so many have ended and so many bytes stand in an open one.
fn with_open(lines: u32, stood: usize) -> u32
    requires { lines < 4096 }
    ensures { result ≡ lines + min stood 1 }
{
    if stood > 0 { lines + 1 } else { lines }
}

impl InputWindows {
    ghost use Rattle.input_windows.specs.Windows.{window_in, left_in, before_in, given_in, is_last_in, input_behind, Gave, Refused, PullFaulted, IsBegun, IsOfPull};

    /// Nothing was pulled yet.
    pub fn new(alloc: Global) -> InputWindows
        ensures left { left_in result ≡ [] }
        ensures given { given_in result ≡ 0 }
        ensures last { is_last_in result ≡ false }
    {
        InputWindows {
            buffer: Vec::new(alloc),
            start: 0,
            end: 0,
            filled: 0,
            before: 0,
            lines: 0,
            last: false,
        }
    }

    /// The window that was given last; empty before the first, at the end and after a refusal.
    pub fn window(&self) -> &[u8]
        ensures bytes { result.now ≡ window_in self.now }
        ensures few { before_in self.now + length (lines_of result.now) < 2 ^ 32 }
    {
        &self.buffer[self.start..self.end]
    }

    /// How many lines the windows before it have.
    pub fn lines_before(&self) -> u32
        ensures { result ≡ before_in self.now }
    {
        self.before
    }

    /// Whether the input ended behind it. Then it is the last, and nothing is gained by a further call, which would pull again.
    pub fn is_last(&self) -> bool
        ensures { result ≡ is_last_in self.now }
    {
        self.last
    }

    /// The next window is where the one before it ended.
    fn go_on(&mut self)
        ensures window { window_in self.new ≡ [] }
        ensures left { left_in self.new ≡ left_in self.old }
        ensures before { before_in self.new ≡ given_in self.old }
        ensures begun { IsBegun self.new }
    {
        self.before += self.lines;
        self.lines = 0;
        self.start = self.end;
        self.last = false;
    }

    /// Moves what was pulled to the front.
    fn move_to_front(&mut self)
        requires { IsBegun self.old }
        ensures begun { IsBegun self.new }
        ensures left { left_in self.new ≡ left_in self.old }
        ensures size { self.new.filled ≡ length (left_in self.old) }
        ensures before { before_in self.new ≡ before_in self.old }
    {
        if self.start == 0 {
            return;
        }
        self.buffer.copy_within(self.start..self.filled, 0);
        self.filled -= self.start;
        self.start = 0;
        self.end = 0;
    }

    /// Makes room for a piece behind what was pulled.
    fn make_room(&mut self) -> Result<(), AllocError>
        requires begun { IsBegun self.old }
        requires few { length (left_in self.old) ≤ 268439551 }
        ensures begun { IsBegun self.new }
        ensures left { left_in self.new ≡ left_in self.old }
        ensures before { before_in self.new ≡ before_in self.old }
        ensures room { OnOk result (self.new.filled + 65536 ≤ length self.new.buffer.items) }
    {
        self.move_to_front();
        if self.buffer.len() - self.filled < PIECE {
            self.buffer.resize(self.filled + PIECE, 0)?;
        }
        Ok(())
    }

    /// Pulls a piece behind what was pulled, and answers how many bytes it has. For 0 the input has ended.
    fn pull_piece<H: Host>(&mut self, host: &mut H) -> Result<usize, WindowFault>
        requires begun { IsBegun self.old }
        requires few { length (left_in self.old) ≤ 268439551 }
        ensures begun { IsBegun self.new }
        ensures before { before_in self.new ≡ before_in self.old }
        ensures took { Took H.tells (H.world host.old) (H.world host.new) (left_in self.old) (left_in self.new) }
        ensures count { IfOk result (λ n. length (left_in self.new) ≡ length (left_in self.old) + n) }
        ensures end { IfOk result (λ n. n ≡ 0 → IsTrue H.tells → (H.world host.new).input ≡ []) }
        ensures err { OnErr result (left_in self.new ≡ left_in self.old) }
        ensures calm { OnOk result (NoneFailed (H.faults host.old) (H.faults host.new)) }
        ensures counts { IfErr result (λ e. IsOfPull e × PullFaulted e (H.faults host.old) (H.faults host.new)) }
        ensures only { IsTrue H.tells → PulledOnly (H.world host.old) (H.world host.new) }
        ensures ready { StaysReady (H.is_ready host.old) (H.is_ready host.new) }
    {
        self.make_room()?;
        let count = pull_behind(host, &mut self.buffer, self.filled)?;
        self.filled += count;
        Ok(count)
    }

    /// Gives so many of the bytes that are left, which have so many lines.
    fn give(&mut self, size: usize, lines: u32, last: bool)
        requires begun { IsBegun self.old }
        requires within { size ≤ length (left_in self.old) }
        requires few { before_in self.old + lines < 2 ^ 32 }
        requires lines { length (lines_of (take size (left_in self.old))) ≡ lines }
        ensures window { window_in self.new ≡ take size (left_in self.old) }
        ensures left { left_in self.new ≡ drop size (left_in self.old) }
        ensures before { before_in self.new ≡ before_in self.old }
        ensures given { given_in self.new ≡ before_in self.old + lines }
        ensures last { is_last_in self.new ≡ last }
    {
        self.end = self.start + size;
        self.lines = lines;
        self.last = last;
    }

    /// Pulls until a window stands, and answers whether one does: `false` at the end of the input.
    ///
    /// It has 4,096 lines, or those up to the end. A fault of the input, a bad line and want of memory refuse the window whole; a
    /// bad line behind the 4,096th doesn't.
    pub fn next_window<H: Host>(&mut self, host: &mut H) -> Result<bool, WindowFault>
        // what was left and what was pulled is the window and what is left
        ensures took { Took H.tells (H.world host.old) (H.world host.new) (left_in self.old) (window_in self.new ++ left_in self.new) }
        ensures before { before_in self.new ≡ given_in self.old }
        ensures lines { given_in self.new ≡ before_in self.new + length (lines_of (window_in self.new)) }

        // what is answered
        ensures gave { IfOk result (λ found. Gave found H.tells self.new (H.world host.new)) }
        ensures next { IfOk result (λ found. IsTrue found → IsTrue H.tells
            → IsNextLine (window_in self.new) (input_behind self.old (H.world host.old)) (input_behind self.new (H.world host.new))) }
        ensures refused { IfErr result (λ e. Refused e (given_in self.old) (left_in self.new)) }
        ensures none { OnErr result (window_in self.new ≡ []) }

        // what the host did
        ensures calls { HasCalled PullFaulted result H.is_ready H.faults host.old host.new }
        ensures only { IsTrue H.tells → PulledOnly (H.world host.old) (H.world host.new) }
    {
        self.go_on();
        let most = u32::MAX - self.before;
        let mut seen = 0;
        let mut lines = 0;
        let mut stood = 0;
        loop {
            match scan(
                &self.buffer[self.start + seen..self.filled],
                most,
                lines,
                stood,
            ) {
                Found::End { size } => {
                    self.give(seen + size, WINDOW_LINES, false);
                    return Ok(true);
                }
                Found::BadLine { behind } => {
                    let line = (self.before + behind).wrapping_add(1);
                    return Err(WindowFault::TooLong { line });
                }
                Found::Open {
                    lines: ended,
                    bytes,
                } => {
                    lines = ended;
                    stood = bytes;
                }
            }
            seen = self.filled - self.start;
            if self.pull_piece(host)? == 0 {
                let count = with_open(lines, stood);
                self.give(seen, count, true);
                return Ok(count > 0);
            }
        }
    }
}
