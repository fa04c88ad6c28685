//! What the threads of a run tell one another beside the core: that somebody may go on who couldn't, that a worker found no
//! memory, how many workers are at work, how far lines have begun and are written, and how many workers may carry lines.
//!
//! A worker that can't go on takes [`Signals::seen`] before it looks at the core, and [`Signals::wait`]s with that afterwards: it
//! sleeps only while no move came since. So does one that may not begin a line, with [`Signals::room`] and
//! [`Signals::keep_back`], and the one who settles, with [`Signals::called`] and [`Signals::rest`]. Each sleep is ended by whoever
//! makes its reason go, and after a millisecond at the latest.
//!
//! Lines that meet at one grain would die by each other's locks. So where one died fewer workers carry, one at least, and where
//! none did for 64 lines one more does. And where a unit waits while 256 lines began behind its own, none begins before it has
//! ended. Nothing is proved of words that other threads write; no proof rests on them.
#![tactic(auto)]

mod signals;
mod stand;
#[cfg(test)]
mod tests;

pub use signals::Signals;
pub use stand::Stand;
