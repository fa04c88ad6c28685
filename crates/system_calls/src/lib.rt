//! The calls that a silo asks of the operating system: on its folder and the files there, and on the standard streams.
//!
//! [`SystemCalls`] states what each call does, what a failure leaves, and what a crash leaves of what was done. [`Linux`] makes
//! them by std, each by one call of std, and tells nothing, since std says nothing of what a file holds: that Linux and the disk
//! keep what is stated here is trusted, and so is, by reading, that these bodies ask it of them.
#![tactic(auto)]

mod calls;
mod linux;
mod refusal;

pub use calls::{Access, Handle, Look, SystemCalls};
pub use linux::{InFolder, Linux};
pub use refusal::Refused;
