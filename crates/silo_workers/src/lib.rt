//! Threads that carry the units of a run over one core, which stands in a turn cell, while the calling thread settles.
//!
//! [`run_with_workers`] is the whole of it. Each worker has a pass of its own, by which it reaches the core ([`Reach`]), and what
//! is known of a pass when it comes back stays known as passes are joined (`worker_rules`). Once the cell is closed the calling
//! thread has the core alone again, and settles what is left.
#![tactic(auto)]

mod crowd;
mod reach;
mod run;
mod run_end;
mod settler_thread;
mod team;
mod work;

pub use reach::Reach;
pub use run::run_with_workers;
pub use work::{WorkEnd, carry};
