//! What a silo's folder tells: the state of each grain (`show`), its records (`history`), and whether they replay (`audit`).
//!
//! Each opens the folder, and changes nothing of it. The definitions of the texts are `promise_spec`'s.
#![tactic(auto)]

mod audits;
mod carrying;
mod faults;
mod grains;
mod in_force;
mod line_writer;
mod lines;
mod parts;
mod records;
mod replay;
mod states;

pub use audits::{AuditReport, audit, print_audit};
pub use faults::ReportFault;
pub use records::history;
pub use replay::Bad;
pub use states::show;
