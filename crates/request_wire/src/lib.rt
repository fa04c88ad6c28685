//! Request lines and reply lines: how the input is cut into lines, which call a line asks for, and the
//! line that answers it.
//!
//! Nothing here keeps state. The contracts cite the definitions in `specs/`: `Lines`, `Request`, `Reply`.
#![tactic(auto)]

mod calls;
mod faults;
mod lines;
mod names;
mod programs;
mod replies;
mod requests;

pub use faults::RequestFault;
pub use lines::first_line;
pub use replies::{grain_text, replies_are_lines, reply_text};
pub use requests::{Line, read_request};
