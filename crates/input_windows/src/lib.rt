//! An input, cut into windows of 4,096 lines each.
//!
//! [`InputWindows`] pulls the input of a host in pieces, and gives it window by window: each has 4,096 lines but the last, which
//! ends with the input. A fault of the input, a line that is too long and one whose number has more than 32 bits refuse their window
//! whole, and the first of them in input order is told.
#![tactic(auto)]

mod laws;
mod scan;
mod windows;

pub use laws::windows_make_up_the_input;
pub use scan::{LINE_LIMIT, WINDOW_LINES};
pub use windows::{InputWindows, WindowFault};
