//! Runs on one thread: begins lines as the width lets it, and has one mover after another move, by a list of picks: the units
//! that are carried, and the settler.
//!
//! [`run_turns`] is the whole of it. It keeps a record of the run, and the turn rule where the run so far is of turns alone, which hold
//! where it begins and again where it ends, however it ends: `Turns`. Where it carried all, more lines can be carried from there, and
//! the picks go on too. The books that the record speaks of, and what each image of a crash keeps of them, are those of `run_books`.
//!
//! # Whether a run goes on
//!
//! What is proved of each run of turns:
//!
//! - Nobody waits for ever. `Ok` is answered where no line may begin and nobody can move; then each line has its entry, all that
//!   is settled is written, each unit that began is settled and holds no lock, nothing is or was in doubt, and the settler has nothing
//!   to do (`HasCarriedAll`). So the next lines can begin where these ended (`who_has_carried_all_can_go_on`), window after window
//!   of an input (`windows_follow`).
//! - Nobody turns in place. Each turn that goes on begins one line or uses one pick. As many lines have begun as the core was told
//!   of; and where the run so far is of turns alone, as many picks are used as events that applied were put by units and the settler
//!   (`IsUnderWay`). So with each such turn one event more applies.
//! - The turns end: there are at most 2 to the 64 less one, with the picks that calls before used, and the last that goes on is answered by `Memory`. By then as many
//!   events have applied. No bound on the events of a run is proved, and so not that no run comes to that end.
#![tactic(auto)]

mod ended_turns;
mod flights;
mod laws;
mod movers;
mod turns;

pub use laws::{nobody_moves_where_lines_begin, who_has_carried_all_can_go_on, windows_follow};
pub use run_books::RunFault;
pub use turns::run_turns;
