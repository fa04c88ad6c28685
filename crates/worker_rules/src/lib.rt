//! What those who share a core promise of the events that they put, and what that gives for the whole history.
//!
//! There is no code but public functions with empty bodies, whose contracts are laws of any true history of the core: each
//! entry has the number of the pass that put it, and the core's reply. One who holds a pass can't know what others put
//! until the cell is closed; so what it promises of its own entries rests on that alone. Where every pass keeps its
//! promise, the whole history keeps the unit rule. `promises` says that of histories, `unit_ownership` how the calls of an access
//! keep a promise, `work` which events workers put.
//!
//! A pass that comes back brings what was known of it when it last looked (`Knew`); as passes are joined that stays known, and where the
//! cell is closed it is known of the whole history (`IsClosed`): so say the lemmas of `proofs/JoinedPasses.antt`, for any predicate.
//! `closed_core` says what follows of the closed core: it keeps the unit rule, the one who settled was alone with that, and the units
//! that workers carried to their end are done.
#![tactic(auto)]

mod closed_core;
mod promises;
mod unit_ownership;
mod work;

pub use closed_core::{
    a_closed_core_keeps_the_unit_rule, all_units_are_done, lines_that_began_have_begun,
    nothing_put_changes_nothing, who_settles_is_alone,
};
pub use promises::{numbers_are_given_once, promises_go_on, promises_keep_the_rule};
pub use unit_ownership::{
    calls_keep_a_promise, one_alone_with_a_unit_hears_nothing, who_began_a_unit_is_alone_with_it,
};
pub use work::workers_leave_the_settler;
