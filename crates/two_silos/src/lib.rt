//! Two-phase commit between silos: the world of a coordinator and its participants, over a link that loses,
//! repeats and reorders packets, and what holds in it after every list of events. The protocol is told in
//! `docs/TWO-SILOS.md`.
#![tactic(auto)]

mod course;
mod draws;
mod events;
mod laws;
mod link;
mod openings;
mod parts;
mod summary;
mod world;

pub use events::WorldEvent;
pub use laws::{
    balances_follow, checks_keep_money, commits_are_prepared, decisions_are_kept, decisions_stay,
    grains_are_kept_by_prepared, money_stays, no_is_exact, numbers_are_given_once, numbers_are_new,
    orders_agree, parts_are_started, quiet_is_whole,
};
pub use summary::{Summary, check};
pub use world::World;
