//! The types that every layer speaks of: grains, values, calls, outcomes, shapes of programs, stored
//! states, and the entries that answer request lines; and the map in which they stand where keys come in ascending order.
//!
//! Each is plain data. Contracts see a [`List`], a [`State`] and a [`Text`] as lists.
#![tactic(auto)]

mod ascending_map;
mod calls;
mod entries;
mod known_version;
mod limits;
mod list;
mod places;
mod seats;
mod shapes;
mod state;
mod stores;
mod text;

pub use ascending_map::AscendingMap;
pub use calls::{Call, GrainId, Mode, Origin, Outcome, UnitNo, Value};
pub use entries::{BadRequest, Entry, Settled};
pub use known_version::KnownVersion;
pub use limits::{FILE_LIMIT, PROGRAM_LIMIT, STATE_LIMIT, TEXT_LIMIT};
pub use list::{List, TryCopy};
pub use places::{Placed, Places};
pub use shapes::{Shape, TypeShape};
pub use state::State;
pub use stores::{Ends, Place, Store, Version};
pub use text::Text;
