//! `places`: where each grain's last version stands.
//!
//! | A step | does |
//! |---|---|
//! | `put GRAIN OFFSET`, `room GRAIN` | gives the grain a place of 16 bytes there; makes room for one |
//! | `replace GRAIN OFFSET` | makes room, and gives the grain a place there that a unit of the run wrote |
//! | `get GRAIN` | tells the grain's place, and whether a unit of the run wrote it |
//! | `grains` | tells the grains that have a place or room for one |

use crate::cases::{Part, carry, no_step};
use crate::steps::Step;
use base_types::{KnownVersion, Place, Placed, Places, State, UnitNo, Version};
use std::alloc::{AllocError, Global};

#[derive(Drop)]
struct Bench {
    alloc: Global,
    places: Places,
}

/// Puts places through the steps.
pub fn play(alloc: Global, out: &mut String, steps: &str) -> Result<(), AllocError> {
    let places = Places::new(alloc);
    let mut bench = Bench { alloc, places };
    carry(&mut bench, alloc, out, steps)
}

// A place of 16 bytes there, with a version without fields.
fn placed(alloc: Global, offset: u64, is_new: bool) -> Placed {
    let version = Version {
        unit: UnitNo(1),
        state: State::new(alloc),
    };
    Placed {
        place: Place { offset, len: 16 },
        program: 0,
        is_new,
        known: KnownVersion::of(&version),
    }
}

fn replace(bench: &mut Bench, step: &Step<'_>) -> Result<(), AllocError> {
    let grain = step.grain(1);
    bench.places.room(grain)?;
    bench
        .places
        .replace(grain, placed(bench.alloc, step.number(2), true));
    Ok(())
}

fn add_place(out: &mut String, places: &Places, step: &Step<'_>) -> Result<(), AllocError> {
    match places.get(step.grain(1)) {
        Some(placed) => {
            let place = placed.place.offset;
            let is_new = placed.is_new;
            write!(out, " = {place}, {is_new}")
        }
        None => out.push_str(" = none"),
    }
}

fn add_grains(bench: &Bench, out: &mut String) -> Result<(), AllocError> {
    out.push_str(" =")?;
    let grains = bench.places.grains(bench.alloc)?;
    for grain in grains.as_slice() {
        let (kind, key) = (grain.kind, grain.key);
        write!(out, " {kind}/{key}")?;
    }
    Ok(())
}

impl Part for Bench {
    fn step(&mut self, out: &mut String, step: &Step<'_>) -> Result<(), AllocError> {
        let alloc = self.alloc;
        match step.word(0) {
            "put" => self
                .places
                .put(step.grain(1), placed(alloc, step.number(2), false)),
            "room" => self.places.room(step.grain(1)),
            "replace" => replace(self, step),
            "get" => add_place(out, &self.places, step),
            "grains" => add_grains(self, out),
            _ => no_step(out),
        }
    }
}
