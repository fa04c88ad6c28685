// A settler over a core of accounts and a recorder.
ghost use Rattle.std.specs.Prelude.{◌≡◌, ◌<◌, ◌≤◌, Some, IfOk};
ghost use Rattle.std.specs.Coded.{codes};
ghost use Rattle.std.proofs.Props.{props};
ghost use Rattle.base_types.specs.Places.{placed_in};
ghost use Rattle.base_types.specs.contracts.shapes.Shape as a_shape;
ghost use Rattle.base_types.specs.declared.calls.GrainId.{GrainId as AGrain};
ghost use Rattle.base_types.specs.declared.places.Placed.{Placed as APlace};
ghost use Rattle.host_trait.specs.Files.{HasSlot};
ghost use Rattle.batch_disk.specs.Writers.{IsInBounds};
ghost use Rattle.settle_tests.specs.Bounds.{in_turn-prop};

use crate::recorder::{Recorder, bytes_in, new_recorder, recorder_with};
use crate::units::{
    Add, Waiting, account, carry_out, go_on, new_core, new_programs, new_shape, number_state, want,
};
use base_types::{Ends, KnownVersion, Place, Placed, Places, Shape, UnitNo, Version};
use history_core::Core;
use host_trait::FileId;
use settle_loop::{Gate, GatePlace, Settler, Turned};
use std::alloc::{AllocError, Global};

// The session of all that is sealed.
const SESSION: u64 = 7;

#[derive(Drop)]
struct OpenGate;

impl Gate for OpenGate {
    fn reach(&self, _place: GatePlace) {}
}

/// A settler in a slot, its core and its host, and the unit that waits for its account.
#[derive(Drop)]
pub struct Bench {
    alloc: Global,
    pub slot: u8,
    shape: Shape,
    core: Core,
    pub host: Recorder,
    settler: Settler,
    waiting: Option<Waiting>,
    ghost in_slot: { slot ≤ 1 },
    ghost bounds: { IsInBounds settler.writer } by { Prim.hlevel (in_turn-prop, codes, a_shape.the_row.coded, props) },
}

// A core of the accounts, and their program's shape.
fn new_opened(alloc: Global, limit: usize) -> Result<(Shape, Core), AllocError> {
    let shape = new_shape(alloc)?;
    match new_core(alloc, limit) {
        Ok(core) => Ok((shape, core)),
        Err(error) => {
            drop(shape);
            Err(error)
        }
    }
}

// One over a host with an empty log in this slot, where the accounts' last versions stand at these places.
#[tactic(auto, using(crate::proofs::Alone::alone))]
fn bench_over(
    host: Recorder,
    alloc: Global,
    slot: u8,
    quiet: bool,
    limit: usize,
    places: Places,
) -> Result<Bench, AllocError>
    requires slot { slot ≤ 1 }
    requires numbered { (g : AGrain) (p : APlace) → placed_in places g ≡ Some p → p.program < 1 }
{
    let programs = match new_programs(alloc) {
        Ok(programs) => programs,
        Err(error) => {
            drop(host);
            drop(places);
            return Err(error);
        }
    };
    let ends = Ends::new(alloc);
    let settler = match Settler::new(alloc, slot, 15, ends, quiet, places, programs, SESSION) {
        Ok(settler) => settler,
        Err(error) => {
            drop(host);
            return Err(error);
        }
    };
    let (shape, core) = match new_opened(alloc, limit) {
        Ok(opened) => opened,
        Err(error) => {
            drop(host);
            drop(settler);
            return Err(error);
        }
    };
    Ok(Bench {
        alloc,
        slot,
        shape,
        core,
        host,
        settler,
        waiting: None,
    })
}

// This account's last version alone, which stands at that place and has this number.
#[tactic(auto, using(crate::proofs::Alone::one_numbered))]
fn one_place(alloc: Global, key: u32, place: Place, number: i64) -> Result<Places, AllocError>
    ensures { IfOk result (λ places. (g : AGrain) (p : APlace) → placed_in places g ≡ Some p → p.program < 1) }
{
    let version = Version {
        unit: UnitNo(1),
        state: number_state(alloc, number)?,
    };
    let known = KnownVersion::of(&version);
    drop(version);
    let placed = Placed {
        place,
        program: 0,
        is_new: false,
        known,
    };
    let mut places = Places::new(alloc);
    match places.put(account(key), placed) {
        Ok(()) => Ok(places),
        Err(error) => {
            drop(places);
            Err(error)
        }
    }
}

/// One over a new silo in this slot, 0 or 1, whose accounts are all 0. So many that aren't in use stay in memory; where that is 0 each
/// one is there from the first.
#[tactic(auto, using(crate::proofs::Alone::none_numbered))]
pub fn new_bench(alloc: Global, slot: u8, quiet: bool, limit: usize) -> Result<Bench, AllocError>
    requires { slot ≤ 1 }
{
    let host = new_recorder(alloc, slot)?;
    bench_over(host, alloc, slot, quiet, limit, Places::new(alloc))
}

impl Bench {
    /// The next line's unit makes these additions, and answers what the first account has then. Whether each event applied.
    pub fn carry_out(&mut self, line: u32, first: Add, adds: &[Add]) -> Result<bool, AllocError> {
        carry_out(self.alloc, &mut self.core, line, first, adds)
    }

    /// The next line's unit begins, and wants the account of this addition to be in memory. Whether each event applied.
    pub fn want(&mut self, line: u32, first: Add) -> Result<bool, AllocError> {
        self.waiting = want(self.alloc, &mut self.core, line, first)?;
        Ok(self.waiting.is_some())
    }

    /// The unit that waits makes its addition, and ends. Whose version it added to; none where there is no unit, or an event doesn't
    /// apply.
    pub fn go_on(&mut self) -> Result<Option<UnitNo>, AllocError> {
        match self.waiting.take() {
            Some(waiting) => go_on(self.alloc, &mut self.core, waiting),
            None => Ok(None),
        }
    }

    /// The settler brings a grain that is wanted into memory.
    pub fn load(&mut self) -> Result<Turned, AllocError> {
        self.settler
            .load(&self.shape, &mut self.core, &mut self.host)
    }

    // An account's file.
    fn file(&self, key: u32) -> FileId
        ensures { HasSlot result }
    {
        FileId::Grain {
            slot: self.slot,
            grain: account(key),
        }
    }

    /// An account's file loses all its bytes.
    pub fn damage(&mut self, key: u32) -> Result<(), AllocError> {
        let file = self.file(key);
        self.host.inner.set_file(file, b"")
    }

    /// Another one with an empty log, where this account, alone in memory when it isn't in use, has its whole file as its last version,
    /// with this number, from before.
    pub fn reopened(&self, key: u32, number: i64) -> Result<Bench, AllocError> {
        let alloc = self.alloc;
        let file = self.file(key);
        let bytes = bytes_in(&self.host.inner, file);
        let place = Place {
            offset: 0,
            len: bytes.len().min(4096) as u32,
        };
        let places = one_place(alloc, key, place, number)?;
        let host = match recorder_with(alloc, self.slot, file, bytes) {
            Ok(host) => host,
            Err(error) => {
                drop(places);
                return Err(error);
            }
        };
        bench_over(host, alloc, self.slot, false, 1, places)
    }

    /// A step of the settler.
    pub fn step(&mut self) -> Result<Turned, AllocError> {
        self.settler
            .step(&self.shape, &mut self.core, &mut self.host, &OpenGate)
    }

    /// Steps until the settler has nothing to do, or stops, or has made 4,096 of them.
    pub fn settle(&mut self) -> Result<Turned, AllocError> {
        for _ in 0..4096u32 {
            let turned = self.step()?;
            if turned != Turned::Stepped {
                return Ok(turned);
            }
        }
        Ok(Turned::Stepped)
    }

    /// Whether the settler has something to do.
    pub fn applies(&mut self) -> Result<bool, AllocError> {
        self.settler.applies(&mut self.core)
    }

    /// Whether a batch of the settler is in doubt.
    pub fn doubted(&self) -> bool {
        self.settler.doubted()
    }

    /// How many entries were written.
    pub fn written(&self) -> u64 {
        self.settler.written()
    }
}
