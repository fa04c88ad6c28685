ghost use Rattle.std.specs.Prelude.{◌≡◌, ◌<◌, None, length, OnOk, IfOk};
ghost use Rattle.two_silos.specs.World.{begin};
ghost use Rattle.two_silos.specs.GeneratedEvents.{times, drawn, draw, bank, start, deliver_recent, happen_or_deliver, pick, round};

use crate::draws::{bank, drawn, next_number, other_than, pay, picked};
use crate::events::WorldEvent;
use crate::world::World;
use std::alloc::{AllocError, Global};

/// A course of generated events: the generator's number, and the world so far.
#[derive(Drop)]
pub struct Course {
    pub number: u64,
    pub world: World,
}

impl Course {
    /// A course that begins, with the accounts 0 to 63 of 1000, account k at participant k mod 2.
    pub fn new(seed: u64, alloc: Global) -> Result<Course, AllocError>
        ensures { IfOk result (λ made. made ≡ record { number = seed; world = begin bank }) }
    {
        let openings = bank(alloc)?;
        let world = World::new(openings, alloc)?;
        Ok(Course {
            number: seed,
            world,
        })
    }

    /// A start, and eight events after it.
    pub fn round(&mut self, alloc: Global) -> Result<(), AllocError>
        ensures { OnOk result (self.new ≡ round self.old) }
    {
        self.start(alloc)?;
        for _ in 0..8u32 {
            self.pick()?;
        }
        Ok(())
    }

    // One more draw.
    fn draw(&mut self) -> u64
        ensures course { self.new ≡ draw self.old }
        ensures drawn { result ≡ drawn self.new.number }
    {
        self.number = next_number(self.number);
        drawn(self.number)
    }

    // A payment starts.
    fn start(&mut self, alloc: Global) -> Result<(), AllocError>
        ensures { OnOk result (self.new ≡ start self.old) }
    {
        let from = self.draw() % 64;
        let to = other_than(from, self.draw() % 64);
        let amount = self.draw() % 100 + 1;
        let event = pay(from as u32, to as u32, amount as i64, alloc)?;
        self.world.step(event)?;
        Ok(())
    }

    // One more event, by a draw.
    fn pick(&mut self) -> Result<(), AllocError>
        ensures { OnOk result (self.new ≡ pick self.old) }
    {
        let draw = self.draw() % 64;
        if let Some(event) = picked(draw) {
            self.world.step(event)?;
            return Ok(());
        }
        self.deliver()
    }

    // A packet is delivered, where one was sent.
    fn deliver(&mut self) -> Result<(), AllocError>
        ensures { OnOk result (self.new ≡ happen_or_deliver self.old None) }
    {
        if self.world.packets() == 0 {
            return Ok(());
        }
        self.draw();
        self.deliver_recent()
    }

    // One of the last 64 packets is delivered.
    fn deliver_recent(&mut self) -> Result<(), AllocError>
        requires sent { 0 < length self.old.world.packets }
        ensures { OnOk result (self.new ≡ deliver_recent self.old) }
    {
        let sent = self.world.packets();
        let back = drawn(self.number) % sent.min(64);
        let packet = sent - 1 - back;
        self.world.step(WorldEvent::Deliver {
            packet: packet as u32,
        })?;
        Ok(())
    }
}
