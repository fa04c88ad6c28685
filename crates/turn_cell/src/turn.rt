// The turn: how it is taken, and how it is given back.
ghost use Rattle.std.specs.Prelude.{◌≡◌, ◌^◌, ◌<◌, [], ◌∷◌, Some};

use crate::cell::{Pass, TurnCell};
use crate::object::TurnObject;
use crate::place::Place;
use crate::steps::{Load, Publish, Release, Take};
use std::hint::spin_loop;
use std::snapshot::Snapshot;
use std::sync::Wait;
use std::sync::atomic::AtomicU64;
use std::thread::yield_now;
use std::time::Duration;

// How often one looks again at once, before other threads may have the processor. A turn is over within a microsecond.
const MOST_SPINS: u32 = 100;

// How often one gives the processor away, before one sleeps: so long only who has the turn and doesn't run keeps others waiting.
const MOST_YIELDS: u32 = 64;

// How long one sleeps then, in microseconds.
const NAP: u64 = 50;

// Lets others run, after so many tries for the turn.
fn give_way<R: Wait>(rt: &R, tries: u32) {
    if tries % MOST_SPINS != 0 {
        spin_loop();
    } else if tries % (MOST_SPINS * MOST_YIELDS) != 0 {
        yield_now();
    } else {
        AtomicU64::new(0).park_timeout(rt, 0, Duration::from_micros(NAP));
    }
}

impl<T: TurnObject> TurnCell<T> {
    ghost use Rattle.turn_cell.specs.Places.{object_in};
    ghost use Rattle.turn_cell.specs.declared.place.Place.TheVariants.{Out};
    ghost use Rattle.turn_cell.specs.Passes.{idle, IsPassOf, IsSameSeat, pass_view, state_seen, grown};
    ghost use Rattle.turn_cell.specs.Rule.{HasTurn, Takes, Begins};

    // Takes the turn and the object. Where the word is `most` or more it waits.
    pub(crate) fn take_turn<R: Wait>(&self, rt: &R, pass: &mut Pass<T>, most: u64) -> (u64, Box<T>)
        requires { IsPassOf self.now pass.old }
        ensures seat { IsSameSeat pass.old pass.new }
        ensures turn { HasTurn result.0 pass.new.me × (result.0 < most) }
        ensures seen { Begins T.state T.after T.reply (pass_view pass.old) (pass_view pass.new) }
        ensures object { T.state result.1.value ≡ state_seen T.state T.after T.reply (pass_view pass.new) }
    {
        let word = self.win_turn(rt, pass, most);
        let object = self.take_object(pass);
        (word, object)
    }

    // Tries until the turn is won. It holds nothing while it waits.
    fn win_turn<R: Wait>(&self, rt: &R, pass: &mut Pass<T>, most: u64) -> u64
        requires { IsPassOf self.now pass.old }
        ensures seat { IsSameSeat pass.old pass.new }
        ensures won { Takes T.state T.after T.reply pass.old.me result pass.new.me }
        ensures room { result < most }
    {
        let mut tries = 0u32;
        for _ in rt.forever() {
            let word = self.table.shared.load::<Load<T>>(pass, 0);
            if word % 2 == 0
                && word < most
                && self
                    .table
                    .shared
                    .compare_exchange::<Take<T>>(pass, 0, word, word + 1)
                    == word
            {
                return word;
            }
            tries = tries.wrapping_add(1);
            give_way(rt, tries);
        }
        unreachable!()
    }

    // Gives the turn back with one entry more.
    pub(crate) fn publish(
        &self,
        pass: &mut Pass<T>,
        word: u64,
        object: Box<T>,
        asked: Snapshot<T::Event>,
        said: Snapshot<T::Reply>,
    )
        requires turn { (pass.old.table_id ≡ self.now) × HasTurn word pass.old.me × (word < 2 ^ 63) }
        requires object { T.state object.value ≡ T.after (state_seen T.state T.after T.reply (pass_view pass.old)) asked.value }
        requires said { said.value ≡ T.reply (state_seen T.state T.after T.reply (pass_view pass.old)) asked.value }
        ensures seat { IsSameSeat pass.old pass.new }
        ensures back { pass.new.me ≡ (grown (pass_view pass.old) asked.value said.value, []) }
    {
        self.put_home(pass, Place::Done(object, asked, said));
        self.table.shared.store::<Publish<T>>(pass, 0, word + 2);
    }

    // Gives the turn back with nothing done.
    pub(crate) fn release(&self, pass: &mut Pass<T>, word: u64, object: Box<T>)
        requires turn { (pass.old.table_id ≡ self.now) × HasTurn word pass.old.me }
        requires object { T.state object.value ≡ state_seen T.state T.after T.reply (pass_view pass.old) }
        ensures seat { IsSameSeat pass.old pass.new }
        ensures back { pass.new.me ≡ (idle (pass_view pass.old), []) }
    {
        self.put_home(pass, Place::Home(object));
        self.table.shared.store::<Release<T>>(pass, 0, word);
    }

    // Takes the object from its place.
    fn take_object(&self, pass: &mut Pass<T>) -> Box<T>
        requires { (pass.old.table_id ≡ self.now) × ((p : _) × (object : T) × (pass.old.me.1 ≡ (0, p) ∷ []) × (object_in p ≡ Some object)) }
        ensures seat { IsSameSeat pass.old pass.new }
        ensures out { (p : _) × (pass.old.me.1 ≡ (0, p) ∷ []) × (object_in p ≡ Some result.value) × (pass.new.me ≡ (pass.old.me.0, (0, Out) ∷ [])) }
    {
        self.table
            .shared
            .exchange(pass, 0, Place::Out)
            .into_object()
    }

    // Puts the object back to its place.
    fn put_home(&self, pass: &mut Pass<T>, place: Place<T, T::Event, T::Reply>)
        requires { (pass.old.table_id ≡ self.now) × (pass.old.me.1 ≡ (0, Out) ∷ []) }
        ensures seat { IsSameSeat pass.old pass.new }
        ensures home { pass.new.me ≡ (pass.old.me.0, (0, place) ∷ []) }
    {
        self.table.shared.exchange(pass, 0, place).end();
    }
}
