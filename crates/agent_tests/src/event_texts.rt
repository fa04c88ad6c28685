use crate::texts::{add_event, add_reply};
use core_model::{CoreEvent, CoreReply};
use std::alloc::Global;
use std::mem;

/// What is told of events, each in a line of text with its reply.
#[derive(Drop)]
pub struct Told {
    text: String,
    /// There was no memory for some of it.
    lost: bool,
}

impl Told {
    /// Nothing is told yet.
    pub fn new(alloc: Global) -> Told {
        Told {
            text: String::new(alloc),
            lost: false,
        }
    }

    /// Tells this.
    pub fn tell(&mut self, text: &str) {
        if self.text.push_str(text).is_err() {
            self.lost = true;
        }
    }

    /// Tells that a unit's agent put nothing.
    pub fn tell_stays(&mut self, unit: usize) {
        let text = &mut self.text;
        if write!(text, "{unit} stays\n").is_err() {
            self.lost = true;
        }
    }

    /// Tells of an event, up to its reply.
    pub fn tell_event(&mut self, event: &CoreEvent) {
        if add_event(&mut self.text, event).is_err() {
            self.lost = true;
        }
    }

    /// Tells of a reply.
    pub fn tell_reply(&mut self, reply: &CoreReply) {
        if add_reply(&mut self.text, reply).is_err() {
            self.lost = true;
        }
    }

    /// What was told since this was asked for last.
    pub fn take_text(&mut self, alloc: Global) -> String {
        if self.lost {
            let _ = self.text.push_str("no memory for all of it\n");
        }
        mem::replace(&mut self.text, String::new(alloc))
    }
}
