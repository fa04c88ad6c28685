//! What a silo's folder holds, and what a call that makes one or leaves it alone does to it, as definitions that contracts cite.
//! There is no code.
//!
//! In reading order: `Silos` (is an image a silo, of which format and program), `Slots` (which slot is live), `OtherSlot` (what is so while
//! the other slot is written), `Moments` (what each image of each moment keeps), `Creation` (what making a silo leaves, at each
//! moment and at its end), `OpenedDisks` (what opening one does).
#![tactic(auto)]
