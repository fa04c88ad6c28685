//! What a program is by the readers, as the promise says it, it is by the grammar and the checks of the language: laws over all texts.
#![tactic(auto)]

mod laws;

pub use laws::{faults_are_the_languages, texts_are_programs_by_the_grammar};
