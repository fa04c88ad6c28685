ghost use Rattle.std.specs.Prelude.{◌≡◌, IfOk};
ghost use Rattle.script_values.specs.Faults as fault;
ghost use Rattle.script_values.specs.Reasons.{reason_text};

use base_types::Text;
use script_tree::EntryRefusal;
use std::alloc::{AllocError, Global};

/// Why the language itself ends a unit with a fault.
#[derive(Clone, Copy, Debug, PartialEq, Eq)]
pub enum Reason {
    /// A number that doesn't fit 64 bits.
    Overflow,
    /// A zero divisor.
    Divide,
    /// An operand, a condition or a place of the wrong kind.
    Kind,
    /// A place that is no key.
    Key,
    /// A joined text of more than 4,096 bytes.
    Length,
    /// A step past the last one of a unit.
    Budget,
    /// A frame below the deepest.
    Depth,
    /// A unit of its own past the last one that a unit may ask for.
    Units,
    /// A grain past the last one that a unit may hold.
    Grains,
    /// The method joins a transaction and there is none.
    NoTransaction,
    /// The method doesn't run where there is a transaction.
    NotAllowed,
    /// A child that was aborted.
    Aborted,
    /// A name that stands for nothing, which no checked program has.
    Unknown,
}

impl Reason {
    /// The text of the fault.
    pub fn text(self) -> &'static str
        ensures { result.now ≡ reason_text self }
    {
        match self {
            Reason::Overflow => "overflow",
            Reason::Divide => "divide",
            Reason::Kind => "kind",
            Reason::Key => "key",
            Reason::Length => "length",
            Reason::Budget => "budget",
            Reason::Depth => "depth",
            Reason::Units => "units",
            Reason::Grains => "grains",
            Reason::NoTransaction => "no transaction",
            Reason::NotAllowed => "not allowed",
            Reason::Aborted => "aborted",
            Reason::Unknown => "unknown",
        }
    }
}

/// The fault of an option that refuses a call.
pub fn refusal(why: EntryRefusal) -> Reason
    ensures { reason_text result ≡ fault.option_refusal_text why }
{
    match why {
        EntryRefusal::NoTransaction => Reason::NoTransaction,
        EntryRefusal::NotAllowed => Reason::NotAllowed,
    }
}

/// The fault, as a text of its own.
#[tactic(auto, using(crate::proofs::Texts::reason_is_short))]
pub fn fault_of(alloc: Global, reason: Reason) -> Result<Text, AllocError>
    ensures { IfOk result (λ made. made ≡ reason_text reason) }
{
    let text = Text::new(alloc, reason.text())?;
    Ok(text.unwrap())
}
