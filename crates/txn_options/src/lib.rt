//! How a call enters a transaction, by its method's option.
#![tactic(auto)]

ghost use Rattle.std.specs.Prelude.{◌≡◌, IsTrue, true};
ghost use Rattle.script_tree.specs.Options.{entered};

pub use script_tree::{Entered, EntryRefusal, TxnOption};

/// How a call of a method with this option runs, where the caller has a transaction's context or has none.
///
/// | option | without a context | with a context |
/// |---|---|---|
/// | `create` | a unit of its own | a unit of its own |
/// | `join` | refused: there is no transaction | joined |
/// | `createorjoin` | a unit of its own | joined |
/// | `suppress` | plain, no context | plain, no context |
/// | `supported` | plain, no context | plain, the context passed on |
/// | `notallowed` | plain, no context | refused: it isn't allowed |
pub fn enter(option: TxnOption, has_context: bool) -> Entered
    ensures table { result ≡ entered option has_context }

    // Only a context that is there is joined or passed on.
    ensures joined { result ≡ Entered.Joined → IsTrue has_context }
    ensures passed_on { result ≡ Entered.Plain true → IsTrue has_context }
{
    match option {
        TxnOption::Create => Entered::NewUnit,
        TxnOption::Join if has_context => Entered::Joined,
        TxnOption::Join => Entered::Refused(EntryRefusal::NoTransaction),
        TxnOption::CreateOrJoin if has_context => Entered::Joined,
        TxnOption::CreateOrJoin => Entered::NewUnit,
        TxnOption::Suppress => Entered::Plain { context: false },
        TxnOption::Supported => Entered::Plain {
            context: has_context,
        },
        TxnOption::NotAllowed if has_context => Entered::Refused(EntryRefusal::NotAllowed),
        TxnOption::NotAllowed => Entered::Plain { context: false },
    }
}
