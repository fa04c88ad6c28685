use crate::trouble::Trouble;
use std::alloc::Global;
use txn_options::{TxnOption, enter};

fn option_of(word: &str) -> Option<TxnOption> {
    match word {
        "create" => Some(TxnOption::Create),
        "join" => Some(TxnOption::Join),
        "createorjoin" => Some(TxnOption::CreateOrJoin),
        "suppress" => Some(TxnOption::Suppress),
        "supported" => Some(TxnOption::Supported),
        "notallowed" => Some(TxnOption::NotAllowed),
        _ => None,
    }
}

/// How the option of this name enters without a context, and with one.
pub fn entering(alloc: Global, word: &str) -> Result<String, Trouble> {
    let Some(option) = option_of(word) else {
        return Err(Trouble::Case("no such option"));
    };
    let without = enter(option, false);
    let within = enter(option, true);
    Ok(format!(in alloc; "{without:?}, {within:?}")?)
}
