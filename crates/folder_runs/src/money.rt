// The balances of the accounts, as records and as a report say them.
use crate::records::{has_value, number_at};

/// The balances of the accounts 0 to 3.
pub type Balances = [i64; 4];

fn add(balances: &mut Balances, account: i64, amount: i64) {
    let place = usize::try_from(account).unwrap_or(usize::MAX);
    if let Some(balance) = balances.get_mut(place) {
        *balance = balance.wrapping_add(amount);
    }
}

fn signed(number: u64) -> i64 {
    i64::try_from(number).unwrap_or(-1)
}

// The arguments of a record, none of them above three.
fn args_of(record: &str) -> [i64; 3] {
    let mut args = [0; 3];
    let Some((_, behind)) = record.split_once("\"args\":[") else {
        return args;
    };
    let (list, _) = behind.split_once("]").unwrap_or((behind, ""));
    for (place, word) in list.split(',').enumerate() {
        if let Some(arg) = args.get_mut(place) {
            *arg = word.parse::<i64>().unwrap_or(0);
        }
    }
    args
}

// What a record of a deposit or of a transfer does. One that has no value does nothing.
fn play(balances: &mut Balances, record: &str) {
    if !has_value(record) {
        return;
    }
    let [first, second, third] = args_of(record);
    if record.contains(".deposit\"") {
        let account = number_at(record, "\"account/").unwrap_or(0);
        add(balances, signed(account), first);
    }
    if record.contains(".transfer\"") {
        add(balances, first, third.wrapping_neg());
        add(balances, second, third);
    }
}

/// The balances behind these records.
pub fn balances_behind(history: &str) -> Balances {
    let mut balances = [0; 4];
    for record in history.lines() {
        play(&mut balances, record);
    }
    balances
}

/// The balances that `show` tells.
pub fn balances_in(shown: &str) -> Balances {
    let mut balances = [0; 4];
    for line in shown.lines() {
        if let Some(account) = number_at(line, "\"account/") {
            let balance = number_at(line, "\"balance\":").unwrap_or(0);
            add(&mut balances, signed(account), signed(balance));
        }
    }
    balances
}
