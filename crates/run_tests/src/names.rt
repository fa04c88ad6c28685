// What cases call the files and the calls on them.
use base_types::GrainId;
use host_memory::CallKind;
use host_trait::{Channel, FileId};

/// The manager file of slot 0.
pub const MANAGER: FileId = FileId::Manager { slot: 0 };

/// The program file of slot 0.
pub const PROGRAM: FileId = FileId::Program { slot: 0 };

/// The file of account 1 in slot 0.
pub const FIRST_ACCOUNT: FileId = FileId::Grain {
    slot: 0,
    grain: GrainId { kind: 0, key: 1 },
};

/// A call that is to fail: the nth of its kind on its channel, counted from 1.
#[derive(Clone, Copy)]
pub struct Fault {
    pub what: CallKind,
    pub channel: Channel,
    pub nth: u64,
}

// The file of an account, by the slot's and the account's number.
fn account_of(name: &str) -> Option<FileId> {
    let (word, key) = name.split_once('/')?;
    let key = key.parse::<u32>().ok()?;
    let slot = match word {
        "account" => 0,
        "account-1" => 1,
        _ => return None,
    };
    Some(FileId::Grain {
        slot,
        grain: GrainId { kind: 0, key },
    })
}

/// The file of a name: `manager`, `program` or the account with the key that stands behind `account/`, all of slot 0; or with `-1`
/// behind the first word of slot 1.
pub fn file_of(name: &str) -> Option<FileId> {
    match name {
        "manager" => Some(MANAGER),
        "manager-1" => Some(FileId::Manager { slot: 1 }),
        "program" => Some(PROGRAM),
        "program-1" => Some(FileId::Program { slot: 1 }),
        _ => account_of(name),
    }
}

fn channel_of(name: &str) -> Option<Channel> {
    match name {
        "input" => Some(Channel::Input),
        "output" => Some(Channel::Output),
        _ => Some(Channel::File(file_of(name)?)),
    }
}

fn kind_of(word: &str) -> Option<CallKind> {
    match word {
        "pull" => Some(CallKind::Pull),
        "emit" => Some(CallKind::Emit),
        "length" => Some(CallKind::Length),
        "read" => Some(CallKind::Read),
        "write" => Some(CallKind::Write),
        "sync" => Some(CallKind::Sync),
        _ => None,
    }
}

/// The call that words name, as `sync manager 3`.
pub fn fault_of(words: &str) -> Option<Fault> {
    let (what, rest) = words.split_once(' ')?;
    let (name, nth) = rest.split_once(' ')?;
    Some(Fault {
        what: kind_of(what)?,
        channel: channel_of(name)?,
        nth: nth.parse::<u64>().ok()?,
    })
}
