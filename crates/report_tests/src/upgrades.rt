// What the reports write of a log with an upgrade between two deposits.
use crate::folders::{GRAIN, MANAGER, folder_of};
use host_memory::MemoryHost;
use log_audit::{ReportFault, history, print_audit, show};
use std::alloc::Global;
use std::test::Fail;

// The first deposit's program with a field more.
const TEXT: &str =
    "type account { field balance = 0; field limit = 7; method deposit(n) createorjoin update { set balance = balance + n; return balance; } }";

// The gate of the upgrade's block, the length of its body, its session 2, the mark, and the length of the text.
const UPGRADE_HEAD: [u8; 21] = [
    1, 153, 0, 0, 0, 2, 0, 0, 0, 0, 0, 0, 0, 255, 255, 255, 255, 137, 0, 0, 0,
];

// The gate of the block behind it, and a block of session 3 with a deposit of 1, which is unit 2 and replies 6.
const SECOND: [u8; 82] = [
    1, 76, 0, 0, 0, 3, 0, 0, 0, 0, 0, 0, 0, 1, 0, 0, 0, 2, 0, 0, 0, 0, 0, 0, 0, 0, 1, 0, 0, 0, 0,
    0, 1, 0, 0, 0, 0, 0, 1, 0, 0, 1, 0, 0, 0, 0, 0, 0, 0, 0, 0, 1, 0, 6, 0, 0, 0, 0, 0, 0, 0, 1, 0,
    0, 0, 1, 0, 0, 0, 19, 0, 0, 0, 0, 0, 0, 0, 28, 0, 0, 0, 0,
];

// The version of unit 2: two values, Int 6 and Int 7.
const VERSION: [u8; 28] = [
    2, 0, 0, 0, 0, 0, 0, 0, 2, 0, 0, 6, 0, 0, 0, 0, 0, 0, 0, 0, 7, 0, 0, 0, 0, 0, 0, 0,
];

const SHOWN: &str =
    "{\"fields\":{\"balance\":6,\"limit\":7},\"grain\":\"account/1\"}\n{\"count\":3}\n";

const TOLD: &str = concat!(
    "{\"args\":[5],\"call\":\"account/1.deposit\",\"n\":1,\"reply\":5,\"session\":1,\"unit\":1}\n",
    "{\"session\":2,\"upgrade\":137}\n",
    "{\"args\":[1],\"call\":\"account/1.deposit\",\"n\":1,\"reply\":6,\"session\":3,\"unit\":2}\n"
);

const AUDITED: &str = "{\"count\":3,\"first_bad\":null}\n";

const FOUND_BAD: &str = "{\"count\":3,\"first_bad\":2}\n";

// The folder of the first deposit, then the upgrade, then the second deposit, in a block of this session; the new field has this value in
// the last version.
fn upgraded_folder(alloc: Global, session: u8, limit: u8) -> Result<MemoryHost, Fail> {
    let mut host = folder_of(alloc, 97, 0, 1)?;
    let mut manager = host.file(MANAGER).ok_or("no manager file")?.to_vec(alloc)?;
    manager.truncate(96);
    manager.extend_from_slice(&UPGRADE_HEAD)?;
    manager.extend_from_slice(TEXT.as_bytes())?;
    let mut second = SECOND;
    second[5] = session;
    manager.extend_from_slice(&second)?;
    host.set_file(MANAGER, &manager)?;
    let mut versions = host.file(GRAIN).ok_or("no grain's file")?.to_vec(alloc)?;
    let mut version = VERSION;
    version[20] = limit;
    versions.extend_from_slice(&version)?;
    host.set_file(GRAIN, &versions)?;
    Ok(host)
}

#[test]
fn the_states_are_carried(rt: HostRuntime) -> Result<(), Fail> {
    let mut host = upgraded_folder(rt.alloc(), 3, 7)?;
    assert_eq!(rt; show(rt.alloc(), &mut host), Ok(()));
    assert_eq!(rt; host.output(), SHOWN.as_bytes());
    Ok(())
}

#[test]
fn an_upgrade_has_a_line(rt: HostRuntime) -> Result<(), Fail> {
    let mut host = upgraded_folder(rt.alloc(), 3, 7)?;
    assert_eq!(rt; history(rt.alloc(), &mut host), Ok(()));
    assert_eq!(rt; host.output(), TOLD.as_bytes());
    Ok(())
}

#[test]
fn records_replay_over_carried_states(rt: HostRuntime) -> Result<(), Fail> {
    let mut host = upgraded_folder(rt.alloc(), 3, 7)?;
    assert_eq!(rt; print_audit(rt.alloc(), &mut host), Ok(()));
    assert_eq!(rt; host.output(), AUDITED.as_bytes());
    Ok(())
}

#[test]
fn a_new_field_of_another_value_is_bad(rt: HostRuntime) -> Result<(), Fail> {
    let mut host = upgraded_folder(rt.alloc(), 3, 8)?;
    assert_eq!(rt; print_audit(rt.alloc(), &mut host), Ok(()));
    assert_eq!(rt; host.output(), FOUND_BAD.as_bytes());
    Ok(())
}

#[test]
fn a_session_may_stay_and_never_falls(rt: HostRuntime) -> Result<(), Fail> {
    let mut same = upgraded_folder(rt.alloc(), 2, 7)?;
    assert_eq!(rt; history(rt.alloc(), &mut same), Ok(()));
    let mut fallen = upgraded_folder(rt.alloc(), 1, 7)?;
    let damaged = Err(ReportFault::Damaged {
        file: MANAGER,
        place: 259,
    });
    assert_eq!(rt; history(rt.alloc(), &mut fallen), damaged);
    assert!(rt; fallen.output().is_empty());
    Ok(())
}
