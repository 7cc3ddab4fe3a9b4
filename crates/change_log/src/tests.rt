use super::*;
use std::alloc::AllocError;

fn is_abort_of(entry: Option<&LogEntry>, wanted: u64) -> bool {
    match entry {
        Some(LogEntry::Abort { xid }) => *xid == wanted,
        _ => false,
    }
}

#[test]
fn a_new_log_takes_an_end(rt: HostRuntime) -> Result<(), AllocError> {
    let mut log = Log::new(rt.alloc());
    log.append(LogEntry::Abort { xid: 3 })?;
    assert_eq!(rt; log.len(), 1);
    assert!(rt; is_abort_of(log.at(0), 3));
    assert!(rt; log.at(1).is_none());
    Ok(())
}

#[test]
fn kept_room_outlasts_other_entries(rt: HostRuntime) -> Result<(), AllocError> {
    let mut log = Log::new(rt.alloc());
    log.reserve_end()?;
    log.reserve()?;
    log.append(LogEntry::Delete {
        xid: 4,
        table: 1,
        key: -1,
    })?;
    log.append_end(LogEntry::Abort { xid: 4 });
    assert_eq!(rt; log.len(), 2);
    assert!(rt; is_abort_of(log.at(1), 4));
    Ok(())
}

#[test]
fn room_that_is_given_up_serves_another_entry(rt: HostRuntime) -> Result<(), AllocError> {
    let mut log = Log::new(rt.alloc());
    log.reserve_end()?;
    log.give_up_end();
    log.append(LogEntry::Abort { xid: 5 })?;
    assert!(rt; log.len() == 1 && is_abort_of(log.at(0), 5));
    Ok(())
}
