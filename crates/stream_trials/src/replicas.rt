use replica_map::{ApplyFault, Replica, Row};
use std::alloc::{AllocError, Global};
use std::process::Abort;
use stream_wire::read_message;

/// Applies the message that has these bytes.
fn send(
    rt: &impl Abort,
    alloc: Global,
    replica: &mut Replica,
    bytes: &[u8],
) -> Result<(), ApplyFault> {
    let found = read_message(alloc, bytes)?;
    let (message, taken) = found.expect(rt, "the bytes are a message");
    assert_eq!(rt; taken, bytes.len());
    replica.apply(&message)
}

/// Whether a row has these values, where 255 stands for null and any other byte for itself alone.
fn has_values(row: Option<&Row>, values: &[u8]) -> bool {
    let Some(row) = row else {
        return false;
    };
    row.len() == values.len()
        && row.as_slice().iter().zip(values).all(|(value, byte)| match value {
            None => *byte == 255,
            Some(bytes) => bytes.as_slice() == &[*byte][..],
        })
}

/// A replica with the row 1, null at key 4 of table 1, as the second of two messages has put it.
fn one_row(rt: &impl Abort, alloc: Global) -> Result<Replica, ApplyFault> {
    let mut replica = Replica::new(alloc);
    send(rt, alloc, &mut replica, &[0x42, 0, 0, 0, 1])?;
    let insert = [
        0x49, 0, 1, 0, 0, 0, 0, 0, 0, 0, 4, 0, 2, 0x62, 0, 0, 0, 1, 1, 0x6e,
    ];
    send(rt, alloc, &mut replica, &insert)?;
    Ok(replica)
}

#[test]
fn an_empty_replica_refuses(rt: HostRuntime) -> Result<(), AllocError> {
    let alloc = rt.alloc();
    let mut replica = Replica::new(alloc);
    let rows: [(&[u8], ApplyFault); 4] = [
        (
            &[0x44, 0, 1, 0, 0, 0, 0, 0, 0, 0, 4],
            ApplyFault::NoSuchKey { key: 4 },
        ),
        (
            &[0x55, 0, 1, 0, 0, 0, 0, 0, 0, 0, 4, 0, 1, 0x6e],
            ApplyFault::NoSuchKey { key: 4 },
        ),
        (
            &[0x49, 0, 1, 0, 0, 0, 0, 0, 0, 0, 4, 0, 1, 0x75],
            ApplyFault::NoOldValue { column: 1 },
        ),
        (
            &[0x49, 0, 1, 0, 0, 0, 0, 0, 0, 0, 4, 0, 3, 0x6e, 0x75, 0x75],
            ApplyFault::NoOldValue { column: 2 },
        ),
    ];
    for (bytes, fault) in rows {
        assert!(rt; send(&rt, alloc, &mut replica, bytes) == Err(fault));
    }
    assert!(rt; replica.len() == 0 && replica.taken() == 0 && replica.nth(0).is_none());
    Ok(())
}

#[test]
fn a_message_that_does_not_fit_the_row_is_refused(rt: HostRuntime) -> Result<(), ApplyFault> {
    let alloc = rt.alloc();
    let mut replica = one_row(&rt, alloc)?;
    let rows: [(&[u8], ApplyFault); 3] = [
        (
            &[0x49, 0, 1, 0, 0, 0, 0, 0, 0, 0, 4, 0, 1, 0x75],
            ApplyFault::KeyThere { key: 4 },
        ),
        (
            &[0x55, 0, 1, 0, 0, 0, 0, 0, 0, 0, 4, 0, 1, 0x6e],
            ApplyFault::WrongColumns { got: 1, wanted: 2 },
        ),
        (
            &[0x55, 0, 2, 0, 0, 0, 0, 0, 0, 0, 4, 0, 2, 0x6e, 0x6e],
            ApplyFault::NoSuchKey { key: 4 },
        ),
    ];
    for (bytes, fault) in rows {
        assert!(rt; send(&rt, alloc, &mut replica, bytes) == Err(fault));
    }
    assert!(rt; has_values(replica.row(1, 4), &[1, 255]) && replica.taken() == 2);
    Ok(())
}

#[test]
fn an_unchanged_column_keeps_its_value(rt: HostRuntime) -> Result<(), ApplyFault> {
    let alloc = rt.alloc();
    let mut replica = one_row(&rt, alloc)?;
    let update = [
        0x55, 0, 1, 0, 0, 0, 0, 0, 0, 0, 4, 0, 2, 0x75, 0x62, 0, 0, 0, 1, 2,
    ];
    send(&rt, alloc, &mut replica, &update)?;
    assert!(rt; has_values(replica.row(1, 4), &[1, 2]));
    send(&rt, alloc, &mut replica, &[0x43, 0, 0, 0, 1])?;
    assert!(rt; replica.taken() == 4);
    send(
        &rt,
        alloc,
        &mut replica,
        &[0x44, 0, 1, 0, 0, 0, 0, 0, 0, 0, 4],
    )?;
    assert!(rt; replica.row(1, 4).is_none() && replica.len() == 0);
    Ok(())
}

#[test]
fn a_move_onto_a_key_that_is_there_is_refused(rt: HostRuntime) -> Result<(), ApplyFault> {
    let alloc = rt.alloc();
    let mut replica = one_row(&rt, alloc)?;
    let other = [
        0x49, 0, 1, 255, 255, 255, 255, 255, 255, 255, 255, 0, 1, 0x6e,
    ];
    send(&rt, alloc, &mut replica, &other)?;
    let onto_other = [
        0x4b, 0, 1, 0, 0, 0, 0, 0, 0, 0, 4, 255, 255, 255, 255, 255, 255, 255, 255, 0, 1, 0x6e,
    ];
    let refused = send(&rt, alloc, &mut replica, &onto_other);
    assert!(rt; refused == Err(ApplyFault::KeyThere { key: -1 }));
    let onto_itself = [
        0x4b, 0, 1, 0, 0, 0, 0, 0, 0, 0, 4, 0, 0, 0, 0, 0, 0, 0, 4, 0, 2, 0x75, 0x75,
    ];
    let refused = send(&rt, alloc, &mut replica, &onto_itself);
    assert!(rt; refused == Err(ApplyFault::KeyThere { key: 4 }));
    assert!(rt; has_values(replica.row(1, 4), &[1, 255]) && replica.taken() == 3);
    Ok(())
}

#[test]
fn a_move_takes_the_row_along(rt: HostRuntime) -> Result<(), ApplyFault> {
    let alloc = rt.alloc();
    let mut replica = one_row(&rt, alloc)?;
    let other = [
        0x49, 0, 1, 255, 255, 255, 255, 255, 255, 255, 255, 0, 1, 0x6e,
    ];
    send(&rt, alloc, &mut replica, &other)?;
    let three_columns = [
        0x4b, 0, 1, 0, 0, 0, 0, 0, 0, 0, 4, 128, 0, 0, 0, 0, 0, 0, 0, 0, 3, 0x75, 0x75, 0x75,
    ];
    let refused = send(&rt, alloc, &mut replica, &three_columns);
    assert!(rt; refused == Err(ApplyFault::WrongColumns { got: 3, wanted: 2 }));
    let to_least = [
        0x4b, 0, 1, 0, 0, 0, 0, 0, 0, 0, 4, 128, 0, 0, 0, 0, 0, 0, 0, 0, 2, 0x75, 0x75,
    ];
    send(&rt, alloc, &mut replica, &to_least)?;
    assert!(rt; replica.row(1, 4).is_none() && replica.len() == 2 && replica.taken() == 4);
    assert!(rt; has_values(replica.row(1, i64::MIN), &[1, 255]));
    assert!(rt;
        replica
            .nth(0)
            .is_some_and(|(table, key, _)| table == 1 && key == i64::MIN)
    );
    assert!(rt;
        replica
            .nth(1)
            .is_some_and(|(table, key, _)| table == 1 && key == -1)
    );
    Ok(())
}
