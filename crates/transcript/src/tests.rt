use crate::{Bytes, Message, Reply, Row, print_message, print_reply, print_row};
use list_facts::ListOf;
use std::alloc::{AllocError, Global};

/// A row of the bytes 01 02 ab and a null.
fn two_values(alloc: Global) -> Result<Row, AllocError> {
    let mut row = ListOf::new(alloc);
    row.push(Some(ListOf::from_slice(alloc, &[1u8, 2, 0xab])?))?;
    row.push(None)?;
    Ok(row)
}

#[test]
fn each_reply_has_its_line(rt: HostRuntime) -> Result<(), AllocError> {
    let alloc = rt.alloc();
    let row = two_values(alloc)?;
    let bytes = ListOf::from_slice(alloc, &[0xf0u8, 0x0f])?;
    let rows = [
        (Reply::Okay, "s64.10000 ok\n"),
        (Reply::RolledBack, "s64.10000 rolled back\n"),
        (
            Reply::Row { key: -7, row },
            "s64.10000 row -7 x0102ab null\n",
        ),
        (Reply::Bytes(bytes), "s64.10000 bytes xf00f\n"),
        (Reply::Bytes(ListOf::new(alloc)), "s64.10000 bytes x\n"),
        (Reply::Null, "s64.10000 null\n"),
        (Reply::Absent, "s64.10000 none\n"),
        (Reply::Taken, "s64.10000 taken\n"),
        (Reply::Busy { session: 9 }, "s64.10000 busy s9\n"),
        (Reply::Changed, "s64.10000 changed\n"),
        (Reply::Locked { session: 64 }, "s64.10000 locked s64\n"),
        (Reply::Failed, "s64.10000 failed\n"),
        (Reply::Outside, "s64.10000 outside\n"),
        (Reply::Inside, "s64.10000 inside\n"),
        (Reply::TooBig { size: 8161 }, "s64.10000 too big 8161\n"),
        (Reply::BadOffset, "s64.10000 bad offset\n"),
        (Reply::NoHandle, "s64.10000 no handle\n"),
        (Reply::HandleThere, "s64.10000 handle there\n"),
        (Reply::NoValueId, "s64.10000 no value id\n"),
        (Reply::Started, "s64.10000 started\n"),
        (Reply::Done, "s64.10000 done\n"),
        (Reply::Memory, "s64.10000 want of memory\n"),
    ];
    for (reply, want) in &rows {
        let mut out = ListOf::from_slice(alloc, b"<")?;
        print_reply(alloc, 64, 10_000, reply, &mut out)?;
        assert!(rt; out.len() == want.len() + 1);
        assert!(rt; &out.as_slice()[1..] == want.as_bytes());
    }
    Ok(())
}

#[test]
fn a_message_and_a_row_have_their_lines(rt: HostRuntime) -> Result<(), AllocError> {
    let alloc = rt.alloc();
    let mut out: Bytes = ListOf::new(alloc);
    print_message(alloc, &Message::Begin { number: 1 }, &mut out)?;
    print_message(alloc, &Message::Delete { table: 16, key: -1 }, &mut out)?;
    let row = two_values(alloc)?;
    print_row(alloc, 1, i64::MIN, &row, &mut out)?;
    print_row(alloc, 16, i64::MAX, &row, &mut out)?;
    let want = "msg 4200000001\nmsg 440010ffffffffffffffff\n\
replica t1 -9223372036854775808 x0102ab null\n\
replica t16 9223372036854775807 x0102ab null\n";
    assert!(rt; out.as_slice() == want.as_bytes());
    Ok(())
}

#[test]
fn values_longer_than_a_part(rt: HostRuntime) -> Result<(), AllocError> {
    let alloc = rt.alloc();
    for length in [63usize, 64, 65, 128, 65_536] {
        let mut value = ListOf::new(alloc);
        for _ in 0..length {
            value.push(0xc5u8)?;
        }
        let mut out: Bytes = ListOf::new(alloc);
        print_reply(alloc, 1, 1, &Reply::Bytes(value), &mut out)?;
        let printed = out.as_slice();
        assert_eq!(rt; printed.len(), 13 + 2 * length);
        assert!(rt; &printed[..12] == b"s1.1 bytes x".as_slice());
        for pair in printed[12..12 + 2 * length].chunks(2) {
            assert!(rt; pair == b"c5".as_slice());
        }
    }
    Ok(())
}
