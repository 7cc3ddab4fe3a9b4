use list_facts::ListOf;
use std::alloc::{AllocError, Global};
use std::process::Abort;
use stream_wire::{Bytes, Message, Sent, read_message, write_message};

/// Reads `bytes`, which are one message, and none of whose fronts is one; writes it again.
fn reads_back(rt: &impl Abort, alloc: Global, bytes: &[u8]) -> Result<Message, AllocError> {
    for end in 0..bytes.len() {
        assert!(rt; read_message(alloc, &bytes[..end])?.is_none());
    }
    let found = read_message(alloc, bytes)?;
    let (message, taken) = found.expect(rt, "the bytes are a message");
    assert_eq!(rt; taken, bytes.len());
    let mut out = ListOf::from_slice(alloc, &[7u8])?;
    write_message(alloc, &message, &mut out)?;
    assert!(rt; out.len() == bytes.len() + 1);
    assert!(rt; &out.as_slice()[1..] == bytes);
    out.push(0x42)?;
    let behind = read_message(alloc, &out.as_slice()[1..])?;
    assert!(rt; behind.is_some_and(|(again, n)| again == message && n == taken));
    Ok(message)
}

#[test]
fn transactions_and_deletes(rt: HostRuntime) -> Result<(), AllocError> {
    let alloc = rt.alloc();
    let rows: [(&[u8], Message); 7] = [
        (&[0x42, 0, 0, 0, 1], Message::Begin { number: 1 }),
        (
            &[0x42, 0xff, 0xff, 0xff, 0xff],
            Message::Begin {
                number: 4_294_967_295,
            },
        ),
        (&[0x43, 1, 2, 3, 4], Message::Commit { number: 16_909_060 }),
        (
            &[0x44, 0, 1, 0, 0, 0, 0, 0, 0, 0, 4],
            Message::Delete { table: 1, key: 4 },
        ),
        (
            &[0x44, 0, 16, 0xff, 0xff, 0xff, 0xff, 0xff, 0xff, 0xff, 0xfe],
            Message::Delete { table: 16, key: -2 },
        ),
        (
            &[0x44, 0, 2, 0x80, 0, 0, 0, 0, 0, 0, 0],
            Message::Delete {
                table: 2,
                key: i64::MIN,
            },
        ),
        (
            &[0x44, 0, 2, 0x7f, 0xff, 0xff, 0xff, 0xff, 0xff, 0xff, 0xff],
            Message::Delete {
                table: 2,
                key: i64::MAX,
            },
        ),
    ];
    for (bytes, want) in rows {
        assert!(rt; reads_back(&rt, alloc, bytes)? == want);
    }
    Ok(())
}

/// Whether this is the change of table 16 of this letter, with so many columns that are all `sent`.
fn is_change(m: &Message, letter: u8, count: u16, sent: &Sent) -> bool {
    let (kind, columns) = match m {
        Message::Insert {
            table: 16,
            key: -1,
            columns,
        } => (b'I', columns),
        Message::Update {
            table: 16,
            key: -1,
            columns,
        } => (b'U', columns),
        Message::Move {
            table: 16,
            from: -1,
            to: 258,
            columns,
        } => (b'K', columns),
        _ => return false,
    };
    kind == letter
        && columns.len() == usize::from(count)
        && columns.as_slice().iter().all(|column| column == sent)
}

/// The bytes of that change, where `column` is the spelling of one column.
fn change_of(alloc: Global, letter: u8, count: u8, column: &[u8]) -> Result<Bytes, AllocError> {
    let mut bytes = ListOf::from_slice(alloc, &[letter, 0, 16])?;
    bytes.extend_from_slice(&[0xff; 8])?;
    if letter == b'K' {
        bytes.extend_from_slice(&[0, 0, 0, 0, 0, 0, 1, 2])?;
    }
    bytes.extend_from_slice(&[0, count])?;
    for _ in 0..count {
        bytes.extend_from_slice(column)?;
    }
    Ok(bytes)
}

#[test]
fn changes_with_one_column_and_with_eight(rt: HostRuntime) -> Result<(), AllocError> {
    let alloc = rt.alloc();
    let sorts: [(&[u8], Sent); 4] = [
        (&[0x6e], Sent::Null),
        (&[0x75], Sent::Unchanged),
        (&[0x62, 0, 0, 0, 0], Sent::Value(ListOf::new(alloc))),
        (
            &[0x62, 0, 0, 0, 3, 1, 2, 3],
            Sent::Value(ListOf::from_slice(alloc, &[1u8, 2, 3])?),
        ),
    ];
    for (column, sent) in &sorts {
        for letter in [b'I', b'U', b'K'] {
            for count in [1u8, 8] {
                let bytes = change_of(alloc, letter, count, column)?;
                let message = reads_back(&rt, alloc, bytes.as_slice())?;
                assert!(rt; is_change(&message, letter, u16::from(count), sent));
            }
        }
    }
    Ok(())
}

#[test]
fn what_is_no_message(rt: HostRuntime) -> Result<(), AllocError> {
    let alloc = rt.alloc();
    let rows: [&[u8]; 14] = [
        &[],
        &[0x42, 0, 0, 0],
        &[0x42, 0, 0, 0, 0],
        &[0x43, 0, 0, 0, 0, 1],
        &[0x6e],
        &[0x4d, 0, 0, 0, 1],
        // Table 0, table 17, and table 256.
        &[0x44, 0, 0, 0, 0, 0, 0, 0, 0, 0, 4],
        &[0x44, 0, 17, 0, 0, 0, 0, 0, 0, 0, 4],
        &[0x44, 1, 0, 0, 0, 0, 0, 0, 0, 0, 4],
        // No column, nine columns, and a column of no sort.
        &[0x49, 0, 1, 0, 0, 0, 0, 0, 0, 0, 1, 0, 0],
        &[
            0x49, 0, 1, 0, 0, 0, 0, 0, 0, 0, 1, 0, 9, 0x6e, 0x6e, 0x6e, 0x6e, 0x6e, 0x6e, 0x6e,
            0x6e, 0x6e,
        ],
        &[0x49, 0, 1, 0, 0, 0, 0, 0, 0, 0, 1, 0, 1, 0x74],
        // A value that is not there whole.
        &[
            0x49, 0, 1, 0, 0, 0, 0, 0, 0, 0, 1, 0, 1, 0x62, 0, 0, 0, 2, 1,
        ],
        &[0x49, 0, 1, 0, 0, 0, 0, 0, 0, 0, 1, 0, 1, 0x62, 0, 1, 0, 1],
    ];
    for bytes in rows {
        assert!(rt; read_message(alloc, bytes)?.is_none());
    }
    Ok(())
}

#[test]
fn the_longest_value(rt: HostRuntime) -> Result<(), AllocError> {
    let alloc = rt.alloc();
    let mut bytes = ListOf::from_slice(alloc, &[0x49, 0, 1, 0, 0, 0, 0, 0, 0, 0, 1, 0, 1])?;
    bytes.extend_from_slice(&[0x62, 0, 1, 0, 0])?;
    bytes.extend_from_slice(&[0xab; 65_536])?;
    let taken = read_message(alloc, bytes.as_slice())?.map(|found| found.1);
    assert_eq!(rt; taken, Some(65_554));
    bytes.set(17, 1);
    bytes.push(0xab)?;
    assert!(rt; read_message(alloc, bytes.as_slice())?.is_none());
    Ok(())
}
