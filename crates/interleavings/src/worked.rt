//! Scripts with the replies that they print, worked out by hand.

use session_shell::{Bytes, BytesList, Status, toast_replay};
use std::alloc::{AllocError, Global};
use std::test::Fail;
use toast_io::{CallList, MemSink, MemSource};

// The smallest script.
const SMALLEST: &str = "table e
session
begin rc
insert t1 1 x010203
get t1 1
commit
";

const SMALLEST_REPLIES: &str = "s1.1 ok
s1.2 ok
s1.3 row 1 x010203
s1.4 ok
";

// The largest tuple, and one byte more.
const AT_THE_LIMIT: &str = "table p
session
begin rc
insert t1 1 c8124.0
insert t1 2 c8125.0
get t1 1
commit
";

const AT_THE_LIMIT_REPLIES: &str = "s1.1 ok
s1.2 ok
s1.3 too big 8161
s1.4 failed
s1.5 rolled back
";

// Slices of a long value; a negative offset fails the transaction.
const SLICES: &str = "table e
session
begin rc
insert t1 1 c5000.0
part t1 1 1 1990 20
part t1 1 1 5000 1
part t1 1 1 0 0
part t1 1 1 4990 -1
part t1 1 1 4998 2147483647
part t1 1 1 -1 1
get t1 1
rollback
";

const SLICES_REPLIES: &str = "s1.1 ok
s1.2 ok
s1.3 bytes xe9eaebecedeeeff0f1f2f3f4f5f6f7f8f9fa0001
s1.4 bytes x
s1.5 bytes x
s1.6 bytes xdddedfe0e1e2e3e4e5e6
s1.7 bytes xe5e6
s1.8 bad offset
s1.9 failed
s1.10 ok
";

// A row is claimed before it is whole, and seen once it is committed.
const CLAIMED: &str = "table e
session
begin rc
insert t1 1 c2500.0
commit
session
begin rc
get t1 1
get t1 1
commit
session
begin rc
insert t1 1 x00
commit
go 1! 1 2! 2! 3! 3! 1! 1! 2! 2!
";

const CLAIMED_REPLIES: &str = "s1.1 ok
s1.2 ok
s2.1 ok
s2.2 none
s3.1 ok
s3.2 busy s1
s1.3 ok
s2.3 row 1 x{2500.0}
s2.4 ok
s3.3 rolled back
";

// A repeatable read goes on over a delete that commits between two of its chunks.
const OVER_A_DELETE: &str = "table e
session
begin rr
get t1 1
commit
session
begin rc
insert t1 1 c5000.3
commit
begin rc
delete t1 1
commit
go 2! 2! 2! 1! 1 1 1 2! 2! 2! 1!
";

const OVER_A_DELETE_REPLIES: &str = "s2.1 ok
s2.2 ok
s2.3 ok
s1.1 ok
s1.2 row 1 x{5000.3}
s2.4 ok
s2.5 ok
s2.6 ok
s1.3 ok
";

// An update of another column keeps a long value as it is.
const KEPT_POINTER: &str = "table e p
session
begin rc
insert t1 1 c2500.7 x01
commit
begin rc
update t1 1 2=x02
commit
begin rc
update t1 1 1=c2500.7
commit
begin rc
get t1 1
commit
";

const KEPT_POINTER_REPLIES: &str = "s1.1 ok
s1.2 ok
s1.3 ok
s1.4 ok
s1.5 ok
s1.6 ok
s1.7 ok
s1.8 ok
s1.9 ok
s1.10 ok
s1.11 row 1 x{2500.7} x02
s1.12 ok
";

// The range of ids is drawn round, past an id whose chunks have ended; where each is in use there is none.
const IDS_RUN_OUT: &str = "ids 16384 16386
table e e
session
begin rc
insert t1 1 c2500.0 null
commit
begin rc
delete t1 1
commit
begin rc
insert t1 2 c2500.0 c2500.1
commit
begin rc
insert t1 3 c2500.2 null
rollback
";

const IDS_RUN_OUT_REPLIES: &str = "s1.1 ok
s1.2 ok
s1.3 ok
s1.4 ok
s1.5 ok
s1.6 ok
s1.7 ok
s1.8 ok
s1.9 ok
s1.10 ok
s1.11 no value id
s1.12 ok
";

// An id in hand for one session is not drawn for another, though no chunk has it yet.
const ID_IN_HAND: &str = "ids 16384 16385
table e
session
begin rc
insert t1 1 c2500.1
commit
session
begin rc
insert t1 2 c2500.2
commit
session
begin rc
insert t1 3 c2500.3
commit
go 1! 1 1 2! 2! 3! 3!
";

const ID_IN_HAND_REPLIES: &str = "s1.1 ok
s1.2 ok
s2.1 ok
s2.2 ok
s3.1 ok
s3.2 no value id
s1.3 ok
s2.3 ok
s3.3 rolled back
";

// A handle is open until it is closed.
const CLOSED: &str = "table e
session
begin rc
insert t1 1 c2500.0
open h1 t1 1 1
close h1
fetch h1 0 1
rollback
";

const CLOSED_REPLIES: &str = "s1.1 ok
s1.2 ok
s1.3 ok
s1.4 ok
s1.5 no handle
s1.6 ok
";

// A handle keeps its value over a delete, to the end of its transaction.
const KEPT_BY_A_HANDLE: &str = "table e
session
begin rc
insert t1 1 c5000.0
open h1 t1 1 1
delete t1 1
fetch h1 1995 2
commit
begin rc
fetch h1 0 1
commit
";

const KEPT_BY_A_HANDLE_REPLIES: &str = "s1.1 ok
s1.2 ok
s1.3 ok
s1.4 ok
s1.5 bytes xeeef
s1.6 ok
s1.7 ok
s1.8 no handle
s1.9 rolled back
";

// The same under read committed, where another transaction deletes the row.
const HANDLE_OF_ITS_OWN: &str = "table e
session
begin rc
open h1 t1 1 1
fetch h1 0 3
open h1 t1 1 1
close h1
rollback
session
begin rc
insert t1 1 c2500.5
commit
begin rc
delete t1 1
commit
go 2! 2! 2! 1! 1! 2! 2! 2!
";

const HANDLE_OF_ITS_OWN_REPLIES: &str = "s2.1 ok
s2.2 ok
s2.3 ok
s1.1 ok
s1.2 ok
s2.4 ok
s2.5 ok
s2.6 ok
s1.3 bytes x050607
s1.4 handle there
s1.5 failed
s1.6 ok
";

// A row that has changed since the snapshot, one that another session has claimed, and one that is there.
const CLAIMS: &str = "table p
session
begin rr
get t1 1
update t1 1 1=x02
rollback
session
begin rc
insert t1 1 x01
commit
begin rc
update t1 1 1=x09
commit
begin rc
insert t1 2 x22
commit
session
begin rc
insert t1 2 x00
rollback
begin rc
insert t1 1 x00
rollback
go 2! 2! 2! 1! 1! 2! 2! 2! 1! 2! 2! 3! 3!
";

const CLAIMS_REPLIES: &str = "s2.1 ok
s2.2 ok
s2.3 ok
s1.1 ok
s1.2 row 1 x01
s2.4 ok
s2.5 ok
s2.6 ok
s1.3 changed
s2.7 ok
s2.8 ok
s3.1 ok
s3.2 busy s2
s1.4 ok
s2.9 ok
s3.3 ok
s3.4 ok
s3.5 taken
s3.6 ok
";

// A row moves to another key, not to its own.
const KEYS: &str = "table e
session
begin rc
insert t1 1 c2500.0
commit
begin rc
rekey t1 1 -5
rekey t1 -5 -5
rollback
begin rc
rekey t1 1 9223372036854775807
commit
";

const KEYS_REPLIES: &str = "s1.1 ok
s1.2 ok
s1.3 ok
s1.4 ok
s1.5 ok
s1.6 taken
s1.7 ok
s1.8 ok
s1.9 ok
s1.10 ok
";

const DIGITS: &[u8; 16] = b"0123456789abcdef";

#[test]
fn worked_scripts_print_their_replies(rt: HostRuntime) -> Result<(), Fail> {
    let alloc = rt.alloc();
    for (script, replies) in [
        (SMALLEST, SMALLEST_REPLIES),
        (AT_THE_LIMIT, AT_THE_LIMIT_REPLIES),
        (SLICES, SLICES_REPLIES),
        (CLAIMED, CLAIMED_REPLIES),
        (OVER_A_DELETE, OVER_A_DELETE_REPLIES),
        (KEPT_POINTER, KEPT_POINTER_REPLIES),
        (IDS_RUN_OUT, IDS_RUN_OUT_REPLIES),
        (ID_IN_HAND, ID_IN_HAND_REPLIES),
        (CLOSED, CLOSED_REPLIES),
        (KEPT_BY_A_HANDLE, KEPT_BY_A_HANDLE_REPLIES),
        (HANDLE_OF_ITS_OWN, HANDLE_OF_ITS_OWN_REPLIES),
        (CLAIMS, CLAIMS_REPLIES),
        (KEYS, KEYS_REPLIES),
    ] {
        let (status, sink) = replayed(alloc, script)?;
        let expected = spelled(alloc, replies)?;
        assert_eq!(rt; status, Status::Done, "{script}");
        assert_eq!(rt; sink.written(), expected.as_slice(), "{script}");
    }
    Ok(())
}

// What a script's replay answers, and the sink that it wrote to.
fn replayed(alloc: Global, script: &str) -> Result<(Status, MemSink), AllocError> {
    let mut words = BytesList::new(alloc);
    words.push(Bytes::from_slice(alloc, b"replay")?)?;
    let bytes = Bytes::from_slice(alloc, script.as_bytes())?;
    let mut source = MemSource::new(alloc, bytes, 1000, CallList::new(alloc));
    let mut sink = MemSink::new(alloc, 30_000, CallList::new(alloc))?;
    let mut kept = None;
    let status = toast_replay(alloc, &words, &mut source, &mut sink, &mut kept);
    Ok((status, sink))
}

// Replies in which `{2500.7}` stands for the digits of 2,500 bytes that count from 7.
fn spelled(alloc: Global, replies: &str) -> Result<Vec<u8>, AllocError> {
    let mut text = Vec::new(alloc);
    for part in replies.split('{') {
        match part.split_once('}') {
            Some((value, behind)) => {
                push_value(&mut text, value)?;
                text.extend_from_slice(behind.as_bytes())?;
            }
            None => text.extend_from_slice(part.as_bytes())?,
        }
    }
    Ok(text)
}

// The digits of a value's bytes, which count up from its start to 250 and on from 0.
fn push_value(text: &mut Vec<u8>, value: &str) -> Result<(), AllocError> {
    let Some((length, start)) = value.split_once('.') else {
        return Ok(());
    };
    let (Ok(length), Ok(start)) = (length.parse::<u16>(), start.parse::<u16>()) else {
        return Ok(());
    };
    for at in 0..u32::from(length) {
        let byte = (u32::from(start) + at) % 251;
        text.push(DIGITS[(byte / 16) as usize])?;
        text.push(DIGITS[(byte % 16) as usize])?;
    }
    Ok(())
}
