ghost use Rattle.std.specs.Prelude.{◌<◌};

use super::*;
use std::alloc::Global;
use std::test::Fail;

#[test]
fn a_source_gives_pieces_and_fails_at_its_calls(rt: HostRuntime) -> Result<(), Fail> {
    let alloc = rt.alloc();
    let bytes = Bytes::from_slice(alloc, b"abcdefg")?;
    let fails = CallList::from_slice(alloc, &[1])?;
    let mut source = MemSource::new(alloc, bytes, 4, fails);
    let mut buf = [b'.'; 5];
    for (answer, then) in [
        (Ok(4), b"abcd."),
        (Err(Failed), b"abcd."),
        (Ok(3), b"efgd."),
        (Ok(0), b"efgd."),
    ] {
        assert_eq!(rt; source.read(&mut buf), answer);
        assert_eq!(rt; buf, *then);
    }
    Ok(())
}

#[test]
fn a_sink_takes_what_it_has_room_for(rt: HostRuntime) -> Result<(), Fail> {
    let alloc = rt.alloc();
    let fails = CallList::from_slice(alloc, &[1])?;
    let mut sink = MemSink::new(alloc, 5, fails)?;
    for (piece, answer) in [
        ("abc", Ok(3)),
        ("x", Err(Failed)),
        ("defg", Ok(2)),
        ("fg", Err(Failed)),
        ("", Ok(0)),
    ] {
        assert_eq!(rt; sink.write(piece.as_bytes()), answer);
    }
    assert_eq!(rt; sink.written(), b"abcde".as_slice());
    Ok(())
}

// What `read_all` answers for seven bytes in pieces of three, with one call that fails.
fn answer_for(alloc: Global, limit: usize, fails_at: u64) -> Result<Bytes, ReadAllFault>
    requires { limit < usize.MAX }
{
    let bytes = Bytes::from_slice(alloc, b"abcdefg")?;
    let fails = CallList::from_slice(alloc, &[fails_at])?;
    read_all(alloc, &mut MemSource::new(alloc, bytes, 3, fails), limit)
}

#[test]
fn reading_whole(rt: HostRuntime) -> Result<(), Fail> {
    let alloc = rt.alloc();
    // Three calls give bytes, and call 3 sees the end.
    for (limit, fails_at) in [(7, 4), (8, 9), (70_000, 4)] {
        assert_eq!(rt;
            answer_for(alloc, limit, fails_at)?.as_slice(),
            b"abcdefg".as_slice()
        );
    }
    for (limit, fails_at, fault) in [
        (7, 0, ReadAllFault::ReadFault),
        (7, 3, ReadAllFault::ReadFault),
        (6, 3, ReadAllFault::TooLong),
        (0, 1, ReadAllFault::TooLong),
    ] {
        assert_eq!(rt; answer_for(alloc, limit, fails_at).err(), Some(fault));
    }
    Ok(())
}

#[test]
fn reading_takes_large_pieces(rt: HostRuntime) -> Result<(), Fail> {
    let alloc = rt.alloc();
    let bytes = Bytes::from_vec(vec![in alloc; b'\n'; 200_000]?);
    // Four calls for the bytes and one for the end.
    let fails = CallList::from_slice(alloc, &[5])?;
    let mut source = MemSource::new(alloc, bytes, 200_000, fails);
    assert_eq!(rt; read_all(alloc, &mut source, 200_000)?.len(), 200_000);
    Ok(())
}

#[test]
fn writing_whole(rt: HostRuntime) -> Result<(), Fail> {
    let alloc = rt.alloc();
    for (room, fails_at, answer, written) in [
        (7, 1, Ok(()), "abcdefg"),
        (5, 2, Err(Failed), "abcde"),
        (7, 0, Err(Failed), ""),
    ] {
        let fails = CallList::from_slice(alloc, &[fails_at])?;
        let mut sink = MemSink::new(alloc, room, fails)?;
        assert_eq!(rt; write_all(&mut sink, b"abcdefg"), answer);
        assert_eq!(rt; sink.written(), written.as_bytes());
    }
    Ok(())
}

#[test]
fn over_a_reader_and_a_writer_of_std(rt: HostRuntime) -> Result<(), Fail> {
    let alloc = rt.alloc();
    let mut source = StdSource::new(b"abc".as_slice());
    let bytes = read_all(alloc, &mut source, 3)?;
    assert_eq!(rt; bytes.as_slice(), b"abc".as_slice());
    let mut place = [0u8; 2];
    let mut sink = StdSink::new(place.as_mut_slice());
    assert_eq!(rt; write_all(&mut sink, bytes.as_slice()), Err(Failed));
    assert_eq!(rt; place, *b"ab");
    Ok(())
}
