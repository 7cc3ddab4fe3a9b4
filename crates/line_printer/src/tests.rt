use crate::Printer;
use command_set::{Bytes, Reply};
use std::alloc::{AllocError, Global};
use toast_io::{CallList, MemSink};

#[test]
fn lines_around_the_size_of_a_part_and_longer_than_the_buffer(
    rt: HostRuntime,
) -> Result<(), AllocError> {
    let alloc = rt.alloc();
    for length in [0usize, 63, 64, 65, 32_758, 65_536] {
        let reply = long_reply(alloc, length)?;
        let mut sink = MemSink::new(alloc, 200_000, CallList::new(alloc))?;
        let mut printer = Printer::new(alloc)?;
        printer.print_reply(&mut sink, 64, 10_000, &reply);
        assert!(rt; printer.finish(&mut sink).is_ok());
        let line = long_line(alloc, length)?;
        assert!(rt; sink.written() == line.as_slice());
    }
    Ok(())
}

#[test]
fn a_write_fails_in_the_midst_of_a_line(rt: HostRuntime) -> Result<(), AllocError> {
    let alloc = rt.alloc();
    let reply = long_reply(alloc, 65_536)?;
    let line = long_line(alloc, 65_536)?;
    for room in [0usize, 10, 65_536, 70_000] {
        let mut sink = MemSink::new(alloc, room, CallList::new(alloc))?;
        let mut printer = Printer::new(alloc)?;
        printer.print_reply(&mut sink, 64, 10_000, &reply);
        printer.print_reply(&mut sink, 64, 10_000, &reply);
        assert!(rt; printer.finish(&mut sink).is_err());
        assert!(rt; line.as_slice().starts_with(sink.written()));
        assert_eq!(rt; sink.written().len(), room);
    }
    Ok(())
}

// A reply of so many bytes.
fn long_reply(alloc: Global, length: usize) -> Result<Reply, AllocError> {
    let bytes = vec![in alloc; 0xc5u8; length]?;
    Ok(Reply::Bytes(Bytes::from_vec(bytes)))
}

// The line of that reply.
fn long_line(alloc: Global, length: usize) -> Result<Vec<u8>, AllocError> {
    let mut line = Vec::from_slice(alloc, b"s64.10000 bytes x")?;
    for _ in 0..length {
        line.extend_from_slice(b"c5")?;
    }
    line.push(b'\n')?;
    Ok(line)
}
