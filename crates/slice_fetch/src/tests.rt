use crate::{BadOffset, Span, chunk_range, slice_span};

/// The span of a slice of a value of at most 65,536 bytes, as its two ends.
fn ends(size: u32, offset: i32, length: i32) -> Option<(u32, u32)> {
    if size > 65536 {
        return None;
    }
    let span = slice_span(size, offset, length).ok()?;
    Some((span.start, span.end))
}

/// The chunks of the span with these ends.
fn chunks(start: u32, end: u32) -> Option<(u32, u32)> {
    if start > end {
        return None;
    }
    chunk_range(Span { start, end })
}

#[test]
fn a_slice_ends_with_the_value(rt: HostRuntime) {
    let cases = [
        ((5000, 1990, 20), (1990, 2010)),
        ((5000, 5000, 1), (5000, 5000)),
        ((5000, 5001, -1), (5000, 5000)),
        ((5000, 4999, 1), (4999, 5000)),
        ((5000, 4999, 2), (4999, 5000)),
        ((5000, 4999, 0), (4999, 4999)),
        ((5000, 0, 0), (0, 0)),
        ((5000, 0, -1), (0, 5000)),
        ((5000, 1, 2147483647), (1, 5000)),
        ((5000, 2147483647, 2147483647), (5000, 5000)),
        ((5000, 0, 1996), (0, 1996)),
        ((5000, 1995, 1), (1995, 1996)),
        ((5000, 1996, 1996), (1996, 3992)),
        ((5000, 3991, -2147483648), (3991, 5000)),
        ((0, 0, -1), (0, 0)),
        ((65536, 65535, 9), (65535, 65536)),
    ];
    for ((size, offset, length), expected) in cases {
        assert!(rt; ends(size, offset, length) == Some(expected));
    }
}

#[test]
fn an_offset_below_0_is_refused(rt: HostRuntime) {
    assert!(rt; slice_span(5000, -1, 1) == Err(BadOffset));
    assert!(rt; slice_span(0, -2147483648, -1) == Err(BadOffset));
}

#[test]
fn a_span_lies_in_the_chunks_of_its_first_and_last_byte(rt: HostRuntime) {
    let cases = [
        ((1990, 2010), Some((0, 1))),
        ((5000, 5000), None),
        ((0, 0), None),
        ((0, 1), Some((0, 0))),
        ((0, 1996), Some((0, 0))),
        ((0, 1997), Some((0, 1))),
        ((1995, 1996), Some((0, 0))),
        ((1995, 1997), Some((0, 1))),
        ((1996, 1997), Some((1, 1))),
        ((1996, 3992), Some((1, 1))),
        ((3991, 3993), Some((1, 2))),
        ((3992, 3993), Some((2, 2))),
        ((0, 65536), Some((0, 32))),
    ];
    for ((start, end), expected) in cases {
        assert!(rt; chunks(start, end) == expected);
    }
}
