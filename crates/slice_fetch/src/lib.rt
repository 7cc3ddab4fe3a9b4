//! Slices of a value that is stored in chunks: which bytes of it a slice names, and in which chunks
//! they lie.
#![tactic(auto)]

ghost use Rattle.std.specs.Prelude.{◌≡◌, ℕ, ◌+◌, ◌-◌, ◌/◌, ◌≤◌, ◌<◌, ◌↔◌, ◌<ℤ◌, pos, List, length, min, unsigned_abs, IsErr, IfOk, IsNone, IfSome};
ghost use Rattle.slice_fetch.specs.Spans.{IsSlice, bytes_in, chunk_size, pieces_joined, seen_from};

use thiserror::Error;

#[cfg(test)]
mod tests;

/// The most bytes of a value that one chunk holds (TOAST_MAX_CHUNK_SIZE: four chunks fill a page).
pub const CHUNK_SIZE: u32 = 1996;

/// The bytes of a value from `start` up to, and without, `end`; both are counted from 0.
#[derive(Clone, Copy, Debug, PartialEq, Eq)]
pub struct Span {
    pub start: u32,
    pub end: u32,
}

/// A slice's offset is negative.
#[derive(Clone, Copy, Debug, PartialEq, Eq, Error)]
#[error("a slice's offset is negative")]
pub struct BadOffset;

/// The bytes that a slice of a value of this size names: from the offset on so many as the length says.
///
/// An offset at or past the size names none. A negative length means all bytes up to the end, and so
/// does one that with the offset is past the end or past 2,147,483,647.
///
/// # Errors
/// `BadOffset` exactly where the offset is negative.
pub fn slice_span(size: u32, offset: i32, length: i32) -> Result<Span, BadOffset>
    requires { size ≤ 65536 }
    ensures fault { IsErr result ↔ (offset <ℤ pos 0) }
    ensures start { IfOk result (λ span. span.start ≡ min (unsigned_abs offset) size) }
    ensures within { IfOk result (λ span. (span.start ≤ span.end) × (span.end ≤ size)) }
    ensures slice { IfOk result (IsSlice size offset length) }
{
    if offset < 0 {
        return Err(BadOffset);
    }
    let end = if length < 0 {
        size
    } else {
        match offset.checked_add(length) {
            Some(end) => (end as u32).min(size),
            None => size,
        }
    };
    Ok(Span {
        start: (offset as u32).min(size),
        end,
    })
}

/// The numbers of the first and the last chunk with bytes of a span; an empty span has none.
pub fn chunk_range(span: Span) -> Option<(u32, u32)>
    requires { span.start ≤ span.end }
    ensures empty { IsNone result ↔ (span.start ≡ span.end) }
    ensures range { IfSome result (λ range. (range.0 ≡ span.start / chunk_size) × (range.1 ≡ (span.end - 1) / chunk_size)) }
    ensures pieces { IfSome result (λ range. (bytes : List ℕ) → bytes_in (seen_from range.0 span) (pieces_joined bytes range.0 range.1) ≡ bytes_in span bytes) }
{
    if span.start == span.end {
        return None;
    }
    Some((span.start / CHUNK_SIZE, (span.end - 1) / CHUNK_SIZE))
}
