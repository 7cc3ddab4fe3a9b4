//! Reading one column of a tuple's data.

ghost use Rattle.std.specs.Prelude.{◌≡◌, ◌≤◌, ◌+◌, ◌++◌, ◌%◌, ℕ, List, length, drop, slice_index, IfErr, IfOk, MatchOption};
ghost use Rattle.tuple_layout.specs.Tuples.{padding};
ghost use Rattle.tuple_layout.specs.Faults.{StandsFirst};
ghost use Rattle.tuple_layout.specs.Reading.{IsAligned, IsCellFault, IsMisplaced, IsOutFault};
ghost use Rattle.external_pointer.specs.Spelling.{IsInRange, pointer_bytes};

use crate::cell::Cell;
use crate::size::{is_short, padding};
use crate::{Bytes, Storage};
use external_pointer::{Pointer, PointerFault, read_pointer};
use std::alloc::{AllocError, Global};
use varlena_form::{Form, parse_form};

/// Why no cell is read.
#[derive(Clone, Copy, Debug, PartialEq, Eq)]
pub(crate) enum CellFault {
    /// A compressed value stands there.
    Compressed,
    /// Something else stands there.
    Bad,
    /// No memory was left.
    Memory,
}

impl From<AllocError> for CellFault {
    ghost use Rattle.tuple_layout.specs.declared.read_cell.CellFault.TheVariants.{Memory};

    ghost from_gives = { λ _ fault. fault ≡ Memory };

    fn from(_: AllocError) -> Self {
        CellFault::Memory
    }
}

/// The cell of a short datum, which no PLAIN column has.
fn short_cell(alloc: Global, storage: Storage, payload: &[u8]) -> Result<Cell, CellFault>
    ensures found { IfOk result (λ cell. (cell ≡ Cell.Inline payload.now) × (storage ≡ Storage.External)) }
    ensures fault { IfErr result (IsMisplaced (storage ≡ Storage.Plain)) }
{
    match storage {
        Storage::Plain => Err(CellFault::Bad),
        Storage::External => {
            let value = Bytes::from_slice(alloc, payload)?;
            Ok(Cell::Inline(value))
        }
    }
}

/// The cell of a datum with a header of four bytes, unless the column would have it short.
fn long_cell(alloc: Global, storage: Storage, payload: &[u8]) -> Result<Cell, CellFault>
    ensures found { IfOk result (λ cell. (cell ≡ Cell.Inline payload.now) × IsAligned storage (length payload.now)) }
    ensures fault { IfErr result (IsMisplaced (¬ (IsAligned storage (length payload.now)))) }
{
    if is_short(storage, payload.len()) {
        return Err(CellFault::Bad);
    }
    let value = Bytes::from_slice(alloc, payload)?;
    Ok(Cell::Inline(value))
}

/// Reads the pointer that an external datum is.
fn read_out(bytes: &[u8]) -> Result<Pointer, CellFault>
    ensures found { IfOk result (λ p. IsInRange p × (bytes.now ≡ pointer_bytes p)) }
    ensures fault { IfErr result (IsOutFault bytes.now) }
{
    match read_pointer(bytes) {
        Ok(pointer) => Ok(pointer),
        Err(PointerFault::Compressed { .. }) => Err(CellFault::Compressed),
        Err(_) => Err(CellFault::Bad),
    }
}

/// The data behind the zeros up to the next multiple of 4, if these zeros are there.
fn strip_padding(rest: &[u8], at: usize) -> Option<&[u8]>
    ensures { MatchOption result ((body : List ℕ) → ¬ (rest.now ≡ padding at ++ body)) (λ body. rest.now ≡ padding at ++ body.now) }
{
    rest.strip_prefix(&[0; 3][..padding(at)])
}

/// Reads a cell that is not aligned, whose first byte is odd: a short datum or a pointer.
fn read_unaligned(alloc: Global, storage: Storage, rest: &[u8]) -> Result<(Cell, usize), CellFault>
    requires { slice_index rest.now 0 % 2 ≡ 1 }
    ensures found { (at : ℕ) → IfOk result (λ x. StandsFirst storage at rest.now x.0 (drop x.1 rest.now)) }
    ensures within { IfOk result (λ x. x.1 ≤ length rest.now) }
    ensures fault { (at : ℕ) → IfErr result (IsCellFault storage at rest.now) }
{
    match parse_form(rest) {
        Ok((Form::Short(payload), size)) => {
            let cell = short_cell(alloc, storage, payload)?;
            Ok((cell, size))
        }
        Ok((Form::External(bytes), size)) => {
            let pointer = read_out(bytes)?;
            Ok((Cell::Out(pointer), size))
        }
        Ok((Form::Plain(_), _)) => Err(CellFault::Bad),
        Ok((Form::Compressed(_), _)) => Err(CellFault::Bad),
        Err(_) => Err(CellFault::Bad),
    }
}

/// Reads a cell that is aligned, whose first byte is even: a datum with a header of four bytes behind
/// zeros.
fn read_aligned(
    alloc: Global,
    storage: Storage,
    rest: &[u8],
    at: usize,
) -> Result<(Cell, usize), CellFault>
    requires { slice_index rest.now 0 % 2 ≡ 0 }
    ensures found { IfOk result (λ x. StandsFirst storage at rest.now x.0 (drop x.1 rest.now)) }
    ensures within { IfOk result (λ x. x.1 ≤ length rest.now) }
    ensures fault { IfErr result (IsCellFault storage at rest.now) }
{
    let Some(body) = strip_padding(rest, at) else {
        return Err(CellFault::Bad);
    };
    match parse_form(body) {
        Ok((Form::Plain(payload), size)) => {
            let cell = long_cell(alloc, storage, payload)?;
            Ok((cell, padding(at) + size))
        }
        Ok((Form::Compressed(_), _)) => Err(CellFault::Compressed),
        Ok((Form::Short(_), _)) => Err(CellFault::Bad),
        Ok((Form::External(_), _)) => Err(CellFault::Bad),
        Err(_) => Err(CellFault::Bad),
    }
}

/// Reads the cell that is not null at the front of `rest`, and how many bytes it takes, if the data
/// before it end at `at`.
pub(crate) fn read_cell(
    alloc: Global,
    storage: Storage,
    rest: &[u8],
    at: usize,
) -> Result<(Cell, usize), CellFault>
    ensures found { IfOk result (λ x. StandsFirst storage at rest.now x.0 (drop x.1 rest.now)) }
    ensures within { IfOk result (λ x. x.1 ≤ length rest.now) }
    ensures fault { IfErr result (IsCellFault storage at rest.now) }
{
    let first = rest.first().copied().unwrap_or(0);
    if first % 2 == 1 {
        let read = read_unaligned(alloc, storage, rest)?;
        return Ok(read);
    }
    let read = read_aligned(alloc, storage, rest, at)?;
    Ok(read)
}
