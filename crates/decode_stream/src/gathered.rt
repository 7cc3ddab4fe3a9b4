//! Values that are gathered from their chunks.

ghost use Rattle.std.specs.Prelude.{◌≡◌, ◌+◌, ◌<◌, ◌^◌, length, IfOk, OnErr, OnOk, Some, None};
ghost use Rattle.indexmap.specs.IndexMap.{get};
ghost use Rattle.decode_stream.specs.Decoding.{order_fault};
ghost use Rattle.decode_stream.specs.States.{HasRoom, same_name};
ghost use Rattle.decode_stream.specs.Steps.{IsGathered, IsPut, Tells, more_of};

use crate::fault::DecodeFault;
use indexmap::IndexMap;
use std::alloc::{AllocError, Global};
use std::marker::Model;
use toast_io::Bytes;

/// The name of a value that is stored out of line.
#[derive(Clone, Copy, Debug, PartialEq, Eq, Hash)]
pub struct ValueName {
    /// The table whose rows point to the value, from 1.
    pub table: u16,
    /// The value's id, which is its own among the values of that table.
    pub value_id: u32,
}

/// A value as far as it is gathered: how many chunks, and their bytes.
#[derive(Drop)]
pub(crate) struct Gathered {
    chunks: u32,
    bytes: Bytes,
}

/// The values that are gathered for the next change of a row, by their names.
pub(crate) type Values = IndexMap<ValueName, Gathered>;

impl Model for Gathered {
    ghost use Rattle.std.specs.Prelude.{◌<◌, ◌^◌, length};
    ghost use Rattle.decode_stream.specs.Decoding.{GatheredValue};

    ghost Value = { GatheredValue };

    ghost view = { λ value. record { chunks = value.chunks; bytes = value.bytes } };

    ghost invariant = { λ value. length value.bytes < 2 ^ 32 };
}

impl Gathered {
    /// The value of one chunk.
    fn of_first(alloc: Global, bytes: &[u8]) -> Result<Gathered, AllocError>
        requires { length bytes.now < 2 ^ 32 }
        ensures { IfOk result (λ value. value ≡ more_of None bytes.now) }
    {
        let bytes = Bytes::from_slice(alloc, bytes)?;
        Ok(Gathered { chunks: 1, bytes })
    }

    /// Adds the next chunk. Where there is no memory, all is as before.
    fn add(&mut self, bytes: &[u8]) -> Result<(), AllocError>
        requires chunks { self.old.chunks + 1 < 2 ^ 32 }
        requires bytes { length self.old.bytes + length bytes.now < 2 ^ 32 }
        ensures ok { OnOk result (self.new ≡ more_of (Some self.old) bytes.now) }
        ensures err { OnErr result (self.new ≡ self.old) }
    {
        self.bytes.extend_from_slice(bytes)?;
        self.chunks += 1;
        Ok(())
    }

    /// How many chunks it has.
    fn chunks(&self) -> u32
        ensures { result ≡ self.now.chunks }
    {
        self.chunks
    }

    /// How many bytes it has.
    pub(crate) fn len(&self) -> u32
        ensures { result ≡ length self.now.bytes }
    {
        self.bytes.len() as u32
    }

    /// Its bytes.
    pub(crate) fn into_bytes(self) -> Bytes
        ensures { result ≡ self.bytes }
    {
        self.bytes
    }

    /// A copy of its bytes.
    pub(crate) fn copy(&self) -> Result<Bytes, AllocError>
        ensures { IfOk result (λ bytes. bytes ≡ self.now.bytes) }
    {
        self.bytes.clone()
    }
}

/// Puts a value at a name. Where there is no memory, all is as before.
fn put(values: &mut Values, name: ValueName, value: Gathered) -> Result<(), AllocError>
    ensures ok { OnOk result (IsPut (get same_name values.old) (get same_name values.new) name value) }
    ensures err { OnErr result (values.new.entries ≡ values.old.entries) }
{
    let _ = values.insert(name, value)?;
    Ok(())
}

/// Gathers a chunk, which is refused unless it is the next one of its value. Where it is refused or
/// there is no memory, all is as before.
pub(crate) fn gather(
    alloc: Global,
    values: &mut Values,
    name: ValueName,
    seq: u32,
    bytes: &[u8],
) -> Result<(), DecodeFault>
    requires { HasRoom (get same_name values.old name) bytes.now }
    ensures ok { OnOk result (IsGathered (get same_name values.old) (get same_name values.new) name bytes.now) }
    ensures fault { Tells (order_fault (get same_name values.old name) seq) result }
    ensures err { OnErr result (values.new.entries ≡ values.old.entries) }
{
    let Some(value) = values.get_mut(&name) else {
        if seq != 0 {
            return Err(DecodeFault::ChunkOrder {
                got: seq,
                wanted: 0,
            });
        }
        let value = Gathered::of_first(alloc, bytes)?;
        put(values, name, value)?;
        return Ok(());
    };
    let wanted = value.chunks();
    if seq != wanted {
        return Err(DecodeFault::ChunkOrder { got: seq, wanted });
    }
    value.add(bytes)?;
    Ok(())
}
