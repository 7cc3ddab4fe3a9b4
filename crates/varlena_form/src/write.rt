//! Writing a datum at the end of a buffer.

ghost use Rattle.std.specs.Prelude.{◌≡◌, ◌≤◌, ◌++◌, length, OnOk, OnErr};
ghost use Rattle.varlena_form.specs.Spelling.{short_form, plain_form};

use byteorder::{ByteOrder, LittleEndian};
use std::alloc::AllocError;

/// Appends the datum with a header of one byte that has this payload, of at most 126 bytes.
///
/// Where memory is missing `out` stays as it was.
#[tactic(auto, unfolding(crate::specs::Spelling::short_form))]
pub fn write_short(payload: &[u8], out: &mut Vec<u8>) -> Result<(), AllocError>
    requires { length payload.now ≤ 126 }
    ensures ok { OnOk result (out.new.items ≡ out.old.items ++ short_form payload.now) }
    ensures err { OnErr result (out.new.items ≡ out.old.items) }
{
    let length = payload.len() + 1;
    out.reserve(length)?;
    out.push((2 * length + 1) as u8).unwrap();
    out.extend_from_slice(payload).unwrap();
    Ok(())
}

/// Appends the datum with a header of four bytes that has this payload, of at most 65,536 bytes.
///
/// Where memory is missing `out` stays as it was.
#[tactic(auto, unfolding(crate::specs::Spelling::plain_form))]
pub fn write_plain(payload: &[u8], out: &mut Vec<u8>) -> Result<(), AllocError>
    requires { length payload.now ≤ 65536 }
    ensures ok { OnOk result (out.new.items ≡ out.old.items ++ plain_form payload.now) }
    ensures err { OnErr result (out.new.items ≡ out.old.items) }
{
    let length = payload.len() + 4;
    out.reserve(length)?;
    let mut header = [0; 4];
    LittleEndian::write_u32(&mut header, (length as u32) << 2);
    out.extend_from_slice(&header).unwrap();
    out.extend_from_slice(payload).unwrap();
    Ok(())
}
