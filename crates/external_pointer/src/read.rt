//! Reading a pointer.

ghost use Rattle.std.specs.Prelude.{◌≡◌, ◌≤◌, ℕ, ◌+◌, ◌%◌, ◌^◌, length, IfOk, IfErr};
ghost use Rattle.external_pointer.specs.Spelling.{IsInRange, pointer_bytes};
ghost use Rattle.external_pointer.specs.Fault.{IsFault, word_at};
ghost use Rattle.external_pointer.specs.declared.fault.PointerFault.{PointerFault};
ghost use Rattle.external_pointer.specs.declared.external.Pointer.{Pointer};

use crate::external::{EXTERNAL, ON_DISK, POINTER_SIZE, Pointer};
use crate::fault::PointerFault;

/// How many bytes the header counts that a value would have inline.
const HEADER_SIZE: u32 = 4;

/// The bits of the size word that hold the stored length.
const LENGTH_MASK: u32 = 0x3fff_ffff;

/// The four bytes from `at` on as a number.
fn word(bytes: &[u8], at: usize) -> u32
    requires { at + 4 ≤ length bytes.now }
    ensures { result ≡ word_at at bytes.now }
{
    u32::from_le_bytes([bytes[at], bytes[at + 1], bytes[at + 2], bytes[at + 3]])
}

/// The stored length in a size word.
fn stored_size(ext_info: u32) -> u32
    ensures { result ≡ ext_info % 2 ^ 30 }
{
    ext_info & LENGTH_MASK
}

/// Reads a pointer, which has exactly 18 bytes.
///
/// A fault is the first check that fails: the length, the header, the tag, then the sizes, where a
/// stored length below the value's own means compression.
pub fn read_pointer(bytes: &[u8]) -> Result<Pointer, PointerFault>
    // What is read is spelled so, and what is spelled so is read: the round trip.
    ensures found { IfOk result (λ p. IsInRange p × (bytes.now ≡ pointer_bytes p)) }
    ensures again { (p : Pointer) → IsInRange p → bytes.now ≡ pointer_bytes p → result ≡ Ok p }

    // Each fault comes exactly where its check is the first that fails.
    ensures fault { IfErr result (IsFault bytes.now) }
    ensures fault_only { (f : PointerFault) → IsFault bytes.now f → result ≡ Err f }
{
    let have = bytes.len();
    if have != POINTER_SIZE {
        return Err(PointerFault::WrongLength { have });
    }
    if bytes[0] != EXTERNAL {
        return Err(PointerFault::BadHeader { byte: bytes[0] });
    }
    if bytes[1] != ON_DISK {
        return Err(PointerFault::BadTag { tag: bytes[1] });
    }
    let raw_size = word(bytes, 2);
    let ext_info = word(bytes, 6);
    let size = stored_size(ext_info);
    if size + HEADER_SIZE < raw_size {
        return Err(PointerFault::Compressed { raw_size, ext_info });
    }
    if size != ext_info || size + HEADER_SIZE != raw_size || raw_size > LENGTH_MASK {
        return Err(PointerFault::BadSize { raw_size, ext_info });
    }
    Ok(Pointer {
        size,
        value_id: word(bytes, 10),
        toast_rel: word(bytes, 14),
    })
}
