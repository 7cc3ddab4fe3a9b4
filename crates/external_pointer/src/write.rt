//! Writing a pointer.

ghost use Rattle.std.specs.Prelude.{◌≡◌, ◌≤◌, ◌+◌, ◌++◌, length, take, drop};
ghost use Rattle.std.specs.Int.{w32, to_le_bytes};
ghost use Rattle.external_pointer.specs.Spelling.{pointer_bytes};

use crate::external::{EXTERNAL, ON_DISK, Pointer};
use byteorder::{ByteOrder, LittleEndian};

/// Writes a number into the four bytes from `at` on, low byte first.
fn put_word(out: &mut [u8], at: usize, word: u32)
    requires { at + 4 ≤ length out.old }
    ensures { out.new ≡ take at out.old ++ (to_le_bytes w32 word ++ drop (at + 4) out.old) }
{
    LittleEndian::write_u32(&mut out[at..at + 4], word);
}

/// Writes the 18 bytes of a pointer.
pub fn write_pointer(p: &Pointer, out: &mut [u8; 18])
    requires { p.now.size ≤ 1073741819 }
    ensures { out.new ≡ pointer_bytes p.now }
{
    out[0] = EXTERNAL;
    out[1] = ON_DISK;
    put_word(out, 2, p.size + 4);
    put_word(out, 6, p.size);
    put_word(out, 10, p.value_id);
    put_word(out, 14, p.toast_rel);
}
