//! The made script: a valid script of any size, on which a store is measured and whose counts are known.
//!
//! Eight sessions each insert, update and read rows of their own keys, two vacuum, a loop takes turns
//! of these ten, and an eleventh session rewrites the table at the end.
#![tactic(auto)]

ghost use Rattle.std.specs.Prelude.{◌≡◌, ◌≤◌, ◌++◌, IfOk, OnOk};
ghost use Rattle.std.specs.Fmt.{decimal};
ghost use Rattle.made_script.specs.Made.{insert_text, key_text, keys_text, loop_text, made_text, read_text, sessions_text, set_text, update_text};

use std::alloc::{AllocError, Global};
use toast_io::Bytes;

#[cfg(test)]
mod tests;

// How many sessions write.
const WRITERS: u32 = 8;

/// The script for `n` keys: one table of an EXTERNAL and a PLAIN column, eight sessions that write,
/// two that vacuum and one that rewrites, and a loop of `4 * n` rounds over the first ten.
///
/// Session `s` of the writers has the keys from 1 to `n` that leave the remainder of `s` by 8, in
/// ascending order. For each it inserts a row, updates it and reads it, each in a transaction of its own.
///
/// # Errors
///
/// Where there is no memory.
pub fn make_script(alloc: Global, n: u32) -> Result<Bytes, AllocError>
    requires at_least { 1 ≤ n }
    requires at_most { n ≤ 1000 }
    ensures { IfOk result (λ text. text ≡ made_text n) }
{
    let mut out = Bytes::new(alloc);
    put_text("table e p\n", &mut out)?;
    put_writers(alloc, n, WRITERS, &mut out)?;
    put_text(
        "session\nvacuum t1 toast\nvacuum t1 toast\nsession\nvacuum t1 main\nvacuum t1 main\nsession\nrewrite t1\n",
        &mut out,
    )?;
    put_loop(alloc, n, &mut out)?;
    Ok(out)
}

// Adds a text.
fn put_text(text: &str, out: &mut Bytes) -> Result<(), AllocError>
    ensures { OnOk result (out.new ≡ out.old ++ text.now) }
{
    out.extend_from_slice(text.as_bytes())
}

// Adds words and a number behind them.
fn put_numbered(alloc: Global, words: &str, number: u32, out: &mut Bytes) -> Result<(), AllocError>
    ensures { OnOk result (out.new ≡ out.old ++ (words.now ++ decimal number)) }
{
    let text = format!(in alloc; "{words}{number}")?;
    put_text(text.as_str(), out)
}

// Adds the first so many sessions that write.
fn put_writers(alloc: Global, n: u32, writers: u32, out: &mut Bytes) -> Result<(), AllocError>
    requires keys { n ≤ 1000 }
    requires writers { writers ≤ 8 }
    ensures { OnOk result (out.new ≡ out.old ++ sessions_text n writers) }
{
    for done in 0..writers {
        put_text("session\n", out)?;
        put_keys(alloc, done + 1, n, out)?;
    }
    Ok(())
}

// Adds the commands of a writer for its keys up to `n`.
fn put_keys(alloc: Global, session: u32, n: u32, out: &mut Bytes) -> Result<(), AllocError>
    requires { n ≤ 1000 }
    ensures { OnOk result (out.new ≡ out.old ++ keys_text session n) }
{
    for done in 0..n {
        let key = done + 1;
        if key % WRITERS == session % WRITERS {
            put_key(alloc, key, out)?;
        }
    }
    Ok(())
}

// Adds the commands of one key: three transactions.
fn put_key(alloc: Global, key: u32, out: &mut Bytes) -> Result<(), AllocError>
    requires { key ≤ 1000 }
    ensures { OnOk result (out.new ≡ out.old ++ key_text key) }
{
    put_insert(alloc, key, out)?;
    put_update(alloc, key, out)?;
    put_read(alloc, key, out)?;
    Ok(())
}

// Adds the transaction that inserts a key's row.
fn put_insert(alloc: Global, key: u32, out: &mut Bytes) -> Result<(), AllocError>
    requires { key ≤ 1000 }
    ensures { OnOk result (out.new ≡ out.old ++ insert_text key) }
{
    put_numbered(alloc, "begin rc\ninsert t1 ", key, out)?;
    put_numbered(alloc, " c", 2000 + key, out)?;
    put_numbered(alloc, ".", key % 251, out)?;
    put_text(" x010203\ncommit\n", out)?;
    Ok(())
}

// Adds the transaction that updates it.
fn put_update(alloc: Global, key: u32, out: &mut Bytes) -> Result<(), AllocError>
    requires { key ≤ 1000 }
    ensures { OnOk result (out.new ≡ out.old ++ update_text key) }
{
    put_numbered(alloc, "begin rc\nupdate t1 ", key, out)?;
    put_text(" ", out)?;
    put_set(alloc, key, out)?;
    put_text("\ncommit\n", out)?;
    Ok(())
}

// Adds what the update of a key sets: the short column of an even key, the long one of an odd key.
fn put_set(alloc: Global, key: u32, out: &mut Bytes) -> Result<(), AllocError>
    requires { key ≤ 1000 }
    ensures { OnOk result (out.new ≡ out.old ++ set_text key) }
{
    if key % 2 == 0 {
        return put_text("2=x040506", out);
    }
    put_numbered(alloc, "1=c", 3000 + key % 1000, out)?;
    put_numbered(alloc, ".", key % 251, out)?;
    Ok(())
}

// Adds the transaction that reads a key's row.
fn put_read(alloc: Global, key: u32, out: &mut Bytes) -> Result<(), AllocError>
    ensures { OnOk result (out.new ≡ out.old ++ read_text key) }
{
    put_numbered(alloc, "begin rr\nget t1 ", key, out)?;
    put_text("\ncommit\n", out)?;
    Ok(())
}

// Adds the loop.
fn put_loop(alloc: Global, n: u32, out: &mut Bytes) -> Result<(), AllocError>
    requires { n ≤ 1000 }
    ensures { OnOk result (out.new ≡ out.old ++ loop_text n) }
{
    put_numbered(alloc, "loop ", 4 * n, out)?;
    put_text(" 1 2 3 4 5 6 7 8 9 10\n", out)?;
    Ok(())
}
