// What no clause says: spellings at the ends of their ranges, and that a reading succeeds.
use script_words::fault::{LineFault, Refusal};
use script_words::names::{handle, storages};
use script_words::numbers::{key, offset};
use script_words::sets::sets;
use script_words::values::values;
use std::alloc::Global;
use tuple_layout::Storage;

#[test]
fn numbers_have_a_range_and_one_spelling(rt: HostRuntime) {
    assert!(rt; key(b"-9223372036854775808") == Ok(i64::MIN));
    assert!(rt; key(b"9223372036854775807") == Ok(i64::MAX));
    assert!(rt; key(b"0") == Ok(0) && key(b"-1") == Ok(-1));
    assert!(rt; offset(b"-2147483648") == Ok(i32::MIN));
    assert!(rt; offset(b"2147483647") == Ok(i32::MAX));
    let bad: [&[u8]; 6] = [b"2147483648", b"-2147483649", b"-0", b"+1", b"01", b""];
    for word in bad {
        assert!(rt; offset(word) == Err(LineFault::BadNumber));
    }
}

#[test]
fn names_are_those_that_are_there(rt: HostRuntime) -> Result<(), Refusal> {
    assert!(rt; handle(b"h1") == Ok(1) && handle(b"h64") == Ok(64));
    let bad: [&[u8]; 5] = [b"h0", b"h65", b"h", b"1", b"t1"];
    for word in bad {
        assert!(rt; handle(word) == Err(LineFault::BadName));
    }
    let found = storages(rt.alloc(), b" p\te ")?;
    assert!(rt; found.as_slice() == [Storage::Plain, Storage::External].as_slice());
    Ok(())
}

// Whether values or sets of 8 columns are read from a text.
fn are_read(alloc: Global, text: &[u8]) -> (bool, bool) {
    (values(alloc, text).is_ok(), sets(alloc, 8, text).is_ok())
}

#[test]
fn values_and_sets_are_told_apart(rt: HostRuntime) {
    let alloc = rt.alloc();
    assert!(rt; are_read(alloc, b"null xaBcD x c65536.250") == (true, false));
    assert!(rt; are_read(alloc, b"8=null 1=xaBcD 2=x 3=c0.0") == (false, true));
    let bad: [&[u8]; 6] = [b"1=x 1=x", b"9=x", b"1=x=", b"xa", b"c1.251", b"cc"];
    for text in bad {
        assert!(rt; are_read(alloc, text) == (false, false));
    }
}
