use super::*;
use std::alloc::{AllocError, Global};

#[test]
fn lists_of_words_and_what_they_are(rt: HostRuntime) -> Result<(), AllocError> {
    let alloc = rt.alloc();
    let none: [&[&str]; 18] = [
        &[],
        &[""],
        &["make"],
        &["make", "0"],
        &["make", "01"],
        &["make", "+1"],
        &["make", "-1"],
        &["make", "1 "],
        &["make", ""],
        &["make", "1001"],
        &["make", "4294967297"],
        &["make", "1", "1"],
        &["bench", "x"],
        &["-h"],
        &["run", "1"],
        &["replay", "run"],
        &["replay "],
        &["Run"],
    ];
    for words in none {
        let words = words_of(alloc, words)?;
        assert_eq!(rt; read_words(&words), None);
    }
    let some: [(&[&str], CommandWords); 4] = [
        (&["replay"], CommandWords::Replay),
        (&["run"], CommandWords::Run),
        (&["make", "1"], CommandWords::Make(1)),
        (&["make", "1000"], CommandWords::Make(1000)),
    ];
    for (words, command) in some {
        let words = words_of(alloc, words)?;
        assert_eq!(rt; read_words(&words), Some(command));
    }
    Ok(())
}

// These words as a list of lists of bytes.
fn words_of(alloc: Global, words: &[&str]) -> Result<BytesList, AllocError> {
    let mut list = BytesList::new(alloc);
    for word in words {
        list.push(Bytes::from_slice(alloc, word.as_bytes())?)?;
    }
    Ok(list)
}
