//! No words at all, which no line of the stored run of `files_check` can show.

use dj_words::{UsageKind, WordsFault, read_words};

#[test]
fn no_word_asks_for_nothing(rt: HostRuntime) {
    let none = Vec::new(rt.alloc());
    let read = read_words(rt.alloc(), none.as_slice());
    assert!(rt; matches!(read, Err(WordsFault::Usage(UsageKind::NoFile))));
}
