//! A table of three words, searched and branched on.
ghost use Rattle.std.specs.Prelude.{◌≡◌};

use crate::{Table, rows};

const KEYWORDS: Table<3> = Table {
    words: ["and", "not", "or"],
};

const REPEATED: Table<2> = Table {
    words: ["or", "or"],
};

/// How many arguments the head of a condition takes, for the test of `rows!`.
fn arguments(word: &[u8]) -> u8 {
    rows! {
        KEYWORDS, word;
        "and" => 2,
        "not" => 1,
        "or" => 3;
        else => 0
    }
}

#[test]
fn words_are_found(rt: HostRuntime) {
    assert!(rt; KEYWORDS.sorted());
    assert!(rt; !REPEATED.sorted());
    let rows: [(&[u8], Option<usize>); 7] = [
        (b"and", Some(0)),
        (b"not", Some(1)),
        (b"or", Some(2)),
        (b"nor", None),
        (b"no", None),
        (b"note", None),
        (b"", None),
    ];
    for (word, index) in rows {
        assert_eq!(rt; KEYWORDS.find(word), index, "{word:?}");
    }
    assert_eq!(rt; arguments(b"and"), 2);
    assert_eq!(rt; arguments(b"not"), 1);
    assert_eq!(rt; arguments(b"or"), 3);
    assert_eq!(rt; arguments(b"nor"), 0);
}
