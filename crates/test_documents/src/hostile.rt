// Documents that are made to hurt, through the top call.

use crate::call_rows::{CallRow, NOTHING_HAPPENED, STEP, assert_at, comes_to};
use crate::runs::{Texts, add_texts};
use anti_ids::Bytes;
use std::alloc::Global;
use std::process::Abort;

// Documents of one text over and over, or of one that is as long, and the line that each is refused with. None is too long.
static LONG: [(Texts, &str); 11] = [
    (&[("a", 262_144)], "not toml\n"),
    (&[("a", 262_140), (" = 1", 1)], "app 1 top 0 0\n"),
    (&[("'", 1), ("a", 262_138), ("' = 1", 1)], "app 1 top 0 0\n"),
    (&[("[", 262_144)], "not toml\n"),
    (&[("0", 262_144)], "not toml\n"),
    (&[("\0", 262_144)], "not toml\n"),
    (&[("\n", 262_144)], "app 2 top 0 0\n"),
    (&[("\r\n", 131_072)], "app 2 top 0 0\n"),
    (&[("[[store]]\n", 26_214)], "app 2 top 0 0\n"),
    (&[("regions = ['", 1), ("u", 262_000)], "not toml\n"),
    (
        &[("regions = ['", 1), ("u", 262_000), ("']", 1)],
        "app 6 region 1 0\n",
    ),
];

// Documents with values that are as deep as a value may be, or deeper, and the line that each is refused with.
static DEEP: [(Texts, &str); 6] = [
    (
        &[("regions = ", 1), ("[", 80), ("]", 80)],
        "app 3 region 1 0\n",
    ),
    (&[("regions = ", 1), ("[", 81), ("]", 81)], "not toml\n"),
    (&[("regions = ", 1), ("[", 262_000)], "not toml\n"),
    (
        &[("regions = ", 1), ("{a = ", 79), ("1", 1), ("}", 79)],
        "app 3 top 0 0\n",
    ),
    (&[("regions = ", 1), ("{a = ", 52_000)], "not toml\n"),
    (&[("a.", 131_000), ("a = 1", 1)], "not toml\n"),
];

// Documents with numbers of ten thousand digits, and with bytes that stand where they may not, and the line that each is refused with.
static WRONG: [(Texts, &str); 9] = [
    (
        &[("regions = ['us']\nseed = 1", 1), ("0", 9_999)],
        "not toml\n",
    ),
    (
        &[("regions = ['us']\nseed = ", 1), ("0", 10_000)],
        "not toml\n",
    ),
    (
        &[("regions = ['us']\nseed = 0x", 1), ("f", 10_000)],
        "not toml\n",
    ),
    (
        &[("regions = ['us']\nseed = 0.", 1), ("1", 10_000)],
        "app 3 top 0 0\n",
    ),
    (
        &[
            ("regions = ['us']\nchoices = ['take w 1", 1),
            ("0", 10_000),
            ("']", 1),
        ],
        "choice 1\n",
    ),
    (&[("regions = ['us']\0", 1)], "not toml\n"),
    (&[("regions = ['u\0s']", 1)], "not toml\n"),
    (&[("regions = ['us']\n\u{feff}", 1)], "not toml\n"),
    (&[("regions = ['u\u{feff}s']", 1)], "app 6 region 1 0\n"),
];

// Documents that hurt nobody: with another end of a line, with a byte order mark, and as long as a document may be.
static ODD: [(Texts, &str); 4] = [
    (&[("regions = ['us']\r\n", 1)], ""),
    (&[("\u{feff}regions = ['us']", 1)], ""),
    (&[("regions = ['us']", 1), ("\n", 262_128)], ""),
    (&[("regions = ['us']#", 1), ("é", 131_063)], ""),
];

// Whether the document of these texts is refused with a line or, where this is empty, played without an entry. `false` where memory runs
// out, too.
fn comes_to_line(alloc: Global, texts: Texts, line: &str) -> bool {
    let mut document = Bytes::new(alloc);
    if !add_texts(&mut document, texts) {
        return false;
    }
    let (status, out) = if line.is_empty() {
        (0, NOTHING_HAPPENED)
    } else {
        (5, b"".as_slice())
    };
    let row = CallRow {
        most: 5000,
        status,
        out,
        err: line.as_bytes(),
        ..STEP
    };
    comes_to(alloc, &[row.word], document.bytes(), &row)
}

// Asserts that the document of each row comes to its line.
fn assert_lines(rt: &impl Abort, alloc: Global, rows: &[(Texts, &str)]) {
    for (place, (texts, line)) in rows.iter().enumerate() {
        assert_at(rt, place, comes_to_line(alloc, texts, line));
    }
}

#[test]
fn documents_that_hurt_are_refused(rt: HostRuntime) {
    assert_lines(&rt, rt.alloc(), &LONG);
    assert_lines(&rt, rt.alloc(), &DEEP);
    assert_lines(&rt, rt.alloc(), &WRONG);
}

#[test]
fn odd_documents_are_played(rt: HostRuntime) {
    assert_lines(&rt, rt.alloc(), &ODD);
}
