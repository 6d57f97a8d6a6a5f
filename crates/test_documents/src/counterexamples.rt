// What `counterexample` writes: the choices of a run in which a read misses a write, or what is found in their place.
use crate::call_rows::{CallRow, STEP, assert_texts, served};
use crate::past::WHOLE;

// A call of `counterexample`.
const COUNTEREXAMPLE: CallRow = CallRow {
    word: b"counterexample",
    ..STEP
};

// Documents, and what is found of them. What their choices are makes no difference.
static FOUND: [(&str, &str); 5] = [
    // a placed application: no read of any run misses a write
    (WHOLE, "none 0\n"),
    (
        served!("", "'write s k a', 'barrier', 'read s k as x'", ""),
        "none 0\n",
    ),
    // a read that nothing waited for
    (
        served!(
            "'take w 1', 'go w.1', 'ship s eu 1', 'go w.1', 'go w.1'",
            "'write s k a', 'read s k as x'",
            ""
        ),
        "counterexample 2
choices = [
    \"take w 1\", # w.1 take 1 = got 1 request one 0 \"\" 1;
    \"go w.1\", # s.1 write k \"a\" 1; = k@1
    \"go w.1\", # s.2 read eu k = k@0
]
span w.1/1 misses s.2:s.1
end 3
",
    ),
    // a lineage that is lost, though no read need miss a write for it
    (
        served!(
            "'finish'",
            "'write s k a'",
            "'read s k as x', 'write s j b'"
        ),
        "none 512
choices = [
    \"take w 1\", # w.1 take 1 = got 1 request one 0 \"\" 1;
    \"go w.1\", # s.1 write k \"a\" 1; = k@1
    \"ship s eu 1\", # s.2 ship eu 1 1 = moved
    \"take w 1\", # w.2 take 1 = got 2 request two 0 \"\" 1;
    \"go w.2\", # s.3 read eu k = k@1 \"a\" 1;
    \"go w.2\", # s.4 write j \"b\" 1; = j@2
]
span w.2/1 lossy s.4
end 6
",
    ),
    // nothing that is read is missing, and nothing is shown
    (
        served!(
            "{service = 'w', handler = 'one'}",
            "",
            "'write s k a as x', 'remove x'",
            "'read s k as x'"
        ),
        "none 512\n",
    ),
];

#[test]
fn runs_are_looked_for_in_which_reads_miss_writes(rt: HostRuntime) {
    assert_texts(&rt, rt.alloc(), &COUNTEREXAMPLE, &FOUND);
}
