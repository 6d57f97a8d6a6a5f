use crate::made::{assert_at, assert_of, assert_so};
use anti_ids::{Bytes, List};
use anti_lang::{
    Body, KeyWord, LangCode, LangFault, Line, Lines, Statement, ValueWord, parse, print, read_line,
};
use std::alloc::Global;

// The form of a line; of a read or a poll that of its key, and of a reply that of its value.
#[derive(Clone, Copy)]
enum Form {
    Write,
    Untracked,
    WriteAs,
    Append,
    Remove,
    Transfer,
    Barrier,
    DryRun,
    InputKey,
    KeyOf,
    Key,
    Scan,
    Call,
    Send,
    InputValue,
    ValueOf,
    Value,
    Nack,
    Root,
    Stop,
    Block,
    Repeat,
    RepeatMore,
    IfAbsent,
    End,
    Nothing,
}

fn key_form(key: &KeyWord) -> Form {
    match key {
        KeyWord::Input => Form::InputKey,
        KeyWord::Of(_) => Form::KeyOf,
        KeyWord::Plain(_) => Form::Key,
    }
}

fn value_form(value: &ValueWord) -> Form {
    match value {
        ValueWord::Input => Form::InputValue,
        ValueWord::Of(_) => Form::ValueOf,
        ValueWord::Literal(_) => Form::Value,
    }
}

fn statement_form(statement: &Statement) -> Form {
    match statement {
        Statement::Write { variable: None, .. } => Form::Write,
        Statement::Write {
            untracked: true,
            ..
        } => Form::Untracked,
        Statement::Write { .. } => Form::WriteAs,
        Statement::Append(_) => Form::Append,
        Statement::Remove(_) => Form::Remove,
        Statement::Transfer(_) => Form::Transfer,
        Statement::Barrier => Form::Barrier,
        Statement::DryRun => Form::DryRun,
        Statement::Read { key, .. } => key_form(key),
        Statement::Scan { .. } => Form::Scan,
        Statement::Poll { key, .. } => key_form(key),
        Statement::Call { .. } => Form::Call,
        Statement::Send { .. } => Form::Send,
        Statement::Reply(value) => value_form(value),
        Statement::Nack => Form::Nack,
        Statement::Root => Form::Root,
        Statement::Stop => Form::Stop,
        Statement::Repeat { .. } => Form::Block,
        Statement::IfAbsent { .. } => Form::Block,
    }
}

fn line_form(line: &Option<Line>) -> Form {
    match line {
        Some(Line::Does(statement)) => statement_form(statement),
        Some(Line::Repeat(count)) => {
            if *count < 10 {
                Form::Repeat
            } else {
                Form::RepeatMore
            }
        }
        Some(Line::IfAbsent(_)) => Form::IfAbsent,
        Some(Line::End) => Form::End,
        None => Form::Nothing,
    }
}

// Whether a text states a line of this form.
fn has_form(alloc: Global, text: &[u8], form: Form) -> bool {
    match read_line(alloc, text) {
        Ok(line) => line_form(&line) as u8 == form as u8,
        Err(_) => false,
    }
}

// A reply of 256 bytes, and one of 257.
const LONG: &[u8] = b"reply \
          vvvvvvvvvvvvvvvvvvvvvvvvvvvvvvvvvvvvvvvvvvvvvvvvvvvvvvvvvvvvvvvv\
          vvvvvvvvvvvvvvvvvvvvvvvvvvvvvvvvvvvvvvvvvvvvvvvvvvvvvvvvvvvvvvvv\
          vvvvvvvvvvvvvvvvvvvvvvvvvvvvvvvvvvvvvvvvvvvvvvvvvvvvvvvvvvvvvvvv\
          vvvvvvvvvvvvvvvvvvvvvvvvvvvvvvvvvvvvvvvvvvvvvvvvvvvvvvvvvvvvvvvv";

const TOO_LONG: &[u8] = b"reply \
          vvvvvvvvvvvvvvvvvvvvvvvvvvvvvvvvvvvvvvvvvvvvvvvvvvvvvvvvvvvvvvvv\
          vvvvvvvvvvvvvvvvvvvvvvvvvvvvvvvvvvvvvvvvvvvvvvvvvvvvvvvvvvvvvvvv\
          vvvvvvvvvvvvvvvvvvvvvvvvvvvvvvvvvvvvvvvvvvvvvvvvvvvvvvvvvvvvvvvv\
          vvvvvvvvvvvvvvvvvvvvvvvvvvvvvvvvvvvvvvvvvvvvvvvvvvvvvvvvvvvvvvvvv";

// Lines, and their forms.
static LINES: [(&[u8], Form); 28] = [
    (b"write s k v", Form::Write),
    (b"  write  s $x $in ", Form::Write),
    (b"write s k v as x", Form::WriteAs),
    (b"write s k v as x untracked", Form::Untracked),
    (b"append x", Form::Append),
    (b"remove x", Form::Remove),
    (b"transfer x", Form::Transfer),
    (b"barrier", Form::Barrier),
    (b"  dryrun ", Form::DryRun),
    (b"read s k as x", Form::Key),
    (b"read s $in as x", Form::InputKey),
    (b"scan s p as x", Form::Scan),
    (b"poll s n#1 as x", Form::Key),
    (b"poll s $y as x", Form::KeyOf),
    (b"call sv h v as x", Form::Call),
    (b"send sv h $in", Form::Send),
    (b"reply $in", Form::InputValue),
    (b"reply $x", Form::ValueOf),
    (b"reply \xc3\xa9", Form::Value),
    (b"nack", Form::Nack),
    (b"root", Form::Root),
    (b"stop", Form::Stop),
    (b"repeat 1", Form::Repeat),
    (b"repeat 16", Form::RepeatMore),
    (b"if x absent", Form::IfAbsent),
    (b"end", Form::End),
    (LONG, Form::Value),
    (b"append xxxxxxxxxxxxxxxxxxxxxxxx", Form::Append),
];

// Texts that are no line, by the word that they begin with.
static NO_LINES: [&[&[u8]]; 19] = [
    &[b"", b"  "],
    &[b"Barrier", b"barrier x", b"barrier\t"],
    &[
        b"write s k",
        b"write s k v as",
        b"write s k v on x",
        b"write s k v as in",
        b"write s k v as x tracked",
        b"write s k v as x untracked x",
        b"write s# k v",
        b"write s n#1 v",
    ],
    &[
        b"append in",
        b"append x y",
        b"append xxxxxxxxxxxxxxxxxxxxxxxxx",
    ],
    &[b"remove $x"],
    &[b"transfer"],
    &[b"dry run"],
    &[b"read s k x", b"read s k is x", b"read s k as in"],
    &[b"scan s $x as y"],
    &[b"poll s n.1 as x"],
    &[b"call sv h v", b"call sv h v is x"],
    &[b"send sv h", b"send sv h v as x"],
    &[
        b"reply",
        b"reply v w",
        b"reply $",
        b"reply $x#",
        b"reply a\tb",
        b"reply a\x1fb",
        b"reply a\x7fb",
        b"reply \xff",
        TOO_LONG,
    ],
    &[b"nack x"],
    &[b"root x"],
    &[b"stop x"],
    &[
        b"repeat",
        b"repeat 0",
        b"repeat 17",
        b"repeat 01",
        b"repeat 161",
    ],
    &[b"if x", b"if in absent", b"if x present"],
    &[b"end x"],
];

#[test]
fn lines_are_read(rt: HostRuntime) {
    for (text, form) in &LINES {
        assert_of(&rt, text, has_form(rt.alloc(), text, *form));
    }
    for texts in &NO_LINES {
        for text in *texts {
            assert_of(&rt, text, has_form(rt.alloc(), text, Form::Nothing));
        }
    }
}

// The lines of a text, one of which may be empty.
type Text = &'static [&'static [u8]];

// A list of lines. `None` where memory runs out.
fn lines_of(alloc: Global, text: &[&[u8]]) -> Option<Lines> {
    let mut lines = List::new(alloc);
    for line in text {
        let mut bytes = Bytes::new(alloc);
        let Ok(()) = bytes.append(line) else {
            return None;
        };
        let Ok(()) = lines.push(bytes) else {
            return None;
        };
    }
    Some(lines)
}

// The body that a text states, or its fault.
fn body_of(alloc: Global, text: &[&[u8]]) -> Result<Body, LangFault> {
    let Some(lines) = lines_of(alloc, text) else {
        return Err(LangFault::NoMemory);
    };
    if lines.len() > 64 {
        return Err(LangFault::NoMemory);
    }
    parse(alloc, &lines)
}

// Whether a list has these lines.
fn are_lines(lines: &[Bytes], wanted: &[&[u8]]) -> bool {
    if lines.len() != wanted.len() {
        return false;
    }
    for place in 0..lines.len() {
        if lines[place].bytes() != wanted[place] {
            return false;
        }
    }
    true
}

// Whether the body that a text states is printed as these lines.
fn is_printed(alloc: Global, text: &[&[u8]], wanted: &[&[u8]]) -> bool {
    let Ok(body) = body_of(alloc, text) else {
        return false;
    };
    match print(alloc, &body) {
        Ok(lines) => are_lines(lines.as_slice(), wanted),
        Err(_) => false,
    }
}

// Whether this line of a text, counted from 1, is the first that is wrong so.
fn is_wrong(alloc: Global, text: &[&[u8]], line: u32, code: LangCode) -> bool {
    match body_of(alloc, text) {
        Ok(_) => false,
        Err(fault) => fault == LangFault::Line { line, code },
    }
}

// Bodies that are printed as they stand.
static GOOD: [Text; 17] = [
    &[],
    &[
        b"write s k v",
        b"write s $in $in as x",
        b"write s k v as y untracked",
        b"append x",
        b"remove y",
    ],
    &[
        b"read s k as x",
        b"if x absent",
        b"write s $x $x",
        b"end",
        b"transfer x",
    ],
    &[
        b"scan s p as x",
        b"poll s k#1 as y",
        b"call a b $x as z",
        b"send a b $z",
        b"reply $y",
    ],
    &[b"barrier", b"dryrun", b"nack"],
    &[
        b"repeat 16",
        b"repeat 16",
        b"repeat 1",
        b"end",
        b"end",
        b"repeat 16",
        b"end",
        b"end",
    ],
    &[
        b"read s k as x",
        b"if x absent",
        b"if x absent",
        b"if x absent",
        b"if x absent",
        b"end",
        b"end",
        b"end",
        b"end",
    ],
    &[b"stop"],
    &[b"stop", b"root", b"barrier", b"root"],
    &[
        b"repeat 2",
        b"read s k as x",
        b"repeat 3",
        b"transfer x",
        b"end",
        b"end",
    ],
    &[
        b"root",
        b"write s k v as x",
        b"repeat 2",
        b"append x",
        b"end",
        b"stop",
        b"root",
    ],
    &[
        b"call pics put $in as m",
        b"call names who ann as u",
        b"write posts p1 $in",
        b"write jobs j p1",
    ],
    &[b"write media m1 $in", b"reply m1"],
    &[
        b"barrier",
        b"scan users user as x",
        b"transfer x",
        b"reply $x",
    ],
    &[
        b"barrier",
        b"read posts $in as p",
        b"transfer p",
        b"write feed f $in",
    ],
    &[
        b"barrier",
        b"read posts $in as p",
        b"transfer p",
        b"barrier",
        b"read media m1 as q",
    ],
    &[b"write users user-ann Ann"],
];

// Lines with more spaces than they need, and as they are printed.
static SPACED: [Text; 2] = [
    &[b"  barrier ", b"write  s   k v"],
    &[b"barrier", b"write s k v"],
];

// Lines that state no body: the first that is wrong, and how.
static FAULTS: [(Text, u32, LangCode); 19] = [
    (&[b"barrier", b"", b"end"], 2, LangCode::Unknown),
    (&[b"repeat 2", b"root", b"repeat 17"], 3, LangCode::Unknown),
    (&[b"barrier", b"repeat 2", b"barrier"], 2, LangCode::Block),
    (&[b"repeat 2", b"repeat 2", b"end"], 1, LangCode::Block),
    (&[b"repeat 2", b"end", b"end", b"end"], 3, LangCode::Block),
    (
        &[
            b"repeat 1",
            b"repeat 1",
            b"repeat 1",
            b"repeat 1",
            b"repeat 1",
            b"end",
            b"end",
            b"end",
            b"end",
            b"end",
        ],
        5,
        LangCode::Block,
    ),
    (
        &[
            b"repeat 16",
            b"repeat 16",
            b"repeat 2",
            b"end",
            b"end",
            b"end",
        ],
        3,
        LangCode::Block,
    ),
    (
        &[b"transfer x", b"repeat 2", b"root", b"end"],
        3,
        LangCode::Block,
    ),
    (&[b"repeat 2", b"stop", b"end"], 2, LangCode::Block),
    (&[b"stop", b"barrier"], 1, LangCode::Block),
    (&[b"stop", b"stop"], 1, LangCode::Block),
    (
        &[b"read s k as x", b"read s k as y", b"write s k v as x"],
        3,
        LangCode::Variable,
    ),
    (&[b"read s k as x", b"append x"], 2, LangCode::Variable),
    (&[b"write s k v as x", b"transfer x"], 2, LangCode::Variable),
    (
        &[b"call a b v as x", b"if x absent", b"end"],
        2,
        LangCode::Variable,
    ),
    (&[b"read s $x as x"], 1, LangCode::Variable),
    (
        &[b"repeat 2", b"read s k as x", b"end", b"reply $x"],
        4,
        LangCode::Variable,
    ),
    (
        &[b"read s k as x", b"root", b"transfer x"],
        3,
        LangCode::Variable,
    ),
    (
        &[b"write s k v as x", b"stop", b"root", b"read s k as x"],
        4,
        LangCode::Variable,
    ),
];

#[test]
fn bodies_are_parsed(rt: HostRuntime) {
    let alloc = rt.alloc();
    for (place, text) in GOOD.iter().enumerate() {
        assert_at(&rt, place, is_printed(alloc, text, text));
    }
    assert_so(&rt, is_printed(alloc, SPACED[0], SPACED[1]));
    for (place, (text, line, code)) in FAULTS.iter().enumerate() {
        assert_at(&rt, place, is_wrong(alloc, text, *line, *code));
    }
}
