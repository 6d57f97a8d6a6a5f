// Bodies and choices that are refused through the top call, each with its line, and a value of the greatest length.

use crate::call_rows::{PLAYED, REFUSED, assert_refused, assert_texts, served};

// A document with a wrong choice and a body.
const IN_BODY: &str = served!("'no choice'", "@", "");

// Bodies, wrong but for the last two, and the line that each document is refused with.
const BODIES: &str = "'reed s k as x' => app 20 handler 1 1
'barrier', 'reed s k as x' => app 20 handler 1 2
'' => app 20 handler 1 1
'barrier now' => app 20 handler 1 1
'dry run' => app 20 handler 1 1
'repeat 17', 'end' => app 20 handler 1 1
'repeat 2', 'barrier' => app 21 handler 1 1
'barrier', 'end' => app 21 handler 1 2
'stop', 'barrier' => app 21 handler 1 1
'repeat 16', 'repeat 16', 'repeat 2', 'end', 'end', 'end' => app 21 handler 1 3
'read s k as x', 'read s k as x' => app 22 handler 1 2
'write s k $x' => app 22 handler 1 1
'write s k a as x', 'root', 'append x' => app 22 handler 1 3
'write t k a' => app 23 handler 1 1
'barrier', 'scan s k as x' => app 23 handler 1 2
'poll s k as x' => app 23 handler 1 1
'call w three v as x' => app 24 handler 1 1
'send v one v' => app 24 handler 1 1
'send w two v' => choice 1
'call w two v as x' => choice 1
";

// A document with a second choice.
const SECOND: &str = served!("'finish', @", "", "");

// Choices without a form, and the line that each document is refused with.
const CHOICES: &str = "'go s' => choice 2
'go w' => choice 2
'go w.01' => choice 2
'go w.1.1' => choice 2
'go .1' => choice 2
'take w 0' => choice 2
'take w 4097' => choice 2
'take w 01' => choice 2
'take w +1' => choice 2
'take s 1' => choice 2
'take w' => choice 2
'repost w 0' => choice 2
'repost s 1' => choice 2
'repost w' => choice 2
'pull w' => choice 2
'repull w 1' => choice 2
'ship s us 1' => choice 2
'ship w eu 1' => choice 2
'ship s eu' => choice 2
'ship s eu 1 1 1' => choice 2
'ship s eu 1 0' => choice 2
'again s eu' => choice 2
'again w eu 1' => choice 2
'finish now' => choice 2
'stop' => choice 2
'' => choice 2
";

// A document with a request whose value has 256 bytes, and these behind them.
macro_rules! valued {
    ($more:literal) => {
        concat!(
            "regions = ['eu']
request = [{service = 'w', handler = 'one', value = '",
            "vvvvvvvvvvvvvvvvvvvvvvvvvvvvvvvvvvvvvvvvvvvvvvvvvvvvvvvvvvvvvvvv",
            "vvvvvvvvvvvvvvvvvvvvvvvvvvvvvvvvvvvvvvvvvvvvvvvvvvvvvvvvvvvvvvvv",
            "vvvvvvvvvvvvvvvvvvvvvvvvvvvvvvvvvvvvvvvvvvvvvvvvvvvvvvvvvvvvvvvv",
            "vvvvvvvvvvvvvvvvvvvvvvvvvvvvvvvvvvvvvvvvvvvvvvvvvvvvvvvvvvvvvvvv",
            $more,
            "'}]
service = [{name = 'w', region = 'eu', handler = [{name = 'one', body = []}]}]"
        )
    };
}

#[test]
fn each_fault_of_a_body_is_told(rt: HostRuntime) {
    assert_refused(&rt, rt.alloc(), IN_BODY, BODIES);
}

#[test]
fn choices_without_a_form_are_told(rt: HostRuntime) {
    assert_refused(&rt, rt.alloc(), SECOND, CHOICES);
}

// The longest value and one that is too long, and what their documents come to.
static LONGEST: [(&str, &str); 1] = [(valued!(""), "record 1\nend 0\n")];

static TOO_LONG: [(&str, &str); 1] = [(valued!("v"), "app 19 request 1 0\n")];

#[test]
fn a_value_of_257_bytes_is_refused(rt: HostRuntime) {
    assert_texts(&rt, rt.alloc(), &PLAYED, &LONGEST);
    assert_texts(&rt, rt.alloc(), &REFUSED, &TOO_LONG);
}
