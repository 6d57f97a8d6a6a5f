// Stores of each kind that is built, through the top call.
use crate::call_rows::{PLAYED, assert_texts};

// Documents with tables, blobs and caches, and the record of each.
static RECORDS: [(&str, &str); 6] = [
    // a scan behind a barrier shows what was shipped
    (
        "regions = ['eu']
choices = ['finish']
store = [{name = 's', kind = 'table', replicas = ['eu']}]
request = [{service = 'w', handler = 'one'}, {service = 'w', handler = 'two'}]
service = [{name = 'w', region = 'eu', handler = [{name = 'one', body = ['write s k a', 'barrier', 'scan s k as x']}, {name = 'two', body = []}]}]",
        "record 1
1 w.1 w.1/1 take 1 = got 1 request one 0 \"\" 1;
2 s.1 w.1/1 write k \"a\" 1; = k@1
2 w.2 w.2/1 take 1 = got 2 request two 0 \"\" 1;
3 s.2 ~0 ship eu 1 1 = moved
4 s.3 w.1/1 look eu 1;s/k@1 = clear
5 s.4 w.1/1 scan eu k = k@1 \"a\" 1;
process w.1 w one fine
process w.2 w two fine
span w.1/1 order s.1 s.4
end 6
",
    ),
    // a table takes no version before the one below it, and a scan shows its rows by their keys
    (
        "regions = ['eu']
choices = ['take w 1', 'go w.1', 'go w.1', 'ship s eu 2', 'ship s eu 1', 'ship s eu 2', 'go w.1', 'go w.1']
store = [{name = 's', kind = 'table', replicas = ['eu']}]
request = [{service = 'w', handler = 'one'}]
service = [{name = 'w', region = 'eu', handler = [{name = 'one', body = ['write s kb 1', 'write s ka 2', 'scan s k as x', 'scan s q as y']}]}]",
        "record 1
1 w.1 w.1/1 take 1 = got 1 request one 0 \"\" 1;
2 s.1 w.1/1 write kb \"1\" 1; = kb@1
3 s.2 w.1/1 write ka \"2\" 1;s/kb@1 = ka@2
4 s.3 ~0 ship eu 1 1 = moved
5 s.4 ~0 ship eu 2 1 = moved
6 s.5 w.1/1 scan eu k = ka@2 \"2\" 1;s/kb@1 + kb@1 \"1\" 1;
7 s.6 w.1/1 scan eu q = none
wait 4 ship s eu 2
process w.1 w one fine
span w.1/1 unguarded s.5
end 7
",
    ),
    // a value of 65 bytes has two parts, which come out of order, and is shown once both are there
    (
        "regions = ['eu']
choices = ['take w 1', 'go w.1', 'ship s eu 1 2', 'go w.1', 'ship s eu 1 2', 'ship s eu 1 3', 'ship s eu 1', 'again s eu 1 2', 'go w.1']
store = [{name = 's', kind = 'blob', replicas = ['eu']}]
request = [{service = 'w', handler = 'one', value = '12345678901234567890123456789012345678901234567890123456789012345'}]
service = [{name = 'w', region = 'eu', handler = [{name = 'one', body = ['write s k $in', 'read s k as x', 'read s k as y']}]}]",
        "record 1
1 w.1 w.1/1 take 1 = got 1 request one 0 \"12345678901234567890123456789012345678901234567890123456789012345\" 1;
2 s.1 w.1/1 write k \"12345678901234567890123456789012345678901234567890123456789012345\" 1; = k@1
3 s.2 ~0 ship eu 1 2 = moved
4 s.3 w.1/1 read eu k = k@0
5 s.4 ~0 ship eu 1 1 = moved
6 s.5 ~0 again eu 1 2 = moved
7 s.6 w.1/1 read eu k = k@1 \"12345678901234567890123456789012345678901234567890123456789012345\" 1;
wait 5 ship s eu 1 2
wait 6 ship s eu 1 3
process w.1 w one fine
span w.1/1 unguarded s.3
end 7
",
    ),
    // what is left is shipped part by part
    (
        "regions = ['eu']
choices = ['finish']
store = [{name = 's', kind = 'blob', replicas = ['eu']}]
request = [{service = 'w', handler = 'one', value = '12345678901234567890123456789012345678901234567890123456789012345'}]
service = [{name = 'w', region = 'eu', handler = [{name = 'one', body = ['write s k $in', 'barrier']}]}]",
        "record 1
1 w.1 w.1/1 take 1 = got 1 request one 0 \"12345678901234567890123456789012345678901234567890123456789012345\" 1;
2 s.1 w.1/1 write k \"12345678901234567890123456789012345678901234567890123456789012345\" 1; = k@1
3 s.2 ~0 ship eu 1 1 = moved
4 s.3 ~0 ship eu 1 2 = moved
5 s.4 w.1/1 look eu 1;s/k@1 = clear
process w.1 w one fine
end 5
",
    ),
    // a barrier waits until the cache has what was written, and the end of the schedule refreshes it
    (
        "regions = ['eu']
choices = ['finish']
store = [{name = 's', kind = 'cached', replicas = ['eu']}]
request = [{service = 'w', handler = 'one'}, {service = 'w', handler = 'two'}]
service = [{name = 'w', region = 'eu', handler = [{name = 'one', body = ['write s k a', 'barrier', 'read s k as x', 'transfer x', 'write s k b', 'barrier', 'read s k as z']}, {name = 'two', body = []}]}]",
        "record 1
1 w.1 w.1/1 take 1 = got 1 request one 0 \"\" 1;
2 s.1 w.1/1 write k \"a\" 1; = k@1
2 w.2 w.2/1 take 1 = got 2 request two 0 \"\" 1;
3 s.2 ~0 ship eu 1 1 = moved
4 s.3 w.1/1 look eu 1;s/k@1 = clear
5 s.4 w.1/1 read eu k = k@1 \"a\" 1;
6 s.5 w.1/1 write k \"b\" 1;s/k@1 = k@2
7 s.6 ~0 ship eu 2 1 = moved
8 s.7 ~0 again eu 2 1 = moved
9 s.8 w.1/1 look eu 1;s/k@1,s/k@2 = clear
10 s.9 w.1/1 read eu k = k@2 \"b\" 1;s/k@1
process w.1 w one fine
process w.2 w two fine
span w.1/1 order s.1 s.4 s.5 s.9
end 11
",
    ),
    // with room for one key the second put the first out, so that what is whole of it is shown; the key that is there is behind
    (
        "regions = ['eu']
choices = ['take w 1', 'go w.1', 'ship s eu 1', 'go w.1', 'go w.1', 'ship s eu 2', 'go w.1', 'go w.1', 'ship s eu 3', 'go w.1', 'go w.1', 'ship s eu 4', 'go w.1', 'go w.1']
store = [{name = 's', kind = 'cached', replicas = ['eu'], room = 1}]
request = [{service = 'w', handler = 'one'}]
service = [{name = 'w', region = 'eu', handler = [{name = 'one', body = ['write s a 1', 'read s a as r', 'write s b 2', 'read s b as s', 'write s a 3', 'read s a as t', 'write s a 4', 'read s a as u', 'read s b as v']}]}]",
        "record 1
1 w.1 w.1/1 take 1 = got 1 request one 0 \"\" 1;
2 s.1 w.1/1 write a \"1\" 1; = a@1
3 s.2 ~0 ship eu 1 1 = moved
4 s.3 w.1/1 read eu a = a@1 \"1\" 1;
5 s.4 w.1/1 write b \"2\" 1;s/a@1 = b@2
6 s.5 ~0 ship eu 2 1 = moved
7 s.6 w.1/1 read eu b = b@2 \"2\" 1;s/a@1
8 s.7 w.1/1 write a \"3\" 1;s/a@1,s/b@2 = a@3
9 s.8 ~0 ship eu 3 1 = moved
10 s.9 w.1/1 read eu a = a@3 \"3\" 1;s/a@1,s/b@2
11 s.10 w.1/1 write a \"4\" 1;s/a@1,s/b@2,s/a@3 = a@4
12 s.11 ~0 ship eu 4 1 = moved
13 s.12 w.1/1 read eu a = a@3 \"3\" 1;s/a@1,s/b@2
14 s.13 w.1/1 read eu b = b@2 \"2\" 1;s/a@1
process w.1 w one fine
span w.1/1 unguarded s.3
end 14
",
    ),
];

#[test]
fn tables_blobs_and_caches_are_played(rt: HostRuntime) {
    assert_texts(&rt, rt.alloc(), &PLAYED, &RECORDS);
}
