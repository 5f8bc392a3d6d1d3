//! What is refused of a line, by its first fault in the order of the keys' bytes.
use fb_reading::{Key, LineError, read_line};
use std::alloc::Global;

/// A refusal, and texts of which each is refused so, one a line.
type Refused = (LineError, &'static str);

/// What is no JSON, more than 127 levels too, or names no sort of line. Of a doubled key the last one counts.
const NO_OBJECTS: &[Refused] = &[
    (
        LineError::NotJson,
        r#"{
nul
{"kind":"end"} {}
{'kind':1}
{"kind":"\ud800"}
{"kind":01}
end
{"kind":"end",}
{"kind":"end"}.
{"kind":"end" "run":1}
{"kind":"\x65nd"}
{"kind":"end","run":+1}
{"kind":"end","run":1.}
{"kind":"end","run":-}
[[[[[[[[[[[[[[[[[[[[[[[[[[[[[[[[[[[[[[[[[[[[[[[[[[[[[[[[[[[[[[[[[[[[[[[[[[[[[[[[[[[[[[[[[[[[[[[[[[[[[[[[[[[[[[[[[[[[[[[[[[[[[[[[]]]]]]]]]]]]]]]]]]]]]]]]]]]]]]]]]]]]]]]]]]]]]]]]]]]]]]]]]]]]]]]]]]]]]]]]]]]]]]]]]]]]]]]]]]]]]]]]]]]]]]]]]]]]]]]]]]]]]]]]]]]]]]]]"#,
    ),
    (
        LineError::BadShape { key: Key::Kind },
        r#"[]
7
{}
{"fuel":1}
{"kind":null}
{"kind":"heading"}
{"kind":["end"]}
{"kind":"end","kind":"ends"}
[{"kind":"end"}]
{"Kind":"end"}
{"kind":"End"}
{"kind":"end","kind":1}
[[[[[[[[[[[[[[[[[[[[[[[[[[[[[[[[[[[[[[[[[[[[[[[[[[[[[[[[[[[[[[[[[[[[[[[[[[[[[[[[[[[[[[[[[[[[[[[[[[[[[[[[[[[[[[[[[[[[[[[[[[[[[[[]]]]]]]]]]]]]]]]]]]]]]]]]]]]]]]]]]]]]]]]]]]]]]]]]]]]]]]]]]]]]]]]]]]]]]]]]]]]]]]]]]]]]]]]]]]]]]]]]]]]]]]]]]]]]]]]]]]]]]]]]]]]]]]"#,
    ),
];

/// Headers.
const HEADERS: &[Refused] = &[
    (
        LineError::BadNumber { key: Key::Fuel },
        r#"{"fuel":0,"kind":"header","reduction":true,"version":1}
{"fuel":1000001,"kind":"header","reduction":true,"version":1}
{"fuel":-1,"kind":"header","reduction":true,"version":1}
{"fuel":1.0,"kind":"header","reduction":true,"version":1}
{"fuel":1e0,"kind":"header","reduction":true,"version":1}
{"fuel":-0,"kind":"header","reduction":true,"version":1}
{"fuel":18446744073709551616,"kind":"header","reduction":true,"version":1}
{"fuel":0,"kind":"header","reduction":true,"version":1,"id":1}
{"fuel":1E2,"kind":"header","reduction":true,"version":1}
{"fuel":1,"fuel":0,"kind":"header","reduction":true,"version":1}"#,
    ),
    (
        LineError::BadShape { key: Key::Fuel },
        r#"{"fuel":"9","kind":"header","reduction":true,"version":1}
{"fuel":null,"kind":"header","reduction":true,"version":1}
{"kind":"header","reduction":true,"version":1}
{"kind":"header"}"#,
    ),
    (
        LineError::BadShape {
            key: Key::Reduction,
        },
        r#"{"fuel":9,"kind":"header","reduction":1,"version":1}
{"fuel":9,"kind":"header","reduction":null,"version":1}
{"fuel":9,"kind":"header","version":1}"#,
    ),
    (
        LineError::BadNumber { key: Key::Version },
        r#"{"fuel":9,"kind":"header","reduction":true,"version":0}
{"fuel":9,"kind":"header","reduction":true,"version":3}
{"fuel":1,"kind":"header","reduction":true,"version":1.0}"#,
    ),
    (
        LineError::BadShape { key: Key::Version },
        r#"{"fuel":9,"kind":"header","reduction":true,"version":"1"}
{"fuel":9,"kind":"header","reduction":true}"#,
    ),
    (
        LineError::BadShape { key: Key::Other },
        r#"{"a":1,"fuel":9,"kind":"header","reduction":true,"version":1}
{"fuel":9,"kind":"header","reduction":true,"version":1,"zoo":1}
{"args":1,"fuel":0,"kind":"header","reduction":true,"version":1}
{"fuel":9,"kind":"header","reduction":true,"version":3,"id":1}
{"fault":null,"fuel":0,"kind":"header","reduction":true,"version":1}
{"fuel":1,"index":null,"kind":"header","reduction":true,"version":2}"#,
    ),
];

/// Lines of records. Inside a list or an object a wrong number is a fault of the shape.
const RECORDS: &[Refused] = &[
    (
        LineError::NotJson,
        r#"{"args":[],"calls":[],"id":1,"kind":"inv","method":"a.b","plan":0,"reply":{"ok":1},"steps":1e400}"#,
    ),
    (
        LineError::BadShape { key: Key::Args },
        r#"{"args":{},"calls":[],"id":1,"kind":"inv","method":"a.b","plan":0,"reply":{"ok":1},"steps":1}
{"args":[null],"calls":[],"id":1,"kind":"inv","method":"a.b","plan":0,"reply":{"ok":1},"steps":1}
{"args":[1.5],"calls":[],"id":1,"kind":"inv","method":"a.b","plan":0,"reply":{"ok":1},"steps":1}
{"args":[9223372036854775808],"calls":[],"id":1,"kind":"inv","method":"a.b","plan":0,"reply":{"ok":1},"steps":1}
{"args":[-9223372036854775809],"calls":[],"id":1,"kind":"inv","method":"a.b","plan":0,"reply":{"ok":1},"steps":1}
{"args":[[1,true]],"calls":[],"id":1,"kind":"inv","method":"a.b","plan":0,"reply":{"ok":1},"steps":1}
{"args":[["a",1]],"calls":[],"id":1,"kind":"inv","method":"a.b","plan":0,"reply":{"ok":1},"steps":1}
{"args":[[true,"a"]],"calls":[],"id":1,"kind":"inv","method":"a.b","plan":0,"reply":{"ok":1},"steps":1}
{"args":[[[1]]],"calls":[],"id":1,"kind":"inv","method":"a.b","plan":0,"reply":{"ok":1},"steps":1}
{"args":[{"ok":1}],"calls":[],"id":1,"kind":"inv","method":"a.b","plan":0,"reply":{"ok":1},"steps":1}
{"calls":[],"id":1,"kind":"inv","method":"a.b","plan":0,"reply":{"ok":1},"steps":1}
{"args":[-0],"calls":[],"id":1,"kind":"inv","method":"a.b","plan":0,"reply":{"ok":1},"steps":1}
{"args":[[1e0]],"calls":[],"id":1,"kind":"inv","method":"a.b","plan":0,"reply":{"ok":1},"steps":1}"#,
    ),
    (
        LineError::BadShape { key: Key::Calls },
        r#"{"args":[],"calls":null,"id":1,"kind":"inv","method":"a.b","plan":0,"reply":{"ok":1},"steps":1}
{"args":[],"calls":[1],"id":1,"kind":"inv","method":"a.b","plan":0,"reply":{"ok":1},"steps":1}
{"args":[],"calls":[{"args":[null],"callee":"a.b","count":1,"reply":{"ok":1},"site":1}],"id":1,"kind":"inv","method":"a.b","plan":0,"reply":{"ok":1},"steps":1}
{"args":[],"calls":[{"args":[],"callee":"a","count":1,"reply":{"ok":1},"site":1}],"id":1,"kind":"inv","method":"a.b","plan":0,"reply":{"ok":1},"steps":1}
{"args":[],"calls":[{"args":[],"callee":"a.b","count":0,"reply":{"ok":1},"site":1}],"id":1,"kind":"inv","method":"a.b","plan":0,"reply":{"ok":1},"steps":1}
{"args":[],"calls":[{"args":[],"callee":"a.b","count":4294967296,"reply":{"ok":1},"site":1}],"id":1,"kind":"inv","method":"a.b","plan":0,"reply":{"ok":1},"steps":1}
{"args":[],"calls":[{"args":[],"callee":"a.b","count":1,"reply":{"err":"No"},"site":1}],"id":1,"kind":"inv","method":"a.b","plan":0,"reply":{"ok":1},"steps":1}
{"args":[],"calls":[{"args":[],"callee":"a.b","count":1,"reply":{"ok":1},"site":-1}],"id":1,"kind":"inv","method":"a.b","plan":0,"reply":{"ok":1},"steps":1}
{"args":[],"calls":[{"args":[],"callee":"a.b","count":1,"reply":{"ok":1},"site":1.0}],"id":1,"kind":"inv","method":"a.b","plan":0,"reply":{"ok":1},"steps":1}
{"args":[],"calls":[{"args":[],"callee":"a.b","count":1,"reply":{"ok":1},"site":1,"kind":1}],"id":1,"kind":"inv","method":"a.b","plan":0,"reply":{"ok":1},"steps":1}
{"args":[],"calls":[{"args":[],"callee":"a.b","count":1,"reply":{"ok":1}}],"id":1,"kind":"inv","method":"a.b","plan":0,"reply":{"ok":1},"steps":1}
{"args":[],"id":1,"kind":"inv","method":"a.b","plan":0,"reply":{"ok":1},"steps":1}"#,
    ),
    (
        LineError::BadNumber { key: Key::Id },
        r#"{"args":[],"calls":[],"id":-1,"kind":"inv","method":"a.b","plan":0,"reply":{"ok":1},"steps":1}
{"args":[],"calls":[],"id":18446744073709551616,"kind":"inv","method":"a.b","plan":0,"reply":{"ok":1},"steps":1}
{"args":[],"calls":[],"id":-0,"kind":"inv","method":"a.b","plan":0,"reply":{"ok":1},"steps":1}"#,
    ),
    (
        LineError::BadShape { key: Key::Id },
        r#"{"args":[],"calls":[],"id":"1","kind":"inv","method":"a.b","plan":0,"reply":{"ok":1},"steps":1}
{"args":[],"calls":[],"kind":"inv","method":"a.b","plan":0,"reply":{"ok":1},"steps":1}"#,
    ),
    (
        LineError::BadShape { key: Key::Method },
        r#"{"args":[],"calls":[],"id":1,"kind":"inv","method":"a","plan":0,"reply":{"ok":1},"steps":1}
{"args":[],"calls":[],"id":1,"kind":"inv","method":"a.b.c","plan":0,"reply":{"ok":1},"steps":1}
{"args":[],"calls":[],"id":1,"kind":"inv","method":".b","plan":0,"reply":{"ok":1},"steps":1}
{"args":[],"calls":[],"id":1,"kind":"inv","method":"A.b","plan":0,"reply":{"ok":1},"steps":1}
{"args":[],"calls":[],"id":1,"kind":"inv","method":1,"plan":0,"reply":{"ok":1},"steps":1}
{"args":[],"calls":[],"id":1,"kind":"inv","plan":0,"reply":{"ok":1},"steps":1}"#,
    ),
    (
        LineError::BadNumber { key: Key::Plan },
        r#"{"args":[],"calls":[],"id":1,"kind":"inv","method":"a.b","plan":0.5,"reply":{"ok":1},"steps":1}"#,
    ),
    (
        LineError::BadShape { key: Key::Plan },
        r#"{"args":[],"calls":[],"id":1,"kind":"inv","method":"a.b","plan":null,"reply":{"ok":1},"steps":1}
{"args":[],"calls":[],"id":1,"kind":"inv","method":"a.b","reply":{"ok":1},"steps":1}"#,
    ),
    (
        LineError::BadShape { key: Key::Reply },
        r#"{"args":[],"calls":[],"id":1,"kind":"inv","method":"a.b","plan":0,"reply":{},"steps":1}
{"args":[],"calls":[],"id":1,"kind":"inv","method":"a.b","plan":0,"reply":{"ok":1,"err":"a"},"steps":1}
{"args":[],"calls":[],"id":1,"kind":"inv","method":"a.b","plan":0,"reply":{"ok":null},"steps":1}
{"args":[],"calls":[],"id":1,"kind":"inv","method":"a.b","plan":0,"reply":{"err":"1a"},"steps":1}
{"args":[],"calls":[],"id":1,"kind":"inv","method":"a.b","plan":0,"reply":{"err":1},"steps":1}
{"args":[],"calls":[],"id":1,"kind":"inv","method":"a.b","plan":0,"reply":{"no":1},"steps":1}
{"args":[],"calls":[],"id":1,"kind":"inv","method":"a.b","plan":0,"reply":1,"steps":1}
{"args":[],"calls":[],"id":1,"kind":"inv","method":"a.b","plan":0,"steps":1}
{"args":[],"calls":[],"id":1,"kind":"inv","method":"a.b","plan":0,"reply":{"ok":1.0},"steps":1}"#,
    ),
    (
        LineError::BadNumber { key: Key::Steps },
        r#"{"args":[],"calls":[],"id":1,"kind":"inv","method":"a.b","plan":0,"reply":{"ok":1},"steps":-1}
{"args":[],"calls":[],"id":1,"kind":"inv","method":"a.b","plan":0,"reply":{"ok":1},"steps":99999999999999999999999}"#,
    ),
    (
        LineError::BadShape { key: Key::Steps },
        r#"{"args":[],"calls":[],"id":1,"kind":"inv","method":"a.b","plan":0,"reply":{"ok":1},"steps":[]}
{"args":[],"calls":[],"id":1,"kind":"inv","method":"a.b","plan":0,"reply":{"ok":1}}"#,
    ),
    (
        LineError::BadShape { key: Key::Other },
        r#"{"args":[],"calls":[],"code":null,"id":1,"kind":"inv","method":"a.b","plan":0,"reply":{"ok":1},"steps":1}"#,
    ),
];

/// Plan lines of both versions.
const PLANS: &[Refused] = &[
    (
        LineError::BadShape { key: Key::Code },
        r#"{"code":1,"id":1,"index":"1.1","kind":"plan","outcome":"passed","parent":0,"run":true,"uses":[]}
{"code":"Timeout","id":1,"index":"1.1","kind":"plan","outcome":"passed","parent":0,"run":true,"uses":[]}
{"code":{"ok":1},"id":1,"index":"1.1","kind":"plan","outcome":"passed","parent":0,"run":true,"uses":[]}
{"id":1,"index":"1.1","kind":"plan","outcome":"passed","parent":0,"run":true,"uses":[]}
{"code":{"err":"timeout"},"id":1,"index":"1.1","kind":"plan","outcome":"passed","parent":0,"run":true,"uses":[]}"#,
    ),
    (
        LineError::BadShape { key: Key::Fault },
        r#"{"fault":"timeout","id":1,"index":"1.1","kind":"plan","outcome":"passed","parent":0,"run":true,"uses":[]}
{"fault":{"ok":null},"id":1,"index":"1.1","kind":"plan","outcome":"passed","parent":0,"run":true,"uses":[]}
{"fault":{"ok":9223372036854775808},"id":1,"index":"1.1","kind":"plan","outcome":"passed","parent":0,"run":true,"uses":[]}
{"fault":{"err":{"ok":1}},"id":1,"index":"1.1","kind":"plan","outcome":"passed","parent":0,"run":true,"uses":[]}"#,
    ),
    (
        LineError::BadNumber { key: Key::Id },
        r#"{"code":"timeout","id":1.0,"index":"1.1","kind":"plan","outcome":"passed","parent":0,"run":true,"uses":[]}"#,
    ),
    (
        LineError::BadShape { key: Key::Id },
        r#"{"fault":null,"index":null,"kind":"plan","outcome":"passed","parent":0,"run":true,"uses":[]}"#,
    ),
    (
        LineError::BadShape { key: Key::Index },
        r#"{"code":"timeout","id":1,"index":null,"kind":"plan","outcome":"passed","parent":0,"run":true,"uses":[]}
{"code":null,"id":1,"index":"1.1","kind":"plan","outcome":"passed","parent":0,"run":true,"uses":[]}
{"fault":null,"id":1,"index":"1.1","kind":"plan","outcome":"passed","parent":0,"run":true,"uses":[]}
{"fault":{"ok":1},"id":1,"index":null,"kind":"plan","outcome":"passed","parent":0,"run":true,"uses":[]}
{"code":"timeout","id":1,"index":"","kind":"plan","outcome":"passed","parent":0,"run":true,"uses":[]}
{"code":"timeout","id":1,"index":"1.0","kind":"plan","outcome":"passed","parent":0,"run":true,"uses":[]}
{"code":"timeout","id":1,"index":"1.1/","kind":"plan","outcome":"passed","parent":0,"run":true,"uses":[]}
{"code":"timeout","id":1,"index":7,"kind":"plan","outcome":"passed","parent":0,"run":true,"uses":[]}
{"fault":null,"id":1,"kind":"plan","outcome":"passed","parent":0,"run":true,"uses":[]}
{"fault":{"err":"timeout"},"id":1,"index":null,"kind":"plan","outcome":"passed","parent":0,"run":true,"uses":[]}"#,
    ),
    (
        LineError::BadShape { key: Key::Outcome },
        r#"{"code":"timeout","id":1,"index":"1.1","kind":"plan","outcome":"Passed","parent":0,"run":true,"uses":[]}
{"code":"timeout","id":1,"index":"1.1","kind":"plan","outcome":"passed ","parent":0,"run":true,"uses":[]}
{"code":"timeout","id":1,"index":"1.1","kind":"plan","outcome":"assert_failed 0","parent":0,"run":true,"uses":[]}
{"code":"timeout","id":1,"index":"1.1","kind":"plan","outcome":"assert_failed 01","parent":0,"run":true,"uses":[]}
{"code":"timeout","id":1,"index":"1.1","kind":"plan","outcome":"assert_failed +1","parent":0,"run":true,"uses":[]}
{"code":"timeout","id":1,"index":"1.1","kind":"plan","outcome":"fault 4294967296","parent":0,"run":true,"uses":[]}
{"code":"timeout","id":1,"index":"1.1","kind":"plan","outcome":"fault","parent":0,"run":true,"uses":[]}
{"code":"timeout","id":1,"index":"1.1","kind":"plan","outcome":"call_failed 1","parent":0,"run":true,"uses":[]}
{"code":"timeout","id":1,"index":"1.1","kind":"plan","outcome":"call_failed 1 ","parent":0,"run":true,"uses":[]}
{"code":"timeout","id":1,"index":"1.1","kind":"plan","outcome":"call_failed timeout 1","parent":0,"run":true,"uses":[]}
{"code":"timeout","id":1,"index":"1.1","kind":"plan","outcome":null,"parent":0,"run":true,"uses":[]}
{"fault":null,"id":1,"index":null,"kind":"plan","parent":0,"run":true,"uses":[]}"#,
    ),
    (
        LineError::BadNumber { key: Key::Parent },
        r#"{"code":"timeout","id":1,"index":"1.1","kind":"plan","outcome":"passed","parent":-1,"run":true,"uses":[]}
{"code":"timeout","id":1,"index":"1.1","kind":"plan","outcome":"passed","parent":0.0,"run":true,"uses":[]}"#,
    ),
    (
        LineError::BadShape { key: Key::Parent },
        r#"{"code":"timeout","id":1,"index":"1.1","kind":"plan","outcome":"passed","parent":"0","run":true,"uses":[]}
{"fault":null,"id":1,"index":null,"kind":"plan","outcome":"passed","run":true,"uses":[]}"#,
    ),
    (
        LineError::BadShape { key: Key::Run },
        r#"{"code":"timeout","id":1,"index":"1.1","kind":"plan","outcome":"passed","parent":0,"run":0,"uses":[]}
{"fault":null,"id":1,"index":null,"kind":"plan","outcome":"passed","parent":0,"uses":[]}"#,
    ),
    (
        LineError::BadShape { key: Key::Uses },
        r#"{"code":"timeout","id":1,"index":"1.1","kind":"plan","outcome":"passed","parent":0,"run":true,"uses":[-1]}
{"code":"timeout","id":1,"index":"1.1","kind":"plan","outcome":"passed","parent":0,"run":true,"uses":[0.0]}
{"code":"timeout","id":1,"index":"1.1","kind":"plan","outcome":"passed","parent":0,"run":true,"uses":["0"]}
{"code":"timeout","id":1,"index":"1.1","kind":"plan","outcome":"passed","parent":0,"run":true,"uses":0}
{"fault":null,"id":1,"index":null,"kind":"plan","outcome":"passed","parent":0,"run":true}
{"code":null,"id":1,"index":null,"kind":"plan","outcome":"passed","parent":0,"run":true,"uses":[0,18446744073709551616]}"#,
    ),
    (
        LineError::BadShape { key: Key::Other },
        r#"{"code":"timeout","fault":{"err":"timeout"},"id":1,"index":"1.1","kind":"plan","outcome":"passed","parent":0,"run":true,"uses":[]}
{"code":null,"fault":null,"id":1,"index":null,"kind":"plan","outcome":"passed","parent":0,"run":true,"uses":[]}
{"code":"timeout","fault":1,"id":1,"index":"1.1","kind":"plan","outcome":"passed","parent":0,"run":true,"uses":[]}
{"code":"timeout","id":1,"index":"1.1","kind":"plan","outcome":"passed","parent":0,"run":true,"uses":[],"version":1}"#,
    ),
];

/// End lines.
const ENDS: &[Refused] = &[
    (
        LineError::BadShape { key: Key::Cause },
        r#"{"cause":"spent","failed":0,"invs":0,"kind":"end","plans":1,"pruned":0,"run":1,"stopped":null}
{"cause":1,"failed":0,"invs":0,"kind":"end","plans":1,"pruned":0,"run":1,"stopped":null}
{"failed":0,"invs":0,"kind":"end","plans":1,"pruned":0,"run":1,"stopped":null}"#,
    ),
    (
        LineError::BadNumber { key: Key::Failed },
        r#"{"cause":"fuel","failed":-1,"invs":0,"kind":"end","plans":1,"pruned":0,"run":1,"stopped":null}"#,
    ),
    (
        LineError::BadShape { key: Key::Failed },
        r#"{"cause":"fuel","invs":0,"kind":"end","plans":1,"pruned":0,"run":1,"stopped":null}
{"cause":"fuel","failed":null,"invs":0,"kind":"end","plans":1,"pruned":0,"run":1,"stopped":null}"#,
    ),
    (
        LineError::BadNumber { key: Key::Invs },
        r#"{"cause":"fuel","failed":0,"invs":1.5,"kind":"end","plans":1,"pruned":0,"run":1,"stopped":null}"#,
    ),
    (
        LineError::BadShape { key: Key::Invs },
        r#"{"cause":"fuel","failed":0,"kind":"end","plans":1,"pruned":0,"run":1,"stopped":null}
{"cause":"fuel","failed":0,"invs":"0","kind":"end","plans":1,"pruned":0,"run":1,"stopped":null}"#,
    ),
    (
        LineError::BadNumber { key: Key::Plans },
        r#"{"cause":"fuel","failed":0,"invs":0,"kind":"end","plans":18446744073709551616,"pruned":0,"run":1,"stopped":null}"#,
    ),
    (
        LineError::BadShape { key: Key::Plans },
        r#"{"cause":"fuel","failed":0,"invs":0,"kind":"end","plans":null,"pruned":0,"run":1,"stopped":null}
{"cause":"fuel","failed":0,"invs":0,"kind":"end","pruned":0,"run":1,"stopped":null}"#,
    ),
    (
        LineError::BadNumber { key: Key::Pruned },
        r#"{"cause":"fuel","failed":0,"invs":0,"kind":"end","plans":1,"pruned":1e1,"run":1,"stopped":null}"#,
    ),
    (
        LineError::BadShape { key: Key::Pruned },
        r#"{"cause":"fuel","failed":0,"invs":0,"kind":"end","plans":1,"run":1,"stopped":null}
{"cause":"fuel","failed":0,"invs":0,"kind":"end","plans":1,"pruned":[0],"run":1,"stopped":null}"#,
    ),
    (
        LineError::BadNumber { key: Key::Run },
        r#"{"cause":"fuel","failed":0,"invs":0,"kind":"end","plans":1,"pruned":0,"run":-7,"stopped":null}"#,
    ),
    (
        LineError::BadShape { key: Key::Run },
        r#"{"cause":"fuel","failed":0,"invs":0,"kind":"end","plans":1,"pruned":0,"run":true,"stopped":null}
{"cause":"fuel","failed":0,"invs":0,"kind":"end","plans":1,"pruned":0,"stopped":null}"#,
    ),
    (
        LineError::BadShape { key: Key::Stopped },
        r#"{"cause":"fuel","failed":0,"invs":0,"kind":"end","plans":1,"pruned":0,"run":1,"stopped":""}
{"cause":"fuel","failed":0,"invs":0,"kind":"end","plans":1,"pruned":0,"run":1,"stopped":"1.1"}
{"cause":"fuel","failed":0,"invs":0,"kind":"end","plans":1,"pruned":0,"run":1,"stopped":"=timeout"}
{"cause":"fuel","failed":0,"invs":0,"kind":"end","plans":1,"pruned":0,"run":1,"stopped":"1.1=ok:y"}
{"cause":"fuel","failed":0,"invs":0,"kind":"end","plans":1,"pruned":0,"run":1,"stopped":0}
{"cause":"fuel","failed":0,"invs":0,"kind":"end","plans":1,"pruned":0,"run":1}"#,
    ),
    (
        LineError::BadShape { key: Key::Other },
        r#"{"cause":"fuel","failed":0,"invs":0,"kind":"end","plans":1,"pruned":0,"run":1,"runs":1,"stopped":null}"#,
    ),
];

fn is_refused(alloc: Global, bytes: &[u8], wanted: LineError) -> bool {
    match read_line(alloc, bytes) {
        Ok(_) => false,
        Err(error) => error == wanted,
    }
}

/// The first of these lines that isn't refused so.
fn first_read(alloc: Global, wanted: LineError, lines: &'static str) -> Option<&'static str> {
    for line in lines.lines() {
        if !is_refused(alloc, line.as_bytes(), wanted) {
            return Some(line);
        }
    }
    None
}

/// The first line of a table that goes otherwise.
fn first_other(alloc: Global, table: &'static [Refused]) -> Option<&'static str> {
    for (wanted, lines) in table {
        let other = first_read(alloc, *wanted, lines);
        if other.is_some() {
            return other;
        }
    }
    None
}

#[test]
fn lines_are_refused_by_their_first_fault(rt: HostRuntime) {
    for table in [NO_OBJECTS, HEADERS, RECORDS, PLANS, ENDS] {
        assert_eq!(rt; first_other(rt.alloc(), table), None);
    }
}

/// Bytes that are no JSON: none, a blank, no UTF-8, a byte order mark, and controls in a text.
const NO_JSON: [&[u8]; 6] = [
    b"",
    b" ",
    b"\"\xff\"",
    b"\xef\xbb\xbf{\"kind\":\"end\"}",
    b"{\"kind\":\"e\tnd\"}",
    b"{\"kind\":\"e\nnd\"}",
];

#[test]
fn bytes_that_are_no_json_are_refused(rt: HostRuntime) {
    for bytes in NO_JSON {
        assert!(rt; is_refused(rt.alloc(), bytes, LineError::NotJson));
    }
}
