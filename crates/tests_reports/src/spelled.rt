//! Values and faults in lines: how they are spelled, and what they are.
use crate::lines::is_written;
use fb_base::{Reply, Value};
use fb_index::{Index, Plan};
use fb_reading::read_line;
use fb_report::{Line, value_text};
use std::alloc::{AllocError, Global};

/// Plan lines of version 1, and the text of a plan with their fault alone.
const CODES: &[(&str, &str)] = &[
    (
        r#"{"code":null,"id":1,"index":null,"kind":"plan","outcome":"passed","parent":0,"run":true,"uses":[]}"#,
        "none",
    ),
    (
        r#"{"code":"timeout","id":1,"index":"1.1/1.1","kind":"plan","outcome":"passed","parent":0,"run":true,"uses":[]}"#,
        "1.1/1.1=timeout",
    ),
    (
        r#"{"code":"true","id":1,"index":"12.3","kind":"plan","outcome":"passed","parent":0,"run":true,"uses":[]}"#,
        "12.3=true",
    ),
];

/// Plan lines of version 2.
const REPLIES: &[(&str, &str)] = &[
    (
        r#"{"fault":null,"id":1,"index":null,"kind":"plan","outcome":"passed","parent":0,"run":false,"uses":[]}"#,
        "none",
    ),
    (
        r#"{"fault":{"err":"ok"},"id":1,"index":"1.4294967295/2.1","kind":"plan","outcome":"passed","parent":0,"run":false,"uses":[]}"#,
        "1.4294967295/2.1=ok",
    ),
    (
        r#"{"fault":{"ok":20},"id":1,"index":"1.1/1.1/7.2","kind":"plan","outcome":"passed","parent":0,"run":false,"uses":[]}"#,
        "1.1/1.1/7.2=ok:20",
    ),
];

/// Plan lines of version 2 with each kind of value, the text of a plan, and the value alone.
const VALUES: &[(&str, &str, &str)] = &[
    (
        r#"{"fault":{"ok":0},"id":1,"index":"1.1","kind":"plan","outcome":"passed","parent":0,"run":false,"uses":[]}"#,
        "1.1=ok:0",
        r#"0"#,
    ),
    (
        r#"{"fault":{"ok":-1},"id":1,"index":"1.1","kind":"plan","outcome":"passed","parent":0,"run":false,"uses":[]}"#,
        "1.1=ok:-1",
        r#"-1"#,
    ),
    (
        r#"{"fault":{"ok":9223372036854775807},"id":1,"index":"1.1","kind":"plan","outcome":"passed","parent":0,"run":false,"uses":[]}"#,
        "1.1=ok:9223372036854775807",
        r#"9223372036854775807"#,
    ),
    (
        r#"{"fault":{"ok":-9223372036854775808},"id":1,"index":"1.1","kind":"plan","outcome":"passed","parent":0,"run":false,"uses":[]}"#,
        "1.1=ok:-9223372036854775808",
        r#"-9223372036854775808"#,
    ),
    (
        r#"{"fault":{"ok":true},"id":1,"index":"1.1","kind":"plan","outcome":"passed","parent":0,"run":false,"uses":[]}"#,
        "1.1=ok:true",
        r#"true"#,
    ),
    (
        r#"{"fault":{"ok":false},"id":1,"index":"1.1","kind":"plan","outcome":"passed","parent":0,"run":false,"uses":[]}"#,
        "1.1=ok:false",
        r#"false"#,
    ),
    (
        r#"{"fault":{"ok":""},"id":1,"index":"1.1","kind":"plan","outcome":"passed","parent":0,"run":false,"uses":[]}"#,
        "1.1=ok:x",
        r#""""#,
    ),
    (
        r#"{"fault":{"ok":"true"},"id":1,"index":"1.1","kind":"plan","outcome":"passed","parent":0,"run":false,"uses":[]}"#,
        "1.1=ok:x74727565",
        r#""true""#,
    ),
    (
        r#"{"fault":{"ok":"\"\\/\b\f\n\r\t"},"id":1,"index":"1.1","kind":"plan","outcome":"passed","parent":0,"run":false,"uses":[]}"#,
        "1.1=ok:x225c2f080c0a0d09",
        r#""\"\\/\b\f\n\r\t""#,
    ),
    (
        r#"{"fault":{"ok":"\u0000\u000b\u001f~"},"id":1,"index":"1.1","kind":"plan","outcome":"passed","parent":0,"run":false,"uses":[]}"#,
        "1.1=ok:x000b1f7e",
        r#""\u0000\u000b\u001f~""#,
    ),
    (
        r#"{"fault":{"ok":"é€😀"},"id":1,"index":"1.1","kind":"plan","outcome":"passed","parent":0,"run":false,"uses":[]}"#,
        "1.1=ok:xc3a9e282acf09f9880",
        r#""é€😀""#,
    ),
    (
        r#"{"fault":{"ok":[]},"id":1,"index":"1.1","kind":"plan","outcome":"passed","parent":0,"run":false,"uses":[]}"#,
        "1.1=ok:[]",
        r#"[]"#,
    ),
    (
        r#"{"fault":{"ok":[0]},"id":1,"index":"1.1","kind":"plan","outcome":"passed","parent":0,"run":false,"uses":[]}"#,
        "1.1=ok:[0]",
        r#"[0]"#,
    ),
    (
        r#"{"fault":{"ok":[9223372036854775807,-9223372036854775808]},"id":1,"index":"1.1","kind":"plan","outcome":"passed","parent":0,"run":false,"uses":[]}"#,
        "1.1=ok:[9223372036854775807;-9223372036854775808]",
        r#"[9223372036854775807,-9223372036854775808]"#,
    ),
    (
        r#"{"fault":{"ok":[true,false,true]},"id":1,"index":"1.1","kind":"plan","outcome":"passed","parent":0,"run":false,"uses":[]}"#,
        "1.1=ok:[true;false;true]",
        r#"[true,false,true]"#,
    ),
    (
        r#"{"fault":{"ok":["","a","\n"]},"id":1,"index":"1.1","kind":"plan","outcome":"passed","parent":0,"run":false,"uses":[]}"#,
        "1.1=ok:[x;x61;x0a]",
        r#"["","a","\n"]"#,
    ),
];

/// Lines that are spelled otherwise, and how they are written.
const SPELLINGS: &[(&str, &str)] = &[
    (
        r#" { "version" : 1 , "reduction" : true , "kind" : "header" , "fuel" : 9 } "#,
        r#"{"fuel":9,"kind":"header","reduction":true,"version":1}"#,
    ),
    (
        r#"{"fuel":0,"version":7,"kind":"inv","reduction":1,"fuel":9,"kind":"header","reduction":true,"version":1}"#,
        r#"{"fuel":9,"kind":"header","reduction":true,"version":1}"#,
    ),
    (
        r#"{"\u0066uel":9,"kind":"\u0068eader","reduction":true,"version":1}"#,
        r#"{"fuel":9,"kind":"header","reduction":true,"version":1}"#,
    ),
    (
        r#"{"fault":{"ok":[ 1 , 2 ]},"id":1,"index":"1.1","kind":"plan","outcome":"passed","parent":0,"run":false,"uses":[]}"#,
        r#"{"fault":{"ok":[1,2]},"id":1,"index":"1.1","kind":"plan","outcome":"passed","parent":0,"run":false,"uses":[]}"#,
    ),
    (
        r#"{"fault":{"ok":"\/\u0041\u00e9\u00E9"},"id":1,"index":"1.1","kind":"plan","outcome":"passed","parent":0,"run":false,"uses":[]}"#,
        r#"{"fault":{"ok":"/Aéé"},"id":1,"index":"1.1","kind":"plan","outcome":"passed","parent":0,"run":false,"uses":[]}"#,
    ),
    (
        r#"{"fault":{"ok":"\ud83d\ude00\uD83D\uDE00"},"id":1,"index":"1.1","kind":"plan","outcome":"passed","parent":0,"run":false,"uses":[]}"#,
        r#"{"fault":{"ok":"😀😀"},"id":1,"index":"1.1","kind":"plan","outcome":"passed","parent":0,"run":false,"uses":[]}"#,
    ),
    (
        r#"{"fault":{"ok":"\u0008\u000C\u000a\u000d\u0009\u0022\u005c"},"id":1,"index":"1.1","kind":"plan","outcome":"passed","parent":0,"run":false,"uses":[]}"#,
        r#"{"fault":{"ok":"\b\f\n\r\t\"\\"},"id":1,"index":"1.1","kind":"plan","outcome":"passed","parent":0,"run":false,"uses":[]}"#,
    ),
    (
        r#"{"fault":{"ok":1,"ok":2},"id":1,"index":"1.1","kind":"plan","outcome":"passed","parent":0,"run":false,"uses":[]}"#,
        r#"{"fault":{"ok":2},"id":1,"index":"1.1","kind":"plan","outcome":"passed","parent":0,"run":false,"uses":[]}"#,
    ),
];

const HEADER: &str = r#"{"fuel":9,"kind":"header","reduction":true,"version":1}"#;

/// The header with blanks, tabs, carriage returns and line feeds around it.
const BLANKS: [&str; 5] = [
    "{\"fuel\":9,\"kind\":\"header\",\"reduction\":true,\"version\":1} ",
    "{\"fuel\":9,\"kind\":\"header\",\"reduction\":true,\"version\":1}\t",
    "{\"fuel\":9,\"kind\":\"header\",\"reduction\":true,\"version\":1}\r",
    "{\"fuel\":9,\"kind\":\"header\",\"reduction\":true,\"version\":1}\n",
    " \r\n\t{\"fuel\":9,\"kind\":\"header\",\"reduction\":true,\"version\":1} \r\n",
];

/// The text of a plan with this fault alone.
fn plan_text(alloc: Global, index: &Index, reply: &Reply) -> Result<String, AllocError> {
    let plan = Plan::empty().with(alloc, index.copy()?, reply.copy(alloc)?)?;
    plan.text(alloc)
}

fn is_plan_text(alloc: Global, index: &Index, reply: &Reply, wanted: &str) -> bool {
    match plan_text(alloc, index, reply) {
        Ok(text) => text.as_str() == wanted,
        Err(_) => false,
    }
}

/// Whether a plan line has this fault.
fn is_fault(alloc: Global, line: &Line, wanted: &str) -> bool {
    match line {
        Line::Plan { fault, .. } => match fault {
            Some((index, reply)) => is_plan_text(alloc, index, reply, wanted),
            None => wanted == "none",
        },
        _ => false,
    }
}

/// Whether the line has that fault, and is written again as it is.
fn has_fault(alloc: Global, text: &str, wanted: &str) -> bool {
    match read_line(alloc, text.as_bytes()) {
        Ok(line) => is_fault(alloc, &line, wanted) && is_written(alloc, text, text),
        Err(_) => false,
    }
}

fn is_value(alloc: Global, value: &Value, wanted: &str) -> bool {
    match value_text(alloc, value) {
        Ok(text) => text.as_str() == wanted,
        Err(_) => false,
    }
}

/// Whether the value of a plan line's fault is spelled so.
fn is_fault_value(alloc: Global, line: &Line, wanted: &str) -> bool {
    match line {
        Line::Plan {
            fault: Some((_, Reply::Ok(value))),
            ..
        } => is_value(alloc, value, wanted),
        _ => false,
    }
}

fn has_value(alloc: Global, text: &str, wanted: &str) -> bool {
    match read_line(alloc, text.as_bytes()) {
        Ok(line) => is_fault_value(alloc, &line, wanted),
        Err(_) => false,
    }
}

fn first_other_fault(alloc: Global, rows: &'static [(&str, &str)]) -> Option<&'static str> {
    for (line, fault) in rows {
        if !has_fault(alloc, line, fault) {
            return Some(*line);
        }
    }
    None
}

fn first_other_value(alloc: Global) -> Option<&'static str> {
    for (line, fault, value) in VALUES {
        if !has_fault(alloc, line, fault) || !has_value(alloc, line, value) {
            return Some(*line);
        }
    }
    None
}

fn first_other_spelling(alloc: Global) -> Option<&'static str> {
    for (spelling, wanted) in SPELLINGS {
        if !is_written(alloc, spelling, wanted) {
            return Some(*spelling);
        }
    }
    None
}

fn first_other_blanks(alloc: Global) -> Option<&'static str> {
    for spelling in BLANKS {
        if !is_written(alloc, spelling, HEADER) {
            return Some(spelling);
        }
    }
    None
}

#[test]
fn faults_and_values_are_those_of_the_line(rt: HostRuntime) {
    assert_eq!(rt; first_other_fault(rt.alloc(), CODES), None);
    assert_eq!(rt; first_other_fault(rt.alloc(), REPLIES), None);
    assert_eq!(rt; first_other_value(rt.alloc()), None);
}

#[test]
fn other_spellings_and_blanks_are_read(rt: HostRuntime) {
    assert_eq!(rt; first_other_spelling(rt.alloc()), None);
    assert_eq!(rt; first_other_blanks(rt.alloc()), None);
}

/// An inv line with a text of that length in a list.
fn with_text(alloc: Global, length: usize) -> Result<String, AllocError> {
    let text = "a".repeat(alloc, length)?;
    let rest =
        r#""calls":[],"id":1,"kind":"inv","method":"a.b","plan":0,"reply":{"ok":1},"steps":1"#;
    format!(in alloc; "{{\"args\":[[\"{}\"]],{rest}}}", text.as_str())
}

/// Whether such a line is read.
fn is_read(alloc: Global, length: usize) -> Option<bool> {
    match with_text(alloc, length) {
        Ok(line) => Some(read_line(alloc, line.as_bytes()).is_ok()),
        Err(_) => None,
    }
}

#[test]
fn values_are_limited(rt: HostRuntime) {
    assert_eq!(rt; is_read(rt.alloc(), 65_534), Some(true));
    assert_eq!(rt; is_read(rt.alloc(), 65_535), Some(false));
}
