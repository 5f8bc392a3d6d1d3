//! Lines that are written by hand: read, written again, and taken apart.
use fb_base::{List, MethodId, MethodName, Name, Reply, Value};
use fb_check::{Program, check_services};
use fb_reading::read_line;
use fb_report::{
    Cause, Line, NamedRecord, Piece, find_record, line_bytes, name_record, split_lines,
};
use fb_syntax::parse_services;
use fb_tree::Record;
use std::alloc::Global;

/// Whether the line is read, and then written so, with a line feed.
pub fn is_written(alloc: Global, text: &str, wanted: &str) -> bool {
    let Ok(line) = read_line(alloc, text.as_bytes()) else {
        return false;
    };
    match line_bytes(alloc, &line) {
        Ok(bytes) => matches!(bytes.as_slice(), [front @ .., b'\n'] if front == wanted.as_bytes()),
        Err(_) => false,
    }
}

/// Lines as they are written, one of each sort and version at least.
const WRITTEN: &str = r#"{"fuel":100000,"kind":"header","reduction":true,"version":1}
{"fuel":1,"kind":"header","reduction":false,"version":2}
{"fuel":1000000,"kind":"header","reduction":false,"version":1}
{"args":[2],"calls":[],"id":0,"kind":"inv","method":"price.get","plan":0,"reply":{"ok":20},"steps":1}
{"args":[2],"calls":[{"args":[2],"callee":"price.get","count":1,"reply":{"err":"timeout"},"site":1}],"id":2,"kind":"inv","method":"cart.total","plan":1,"reply":{"ok":5},"steps":4}
{"args":[],"calls":[{"args":[],"callee":"b.get","count":4294967295,"reply":{"ok":[]},"site":4294967295},{"args":[true,"a",[1]],"callee":"c.get","count":1,"reply":{"err":"internal"},"site":2}],"id":18446744073709551615,"kind":"inv","method":"front.go","plan":3,"reply":{"err":"ok"},"steps":1000000}
{"args":[9223372036854775807,-9223372036854775808,0,-1],"calls":[],"id":1,"kind":"inv","method":"big.next","plan":0,"reply":{"ok":false},"steps":0}
{"args":[[1,-1],[true,false],["","a"],[]],"calls":[],"id":1,"kind":"inv","method":"sum.all","plan":0,"reply":{"ok":["x"]},"steps":9}
{"args":["\"\\/\b\f\n\r\t\u0001é"],"calls":[],"id":1,"kind":"inv","method":"a.b","plan":0,"reply":{"ok":""},"steps":9}
{"code":null,"id":0,"index":null,"kind":"plan","outcome":"passed","parent":null,"run":true,"uses":[0,1]}
{"code":"timeout","id":1,"index":"1.1/1.1","kind":"plan","outcome":"assert_failed 1","parent":0,"run":true,"uses":[2]}
{"code":"timeout","id":2,"index":"1.1","kind":"plan","outcome":"call_failed 1 timeout","parent":0,"run":true,"uses":[]}
{"code":"refused","id":3,"index":"1.1/4294967295.2/3.1","kind":"plan","outcome":"fault 4294967295","parent":18446744073709551615,"run":false,"uses":[18446744073709551615]}
{"fault":null,"id":0,"index":null,"kind":"plan","outcome":"passed","parent":null,"run":true,"uses":[0,1]}
{"fault":{"err":"timeout"},"id":1,"index":"1.1/1.1","kind":"plan","outcome":"passed","parent":0,"run":true,"uses":[2]}
{"fault":{"ok":20},"id":3,"index":"1.1/1.1","kind":"plan","outcome":"passed","parent":0,"run":false,"uses":[0]}
{"cause":"completed","failed":0,"invs":3,"kind":"end","plans":2,"pruned":0,"run":2,"stopped":null}
{"cause":"fuel","failed":1,"invs":9,"kind":"end","plans":5,"pruned":1,"run":4,"stopped":"none"}
{"cause":"budget","failed":0,"invs":18446744073709551615,"kind":"end","plans":5,"pruned":1,"run":4,"stopped":"1.1/1.1=timeout,1.1/2.1=ok:x61"}"#;

/// The first of these lines that isn't read, or not written again so.
fn first_other(alloc: Global, lines: &str) -> Option<&str> {
    for line in lines.lines() {
        if !is_written(alloc, line, line) {
            return Some(line);
        }
    }
    None
}

#[test]
fn lines_are_read_and_written(rt: HostRuntime) {
    assert_eq!(rt; first_other(rt.alloc(), WRITTEN), None);
}

fn is_named(name: &Name, word: &str) -> bool {
    name.as_str() == word
}

/// Whether it is the record of `cart.total` on 2, whose call of `price.get` timed out.
fn is_cart_total(made: &NamedRecord) -> bool {
    let (args, calls) = (made.args.as_slice(), made.calls.as_slice());
    if !is_named(&made.method.service, "cart") || !is_named(&made.method.method, "total") {
        return false;
    }
    matches!(args, [Value::Int(2)]) && calls.len() == 1 && made.steps == 4
}

fn is_header(line: &Line) -> bool {
    match line {
        Line::Header {
            version,
            fuel,
            reduction,
        } => *version == 2 && *fuel == 7 && *reduction,
        _ => false,
    }
}

fn is_inv(line: &Line) -> bool {
    match line {
        Line::Inv { id, plan, made } => *id == 2 && *plan == 1 && is_cart_total(made),
        _ => false,
    }
}

fn is_plan(line: &Line) -> bool {
    match line {
        Line::Plan {
            version,
            id,
            parent,
            run,
            uses,
            ..
        } => {
            *version == 1
                && *id == 1
                && *parent == Some(0)
                && *run
                && matches!(uses.as_slice(), [2, 3])
        }
        _ => false,
    }
}

fn is_end(line: &Line) -> bool {
    match line {
        Line::End {
            cause,
            plans,
            run,
            pruned,
            failed,
            invs,
            stopped,
        } => {
            *cause == Cause::Budget
                && (*failed, *invs, *plans) == (1, 2, 3)
                && (*pruned, *run) == (4, 5)
                && stopped.is_none()
        }
        _ => false,
    }
}

/// A line of each sort.
const PARTS: &str = r#"{"fuel":7,"kind":"header","reduction":true,"version":2}
{"args":[2],"calls":[{"args":[2],"callee":"price.get","count":1,"reply":{"err":"timeout"},"site":1}],"id":2,"kind":"inv","method":"cart.total","plan":1,"reply":{"ok":5},"steps":4}
{"code":"timeout","id":1,"index":"1.1/1.1","kind":"plan","outcome":"assert_failed 6","parent":0,"run":true,"uses":[2,3]}
{"cause":"budget","failed":1,"invs":2,"kind":"end","plans":3,"pruned":4,"run":5,"stopped":null}"#;

/// Whether the line of its sort has the parts that are told of it.
fn has_parts(line: &Line) -> bool {
    match line {
        Line::Header { .. } => is_header(line),
        Line::Inv { .. } => is_inv(line),
        Line::Plan { .. } => is_plan(line),
        Line::End { .. } => is_end(line),
    }
}

/// The first line that isn't read so.
fn first_without_parts(alloc: Global, lines: &str) -> Option<&str> {
    for text in lines.lines() {
        let read = read_line(alloc, text.as_bytes());
        if !matches!(&read, Ok(line) if has_parts(line)) {
            return Some(text);
        }
    }
    None
}

#[test]
fn lines_have_their_parts(rt: HostRuntime) {
    assert_eq!(rt; first_without_parts(rt.alloc(), PARTS), None);
}

#[test]
fn bytes_are_split_at_line_feeds(rt: HostRuntime) {
    let mut left = split_lines("ab\n\nc".as_bytes());
    assert!(rt; matches!(left.next(), Some(Piece::Whole(line)) if line == "ab".as_bytes()));
    assert!(rt; matches!(left.next(), Some(Piece::Whole(line)) if line.is_empty()));
    assert!(rt; matches!(left.next(), Some(Piece::Cut { offset: 4 })));
    assert!(rt; left.next().is_none());
}

const SERVICES: &str = "service price { method get(id: int) -> int { return id; } }";

fn program(alloc: Global) -> Option<Program> {
    let Ok(services) = parse_services(alloc, SERVICES.as_bytes()) else {
        return None;
    };
    check_services(alloc, services).ok()
}

/// Whether a record of the first method is named by it, and found by that name.
fn is_named_and_found(alloc: Global, program: &Program) -> bool {
    let item = Record {
        method: MethodId(0),
        args: List::new(alloc),
        calls: List::new(alloc),
        reply: Reply::Ok(Value::Int(7)),
        steps: 1,
    };
    if program.count() == 0 {
        return false;
    }
    let Ok(named) = name_record(alloc, program, &item) else {
        return false;
    };
    if !is_named(&named.method.service, "price") || !is_named(&named.method.method, "get") {
        return false;
    }
    let found = find_record(alloc, program, &named);
    matches!(&found, Ok(Some(other)) if *other == item)
}

/// Whether no record is found by the name of no method.
fn is_not_found(alloc: Global, program: &Program) -> bool {
    let Ok(name) = Name::read(b"price") else {
        return false;
    };
    let named = NamedRecord {
        method: MethodName {
            service: name,
            method: name,
        },
        args: List::new(alloc),
        calls: List::new(alloc),
        reply: Reply::Ok(Value::Int(7)),
        steps: 1,
    };
    matches!(find_record(alloc, program, &named), Ok(None))
}

#[test]
fn methods_are_named_and_found(rt: HostRuntime) {
    let program = program(rt.alloc());
    assert!(rt; matches!(&program, Some(program) if is_named_and_found(rt.alloc(), program)));
    assert!(rt; matches!(&program, Some(program) if is_not_found(rt.alloc(), program)));
}
