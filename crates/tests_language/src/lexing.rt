//! Tests of tokens.

use crate::expressions::is_refused;
use fb_base::List;
use fb_syntax::*;
use std::alloc::Global;
use std::process::Abort;
use std::test::*;

/// Texts that are refused, and where.
const REFUSED: [(&[u8], ParseWhy); 22] = [
    (b"A", ParseWhy::BadToken { offset: 0 }),
    (b"_a", ParseWhy::BadToken { offset: 0 }),
    (
        b" a23456789012345678901234567890123456789012345678901234567890_2345",
        ParseWhy::BadToken { offset: 1 },
    ),
    (b"a b@c", ParseWhy::BadToken { offset: 3 }),
    (b"a\x0bb", ParseWhy::BadToken { offset: 1 }),
    (b"a ! = b", ParseWhy::BadToken { offset: 2 }),
    (
        b"x = 9223372036854775808;",
        ParseWhy::BadToken { offset: 4 },
    ),
    (b" 92233720368547758070", ParseWhy::BadToken { offset: 1 }),
    (b"# a\nx\xc3\xa9", ParseWhy::BadToken { offset: 5 }),
    (b"a \"b", ParseWhy::BadToken { offset: 2 }),
    (b"\"\\\"", ParseWhy::BadToken { offset: 0 }),
    (b"\"a\\q\"", ParseWhy::BadToken { offset: 0 }),
    (b"\"a\tb\"", ParseWhy::BadToken { offset: 0 }),
    (b"x\"a\nb\"", ParseWhy::BadToken { offset: 1 }),
    (b"\xff", ParseWhy::NotText { offset: 0 }),
    (b"@ \x80", ParseWhy::NotText { offset: 2 }),
    (b"ab\xc3", ParseWhy::NotText { offset: 3 }),
    (b"\xe0\x80", ParseWhy::NotText { offset: 1 }),
    (b"\xe2\x82a", ParseWhy::NotText { offset: 2 }),
    (b"a\xf0\x9f\x98", ParseWhy::NotText { offset: 4 }),
    (b"\xf0\x9f\x98\xff", ParseWhy::NotText { offset: 3 }),
    (b"\xc0\x80", ParseWhy::NotText { offset: 0 }),
];

/// Texts, and where their tokens begin and end.
const LEXED: [(&[u8], &[(u32, u32)]); 10] = [
    (b"", &[]),
    (b" \t\r\n", &[]),
    (b"1a", &[(0, 1), (1, 2)]),
    (b"a1_b", &[(0, 4)]),
    (
        b" a23456789012345678901234567890123456789012345678901234567890_234",
        &[(1, 65)],
    ),
    (b"a#b", &[(0, 1)]),
    (b"a#b\rc\nd", &[(0, 1), (6, 7)]),
    (b"->- ++ + +", &[(0, 2), (2, 3), (4, 6), (7, 8), (9, 10)]),
    (b"<===", &[(0, 2), (2, 4)]),
    (b"x=\"\xc3\xa9#\";", &[(0, 1), (1, 2), (2, 7), (7, 8)]),
];

const SIGNS: &[u8] = b"{ } ( ) [ ] , ; : . -> = == != < <= > >= + ++ - * / %";

const RESERVED: &str =
    "service method test let if else repeat for in break return fail call on any assert injected injected_on and or not true false int bool text list len";

fn lexed(rt: &impl Abort, alloc: Global, text: &[u8]) -> Result<List<Token>, ParseWhy> {
    assert!(rt; text.len() <= 1_048_576);
    match lex(alloc, text) {
        Ok(tokens) => Ok(tokens),
        Err(ParseError::Refused(why)) => Err(why),
        Err(ParseError::Memory) => panic!(rt; "no memory"),
    }
}

#[test]
fn refuses(rt: HostRuntime) {
    for (text, why) in REFUSED {
        assert!(rt; lexed(&rt, rt.alloc(), text).err() == Some(why));
    }
}

#[test]
fn places_tokens(rt: HostRuntime) {
    for (text, places) in LEXED {
        match lexed(&rt, rt.alloc(), text) {
            Ok(tokens) => {
                assert_eq!(rt; tokens.len(), places.len());
                for (token, (from, to)) in tokens.as_slice().iter().zip(places) {
                    assert_eq!(rt; token.from, *from);
                    assert_eq!(rt; token.to, *to);
                }
            }
            Err(why) => panic!(rt; "{why:?}"),
        }
    }
}

#[test]
fn knows_signs_in_order(rt: HostRuntime) {
    match lexed(&rt, rt.alloc(), SIGNS) {
        Ok(tokens) => {
            assert_eq!(rt; tokens.len(), 24);
            for (place, token) in tokens.as_slice().iter().enumerate() {
                match token.what {
                    What::Sign(sign) => assert_eq!(rt; sign as usize, place),
                    _ => panic!(rt; "no sign at {place}"),
                }
            }
        }
        Err(why) => panic!(rt; "{why:?}"),
    }
}

/// A test with this name.
fn named(alloc: Global, name: &str) -> Result<Test, ParseError> {
    let text = format!(in alloc; "test {name} {{ }}")?;
    if 1_048_576 < text.len() {
        return Err(ParseError::Memory);
    }
    parse_test(alloc, text.as_bytes())
}

#[test]
fn knows_reserved_words(rt: HostRuntime) {
    for word in RESERVED.split(' ') {
        assert!(rt; is_refused(named(rt.alloc(), word), ParseWhy::Unexpected { offset: 5 }));
    }
    for word in ["price", "lens", "o"] {
        assert!(rt; named(rt.alloc(), word).is_ok());
    }
}

#[test]
fn reads_words_numbers_and_texts(rt: HostRuntime) {
    let text = b"service 9223372036854775807 007 \"\\\"\\\\\\n\\t\xc3\xa9\"";
    match lexed(&rt, rt.alloc(), text) {
        Ok(tokens) => match tokens.as_slice() {
            [word, most, seven, escapes] => {
                assert!(rt;
                    matches!(&word.what, What::Word(name) if name.bytes() == b"service".as_slice())
                );
                assert!(rt; matches!(most.what, What::Int(i64::MAX)));
                assert!(rt; matches!(seven.what, What::Int(7)));
                assert!(rt;
                    matches!(&escapes.what, What::Text(text) if text.bytes() == b"\"\\\n\t\xc3\xa9".as_slice())
                );
            }
            _ => panic!(rt; "other tokens"),
        },
        Err(why) => panic!(rt; "{why:?}"),
    }
}

#[test]
fn keeps_the_longest_text(rt: HostRuntime) -> Result<(), Fail> {
    for (count, lexes) in [(65_535, true), (65_536, false)] {
        let mut text = vec![in rt.alloc(); b'a'; count + 2]?;
        text[0] = b'"';
        text[count + 1] = b'"';
        assert!(rt; lexed(&rt, rt.alloc(), text.as_slice()).is_ok() == lexes);
    }
    Ok(())
}
