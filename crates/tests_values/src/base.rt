//! Tests over values from the table of operators.
ghost use Rattle.std.specs.Prelude.{◌≡◌, ◌+◌, ◌<◌};

use fb_base::*;
use std::alloc::Global;
use std::marker::Brand;
use std::sync::ledger::{Blank, Ledger};
use std::test::Fail;

/// Whether a call gave that value, or a fault where none is wanted.
fn gives(given: Result<Value, OpError>, wanted: Option<Value>) -> bool {
    match (&given, &wanted) {
        (Ok(value), Some(wanted)) => value.same(wanted),
        (Err(OpError::Fault), None) => true,
        _ => false,
    }
}

fn calculates(alloc: Global, case: &(Op2, i64, i64, Option<i64>)) -> bool {
    let (op, a, b, wanted) = *case;
    gives(
        apply2(alloc, op, &Value::Int(a), &Value::Int(b)),
        wanted.map(Value::Int),
    )
}

fn compares(alloc: Global, case: &(Op2, i64, i64, bool)) -> bool {
    let (op, a, b, wanted) = *case;
    gives(
        apply2(alloc, op, &Value::Int(a), &Value::Int(b)),
        Some(Value::Bool(wanted)),
    )
}

fn negates(case: &(i64, Option<i64>)) -> bool {
    let (n, wanted) = *case;
    gives(apply1(Op1::Neg, &Value::Int(n)), wanted.map(Value::Int))
}

#[test]
fn ints_are_calculated_within_64_bits(rt: HostRuntime) {
    let calculated = [
        (Op2::Add, 2, 3, Some(5)),
        (Op2::Add, i64::MAX, 1, None),
        (Op2::Add, i64::MIN, -1, None),
        (Op2::Sub, i64::MIN, 1, None),
        (Op2::Sub, -1, i64::MAX, Some(i64::MIN)),
        (
            Op2::Mul,
            3_037_000_499,
            3_037_000_499,
            Some(9_223_372_030_926_249_001),
        ),
        (Op2::Mul, 3_037_000_500, 3_037_000_500, None),
        (Op2::Mul, i64::MIN, -1, None),
        (Op2::Div, 7, 2, Some(3)),
        (Op2::Div, -7, 2, Some(-3)),
        (Op2::Div, 7, -2, Some(-3)),
        (Op2::Div, -7, -2, Some(3)),
        (Op2::Div, 7, 0, None),
        (Op2::Div, i64::MIN, -1, None),
        (Op2::Rem, 7, 2, Some(1)),
        (Op2::Rem, -7, 2, Some(-1)),
        (Op2::Rem, 7, -2, Some(1)),
        (Op2::Rem, -7, -2, Some(-1)),
        (Op2::Rem, 7, 0, None),
        (Op2::Rem, i64::MIN, -1, None),
    ];
    let alloc = rt.alloc();
    assert_eq!(rt;
        calculated.iter().position(|case| !calculates(alloc, case)),
        None
    );
}

#[test]
fn ints_are_compared(rt: HostRuntime) {
    let compared = [
        (Op2::Eq, 1, 1, true),
        (Op2::Eq, 1, 2, false),
        (Op2::Ne, 1, 2, true),
        (Op2::Lt, -1, 1, true),
        (Op2::Lt, 1, 1, false),
        (Op2::Le, 1, 1, true),
        (Op2::Gt, 1, -1, true),
        (Op2::Gt, 1, 1, false),
        (Op2::Ge, 1, 1, true),
    ];
    let alloc = rt.alloc();
    assert_eq!(rt;
        compared.iter().position(|case| !compares(alloc, case)),
        None
    );
}

#[test]
fn ints_are_negated(rt: HostRuntime) {
    let negated = [(5, Some(-5)), (i64::MAX, Some(-i64::MAX)), (i64::MIN, None)];
    assert_eq!(rt; negated.iter().position(|case| !negates(case)), None);
}

fn text(alloc: Global, len: usize) -> Result<Value, TextError> {
    let bytes = vec![in alloc; b'a'; len]?;
    Ok(Value::Text(Text::of(alloc, bytes.as_slice())?))
}

fn ints(alloc: Global, len: usize) -> Result<Value, OpError> {
    let mut items = Vec::with_capacity(alloc, len)?;
    for _ in 0..len {
        items.push(Value::Int(7))?;
    }
    list_of(alloc, items)
}

/// The weight of two texts of these lengths joined, if it isn't too great.
fn weight_of_texts(alloc: Global, front: usize, back: usize) -> Result<Option<u64>, TextError> {
    let joined = apply2(alloc, Op2::Join, &text(alloc, front)?, &text(alloc, back)?);
    Ok(joined.ok().map(|joined| joined.weight()))
}

fn weight_of_lists(alloc: Global, front: usize, back: usize) -> Result<Option<u64>, OpError> {
    let joined = apply2(alloc, Op2::Join, &ints(alloc, front)?, &ints(alloc, back)?);
    Ok(joined.ok().map(|joined| joined.weight()))
}

fn refuses(alloc: Global, bytes: &[u8]) -> bool {
    matches!(Text::of(alloc, bytes), Err(TextError::NotText))
}

#[test]
fn texts_weigh_at_most_65_536(rt: HostRuntime) -> Result<(), Fail> {
    let alloc = rt.alloc();
    assert_eq!(rt; weight_of_texts(alloc, 0, 0)?, Some(1));
    assert_eq!(rt; weight_of_texts(alloc, 32_767, 32_767)?, Some(65_535));
    assert_eq!(rt; weight_of_texts(alloc, 32_767, 32_768)?, Some(65_536));
    assert_eq!(rt; weight_of_texts(alloc, 32_768, 32_768)?, None);
    assert!(rt; refuses(alloc, b"\xC3") && !refuses(alloc, b"\xC3\xA9"));
    assert!(rt; refuses(alloc, &[b'a'; 65_536]));
    Ok(())
}

#[test]
fn lists_weigh_at_most_65_536(rt: HostRuntime) -> Result<(), Fail> {
    let alloc = rt.alloc();
    assert_eq!(rt; weight_of_lists(alloc, 0, 0)?, Some(1));
    assert_eq!(rt; weight_of_lists(alloc, 0, 2)?, Some(3));
    assert_eq!(rt; weight_of_lists(alloc, 30_000, 35_535)?, Some(65_536));
    assert_eq!(rt; weight_of_lists(alloc, 30_000, 35_536)?, None);
    assert_eq!(rt; ints(alloc, 65_536).err(), Some(OpError::Fault));
    Ok(())
}

/// The int at a place of the list of 4 and 5.
fn int_at(alloc: Global, place: i64) -> Result<Option<i64>, OpError> {
    let list = list_of(alloc, vec![in alloc; Value::Int(4), Value::Int(5)]?)?;
    match apply2(alloc, Op2::At, &list.copy(alloc)?, &Value::Int(place)) {
        Ok(Value::Int(n)) => Ok(Some(n)),
        Ok(_) | Err(OpError::Memory) => Err(OpError::Memory),
        Err(OpError::Fault) => Ok(None),
    }
}

#[test]
fn items_are_counted_from_0(rt: HostRuntime) -> Result<(), Fail> {
    let alloc = rt.alloc();
    assert_eq!(rt; int_at(alloc, 0)?, Some(4));
    assert_eq!(rt; int_at(alloc, 1)?, Some(5));
    assert_eq!(rt; int_at(alloc, 2)?, None);
    assert_eq!(rt; int_at(alloc, -1)?, None);
    Ok(())
}

fn list_kinds(list: &Value) -> [bool; 3] {
    [Kind::Ints, Kind::Bools, Kind::Texts].map(|kind| list.has_kind(kind))
}

#[test]
fn the_empty_list_has_each_list_kind(rt: HostRuntime) -> Result<(), Fail> {
    let alloc = rt.alloc();
    let (empty, two) = (ints(alloc, 0)?, ints(alloc, 2)?);
    assert_eq!(rt; list_kinds(&empty), [true, true, true]);
    assert_eq!(rt; list_kinds(&two), [true, false, false]);
    assert!(rt;
        gives(
            apply2(alloc, Op2::Ne, &empty, &two),
            Some(Value::Bool(true))
        )
    );
    assert!(rt; gives(apply1(Op1::Len, &two), Some(Value::Int(2))));
    Ok(())
}

#[test]
fn operands_have_to_fit(rt: HostRuntime) -> Result<(), Fail> {
    let alloc = rt.alloc();
    let mixed = vec![in alloc; Value::Int(4), Value::Bool(true)]?;
    assert!(rt; gives(list_of(alloc, mixed), None));
    assert!(rt;
        gives(
            apply2(alloc, Op2::Eq, &Value::Bool(true), &Value::Int(1)),
            None
        )
    );
    assert!(rt; gives(apply1(Op1::Not, &Value::Int(1)), None));
    Ok(())
}

fn is_name(case: &(&str, bool)) -> bool {
    let (word, wanted) = *case;
    match (Name::read(word.as_bytes()), Code::read(word.as_bytes())) {
        (Ok(name), Ok(code)) => wanted && name.as_str() == word && code.as_str() == word,
        (Err(BadName), Err(BadName)) => !wanted,
        _ => false,
    }
}

#[test]
fn names_are_letters_digits_and_underscores(rt: HostRuntime) {
    let words = [
        ("a", true),
        ("get_2", true),
        ("", false),
        ("2a", false),
        ("_a", false),
        ("Get", false),
        ("a-b", false),
    ];
    assert_eq!(rt; words.iter().position(|case| !is_name(case)), None);
    assert!(rt; Name::read(&[b'z'; 64]).is_ok() && Name::read(&[b'z'; 65]).is_err());
}

fn tick_twice<L: Ledger>(steps: &mut Steps<L>)
    ensures { steps.new ≡ steps.old + 2 }
{
    steps.tick();
    steps.tick();
}

fn count_two<L: Ledger>(blank: Blank)
    requires name { blank.name ≡ L.name }
    requires parts { blank.parts ≡ L.parts }
    requires some { 0 < L.parts }
{
    let mut steps = Steps::<L>::new(blank);
    tick_twice(&mut steps);
}

#[test]
fn steps_are_counted(_rt: HostRuntime) {
    count_two::<Brand>(Blank::new(1));
}

#[test]
fn lists_of_ours_keep_their_items(rt: HostRuntime) -> Result<(), Fail> {
    let mut list = List::new(rt.alloc());
    list.push(4)?;
    list.push(5)?;
    list.push(6)?;
    list.truncate(2);
    assert!(rt; list.copy(rt.alloc())? == list);
    assert_eq!(rt;
        (list.get(0).copied(), list.last().copied()),
        (Some(4), Some(5))
    );
    assert_eq!(rt; (list.pop(), list.len()), (Some(5), 1));
    Ok(())
}
