//! The kinds that operators take and give.
ghost use Rattle.std.specs.Prelude.{◌≡◌};
ghost use Rattle.fb_base.specs.Kinds.{kind_of_unary, kind_of_binary, kind_of_ints, kind_of_equality, kind_of_join, kind_of_place};

use fb_base::{Kind, Op1, Op2};

/// The kind that an operator gives for an operand of a kind, or none where it doesn't fit.
#[tactic(auto, unfolding(fb_base::specs::Kinds::kind_of_unary))]
pub fn kind_of_unary(op: Op1, operand: Kind) -> Option<Kind>
    ensures { result ≡ kind_of_unary op operand }
{
    match (op, operand) {
        (Op1::Neg, Kind::Int) => Some(Kind::Int),
        (Op1::Not, Kind::Bool) => Some(Kind::Bool),
        (Op1::Len, Kind::Text) => Some(Kind::Int),
        (Op1::Len, Kind::Ints) => Some(Kind::Int),
        (Op1::Len, Kind::Bools) => Some(Kind::Int),
        (Op1::Len, Kind::Texts) => Some(Kind::Int),
        _ => None,
    }
}

/// The same for two operands.
#[tactic(auto, unfolding(fb_base::specs::Kinds::kind_of_binary))]
pub fn kind_of_binary(op: Op2, left: Kind, right: Kind) -> Option<Kind>
    ensures { result ≡ kind_of_binary op left right }
{
    match op {
        Op2::Add | Op2::Sub | Op2::Mul | Op2::Div | Op2::Rem => of_ints(Kind::Int, left, right),
        Op2::Lt | Op2::Le | Op2::Gt | Op2::Ge => of_ints(Kind::Bool, left, right),
        Op2::Eq | Op2::Ne => of_equality(left, right),
        Op2::Join => of_join(left, right),
        Op2::At => of_place(left, right),
    }
}

fn of_ints(given: Kind, left: Kind, right: Kind) -> Option<Kind>
    ensures { result ≡ kind_of_ints given left right }
{
    match (left, right) {
        (Kind::Int, Kind::Int) => Some(given),
        _ => None,
    }
}

fn of_equality(left: Kind, right: Kind) -> Option<Kind>
    ensures { result ≡ kind_of_equality left right }
{
    match (left, right) {
        (Kind::Int, Kind::Int)
        | (Kind::Bool, Kind::Bool)
        | (Kind::Text, Kind::Text)
        | (Kind::Ints, Kind::Ints)
        | (Kind::Bools, Kind::Bools)
        | (Kind::Texts, Kind::Texts) => Some(Kind::Bool),
        _ => None,
    }
}

fn of_join(left: Kind, right: Kind) -> Option<Kind>
    ensures { result ≡ kind_of_join left right }
{
    match (left, right) {
        (Kind::Text, Kind::Text) => Some(Kind::Text),
        (Kind::Ints, Kind::Ints) => Some(Kind::Ints),
        (Kind::Bools, Kind::Bools) => Some(Kind::Bools),
        (Kind::Texts, Kind::Texts) => Some(Kind::Texts),
        _ => None,
    }
}

fn of_place(list: Kind, place: Kind) -> Option<Kind>
    ensures { result ≡ kind_of_place list place }
{
    match (list, place) {
        (Kind::Ints, Kind::Int) => Some(Kind::Int),
        (Kind::Bools, Kind::Int) => Some(Kind::Bool),
        (Kind::Texts, Kind::Int) => Some(Kind::Text),
        _ => None,
    }
}
