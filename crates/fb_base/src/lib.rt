//! The small types that every crate shares: names, codes, kinds, values and their operators.
#![tactic(auto)]

mod arithmetic;
mod binary;
mod code;
mod duplicate;
mod equality;
mod hashing;
mod item;
mod items;
mod kind;
mod laws;
mod list;
mod literal;
mod method;
mod name;
mod operator;
mod reply;
mod steps;
mod text;
mod unary;
mod value;
mod weighed;

pub use binary::apply2;
pub use code::Code;
pub use duplicate::Duplicate;
pub use item::Item;
pub use items::Items;
pub use kind::Kind;
pub use laws::{
    law_of_division, law_of_kinds, law_of_proper_values, law_of_results, law_of_sameness,
    law_of_weights,
};
pub use list::List;
pub use literal::list_of;
pub use method::{MethodId, MethodName};
pub use name::{BadName, Name};
pub use operator::{Op1, Op2, OpError};
pub use reply::Reply;
pub use steps::Steps;
pub use text::{Text, TextError};
pub use unary::apply1;
pub use value::Value;
pub use weighed::Weighed;
