//! Acceptance: whether the names of a source are known, its kinds agree, its methods end, and no chain of its calls is
//! too deep.
//!
//! `check_services` and `check_test` answer Ok exactly where no rule is broken, and else the first one that is, with
//! its place. The crate stands on `fb_syntax`, whose trees it checks, on `fb_graph`, which gives ranks and cycles, and on
//! `fb_base`.
#![tactic(auto)]

mod binding;
mod bodies;
mod body_tables;
mod calls;
mod check;
mod checked_test;
mod context;
mod counting;
mod counts;
mod declarations;
mod declaring;
mod ends;
mod error;
mod expressions;
mod kinds;
mod laws;
mod lookup;
mod names;
mod naming;
mod owner;
mod parts;
mod place;
mod program;
mod scope;
mod signature;
mod signatures;
mod sites;
mod statements;
mod tables;
mod walk;

pub use check::{check_services, check_test};
pub use checked_test::CheckedTest;
pub use counts::Counts;
pub use error::{CheckError, CheckRule};
pub use laws::{
    acceptance_is_exact, counts_have_places, lookups_join, ranks_are_above_callees,
    sites_have_callees,
};
pub use place::Place;
pub use program::Program;
