use fb_check::{CheckedTest, Program};
use std::alloc::Global;

/// What the lines of a report are judged by.
#[derive(Clone, Copy)]
pub struct Grounds<'a> {
    pub alloc: Global,
    pub program: &'a Program,
    pub test: &'a CheckedTest,
}
