/// A place in a file of services, or in a test.
///
/// Services, the methods of a service and the statements of a body are counted from 1, each in source order. A number
/// is 0 where there is none: a service as such has no method, and a test has neither service nor method.
#[derive(Debug, Clone, Copy, PartialEq, Eq)]
pub struct Place {
    pub service: u32,
    pub method: u32,
    pub statement: u32,
}
