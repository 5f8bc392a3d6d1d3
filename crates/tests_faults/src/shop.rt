//! The services that the fault files of these tests name.
use fb_check::{Program, check_services};
use fb_syntax::parse_services;
use std::alloc::Global;

/// Two methods that give an int, two of different kinds, one that gives a list, and a service without methods. Its methods
/// are numbered from 0 on: `price.get`, `price.last`, `stock.has`, `stock.name`, `shelf.all`.
const SERVICES: &str = "
    service price { method get(id: int) -> int { return id; } method last() -> int { return 1; } }
    service stock { method has(id: int) -> bool { return true; } method name() -> text { return \"a\"; } }
    service shelf { method all() -> list<int> { return list<int>[]; } }
    service bare { }";

pub fn shop(alloc: Global) -> Option<Program> {
    let Ok(services) = parse_services(alloc, SERVICES.as_bytes()) else {
        return None;
    };
    check_services(alloc, services).ok()
}
