//! The names in generated programs.
ghost use Rattle.std.specs.Prelude.{◌≡◌, ◌≤◌, codes};
ghost use Rattle.fb_gen.specs.Trees.{service_name};

use fb_base::Name;

/// The name of the service with this number.
pub fn service_name(service: u64) -> Name
    requires first { 1 ≤ service }
    requires last { service ≤ 12 }
    ensures { result ≡ service_name service }
{
    match service {
        1 => Name::read(b"s1").unwrap(),
        2 => Name::read(b"s2").unwrap(),
        3 => Name::read(b"s3").unwrap(),
        4 => Name::read(b"s4").unwrap(),
        5 => Name::read(b"s5").unwrap(),
        6 => Name::read(b"s6").unwrap(),
        7 => Name::read(b"s7").unwrap(),
        8 => Name::read(b"s8").unwrap(),
        9 => Name::read(b"s9").unwrap(),
        10 => Name::read(b"s10").unwrap(),
        11 => Name::read(b"s11").unwrap(),
        _ => Name::read(b"s12").unwrap(),
    }
}

/// The name of each service's one method.
pub fn method_name() -> Name
    ensures { result ≡ codes "m" }
{
    Name::read(b"m").unwrap()
}

/// The name of a method's parameter.
pub fn parameter() -> Name
    ensures { result ≡ codes "a" }
{
    Name::read(b"a").unwrap()
}

/// The variable that takes what a call gives.
pub fn reply() -> Name
    ensures { result ≡ codes "v" }
{
    Name::read(b"v").unwrap()
}

/// The variable with the sum so far.
pub fn total() -> Name
    ensures { result ≡ codes "t" }
{
    Name::read(b"t").unwrap()
}
