//! The services, tests and fault files of more than one test.

pub(crate) const PRICE: &[u8] =
    b"service price {\n  method get(id: int) -> int {\n    return id * 10;\n  }\n}\n";

pub(crate) const PRICE_TEST: &[u8] =
    b"test one { let r = 0; call r = price.get(2); assert r == 20; }";

/// A method that calls another, and handles each of its errors.
pub(crate) const CART: &[u8] =
    b"service price { method get(id: int) -> int { return id * 10; } } service cart { method total(id: int) -> int { let p = 0; call p = price.get(id) on any { p = 5; } return p; } }";

pub(crate) const CART_TEST: &[u8] =
    b"test cart { let r = 0; call r = cart.total(2); assert r == 20 or injected; }";

/// The price isn't had in time.
pub(crate) const CART_FAULTS: &[u8] = b"[[fault]]\ncallee = \"price\"\ncodes = [\"timeout\"]\n";

/// A method that calls another once more where it was unavailable.
pub(crate) const RETRY: &[u8] =
    b"service price { method get(id: int) -> int { return id * 10; } } service shop { method buy(id: int) -> int { let p = 0; repeat 2 { let ok = true; call p = price.get(id) on unavailable { ok = false; } if ok { return p; } } fail unavailable; } }";

pub(crate) const RETRY_TEST: &[u8] =
    b"test buy { let r = 0; call r = shop.buy(2); assert r == 20; }";

/// Words that test services and report it.
pub(crate) const TEST: &[&str] = &[
    "test",
    "--services",
    "s.fb",
    "--test",
    "t.fb",
    "--report",
    "r.jsonl",
];

/// The option that names the faults.
pub(crate) const FAULTS: &[&str] = &["--faults", "f.toml"];

pub(crate) const FMT: &[&str] = &["fmt", "--services", "s.fb"];

/// The option of a campaign that runs each plan.
pub(crate) const NO_REDUCTION: &[&str] = &["--no-reduction"];

/// Eight services.
pub(crate) const SHOP: &[u8] = br#"
service web {
  method checkout(who: int, a: int, b: int) -> int {
    let ok = false;
    let sum = 0;
    let cost = 0;
    call ok = user.check(who);
    if not ok { fail refused; }
    call sum = cart.total(a, b);
    call sum = pay.charge(who, sum);
    call cost = ship.order(who, a);
    call ok = mail.send(who) on any { ok = false; }
    return sum + cost;
  }
}
service cart {
  method total(a: int, b: int) -> int {
    let x = 0;
    let y = 0;
    let ok = false;
    call x = price.get(a);
    call y = price.get(b);
    call ok = stock.take(a);
    return x + y;
  }
}
service price { method get(id: int) -> int { return id * 10; } }
service stock { method take(id: int) -> bool { return id > 0; } }
service user {
  method check(who: int) -> bool { return who > 0; }
  method name(who: int) -> text { return "Ada"; }
  method card(who: int) -> int { return who + 4000; }
  method address(who: int) -> text { return "1 Main Road"; }
}
service pay {
  method charge(who: int, sum: int) -> int {
    let card = 0;
    let ok = false;
    call card = user.card(who);
    call ok = mail.send(who) on any { ok = false; }
    return sum;
  }
}
service ship {
  method order(who: int, id: int) -> int {
    let ok = false;
    let cost = 0;
    let to = "";
    call ok = stock.take(id);
    call cost = price.get(9) on any { cost = 50; }
    call to = user.address(who);
    return cost;
  }
}
service mail {
  method send(who: int) -> bool {
    let n = "";
    call n = user.name(who) on any { n = "customer"; }
    return true;
  }
}
"#;

pub(crate) const SHOP_TEST: &[u8] =
    b"test shop { let r = 0; call r = web.checkout(7, 1, 2) on any { r = -1; } assert r > 0 or injected; }";

pub(crate) const SHOP_FAULTS: &[u8] = br#"
[[fault]]
callee = "cart"
codes = ["timeout", "unavailable", "refused"]
[[fault]]
callee = "price"
codes = ["timeout", "unavailable", "refused"]
[[fault]]
callee = "stock"
codes = ["timeout", "unavailable", "refused"]
[[fault]]
callee = "user"
codes = ["timeout", "unavailable", "refused"]
[[fault]]
callee = "pay"
codes = ["timeout", "unavailable", "refused"]
[[fault]]
callee = "ship"
codes = ["timeout", "unavailable", "refused"]
[[fault]]
callee = "mail"
codes = ["timeout", "unavailable", "refused"]
"#;
