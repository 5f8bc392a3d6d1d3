//! The texts of a number and a size.

use fb_gen::{GenError, Generated, generate};

const TEST: &str = "test trial {
  let r = 0;
  call r = s1.m(1);
  assert r > 0 or injected;
}
";

// the first service handles the failure of the other one
const TWO_SERVICES: &str = "service s1 {
  method m(a: int) -> int {
    let t = a;
    let v = 0;
    call v = s2.m(a + 1) on any {
      v = 0;
    }
    t = t + v;
    return t;
  }
}
service s2 {
  method m(a: int) -> int {
    let t = a;
    let v = 0;
    return t;
  }
}
";

const TWO_FAULTS: &str = "[[fault]]
callee = \"s2\"
codes = [\"timeout\"]

";

// the first service calls the other two, and handles nothing
const THREE_SERVICES: &str = "service s1 {
  method m(a: int) -> int {
    let t = a;
    let v = 0;
    call v = s2.m(a + 1);
    t = t + v;
    call v = s3.m(a + 1);
    t = t + v;
    return t;
  }
}
service s2 {
  method m(a: int) -> int {
    let t = a;
    let v = 0;
    return t;
  }
}
service s3 {
  method m(a: int) -> int {
    let t = a;
    let v = 0;
    return t;
  }
}
";

const THREE_FAULTS: &str = "[[fault]]
callee = \"s2\"
codes = [\"timeout\"]

[[fault]]
callee = \"s3\"
codes = [\"timeout\"]

";

fn is_generated(made: Result<Generated, GenError>, services: &str, faults: &str) -> bool {
    match made {
        Ok(texts) => {
            texts.services.as_str() == services
                && texts.test.as_str() == TEST
                && texts.faults.as_str() == faults
        }
        Err(_) => false,
    }
}

fn is_bad_size(made: Result<Generated, GenError>) -> bool {
    match made {
        Ok(_) => false,
        Err(why) => why == GenError::BadSize,
    }
}

#[test]
fn texts_are_those_of_the_number(rt: HostRuntime) {
    let two = generate(rt.alloc(), 0, 2);
    assert!(rt; is_generated(two, TWO_SERVICES, TWO_FAULTS));
    // what divides the number without a remainder changes nothing
    let far = generate(rt.alloc(), 65_537, 2);
    assert!(rt; is_generated(far, TWO_SERVICES, TWO_FAULTS));
    let three = generate(rt.alloc(), 7, 3);
    assert!(rt; is_generated(three, THREE_SERVICES, THREE_FAULTS));
}

#[test]
fn sizes_are_1_to_12(rt: HostRuntime) {
    assert!(rt; generate(rt.alloc(), 7, 12).is_ok());
    assert!(rt; generate(rt.alloc(), 7, 1).is_ok());
    assert!(rt; is_bad_size(generate(rt.alloc(), 7, 0)));
    assert!(rt; is_bad_size(generate(rt.alloc(), 7, 13)));
    assert!(rt; is_bad_size(generate(rt.alloc(), 7, 4_294_967_295)));
}
