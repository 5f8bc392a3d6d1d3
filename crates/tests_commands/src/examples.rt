//! The systems of the examples, and what is told of them.
use crate::running::{BEFORE, carried_out, carried_out_over};
use std::test::Fail;

/// A system as it is shown: with a mistake, the plan that shows it, and the mended services.
struct Example {
    services: &'static [u8],
    mended: &'static [u8],
    test: &'static [u8],
    faults: &'static [u8],
    /// What the campaign over the services tells.
    found: &'static str,
    replay: &'static [&'static str],
    run: &'static str,
    /// What the campaign over the mended services tells.
    passed: &'static str,
    /// What the check of its report tells.
    checked: &'static str,
}

const EXAMPLES: &[Example] = &[
    Example {
        services: RETRIES,
        mended: RETRIES_MENDED,
        test: RETRIES_TEST,
        faults: RETRIES_FAULTS,
        found: "completed plans 6 run 6 pruned 0 failed 2 invs 8\nfirst failed plan 2\n",
        replay: &["--plan", "1.1/1.1=unavailable"],
        run: r#"1.1 checkout.pay err unavailable
1.1/1.1 bank.charge fault unavailable
outcome call_failed 1 unavailable
"#,
        passed: "completed plans 11 run 11 pruned 0 failed 0 invs 13\n",
        checked: "yes plans 11 run 11 pruned 0 failed 0 invs 13\n",
    },
    Example {
        services: FAN_OUT,
        mended: FAN_OUT_MENDED,
        test: FAN_OUT_TEST,
        faults: FAN_OUT_FAULTS,
        found: "completed plans 8 run 8 pruned 0 failed 1 invs 11\nfirst failed plan 1\n",
        replay: &["--plan", "1.1/1.1=timeout"],
        run: r#"1.1 search.find ok [3,1]
1.1/1.1 books.count fault timeout
1.1/2.1 films.count ok 2
1.1/3.1 songs.count ok 1
outcome assert_failed 1
"#,
        passed: "completed plans 8 run 8 pruned 0 failed 0 invs 11\n",
        checked: "yes plans 8 run 8 pruned 0 failed 0 invs 11\n",
    },
    Example {
        services: CACHE,
        mended: CACHE_MENDED,
        test: CACHE_TEST,
        faults: CACHE_FAULTS,
        found: "completed plans 6 run 6 pruned 0 failed 1 invs 9\nfirst failed plan 2\n",
        replay: &["--plan", "1.1/1.1=ok:x"],
        run: r#"1.1 api.user ok ""
1.1/1.1 cache.get fault ok ""
outcome assert_failed 1
"#,
        passed: "completed plans 7 run 7 pruned 0 failed 0 invs 10\n",
        checked: "yes plans 7 run 7 pruned 0 failed 0 invs 10\n",
    },
];

const CAMPAIGN: &[&str] = &[
    "test",
    "--services",
    "s.fb",
    "--test",
    "t.fb",
    "--faults",
    "f.toml",
    "--report",
    "r.jsonl",
];

const CHECK: &[&str] = &[
    "check",
    "--services",
    "s.fb",
    "--test",
    "t.fb",
    "--faults",
    "f.toml",
    "--report",
    "r.jsonl",
];

const REPLAY: &[&str] = &["replay", "--services", "s.fb", "--test", "t.fb"];

#[test]
fn examples_show_their_mistakes(rt: HostRuntime) -> Result<(), Fail> {
    for example in EXAMPLES {
        let sources = [example.services, example.test, example.faults];
        let done = carried_out(rt.alloc(), &[CAMPAIGN], &sources, &[], false)?;
        assert!(rt; done.tells(1, example.found), "{}", example.found);
        let done = carried_out(rt.alloc(), &[REPLAY, example.replay], &sources, &[], false)?;
        assert!(rt;
            done.tells(1, example.run) && done.leaves(&[BEFORE]),
            "{}",
            example.run
        );
    }
    Ok(())
}

#[test]
fn mended_examples_pass(rt: HostRuntime) -> Result<(), Fail> {
    for example in EXAMPLES {
        let sources = [example.mended, example.test, example.faults];
        let done = carried_out(rt.alloc(), &[CAMPAIGN], &sources, &[], false)?;
        assert!(rt; done.tells(0, example.passed), "{}", example.passed);
        let done = carried_out_over(rt.alloc(), &[CHECK], &sources, &[done.report()], &[], false)?;
        assert!(rt; done.tells(0, example.checked), "{}", example.checked);
    }
    Ok(())
}

// ---- the files of examples/

const RETRIES: &[u8] = br#"service checkout {
  method pay(order: int) -> text {
    let receipt = "";
    repeat 2 {
      let done = true;
      call receipt = bank.charge(order) on timeout {
        done = false;
      }
      if done {
        return receipt;
      }
    }
    call receipt = billing.invoice(order) on any {
      fail unpaid;
    }
    return receipt;
  }
}
service bank {
  method charge(order: int) -> text {
    return "charged";
  }
}
service billing {
  method invoice(order: int) -> text {
    return "invoiced";
  }
}
"#;

const RETRIES_MENDED: &[u8] = br#"service checkout {
  method pay(order: int) -> text {
    let receipt = "";
    repeat 2 {
      let done = true;
      call receipt = bank.charge(order) on any {
        done = false;
      }
      if done {
        return receipt;
      }
    }
    call receipt = billing.invoice(order) on any {
      fail unpaid;
    }
    return receipt;
  }
}
service bank {
  method charge(order: int) -> text {
    return "charged";
  }
}
service billing {
  method invoice(order: int) -> text {
    return "invoiced";
  }
}
"#;

const RETRIES_TEST: &[u8] = br#"test pay {
  let receipt = "";
  call receipt = checkout.pay(7) on unpaid {
    receipt = "unpaid";
  }
  assert receipt == "charged" or receipt == "invoiced" or receipt == "unpaid";
}
"#;

const RETRIES_FAULTS: &[u8] = br#"[[fault]]
callee = "bank"
codes = ["timeout", "unavailable"]

[[fault]]
callee = "billing"
codes = ["timeout"]
"#;

const FAN_OUT: &[u8] = br#"service search {
  method find(words: text) -> list<int> {
    let hits = 0;
    let found = 0;
    let whole = 1;
    call found = books.count(words) on any {
      found = 0;
    }
    hits = hits + found;
    call found = films.count(words) on any {
      found = 0;
      whole = 0;
    }
    hits = hits + found;
    call found = songs.count(words) on any {
      found = 0;
      whole = 0;
    }
    hits = hits + found;
    return list<int>[hits, whole];
  }
}
service books {
  method count(words: text) -> int {
    return 3;
  }
}
service films {
  method count(words: text) -> int {
    return 2;
  }
}
service songs {
  method count(words: text) -> int {
    return 1;
  }
}
"#;

const FAN_OUT_MENDED: &[u8] = br#"service search {
  method find(words: text) -> list<int> {
    let hits = 0;
    let found = 0;
    let whole = 1;
    call found = books.count(words) on any {
      found = 0;
      whole = 0;
    }
    hits = hits + found;
    call found = films.count(words) on any {
      found = 0;
      whole = 0;
    }
    hits = hits + found;
    call found = songs.count(words) on any {
      found = 0;
      whole = 0;
    }
    hits = hits + found;
    return list<int>[hits, whole];
  }
}
service books {
  method count(words: text) -> int {
    return 3;
  }
}
service films {
  method count(words: text) -> int {
    return 2;
  }
}
service songs {
  method count(words: text) -> int {
    return 1;
  }
}
"#;

const FAN_OUT_TEST: &[u8] = br#"test find {
  let page = list<int>[];
  call page = search.find("cats");
  assert page[0] == 6 or page[1] == 0;
}
"#;

const FAN_OUT_FAULTS: &[u8] = br#"[[fault]]
callee = "books"
codes = ["timeout"]

[[fault]]
callee = "films"
codes = ["timeout"]

[[fault]]
callee = "songs"
codes = ["timeout"]
"#;

const CACHE: &[u8] = br#"service api {
  method user(id: int) -> text {
    let name = "";
    call name = cache.get(id) on any {
      call name = store.get(id);
    }
    return name;
  }
}
service cache {
  method get(id: int) -> text {
    let name = "";
    call name = store.get(id);
    return name;
  }
}
service store {
  method get(id: int) -> text {
    return "Ada";
  }
}
"#;

const CACHE_MENDED: &[u8] = br#"service api {
  method user(id: int) -> text {
    let name = "";
    call name = cache.get(id) on any {
      call name = store.get(id);
    }
    if name == "" {
      call name = store.get(id);
    }
    return name;
  }
}
service cache {
  method get(id: int) -> text {
    let name = "";
    call name = store.get(id);
    return name;
  }
}
service store {
  method get(id: int) -> text {
    return "Ada";
  }
}
"#;

const CACHE_TEST: &[u8] = br#"test user {
  let name = "";
  call name = api.user(1) on any {
    name = "no answer";
  }
  assert name == "Ada" or name == "no answer";
}
"#;

const CACHE_FAULTS: &[u8] = br#"version = 2

[[fault]]
callee = "cache"
codes = ["timeout"]
values = [""]

[[fault]]
callee = "store"
codes = ["unavailable"]
"#;
