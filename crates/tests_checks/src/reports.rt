//! Lines of reports, without their line feeds.

/// The report of the cart: its header, the two invocations of the first run, its plan, the one further invocation of the second
/// run, its plan, and the end.
pub(crate) const HEADER: &str = r#"{"fuel":100000,"kind":"header","reduction":true,"version":1}"#;

pub(crate) const TOTAL: &str =
    r#"{"args":[2],"calls":[{"args":[2],"callee":"price.get","count":1,"reply":{"ok":20},"site":1}],"id":0,"kind":"inv","method":"cart.total","plan":0,"reply":{"ok":20},"steps":3}"#;

pub(crate) const GET: &str =
    r#"{"args":[2],"calls":[],"id":1,"kind":"inv","method":"price.get","plan":0,"reply":{"ok":20},"steps":1}"#;

pub(crate) const PLAN: &str =
    r#"{"code":null,"id":0,"index":null,"kind":"plan","outcome":"passed","parent":null,"run":true,"uses":[0,1]}"#;

pub(crate) const TIMEOUT: &str =
    r#"{"args":[2],"calls":[{"args":[2],"callee":"price.get","count":1,"reply":{"err":"timeout"},"site":1}],"id":2,"kind":"inv","method":"cart.total","plan":1,"reply":{"ok":5},"steps":4}"#;

pub(crate) const TIMEOUT_PLAN: &str =
    r#"{"code":"timeout","id":1,"index":"1.1/1.1","kind":"plan","outcome":"passed","parent":0,"run":true,"uses":[2]}"#;

pub(crate) const END: &str =
    r#"{"cause":"completed","failed":0,"invs":3,"kind":"end","plans":2,"pruned":0,"run":2,"stopped":null}"#;

pub(crate) const CART_YES: &str = "yes plans 2 run 2 pruned 0 failed 0 invs 3";

/// The second plan's line where it was pruned, and the end then.
pub(crate) const PRUNED: &str =
    r#"{"code":"timeout","id":1,"index":"1.1/1.1","kind":"plan","outcome":"passed","parent":0,"run":false,"uses":[2]}"#;

pub(crate) const PRUNED_END: &str =
    r#"{"cause":"completed","failed":0,"invs":3,"kind":"end","plans":2,"pruned":1,"run":1,"stopped":null}"#;

/// The end where the first plan is the only one.
pub(crate) const FIRST_END: &str =
    r#"{"cause":"completed","failed":0,"invs":2,"kind":"end","plans":1,"pruned":0,"run":1,"stopped":null}"#;

/// A true record that no run has.
pub(crate) const UNUSED: &str =
    r#"{"args":[3],"calls":[],"id":3,"kind":"inv","method":"price.get","plan":0,"reply":{"ok":30},"steps":1}"#;

/// What the test that calls the cart twice adds: its plans and its end.
pub(crate) const TWICE_PLAN: &str =
    r#"{"code":null,"id":0,"index":null,"kind":"plan","outcome":"passed","parent":null,"run":true,"uses":[0,1,0,1]}"#;

pub(crate) const TWICE_FAILED: &str =
    r#"{"code":"timeout","id":1,"index":"1.1/1.1","kind":"plan","outcome":"assert_failed 1","parent":0,"run":true,"uses":[2]}"#;

pub(crate) const TWICE_PRUNED: &str =
    r#"{"code":"timeout","id":2,"index":"2.1/1.1","kind":"plan","outcome":"passed","parent":0,"run":false,"uses":[0,1,2]}"#;

pub(crate) const TWICE_END: &str =
    r#"{"cause":"completed","failed":1,"invs":3,"kind":"end","plans":3,"pruned":1,"run":2,"stopped":null}"#;

/// The last plan where it was run, though it brings no new record.
pub(crate) const TWICE_IDLE: &str =
    r#"{"code":"timeout","id":2,"index":"2.1/1.1","kind":"plan","outcome":"passed","parent":0,"run":true,"uses":[0,1,2]}"#;

pub(crate) const TWICE_IDLE_END: &str =
    r#"{"cause":"completed","failed":1,"invs":3,"kind":"end","plans":3,"pruned":0,"run":3,"stopped":null}"#;

/// The report of the shop: the two invocations of the first run, its plan, and of each further run an invocation and the plan.
pub(crate) const BUY: &str =
    r#"{"args":[2],"calls":[{"args":[2],"callee":"price.get","count":1,"reply":{"ok":20},"site":1}],"id":0,"kind":"inv","method":"shop.buy","plan":0,"reply":{"ok":20},"steps":7}"#;

pub(crate) const BUY_AGAIN: &str =
    r#"{"args":[2],"calls":[{"args":[2],"callee":"price.get","count":1,"reply":{"err":"unavailable"},"site":1},{"args":[2],"callee":"price.get","count":2,"reply":{"ok":20},"site":1}],"id":2,"kind":"inv","method":"shop.buy","plan":1,"reply":{"ok":20},"steps":12}"#;

pub(crate) const AGAIN_PLAN: &str =
    r#"{"code":"unavailable","id":1,"index":"1.1/1.1","kind":"plan","outcome":"passed","parent":0,"run":true,"uses":[2,1]}"#;

pub(crate) const BUY_NOTHING: &str =
    r#"{"args":[2],"calls":[{"args":[2],"callee":"price.get","count":1,"reply":{"err":"unavailable"},"site":1},{"args":[2],"callee":"price.get","count":2,"reply":{"err":"unavailable"},"site":1}],"id":3,"kind":"inv","method":"shop.buy","plan":2,"reply":{"err":"unavailable"},"steps":13}"#;

pub(crate) const NOTHING_PLAN: &str =
    r#"{"code":"unavailable","id":2,"index":"1.1/1.2","kind":"plan","outcome":"call_failed 1 unavailable","parent":1,"run":true,"uses":[3]}"#;

pub(crate) const BUY_END: &str =
    r#"{"cause":"completed","failed":1,"invs":4,"kind":"end","plans":3,"pruned":0,"run":3,"stopped":null}"#;

/// The report of the cart where faults may be values: its header, its plans, and the invocation and the end that differ.
pub(crate) const HEADER_2: &str = r#"{"fuel":100000,"kind":"header","reduction":true,"version":2}"#;

pub(crate) const PLAN_2: &str =
    r#"{"fault":null,"id":0,"index":null,"kind":"plan","outcome":"passed","parent":null,"run":true,"uses":[0,1]}"#;

pub(crate) const TIMEOUT_PLAN_2: &str =
    r#"{"fault":{"err":"timeout"},"id":1,"index":"1.1/1.1","kind":"plan","outcome":"passed","parent":0,"run":true,"uses":[2]}"#;

pub(crate) const ZERO: &str =
    r#"{"args":[2],"calls":[{"args":[2],"callee":"price.get","count":1,"reply":{"ok":0},"site":1}],"id":3,"kind":"inv","method":"cart.total","plan":2,"reply":{"ok":0},"steps":3}"#;

pub(crate) const ZERO_PLAN: &str =
    r#"{"fault":{"ok":0},"id":2,"index":"1.1/1.1","kind":"plan","outcome":"passed","parent":0,"run":true,"uses":[3]}"#;

pub(crate) const SAME_PLAN: &str =
    r#"{"fault":{"ok":20},"id":3,"index":"1.1/1.1","kind":"plan","outcome":"passed","parent":0,"run":false,"uses":[0]}"#;

pub(crate) const VALUES_END: &str =
    r#"{"cause":"completed","failed":0,"invs":4,"kind":"end","plans":4,"pruned":1,"run":3,"stopped":null}"#;
