//! Lines of reports.

pub(crate) const HEADER: &str = r#"{"fuel":100000,"kind":"header","reduction":true,"version":1}
"#;

/// Of a campaign without reduction.
pub(crate) const NO_REDUCTION_HEADER: &str =
    r#"{"fuel":100000,"kind":"header","reduction":false,"version":1}
"#;

pub(crate) const PRICE_GET: &str =
    r#"{"args":[2],"calls":[],"id":0,"kind":"inv","method":"price.get","plan":0,"reply":{"ok":20},"steps":1}
"#;

pub(crate) const PRICE_PLAN: &str =
    r#"{"code":null,"id":0,"index":null,"kind":"plan","outcome":"passed","parent":null,"run":true,"uses":[0]}
"#;

pub(crate) const PRICE_END: &str =
    r#"{"cause":"completed","failed":0,"invs":1,"kind":"end","plans":1,"pruned":0,"run":1,"stopped":null}
"#;

pub(crate) const CART_TOTAL: &str =
    r#"{"args":[2],"calls":[{"args":[2],"callee":"price.get","count":1,"reply":{"ok":20},"site":1}],"id":0,"kind":"inv","method":"cart.total","plan":0,"reply":{"ok":20},"steps":3}
"#;

pub(crate) const CART_GET: &str =
    r#"{"args":[2],"calls":[],"id":1,"kind":"inv","method":"price.get","plan":0,"reply":{"ok":20},"steps":1}
"#;

pub(crate) const CART_PLAN: &str =
    r#"{"code":null,"id":0,"index":null,"kind":"plan","outcome":"passed","parent":null,"run":true,"uses":[0,1]}
"#;

pub(crate) const CART_TIMEOUT: &str =
    r#"{"args":[2],"calls":[{"args":[2],"callee":"price.get","count":1,"reply":{"err":"timeout"},"site":1}],"id":2,"kind":"inv","method":"cart.total","plan":1,"reply":{"ok":5},"steps":4}
"#;

pub(crate) const CART_TIMEOUT_PLAN: &str =
    r#"{"code":"timeout","id":1,"index":"1.1/1.1","kind":"plan","outcome":"passed","parent":0,"run":true,"uses":[2]}
"#;

pub(crate) const CART_END: &str =
    r#"{"cause":"completed","failed":0,"invs":3,"kind":"end","plans":2,"pruned":0,"run":2,"stopped":null}
"#;
