//! Records, and what follows in them.
use crate::recorded::{Call, Place, Row};

/// What follows some replies.
pub enum Wanted {
    Asks { at: Place, callee: u32 },
    /// The end of the record that stands at this place of a table.
    Ends(usize),
    Nothing,
}

/// A method, arguments and replies, and what follows.
pub struct Case {
    pub method: u32,
    pub args: &'static [i64],
    pub got: &'static [Option<i64>],
    pub wanted: Wanted,
}

/// All records of a front that calls `b` and `c`, each of which calls one more service, where any call may time out.
pub const TEN: &[Row] = &[
    Row {
        method: 0,
        args: &[],
        calls: &[
            Call {
                at: Place::First,
                callee: 1,
                got: Some(1),
            },
            Call {
                at: Place::Second,
                callee: 2,
                got: Some(1),
            },
        ],
        gives: Some(2),
        steps: 5,
    },
    Row {
        method: 1,
        args: &[],
        calls: &[Call {
            at: Place::First,
            callee: 3,
            got: Some(1),
        }],
        gives: Some(1),
        steps: 3,
    },
    Row {
        method: 3,
        args: &[],
        calls: &[],
        gives: Some(1),
        steps: 1,
    },
    Row {
        method: 2,
        args: &[],
        calls: &[Call {
            at: Place::First,
            callee: 4,
            got: Some(1),
        }],
        gives: Some(1),
        steps: 3,
    },
    Row {
        method: 4,
        args: &[],
        calls: &[],
        gives: Some(1),
        steps: 1,
    },
    Row {
        method: 0,
        args: &[],
        calls: &[
            Call {
                at: Place::First,
                callee: 1,
                got: None,
            },
            Call {
                at: Place::Second,
                callee: 2,
                got: Some(1),
            },
        ],
        gives: Some(1),
        steps: 6,
    },
    Row {
        method: 1,
        args: &[],
        calls: &[Call {
            at: Place::First,
            callee: 3,
            got: None,
        }],
        gives: None,
        steps: 2,
    },
    Row {
        method: 0,
        args: &[],
        calls: &[
            Call {
                at: Place::First,
                callee: 1,
                got: Some(1),
            },
            Call {
                at: Place::Second,
                callee: 2,
                got: None,
            },
        ],
        gives: Some(1),
        steps: 6,
    },
    Row {
        method: 2,
        args: &[],
        calls: &[Call {
            at: Place::First,
            callee: 4,
            got: None,
        }],
        gives: None,
        steps: 2,
    },
    Row {
        method: 0,
        args: &[],
        calls: &[
            Call {
                at: Place::First,
                callee: 1,
                got: None,
            },
            Call {
                at: Place::Second,
                callee: 2,
                got: None,
            },
        ],
        gives: Some(0),
        steps: 7,
    },
];

/// What follows in the ten, after all replies that some of them got, and after others.
pub const IN_TEN: &[Case] = &[
    Case {
        method: 0,
        args: &[],
        got: &[],
        wanted: Wanted::Asks {
            at: Place::First,
            callee: 1,
        },
    },
    Case {
        method: 0,
        args: &[],
        got: &[Some(1)],
        wanted: Wanted::Asks {
            at: Place::Second,
            callee: 2,
        },
    },
    Case {
        method: 0,
        args: &[],
        got: &[None],
        wanted: Wanted::Asks {
            at: Place::Second,
            callee: 2,
        },
    },
    Case {
        method: 0,
        args: &[],
        got: &[Some(1), Some(1)],
        wanted: Wanted::Ends(0),
    },
    Case {
        method: 0,
        args: &[],
        got: &[None, Some(1)],
        wanted: Wanted::Ends(5),
    },
    Case {
        method: 0,
        args: &[],
        got: &[Some(1), None],
        wanted: Wanted::Ends(7),
    },
    Case {
        method: 0,
        args: &[],
        got: &[None, None],
        wanted: Wanted::Ends(9),
    },
    Case {
        method: 0,
        args: &[],
        got: &[Some(2)],
        wanted: Wanted::Nothing,
    },
    Case {
        method: 0,
        args: &[],
        got: &[Some(1), Some(2)],
        wanted: Wanted::Nothing,
    },
    Case {
        method: 0,
        args: &[],
        got: &[Some(1), Some(1), Some(1)],
        wanted: Wanted::Nothing,
    },
    Case {
        method: 0,
        args: &[1],
        got: &[],
        wanted: Wanted::Nothing,
    },
    Case {
        method: 1,
        args: &[],
        got: &[],
        wanted: Wanted::Asks {
            at: Place::First,
            callee: 3,
        },
    },
    Case {
        method: 1,
        args: &[],
        got: &[Some(1)],
        wanted: Wanted::Ends(1),
    },
    Case {
        method: 1,
        args: &[],
        got: &[None],
        wanted: Wanted::Ends(6),
    },
    // Another method on the same arguments, whose calls got the same replies.
    Case {
        method: 2,
        args: &[],
        got: &[],
        wanted: Wanted::Asks {
            at: Place::First,
            callee: 4,
        },
    },
    Case {
        method: 2,
        args: &[],
        got: &[Some(1)],
        wanted: Wanted::Ends(3),
    },
    Case {
        method: 2,
        args: &[],
        got: &[None],
        wanted: Wanted::Ends(8),
    },
    Case {
        method: 3,
        args: &[],
        got: &[],
        wanted: Wanted::Ends(2),
    },
    Case {
        method: 3,
        args: &[],
        got: &[Some(1)],
        wanted: Wanted::Nothing,
    },
    Case {
        method: 4,
        args: &[],
        got: &[],
        wanted: Wanted::Ends(4),
    },
    Case {
        method: 5,
        args: &[],
        got: &[],
        wanted: Wanted::Nothing,
    },
];

/// Methods and arguments that got the same replies, after which one is at its end and others go on.
pub const APART: &[Row] = &[
    Row {
        method: 0,
        args: &[1],
        calls: &[Call {
            at: Place::First,
            callee: 1,
            got: Some(1),
        }],
        gives: Some(1),
        steps: 3,
    },
    Row {
        method: 0,
        args: &[2],
        calls: &[
            Call {
                at: Place::First,
                callee: 1,
                got: Some(1),
            },
            Call {
                at: Place::Again,
                callee: 2,
                got: Some(1),
            },
        ],
        gives: Some(2),
        steps: 4,
    },
    Row {
        method: 0,
        args: &[1, 2],
        calls: &[],
        gives: Some(3),
        steps: 1,
    },
    Row {
        method: 1,
        args: &[1],
        calls: &[
            Call {
                at: Place::Second,
                callee: 3,
                got: Some(1),
            },
            Call {
                at: Place::Second,
                callee: 3,
                got: None,
            },
        ],
        gives: None,
        steps: 5,
    },
    // The same method on the same arguments, where the second call gets what the first one got.
    Row {
        method: 0,
        args: &[2],
        calls: &[
            Call {
                at: Place::First,
                callee: 1,
                got: None,
            },
            Call {
                at: Place::Again,
                callee: 1,
                got: Some(1),
            },
        ],
        gives: Some(2),
        steps: 4,
    },
];

pub const IN_APART: &[Case] = &[
    Case {
        method: 0,
        args: &[1],
        got: &[Some(1)],
        wanted: Wanted::Ends(0),
    },
    Case {
        method: 0,
        args: &[2],
        got: &[Some(1)],
        wanted: Wanted::Asks {
            at: Place::Again,
            callee: 2,
        },
    },
    Case {
        method: 0,
        args: &[2],
        got: &[None],
        wanted: Wanted::Asks {
            at: Place::Again,
            callee: 1,
        },
    },
    Case {
        method: 0,
        args: &[1, 2],
        got: &[],
        wanted: Wanted::Ends(2),
    },
    Case {
        method: 0,
        args: &[2, 1],
        got: &[],
        wanted: Wanted::Nothing,
    },
    Case {
        method: 0,
        args: &[],
        got: &[],
        wanted: Wanted::Nothing,
    },
    Case {
        method: 1,
        args: &[1],
        got: &[],
        wanted: Wanted::Asks {
            at: Place::Second,
            callee: 3,
        },
    },
    Case {
        method: 1,
        args: &[1],
        got: &[Some(1), None],
        wanted: Wanted::Ends(3),
    },
    Case {
        method: 1,
        args: &[2],
        got: &[],
        wanted: Wanted::Nothing,
    },
    Case {
        method: 0,
        args: &[2],
        got: &[None, Some(1)],
        wanted: Wanted::Ends(4),
    },
    Case {
        method: 0,
        args: &[2],
        got: &[Some(1), Some(1)],
        wanted: Wanted::Ends(1),
    },
];
