//! The texts of the rows, a printed row a line.

/// The certificate of the route of 10.0.0.0/8 by 192.0.2.1 alone.
pub const CERT_OF_TEN: &[&str] = &[
    "cert,leaf,0.0.0.0/5,none",
    "cert,leaf,8.0.0.0/7,none",
    "cert,leaf,10.0.0.0/8,192.0.2.1",
    "cert,leaf,11.0.0.0/8,none",
    "cert,join,10.0.0.0/7,1",
    "cert,join,8.0.0.0/6,1",
    "cert,leaf,12.0.0.0/6,none",
    "cert,join,8.0.0.0/5,1",
    "cert,join,0.0.0.0/4,1",
    "cert,leaf,16.0.0.0/4,none",
    "cert,join,0.0.0.0/3,1",
    "cert,leaf,32.0.0.0/3,none",
    "cert,join,0.0.0.0/2,1",
    "cert,leaf,64.0.0.0/2,none",
    "cert,join,0.0.0.0/1,1",
    "cert,leaf,128.0.0.0/1,none",
    "cert,join,0.0.0.0/0,1",
    "cert,bound,4,1",
    "cert,leaf,::/0,none",
    "cert,bound,6,0",
];

/// 10.0.0.0/8 by 192.0.2.1, and two answers.
pub const ROWS_OF_TEN: &[&[&str]] = &[
    &[
        "route,10.0.0.0/8,192.0.2.1",
        "change,0,+,10.0.0.0/8,192.0.2.1",
        "answer,10.1.2.3,192.0.2.1",
        "visits,10.1.2.3,0",
        "answer,11.0.0.1,none",
        "visits,11.0.0.1,0",
        "table,10.0.0.0/8,192.0.2.1",
        "least,10.0.0.0/8,192.0.2.1",
    ],
    CERT_OF_TEN,
    &[
        "report,records,2",
        "report,skipped,0",
        "report,events,1",
        "report,routes,1",
        "report,entries,1",
        "report,nodes,0",
        "report,leaves,0",
        "report,treated,0",
    ],
];

/// 10.0.0.0/8 by 192.0.2.1 and 10.1.0.0/16 by 192.0.2.2.
pub const ROWS_OF_BOTH: &[&[&str]] = &[&[
    "route,10.0.0.0/8,192.0.2.1",
    "route,10.1.0.0/16,192.0.2.2",
    "change,0,+,10.0.0.0/8,192.0.2.1",
    "change,0,+,10.1.0.0/16,192.0.2.2",
    "answer,10.1.2.3,192.0.2.2",
    "visits,10.1.2.3,0",
    "answer,10.2.0.1,192.0.2.1",
    "visits,10.2.0.1,0",
    "table,10.0.0.0/8,192.0.2.1",
    "table,10.1.0.0/16,192.0.2.2",
    "least,10.0.0.0/8,192.0.2.1",
    "least,10.1.0.0/16,192.0.2.2",
    "cert,leaf,0.0.0.0/5,none",
    "cert,leaf,8.0.0.0/7,none",
    "cert,leaf,10.0.0.0/16,192.0.2.1",
    "cert,leaf,10.1.0.0/16,192.0.2.2",
    "cert,join,10.0.0.0/15,1",
    "cert,leaf,10.2.0.0/15,192.0.2.1",
    "cert,join,10.0.0.0/14,1",
    "cert,leaf,10.4.0.0/14,192.0.2.1",
    "cert,join,10.0.0.0/13,1",
    "cert,leaf,10.8.0.0/13,192.0.2.1",
    "cert,join,10.0.0.0/12,1",
    "cert,leaf,10.16.0.0/12,192.0.2.1",
    "cert,join,10.0.0.0/11,1",
    "cert,leaf,10.32.0.0/11,192.0.2.1",
    "cert,join,10.0.0.0/10,1",
    "cert,leaf,10.64.0.0/10,192.0.2.1",
    "cert,join,10.0.0.0/9,1",
    "cert,leaf,10.128.0.0/9,192.0.2.1",
    "cert,join,10.0.0.0/8,1",
    "cert,leaf,11.0.0.0/8,none",
    "cert,join,10.0.0.0/7,2",
    "cert,join,8.0.0.0/6,2",
    "cert,leaf,12.0.0.0/6,none",
    "cert,join,8.0.0.0/5,2",
    "cert,join,0.0.0.0/4,2",
    "cert,leaf,16.0.0.0/4,none",
    "cert,join,0.0.0.0/3,2",
    "cert,leaf,32.0.0.0/3,none",
    "cert,join,0.0.0.0/2,2",
    "cert,leaf,64.0.0.0/2,none",
    "cert,join,0.0.0.0/1,2",
    "cert,leaf,128.0.0.0/1,none",
    "cert,join,0.0.0.0/0,2",
    "cert,bound,4,2",
    "cert,leaf,::/0,none",
    "cert,bound,6,0",
    "report,records,4",
    "report,skipped,1",
    "report,events,2",
    "report,routes,2",
    "report,entries,2",
    "report,nodes,0",
    "report,leaves,0",
    "report,treated,0",
]];

/// 2001:db8::/32 by 2001:db8::1.
pub const ROWS_OF_SIX: &[&[&str]] = &[&[
    "route,2001:db8::/32,2001:db8::1",
    "change,0,+,2001:db8::/32,2001:db8::1",
    "answer,2001:db8::5,2001:db8::1",
    "visits,2001:db8::5,3",
    "answer,::,none",
    "visits,::,0",
    "table,2001:db8::/32,2001:db8::1",
    "least,2001:db8::/32,2001:db8::1",
    "cert,leaf,0.0.0.0/0,none",
    "cert,bound,4,0",
    "cert,leaf,::/3,none",
    "cert,leaf,2000::/16,none",
    "cert,leaf,2001::/21,none",
    "cert,leaf,2001:800::/22,none",
    "cert,leaf,2001:c00::/24,none",
    "cert,leaf,2001:d00::/25,none",
    "cert,leaf,2001:d80::/27,none",
    "cert,leaf,2001:da0::/28,none",
    "cert,leaf,2001:db0::/29,none",
    "cert,leaf,2001:db8::/32,2001:db8::1",
    "cert,leaf,2001:db9::/32,none",
    "cert,join,2001:db8::/31,1",
    "cert,leaf,2001:dba::/31,none",
    "cert,join,2001:db8::/30,1",
    "cert,leaf,2001:dbc::/30,none",
    "cert,join,2001:db8::/29,1",
    "cert,join,2001:db0::/28,1",
    "cert,join,2001:da0::/27,1",
    "cert,join,2001:d80::/26,1",
    "cert,leaf,2001:dc0::/26,none",
    "cert,join,2001:d80::/25,1",
    "cert,join,2001:d00::/24,1",
    "cert,join,2001:c00::/23,1",
    "cert,leaf,2001:e00::/23,none",
    "cert,join,2001:c00::/22,1",
    "cert,join,2001:800::/21,1",
    "cert,join,2001::/20,1",
    "cert,leaf,2001:1000::/20,none",
    "cert,join,2001::/19,1",
    "cert,leaf,2001:2000::/19,none",
    "cert,join,2001::/18,1",
    "cert,leaf,2001:4000::/18,none",
    "cert,join,2001::/17,1",
    "cert,leaf,2001:8000::/17,none",
    "cert,join,2001::/16,1",
    "cert,join,2000::/15,1",
    "cert,leaf,2002::/15,none",
    "cert,join,2000::/14,1",
    "cert,leaf,2004::/14,none",
    "cert,join,2000::/13,1",
    "cert,leaf,2008::/13,none",
    "cert,join,2000::/12,1",
    "cert,leaf,2010::/12,none",
    "cert,join,2000::/11,1",
    "cert,leaf,2020::/11,none",
    "cert,join,2000::/10,1",
    "cert,leaf,2040::/10,none",
    "cert,join,2000::/9,1",
    "cert,leaf,2080::/9,none",
    "cert,join,2000::/8,1",
    "cert,leaf,2100::/8,none",
    "cert,join,2000::/7,1",
    "cert,leaf,2200::/7,none",
    "cert,join,2000::/6,1",
    "cert,leaf,2400::/6,none",
    "cert,join,2000::/5,1",
    "cert,leaf,2800::/5,none",
    "cert,join,2000::/4,1",
    "cert,leaf,3000::/4,none",
    "cert,join,2000::/3,1",
    "cert,join,::/2,1",
    "cert,leaf,4000::/2,none",
    "cert,join,::/1,1",
    "cert,leaf,8000::/1,none",
    "cert,join,::/0,1",
    "cert,bound,6,1",
    "report,records,2",
    "report,skipped,0",
    "report,events,1",
    "report,routes,1",
    "report,entries,1",
    "report,nodes,3",
    "report,leaves,6",
    "report,treated,0",
]];

/// The certificate of 10.0.0.0/8 by the second next hop.
pub const CERT_OF_OTHER_HOP: &[&str] = &[
    "cert,leaf,0.0.0.0/5,none",
    "cert,leaf,8.0.0.0/7,none",
    "cert,leaf,10.0.0.0/8,192.0.2.2",
    "cert,leaf,11.0.0.0/8,none",
    "cert,join,10.0.0.0/7,1",
    "cert,join,8.0.0.0/6,1",
    "cert,leaf,12.0.0.0/6,none",
    "cert,join,8.0.0.0/5,1",
    "cert,join,0.0.0.0/4,1",
    "cert,leaf,16.0.0.0/4,none",
    "cert,join,0.0.0.0/3,1",
    "cert,leaf,32.0.0.0/3,none",
    "cert,join,0.0.0.0/2,1",
    "cert,leaf,64.0.0.0/2,none",
    "cert,join,0.0.0.0/1,1",
    "cert,leaf,128.0.0.0/1,none",
    "cert,join,0.0.0.0/0,1",
    "cert,bound,4,1",
    "cert,leaf,::/0,none",
    "cert,bound,6,0",
];

/// The counts of a replaced path.
pub const COUNTS_OF_LONGER: &[&str] = &[
    "report,records,3",
    "report,skipped,0",
    "report,events,3",
    "report,routes,1",
    "report,entries,1",
    "report,nodes,0",
    "report,leaves,0",
    "report,treated,0",
];

/// 10.0.0.0/8 goes over to 192.0.2.2, since the first peer's path has become longer.
pub const ROWS_OF_LONGER: &[&[&str]] = &[
    &[
        "route,10.0.0.0/8,192.0.2.2",
        "change,0,+,10.0.0.0/8,192.0.2.1",
        "change,1,=,10.0.0.0/8,192.0.2.2",
        "table,10.0.0.0/8,192.0.2.2",
        "least,10.0.0.0/8,192.0.2.2",
    ],
    CERT_OF_OTHER_HOP,
    COUNTS_OF_LONGER,
];

/// The counts of a route that is gone and back.
pub const COUNTS_OF_GONE_AND_BACK: &[&str] = &[
    "report,records,3",
    "report,skipped,0",
    "report,events,3",
    "report,routes,1",
    "report,entries,1",
    "report,nodes,0",
    "report,leaves,0",
    "report,treated,0",
];

/// 10.0.0.0/8 is withdrawn and announced again.
pub const ROWS_OF_GONE_AND_BACK: &[&[&str]] = &[
    &[
        "route,10.0.0.0/8,192.0.2.1",
        "change,0,+,10.0.0.0/8,192.0.2.1",
        "change,1,-,10.0.0.0/8",
        "change,2,+,10.0.0.0/8,192.0.2.1",
        "table,10.0.0.0/8,192.0.2.1",
        "least,10.0.0.0/8,192.0.2.1",
    ],
    CERT_OF_TEN,
    COUNTS_OF_GONE_AND_BACK,
];

/// The certificate of no routes.
pub const CERT_OF_NOTHING: &[&str] = &[
    "cert,leaf,0.0.0.0/0,none",
    "cert,bound,4,0",
    "cert,leaf,::/0,none",
    "cert,bound,6,0",
];

/// The counts of a lost session.
pub const COUNTS_OF_LOST: &[&str] = &[
    "report,records,5",
    "report,skipped,0",
    "report,events,4",
    "report,routes,0",
    "report,entries,0",
    "report,nodes,0",
    "report,leaves,0",
    "report,treated,0",
];

/// All routes go with their peer's session.
pub const ROWS_OF_LOST: &[&[&str]] = &[
    &[
        "change,0,+,10.0.0.0/8,192.0.2.1",
        "change,0,+,10.1.0.0/16,192.0.2.2",
        "change,1,-,10.0.0.0/8",
        "change,2,-,10.1.0.0/16",
    ],
    CERT_OF_NOTHING,
    COUNTS_OF_LOST,
];

/// 10.0.0.0/8 by the lesser peer, since a set counts as one.
pub const ROWS_OF_SET: &[&[&str]] = &[
    &[
        "route,10.0.0.0/8,192.0.2.1",
        "change,0,+,10.0.0.0/8,192.0.2.1",
        "table,10.0.0.0/8,192.0.2.1",
        "least,10.0.0.0/8,192.0.2.1",
    ],
    CERT_OF_TEN,
    &[
        "report,records,2",
        "report,skipped,0",
        "report,events,2",
        "report,routes,1",
        "report,entries,1",
        "report,nodes,0",
        "report,leaves,0",
        "report,treated,0",
    ],
];

/// Four quarters by two next hops in turns: both are best for the whole, and the least is taken.
pub const ROWS_OF_TIE: &[&[&str]] = &[&[
    "route,0.0.0.0/2,192.0.2.1",
    "route,64.0.0.0/2,192.0.2.2",
    "route,128.0.0.0/2,192.0.2.1",
    "route,192.0.0.0/2,192.0.2.2",
    "change,0,+,0.0.0.0/0,192.0.2.1",
    "change,0,+,64.0.0.0/2,192.0.2.2",
    "change,0,+,192.0.0.0/2,192.0.2.2",
    "table,0.0.0.0/0,192.0.2.1",
    "table,64.0.0.0/2,192.0.2.2",
    "table,192.0.0.0/2,192.0.2.2",
    "least,0.0.0.0/0,192.0.2.1",
    "least,64.0.0.0/2,192.0.2.2",
    "least,192.0.0.0/2,192.0.2.2",
    "cert,leaf,0.0.0.0/2,192.0.2.1",
    "cert,leaf,64.0.0.0/2,192.0.2.2",
    "cert,join,0.0.0.0/1,1",
    "cert,leaf,128.0.0.0/2,192.0.2.1",
    "cert,leaf,192.0.0.0/2,192.0.2.2",
    "cert,join,128.0.0.0/1,1",
    "cert,join,0.0.0.0/0,2",
    "cert,bound,4,3",
    "cert,leaf,::/0,none",
    "cert,bound,6,0",
    "report,records,5",
    "report,skipped,0",
    "report,events,4",
    "report,routes,4",
    "report,entries,3",
    "report,nodes,0",
    "report,leaves,0",
    "report,treated,0",
]];

/// Seven eighths by one next hop: a drop entry for the last is cheaper than seven.
pub const ROWS_OF_DROP: &[&[&str]] = &[&[
    "route,0.0.0.0/3,192.0.2.1",
    "route,32.0.0.0/3,192.0.2.1",
    "route,64.0.0.0/3,192.0.2.1",
    "route,96.0.0.0/3,192.0.2.1",
    "route,128.0.0.0/3,192.0.2.1",
    "route,160.0.0.0/3,192.0.2.1",
    "route,192.0.0.0/3,192.0.2.1",
    "change,0,+,0.0.0.0/0,192.0.2.1",
    "change,0,+,224.0.0.0/3,drop",
    "table,0.0.0.0/0,192.0.2.1",
    "table,224.0.0.0/3,drop",
    "least,0.0.0.0/0,192.0.2.1",
    "least,224.0.0.0/3,drop",
    "cert,leaf,0.0.0.0/1,192.0.2.1",
    "cert,leaf,128.0.0.0/2,192.0.2.1",
    "cert,leaf,192.0.0.0/3,192.0.2.1",
    "cert,leaf,224.0.0.0/3,none",
    "cert,join,192.0.0.0/2,1",
    "cert,join,128.0.0.0/1,1",
    "cert,join,0.0.0.0/0,1",
    "cert,bound,4,2",
    "cert,leaf,::/0,none",
    "cert,bound,6,0",
    "report,records,8",
    "report,skipped,0",
    "report,events,7",
    "report,routes,7",
    "report,entries,2",
    "report,nodes,0",
    "report,leaves,0",
    "report,treated,0",
]];

/// Two halves by one next hop.
pub const ROWS_OF_MEET: &[&[&str]] = &[&[
    "route,0.0.0.0/1,192.0.2.1",
    "route,128.0.0.0/1,192.0.2.1",
    "change,0,+,0.0.0.0/0,192.0.2.1",
    "table,0.0.0.0/0,192.0.2.1",
    "least,0.0.0.0/0,192.0.2.1",
    "cert,leaf,0.0.0.0/0,192.0.2.1",
    "cert,bound,4,1",
    "cert,leaf,::/0,none",
    "cert,bound,6,0",
    "report,records,3",
    "report,skipped,0",
    "report,events,2",
    "report,routes,2",
    "report,entries,1",
    "report,nodes,0",
    "report,leaves,0",
    "report,treated,0",
]];

/// 10.0.0.0/8 and 10.1.0.0/16 by one next hop: the kept table needs the first alone.
pub const ROWS_OF_REDUNDANT: &[&[&str]] = &[
    &[
        "route,10.0.0.0/8,192.0.2.1",
        "route,10.1.0.0/16,192.0.2.1",
        "change,0,+,10.0.0.0/8,192.0.2.1",
        "table,10.0.0.0/8,192.0.2.1",
        "least,10.0.0.0/8,192.0.2.1",
    ],
    CERT_OF_TEN,
    &[
        "report,records,3",
        "report,skipped,0",
        "report,events,2",
        "report,routes,2",
        "report,entries,1",
        "report,nodes,0",
        "report,leaves,0",
        "report,treated,0",
    ],
];

/// The counts of two halves with an entry each.
pub const COUNTS_OF_TWO_ENTRIES: &[&str] = &[
    "report,records,3",
    "report,skipped,0",
    "report,events,2",
    "report,routes,2",
    "report,entries,2",
    "report,nodes,0",
    "report,leaves,0",
    "report,treated,0",
];

/// The other half comes by the same next hop: without a snapshot the kept table has both halves.
pub const ROWS_OF_REPAIR: &[&[&str]] = &[
    HALVES_ROUTES,
    &[
        "change,1,+,128.0.0.0/1,192.0.2.1",
        "table,0.0.0.0/1,192.0.2.1",
        "table,128.0.0.0/1,192.0.2.1",
    ],
    CERT_OF_HALVES,
    COUNTS_OF_TWO_ENTRIES,
];

/// The counts of two halves with one entry.
pub const COUNTS_OF_ONE_ENTRY: &[&str] = &[
    "report,records,3",
    "report,skipped,0",
    "report,events,2",
    "report,routes,2",
    "report,entries,1",
    "report,nodes,0",
    "report,leaves,0",
    "report,treated,0",
];

/// A snapshot after that makes the kept table least: its changes come after those of the repair.
pub const ROWS_OF_SNAPSHOT: &[&[&str]] = &[
    HALVES_ROUTES,
    &[
        "change,1,+,128.0.0.0/1,192.0.2.1",
        "change,1,+,0.0.0.0/0,192.0.2.1",
        "change,1,-,0.0.0.0/1",
        "change,1,-,128.0.0.0/1",
        "table,0.0.0.0/0,192.0.2.1",
    ],
    CERT_OF_HALVES,
    COUNTS_OF_ONE_ENTRY,
];

/// Of four quarters the first is withdrawn, and a snapshot follows: in steady order. In that of prefixes 0.0.0.0/0 would be replaced
/// before 128.0.0.0/2 is there, which would go elsewhere meanwhile.
pub const ROWS_IN_STEADY_ORDER: &[&[&str]] = &[&[
    "route,64.0.0.0/2,192.0.2.2",
    "route,128.0.0.0/2,192.0.2.1",
    "route,192.0.0.0/2,192.0.2.2",
    "change,0,+,64.0.0.0/2,192.0.2.2",
    "change,0,+,192.0.0.0/2,192.0.2.2",
    "change,0,+,0.0.0.0/0,192.0.2.1",
    "change,1,+,0.0.0.0/2,drop",
    "change,1,+,128.0.0.0/2,192.0.2.1",
    "change,1,=,0.0.0.0/0,192.0.2.2",
    "change,1,-,64.0.0.0/2",
    "change,1,-,192.0.0.0/2",
    "table,0.0.0.0/0,192.0.2.2",
    "table,0.0.0.0/2,drop",
    "table,128.0.0.0/2,192.0.2.1",
    "least,0.0.0.0/0,192.0.2.2",
    "least,0.0.0.0/2,drop",
    "least,128.0.0.0/2,192.0.2.1",
    "cert,leaf,0.0.0.0/2,none",
    "cert,leaf,64.0.0.0/2,192.0.2.2",
    "cert,join,0.0.0.0/1,1",
    "cert,leaf,128.0.0.0/2,192.0.2.1",
    "cert,leaf,192.0.0.0/2,192.0.2.2",
    "cert,join,128.0.0.0/1,1",
    "cert,join,0.0.0.0/0,2",
    "cert,bound,4,3",
    "cert,leaf,::/0,none",
    "cert,bound,6,0",
    "report,records,6",
    "report,skipped,0",
    "report,events,5",
    "report,routes,3",
    "report,entries,3",
    "report,nodes,0",
    "report,leaves,0",
    "report,treated,0",
]];

/// With the fewest changes asked for, 0.0.0.0/0 gets another hop: one change, while a repair makes five.
pub const ROWS_OF_FEWEST: &[&[&str]] = &[&[
    "route,0.0.0.0/0,192.0.2.3",
    "route,64.0.0.0/2,192.0.2.2",
    "route,192.0.0.0/2,192.0.2.2",
    "change,0,+,0.0.0.0/0,192.0.2.1",
    "change,0,+,64.0.0.0/2,192.0.2.2",
    "change,0,+,192.0.0.0/2,192.0.2.2",
    "change,1,=,0.0.0.0/0,192.0.2.3",
    "moves,1,1",
    "table,0.0.0.0/0,192.0.2.3",
    "table,64.0.0.0/2,192.0.2.2",
    "table,192.0.0.0/2,192.0.2.2",
    "least,0.0.0.0/0,192.0.2.3",
    "least,64.0.0.0/2,192.0.2.2",
    "least,192.0.0.0/2,192.0.2.2",
    "cert,leaf,0.0.0.0/2,192.0.2.3",
    "cert,leaf,64.0.0.0/2,192.0.2.2",
    "cert,join,0.0.0.0/1,1",
    "cert,leaf,128.0.0.0/2,192.0.2.3",
    "cert,leaf,192.0.0.0/2,192.0.2.2",
    "cert,join,128.0.0.0/1,1",
    "cert,join,0.0.0.0/0,2",
    "cert,bound,4,3",
    "cert,leaf,::/0,none",
    "cert,bound,6,0",
    "report,records,5",
    "report,skipped,0",
    "report,events,4",
    "report,routes,3",
    "report,entries,3",
    "report,nodes,0",
    "report,leaves,0",
    "report,treated,0",
]];

/// With the fewest changes asked for, 0.0.0.0/0 is withdrawn, which nothing is sent by: none is needed.
pub const ROWS_OF_NO_CHANGE: &[&[&str]] = &[&[
    "route,0.0.0.0/1,192.0.2.2",
    "route,128.0.0.0/1,192.0.2.2",
    "change,0,+,0.0.0.0/0,192.0.2.2",
    "moves,1,0",
    "table,0.0.0.0/0,192.0.2.2",
    "least,0.0.0.0/0,192.0.2.2",
    "cert,leaf,0.0.0.0/0,192.0.2.2",
    "cert,bound,4,1",
    "cert,leaf,::/0,none",
    "cert,bound,6,0",
    "report,records,5",
    "report,skipped,0",
    "report,events,4",
    "report,routes,2",
    "report,entries,1",
    "report,nodes,0",
    "report,leaves,0",
    "report,treated,0",
]];

/// The same after a second event, which changes nothing.
pub const ROWS_OF_LATER_SNAPSHOT: &[&[&str]] = &[
    HALVES_ROUTES,
    &[
        "change,1,+,128.0.0.0/1,192.0.2.1",
        "change,2,+,0.0.0.0/0,192.0.2.1",
        "change,2,-,0.0.0.0/1",
        "change,2,-,128.0.0.0/1",
        "table,0.0.0.0/0,192.0.2.1",
    ],
    CERT_OF_HALVES,
    &[
        "report,records,4",
        "report,skipped,0",
        "report,events,3",
        "report,routes,2",
        "report,entries,1",
        "report,nodes,0",
        "report,leaves,0",
        "report,treated,0",
    ],
];

/// Two halves by one next hop, of which the load had the first.
pub const HALVES_ROUTES: &[&str] = &[
    "route,0.0.0.0/1,192.0.2.1",
    "route,128.0.0.0/1,192.0.2.1",
    "change,0,+,0.0.0.0/1,192.0.2.1",
];

/// Their least table and its certificate.
pub const CERT_OF_HALVES: &[&str] = &[
    "least,0.0.0.0/0,192.0.2.1",
    "cert,leaf,0.0.0.0/0,192.0.2.1",
    "cert,bound,4,1",
    "cert,leaf,::/0,none",
    "cert,bound,6,0",
];

/// The certificate of all addresses by one next hop, and the upper half by another.
pub const CERT_OF_KEPT_HOP: &[&str] = &[
    "cert,leaf,0.0.0.0/1,192.0.2.2",
    "cert,leaf,128.0.0.0/1,192.0.2.1",
    "cert,join,0.0.0.0/0,1",
    "cert,bound,4,2",
    "cert,leaf,::/0,none",
    "cert,bound,6,0",
];

/// The counts of an old hop that is kept.
pub const COUNTS_OF_KEPT_HOP: &[&str] = &[
    "report,records,3",
    "report,skipped,0",
    "report,events,3",
    "report,routes,2",
    "report,entries,2",
    "report,nodes,0",
    "report,leaves,0",
    "report,treated,0",
];

/// The old entry's hop is best, and stays, though the other was seen first.
pub const ROWS_OF_KEPT_HOP: &[&[&str]] = &[
    &[
        "route,0.0.0.0/0,192.0.2.2",
        "route,128.0.0.0/1,192.0.2.1",
        "change,0,+,0.0.0.0/0,192.0.2.2",
        "change,1,+,128.0.0.0/1,192.0.2.1",
        "table,0.0.0.0/0,192.0.2.2",
        "table,128.0.0.0/1,192.0.2.1",
        "least,0.0.0.0/0,192.0.2.2",
        "least,128.0.0.0/1,192.0.2.1",
    ],
    CERT_OF_KEPT_HOP,
    COUNTS_OF_KEPT_HOP,
];

/// None and a next hop are both best: none comes first.
pub const ROWS_OF_DROP_BEFORE_HOP: &[&[&str]] = &[&[
    "route,0.0.0.0/1,192.0.2.1",
    "route,128.0.0.0/2,192.0.2.1",
    "route,224.0.0.0/3,192.0.2.2",
    "change,0,+,0.0.0.0/0,192.0.2.1",
    "change,0,+,192.0.0.0/2,drop",
    "change,0,+,224.0.0.0/3,192.0.2.2",
    "table,0.0.0.0/0,192.0.2.1",
    "table,192.0.0.0/2,drop",
    "table,224.0.0.0/3,192.0.2.2",
    "least,0.0.0.0/0,192.0.2.1",
    "least,192.0.0.0/2,drop",
    "least,224.0.0.0/3,192.0.2.2",
    "cert,leaf,0.0.0.0/1,192.0.2.1",
    "cert,leaf,128.0.0.0/2,192.0.2.1",
    "cert,leaf,192.0.0.0/3,none",
    "cert,leaf,224.0.0.0/3,192.0.2.2",
    "cert,join,192.0.0.0/2,1",
    "cert,join,128.0.0.0/1,2",
    "cert,join,0.0.0.0/0,2",
    "cert,bound,4,3",
    "cert,leaf,::/0,none",
    "cert,bound,6,0",
    "report,records,4",
    "report,skipped,0",
    "report,events,3",
    "report,routes,3",
    "report,entries,3",
    "report,nodes,0",
    "report,leaves,0",
    "report,treated,0",
]];

/// The routes of a whole printed text.
pub const TIE_ROUTES: &[&str] = &[
    "route,0.0.0.0/2,192.0.2.1",
    "route,64.0.0.0/2,192.0.2.2",
    "route,128.0.0.0/2,192.0.2.1",
    "route,192.0.0.0/2,192.0.2.2",
];

/// Its changes and its table.
pub const TIE_CHANGES: &[&str] = &[
    "change,0,+,0.0.0.0/0,192.0.2.1",
    "change,0,+,64.0.0.0/2,192.0.2.2",
    "change,0,+,192.0.0.0/2,192.0.2.2",
    "table,0.0.0.0/0,192.0.2.1",
    "table,64.0.0.0/2,192.0.2.2",
    "table,192.0.0.0/2,192.0.2.2",
];

/// Its least table.
pub const TIE_LEAST: &[&str] = &[
    "least,0.0.0.0/0,192.0.2.1",
    "least,64.0.0.0/2,192.0.2.2",
    "least,192.0.0.0/2,192.0.2.2",
];

/// Its certificate but for the end.
pub const TIE_LEAVES: &[&str] = &[
    "cert,leaf,0.0.0.0/2,192.0.2.1",
    "cert,leaf,64.0.0.0/2,192.0.2.2",
    "cert,join,0.0.0.0/1,1",
    "cert,leaf,128.0.0.0/2,192.0.2.1",
    "cert,leaf,192.0.0.0/2,192.0.2.2",
    "cert,join,128.0.0.0/1,1",
];

/// The end of its certificate, and its counts.
pub const TIE_BOUNDS: &[&str] = &[
    "cert,join,0.0.0.0/0,2",
    "cert,bound,4,3",
    "cert,leaf,::/0,none",
    "cert,bound,6,0",
    "report,records,5",
    "report,skipped,0",
    "report,events,4",
    "report,routes,4",
    "report,entries,3",
    "report,nodes,0",
    "report,leaves,0",
    "report,treated,0",
    "report,nodes,0",
    "report,leaves,0",
];

/// The least table with the other hop for the upper quarter.
pub const WRONG_LEAST: &[&str] = &[
    "least,0.0.0.0/0,192.0.2.1",
    "least,64.0.0.0/2,192.0.2.2",
    "least,192.0.0.0/2,192.0.2.1",
];

/// The end of the certificate, whose join says 1 where 2 is due.
pub const WRONG_JOIN: &[&str] = &[
    "cert,join,0.0.0.0/0,1",
    "cert,bound,4,3",
    "cert,leaf,::/0,none",
    "cert,bound,6,0",
];

/// The certificate of no routes.
pub const CERTIFICATE_OF_NONE: &[&str] = &[
    "cert,leaf,0.0.0.0/0,none",
    "cert,bound,4,0",
    "cert,leaf,::/0,none",
    "cert,bound,6,0",
];

/// A whole printed text: routes, their changes, a table, a least table, its certificate and counts.
pub const PRINTED_TIE: &[&[&str]] = &[TIE_ROUTES, TIE_CHANGES, TIE_LEAST, TIE_LEAVES, TIE_BOUNDS];

/// The second path of 10.0.0.0/8 when the first is withdrawn.
pub const ROWS_OF_OTHER_PATH: &[&[&str]] = &[&[
    "route,10.0.0.0/8,192.0.2.2",
    "change,0,+,10.0.0.0/8,192.0.2.1",
    "change,1,=,10.0.0.0/8,192.0.2.2",
    "table,10.0.0.0/8,192.0.2.2",
    "least,10.0.0.0/8,192.0.2.2",
    "cert,leaf,0.0.0.0/5,none",
    "cert,leaf,8.0.0.0/7,none",
    "cert,leaf,10.0.0.0/8,192.0.2.2",
    "cert,leaf,11.0.0.0/8,none",
    "cert,join,10.0.0.0/7,1",
    "cert,join,8.0.0.0/6,1",
    "cert,leaf,12.0.0.0/6,none",
    "cert,join,8.0.0.0/5,1",
    "cert,join,0.0.0.0/4,1",
    "cert,leaf,16.0.0.0/4,none",
    "cert,join,0.0.0.0/3,1",
    "cert,leaf,32.0.0.0/3,none",
    "cert,join,0.0.0.0/2,1",
    "cert,leaf,64.0.0.0/2,none",
    "cert,join,0.0.0.0/1,1",
    "cert,leaf,128.0.0.0/1,none",
    "cert,join,0.0.0.0/0,1",
    "cert,bound,4,1",
    "cert,leaf,::/0,none",
    "cert,bound,6,0",
    "report,records,3",
    "report,skipped,0",
    "report,events,3",
    "report,routes,1",
    "report,entries,1",
    "report,nodes,0",
    "report,leaves,0",
    "report,treated,0",
]];

/// Both paths are lost with the session.
pub const ROWS_OF_LOST_PATHS: &[&[&str]] = &[&[
    "change,0,+,10.0.0.0/8,192.0.2.1",
    "change,1,=,10.0.0.0/8,192.0.2.2",
    "change,2,-,10.0.0.0/8",
    "cert,leaf,0.0.0.0/0,none",
    "cert,bound,4,0",
    "cert,leaf,::/0,none",
    "cert,bound,6,0",
    "report,records,3",
    "report,skipped,0",
    "report,events,4",
    "report,routes,0",
    "report,entries,0",
    "report,nodes,0",
    "report,leaves,0",
    "report,treated,0",
]];

/// A path that isn't there is withdrawn.
pub const ROWS_OF_NO_SUCH_PATH: &[&[&str]] = &[&[
    "route,10.0.0.0/8,192.0.2.1",
    "change,0,+,10.0.0.0/8,192.0.2.1",
    "table,10.0.0.0/8,192.0.2.1",
    "least,10.0.0.0/8,192.0.2.1",
    "cert,leaf,0.0.0.0/5,none",
    "cert,leaf,8.0.0.0/7,none",
    "cert,leaf,10.0.0.0/8,192.0.2.1",
    "cert,leaf,11.0.0.0/8,none",
    "cert,join,10.0.0.0/7,1",
    "cert,join,8.0.0.0/6,1",
    "cert,leaf,12.0.0.0/6,none",
    "cert,join,8.0.0.0/5,1",
    "cert,join,0.0.0.0/4,1",
    "cert,leaf,16.0.0.0/4,none",
    "cert,join,0.0.0.0/3,1",
    "cert,leaf,32.0.0.0/3,none",
    "cert,join,0.0.0.0/2,1",
    "cert,leaf,64.0.0.0/2,none",
    "cert,join,0.0.0.0/1,1",
    "cert,leaf,128.0.0.0/1,none",
    "cert,join,0.0.0.0/0,1",
    "cert,bound,4,1",
    "cert,leaf,::/0,none",
    "cert,bound,6,0",
    "report,records,3",
    "report,skipped,0",
    "report,events,2",
    "report,routes,1",
    "report,entries,1",
    "report,nodes,0",
    "report,leaves,0",
    "report,treated,0",
]];

/// A message treated as a withdrawal.
pub const ROWS_OF_TREATED: &[&[&str]] = &[&[
    "change,0,+,10.0.0.0/8,192.0.2.1",
    "change,1,-,10.0.0.0/8",
    "cert,leaf,0.0.0.0/0,none",
    "cert,bound,4,0",
    "cert,leaf,::/0,none",
    "cert,bound,6,0",
    "report,records,3",
    "report,skipped,0",
    "report,events,3",
    "report,routes,0",
    "report,entries,0",
    "report,nodes,0",
    "report,leaves,0",
    "report,treated,1",
]];

/// Of one made route, and no update.
pub const REPORT_OF_ONE_MADE: &[&str] = &[
    "report,records,2",
    "report,skipped,0",
    "report,events,1",
    "report,routes,1",
    "report,entries,1",
    "report,nodes,0",
    "report,leaves,0",
    "report,treated,0",
];

/// Of 200 routes made of the number 7, and their 100 updates.
pub const REPORT_OF_MADE: &[&str] = &[
    "report,records,301",
    "report,skipped,0",
    "report,events,300",
    "report,routes,180",
    "report,entries,179",
    "report,nodes,110",
    "report,leaves,291",
    "report,treated,0",
];
