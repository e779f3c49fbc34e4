//! Histories of REGISTER requests of one user.
use crate::contacts::{Asks, Row, There};
use bindings::RegisterRefusal;

/// Two routers that translate addresses.
const HOME: [u8; 4] = [198, 51, 100, 7];

const OFFICE: [u8; 4] = [203, 0, 113, 5];

const NAME: &[u8] = b"<sip:bob@10.0.0.2:5070>";

const OTHER: &[u8] = b"<sip:bob@10.0.0.3>";

const MOVED: &[u8] = b"<sip:bob@10.0.0.4>";

const DESK: Option<&[u8]> = Some(b"<urn:uuid:desk>");

const HALL: Option<&[u8]> = Some(b"<urn:uuid:hall>");

const AT_HOME: Asks = Asks(NAME, None, None, (HOME, 41000), 600);

const AT_OFFICE: Asks = Asks(NAME, None, None, (OFFICE, 5060), 600);

/// One telephone: registered, the same request again, late ones, `*` as it may not stand, and `*`.
pub const ONE: &[Row] = &[
    Row {
        call_id: b"r1",
        cseq: 2,
        branch: b"b2",
        at: 1_000,
        star: None,
        contacts: &[AT_HOME],
        refusal: None,
        there: &[(NAME, 41000, 601_000)],
    },
    Row {
        call_id: b"r1",
        cseq: 2,
        branch: b"b2",
        at: 1_500,
        star: None,
        contacts: &[AT_HOME],
        refusal: None,
        there: &[(NAME, 41000, 601_000)],
    },
    Row {
        call_id: b"r1",
        cseq: 2,
        branch: b"b3",
        at: 2_000,
        star: None,
        contacts: &[AT_HOME],
        refusal: Some(RegisterRefusal::OutOfOrder),
        there: &[(NAME, 41000, 601_000)],
    },
    Row {
        call_id: b"r1",
        cseq: 1,
        branch: b"b4",
        at: 2_000,
        star: None,
        contacts: &[AT_HOME],
        refusal: Some(RegisterRefusal::OutOfOrder),
        there: &[(NAME, 41000, 601_000)],
    },
    Row {
        call_id: b"r1",
        cseq: 3,
        branch: b"b5",
        at: 2_000,
        star: Some(60),
        contacts: &[],
        refusal: Some(RegisterRefusal::Star),
        there: &[(NAME, 41000, 601_000)],
    },
    Row {
        call_id: b"r1",
        cseq: 3,
        branch: b"b5",
        at: 2_000,
        star: Some(0),
        contacts: &[AT_OFFICE],
        refusal: Some(RegisterRefusal::Star),
        there: &[(NAME, 41000, 601_000)],
    },
    Row {
        call_id: b"r1",
        cseq: 2,
        branch: b"b6",
        at: 2_000,
        star: Some(0),
        contacts: &[],
        refusal: Some(RegisterRefusal::OutOfOrder),
        there: &[(NAME, 41000, 601_000)],
    },
    Row {
        call_id: b"r1",
        cseq: 3,
        branch: b"b7",
        at: 2_000,
        star: Some(0),
        contacts: &[],
        refusal: None,
        there: &[],
    },
];

/// Two telephones with one private contact behind two routers; the second asks what is there, and the first goes.
pub const TWO: &[Row] = &[
    Row {
        call_id: b"r1",
        cseq: 2,
        branch: b"b1",
        at: 1_000,
        star: None,
        contacts: &[AT_HOME],
        refusal: None,
        there: &[(NAME, 41000, 601_000)],
    },
    Row {
        call_id: b"r2",
        cseq: 1,
        branch: b"b1",
        at: 2_000,
        star: None,
        contacts: &[AT_OFFICE],
        refusal: None,
        there: &[(NAME, 41000, 601_000), (NAME, 5060, 602_000)],
    },
    Row {
        call_id: b"r2",
        cseq: 2,
        branch: b"b2",
        at: 3_000,
        star: None,
        contacts: &[],
        refusal: None,
        there: &[(NAME, 41000, 601_000), (NAME, 5060, 602_000)],
    },
    Row {
        call_id: b"r1",
        cseq: 3,
        branch: b"b3",
        at: 4_000,
        star: None,
        contacts: &[Asks(NAME, None, None, (HOME, 41000), 0)],
        refusal: None,
        there: &[(NAME, 5060, 602_000)],
    },
];

/// What is asked for too briefly, twice, and past the end of what was there.
pub const TIMES: &[Row] = &[
    Row {
        call_id: b"r1",
        cseq: 1,
        branch: b"b1",
        at: 0,
        star: None,
        contacts: &[
            Asks(OTHER, None, None, (HOME, 41000), 600),
            Asks(NAME, None, None, (HOME, 41000), 59),
        ],
        refusal: Some(RegisterRefusal::TooBrief),
        there: &[],
    },
    Row {
        call_id: b"r1",
        cseq: 1,
        branch: b"b1",
        at: 0,
        star: None,
        contacts: &[AT_HOME, Asks(NAME, None, None, (HOME, 41001), 0)],
        refusal: Some(RegisterRefusal::Twice),
        there: &[],
    },
    Row {
        call_id: b"r1",
        cseq: 9,
        branch: b"b1",
        at: 0,
        star: None,
        contacts: &[Asks(NAME, None, None, (HOME, 41000), 60)],
        refusal: None,
        there: &[(NAME, 41000, 60_000)],
    },
    Row {
        call_id: b"r1",
        cseq: 8,
        branch: b"b2",
        at: 59_999,
        star: None,
        contacts: &[AT_HOME],
        refusal: Some(RegisterRefusal::OutOfOrder),
        there: &[(NAME, 41000, 60_000)],
    },
    Row {
        call_id: b"r1",
        cseq: 8,
        branch: b"b2",
        at: 60_000,
        star: None,
        contacts: &[AT_HOME],
        refusal: None,
        there: &[(NAME, 41000, 660_000)],
    },
];

/// Two telephones of one private contact behind one router, told apart by their instances; one of them moves, and has two registrations.
pub const INSTANCES: &[Row] = &[
    Row {
        call_id: b"r1",
        cseq: 1,
        branch: b"b1",
        at: 0,
        star: None,
        contacts: &[Asks(NAME, DESK, None, (HOME, 41000), 600)],
        refusal: None,
        there: &[(NAME, 41000, 600_000)],
    },
    Row {
        call_id: b"r2",
        cseq: 1,
        branch: b"b1",
        at: 0,
        star: None,
        contacts: &[Asks(NAME, HALL, None, (HOME, 41001), 600)],
        refusal: None,
        there: &[(NAME, 41000, 600_000), (NAME, 41001, 600_000)],
    },
    Row {
        call_id: b"r3",
        cseq: 1,
        branch: b"b1",
        at: 1_000,
        star: None,
        contacts: &[Asks(MOVED, DESK, None, (OFFICE, 5060), 600)],
        refusal: None,
        there: &[(MOVED, 5060, 601_000), (NAME, 41001, 600_000)],
    },
    Row {
        call_id: b"r4",
        cseq: 1,
        branch: b"b1",
        at: 2_000,
        star: None,
        contacts: &[Asks(MOVED, DESK, Some(b"2"), (OFFICE, 5062), 600)],
        refusal: None,
        there: &[
            (MOVED, 5060, 601_000),
            (NAME, 41001, 600_000),
            (MOVED, 5062, 602_000),
        ],
    },
];

/// A contact names the first binding alone, also where a second one is the same by another rule.
pub const FIRST_ALONE: &[Row] = &[
    Row {
        call_id: b"r1",
        cseq: 1,
        branch: b"b1",
        at: 0,
        star: None,
        contacts: &[AT_HOME],
        refusal: None,
        there: &[(NAME, 41000, 600_000)],
    },
    Row {
        call_id: b"r2",
        cseq: 1,
        branch: b"b1",
        at: 0,
        star: None,
        contacts: &[Asks(OTHER, DESK, None, (HOME, 41001), 600)],
        refusal: None,
        there: &[(NAME, 41000, 600_000), (OTHER, 41001, 600_000)],
    },
    Row {
        call_id: b"r3",
        cseq: 1,
        branch: b"b1",
        at: 0,
        star: None,
        contacts: &[Asks(NAME, DESK, None, (HOME, 41002), 600)],
        refusal: None,
        there: &[(NAME, 41002, 600_000), (OTHER, 41001, 600_000)],
    },
];

/// What is left of the contacts of the next table without the eighth.
const SIXTEEN: &[There] = &[
    (b"a", 1, 600_000),
    (b"b", 2, 600_000),
    (b"c", 3, 600_000),
    (b"d", 4, 600_000),
    (b"e", 5, 600_000),
    (b"f", 6, 600_000),
    (b"g", 7, 600_000),
    (b"i", 9, 600_000),
    (b"j", 10, 300_000),
    (b"k", 11, 600_000),
    (b"l", 12, 600_000),
    (b"m", 13, 600_000),
    (b"n", 14, 600_000),
    (b"o", 15, 600_000),
    (b"p", 16, 61_000),
    (b"q", 17, 61_000),
];

/// As many contacts as a user may have, the eighth of which ends first, no later than the tenth, and one more.
pub const MANY: &[Row] = &[
    Row {
        call_id: b"r1",
        cseq: 1,
        branch: b"b1",
        at: 0,
        star: None,
        contacts: &[
            Asks(b"a", None, None, (HOME, 1), 600),
            Asks(b"b", None, None, (HOME, 2), 600),
            Asks(b"c", None, None, (HOME, 3), 600),
            Asks(b"d", None, None, (HOME, 4), 600),
            Asks(b"e", None, None, (HOME, 5), 600),
            Asks(b"f", None, None, (HOME, 6), 600),
            Asks(b"g", None, None, (HOME, 7), 600),
            Asks(b"h", None, None, (HOME, 8), 300),
            Asks(b"i", None, None, (HOME, 9), 600),
            Asks(b"j", None, None, (HOME, 10), 300),
            Asks(b"k", None, None, (HOME, 11), 600),
            Asks(b"l", None, None, (HOME, 12), 600),
            Asks(b"m", None, None, (HOME, 13), 600),
            Asks(b"n", None, None, (HOME, 14), 600),
            Asks(b"o", None, None, (HOME, 15), 600),
        ],
        refusal: None,
        there: &[
            (b"a", 1, 600_000),
            (b"b", 2, 600_000),
            (b"c", 3, 600_000),
            (b"d", 4, 600_000),
            (b"e", 5, 600_000),
            (b"f", 6, 600_000),
            (b"g", 7, 600_000),
            (b"h", 8, 300_000),
            (b"i", 9, 600_000),
            (b"j", 10, 300_000),
            (b"k", 11, 600_000),
            (b"l", 12, 600_000),
            (b"m", 13, 600_000),
            (b"n", 14, 600_000),
            (b"o", 15, 600_000),
        ],
    },
    Row {
        call_id: b"r2",
        cseq: 1,
        branch: b"b1",
        at: 1_000,
        star: None,
        contacts: &[
            Asks(b"p", None, None, (HOME, 16), 60),
            Asks(b"q", None, None, (HOME, 17), 60),
        ],
        refusal: None,
        there: SIXTEEN,
    },
    Row {
        call_id: b"r3",
        cseq: 1,
        branch: b"b1",
        at: 1_000,
        star: None,
        contacts: &[AT_HOME; 17],
        refusal: Some(RegisterRefusal::TooMany),
        there: SIXTEEN,
    },
];
