//! Scripts, and what their replay prints (RFC 3261 sections 16.6, 16.7 and 16.10).
use crate::play::{holds_refused, play};
use fork_program::ProgFault;
use std::test::Fail;

/// Which answer goes up.
pub const BEST: [(&str, &str); 10] = [
    (
        "kind INVITE\ntarget 1000 a\nanswer 0 404\n",
        "opening start 0\n0 start - cancel - up final 404 0\nfork 3 1\nprefer 401,407,415,420,484\ndepth 256\ntarget 0 - 1000 stored 404 0 received\nrank 404 0 0\nfinal 404 0\n",
    ),
    (
        "kind INVITE\ntarget 1000 a\ntarget 1000 b\ntarget 1000 c\ntarget 1000 d\nanswer 0 503\nanswer 1 407\nanswer 2 501\nanswer 3 404\n",
        "opening start 0,1,2,3\n0 start - cancel - up -\n1 start - cancel - up -\n2 start - cancel - up -\n3 start - cancel - up final 407 1\nfork 3 4\nprefer 401,407,415,420,484\ndepth 256\ntarget 0 - 1000 stored 503 0 received\ntarget 1 - 1000 stored 407 1 received\ntarget 2 - 1000 stored 501 2 received\ntarget 3 - 1000 stored 404 3 received\nrank 407 1 1\nrank 404 3 3\nrank 501 2 2\nrank 503 0 0\nfinal 407 1\n",
    ),
    (
        "kind INVITE\ntarget 1000 a\ntarget 1000 b\nanswer 0 486\nanswer 1 404\n",
        "opening start 0,1\n0 start - cancel - up -\n1 start - cancel - up final 486 0\nfork 3 2\nprefer 401,407,415,420,484\ndepth 256\ntarget 0 - 1000 stored 486 0 received\ntarget 1 - 1000 stored 404 1 received\nrank 486 0 0\nrank 404 1 1\nfinal 486 0\n",
    ),
    (
        "kind INVITE\ntarget 1000 a\ntarget 1000 b\nanswer 0 503\nanswer 1 503\n",
        "opening start 0,1\n0 start - cancel - up -\n1 start - cancel - up final 500 0\nfork 3 2\nprefer 401,407,415,420,484\ndepth 256\ntarget 0 - 1000 stored 503 0 received\ntarget 1 - 1000 stored 503 1 received\nrank 503 0 0\nrank 503 1 1\nfinal 500 0\n",
    ),
    (
        "kind INVITE\ntarget 1000 a\ntarget 1000 b\nanswer 0 503\nanswer 1 501\n",
        "opening start 0,1\n0 start - cancel - up -\n1 start - cancel - up final 501 1\nfork 3 2\nprefer 401,407,415,420,484\ndepth 256\ntarget 0 - 1000 stored 503 0 received\ntarget 1 - 1000 stored 501 1 received\nrank 501 1 1\nrank 503 0 0\nfinal 501 1\n",
    ),
    (
        "kind INVITE\ntarget 1000 a\nfault 0\n",
        "opening start 0\n0 start - cancel - up final 500 0\nfork 3 1\nprefer 401,407,415,420,484\ndepth 256\ntarget 0 - 1000 stored 503 0 assumed\nrank 503 0 0\nfinal 500 0\n",
    ),
    (
        "kind INVITE\ntarget 1000 a\ntarget 1000 b\nfault 0\nanswer 1 404\n",
        "opening start 0,1\n0 start - cancel - up -\n1 start - cancel - up final 404 1\nfork 3 2\nprefer 401,407,415,420,484\ndepth 256\ntarget 0 - 1000 stored 503 0 assumed\ntarget 1 - 1000 stored 404 1 received\nrank 404 1 1\nrank 503 0 0\nfinal 404 1\n",
    ),
    (
        "kind INVITE\nprefer 404,486\ntarget 1000 a\ntarget 1000 b\nanswer 0 407\nanswer 1 404\n",
        "opening start 0,1\n0 start - cancel - up -\n1 start - cancel - up final 404 1\nfork 3 2\nprefer 404,486\ndepth 256\ntarget 0 - 1000 stored 407 0 received\ntarget 1 - 1000 stored 404 1 received\nrank 404 1 1\nrank 407 0 0\nfinal 404 1\n",
    ),
    (
        "kind INVITE\nprefer -\ndepth 256\ntarget 1000 a\ntarget 1000 b\nanswer 0 404\nanswer 1 407\n",
        "opening start 0,1\n0 start - cancel - up -\n1 start - cancel - up final 404 0\nfork 3 2\nprefer -\ndepth 256\ntarget 0 - 1000 stored 404 0 received\ntarget 1 - 1000 stored 407 1 received\nrank 404 0 0\nrank 407 1 1\nfinal 404 0\n",
    ),
    (
        "kind INVITE\ntarget 1000 a\ntarget 500 b\nanswer 1 404\ngiveup 0\nanswer 9 404\nanswer 0 404\nanswer 0 486\nanswer 1 486\n",
        "opening start 0\n0 start - cancel - up -\n1 start - cancel - up -\n2 start - cancel - up -\n3 start 1 cancel - up -\n4 start - cancel - up -\n5 start - cancel - up final 404 0\nfork 3 2\nprefer 401,407,415,420,484\ndepth 256\ntarget 0 - 1000 stored 404 3 received\ntarget 1 - 500 stored 486 5 received\nrank 404 0 3\nrank 486 1 5\nfinal 404 0\n",
    ),
];

/// A 6xx, a 2xx and a CANCEL close the fork; branches that are cancelled.
pub const CLOSING: [(&str, &str); 12] = [
    (
        "kind INVITE\ntarget 1000 a\ntarget 1000 b\ntarget 1000 c\nring 2 180\nanswer 0 401\nanswer 1 603\nanswer 2 487\n",
        "opening start 0,1,2\n0 start - cancel - up provisional 2\n1 start - cancel - up -\n2 start - cancel 2 up -\n3 start - cancel - up final 603 1\nfork 3 3\nprefer 401,407,415,420,484\ndepth 256\ntarget 0 - 1000 stored 401 1 received\ntarget 1 - 1000 stored 603 2 received\ntarget 2 - 1000 stored 487 3 received\nrank 603 1 2\nrank 401 0 1\nrank 487 2 3\nfinal 603 1\n",
    ),
    (
        "kind INVITE\ntarget 1000 a\ntarget 1000 b\nring 1 180\nanswer 0 603\nanswer 1 200\n",
        "opening start 0,1\n0 start - cancel - up provisional 1\n1 start - cancel 1 up -\n2 start - cancel - up success 1\nsucceeded\n",
    ),
    (
        "kind INVITE\ntarget 1000 a\nring 0 180\ncancel\ngiveup 0\n",
        "opening start 0\n0 start - cancel - up provisional 0\n1 start - cancel 0 up -\n2 start - cancel - up final 408 -\nfork 3 1\nprefer 401,407,415,420,484\ndepth 256\ntarget 0 - 1000 silent 2\nfinal 408 -\n",
    ),
    (
        "kind INVITE\ntarget 1000 a\ntarget 500 b\nanswer 0 404\ntimeout 1\n",
        "opening start 0\n0 start 1 cancel - up -\n1 start - cancel - up final 404 0\nfork 3 2\nprefer 401,407,415,420,484\ndepth 256\ntarget 0 - 1000 stored 404 0 received\ntarget 1 - 500 stored 408 1 assumed\nrank 404 0 0\nrank 408 1 1\nfinal 404 0\n",
    ),
    (
        "kind INVITE\ntarget 1000 a\ntarget 500 b\nanswer 0 603\n",
        "opening start 0\n0 start - cancel - up final 603 0\nfork 3 2\nprefer 401,407,415,420,484\ndepth 256\ntarget 0 - 1000 stored 603 0 received\ntarget 1 - 500 never\nrank 603 0 0\nfinal 603 0\n",
    ),
    (
        "kind INVITE\ntarget 1000 a\ncancel\nring 0 180\nanswer 0 487\n",
        "opening start 0\n0 start - cancel - up -\n1 start - cancel 0 up provisional 0\n2 start - cancel - up final 487 0\nfork 3 1\nprefer 401,407,415,420,484\ndepth 256\ntarget 0 - 1000 stored 487 2 received\nrank 487 0 2\nfinal 487 0\n",
    ),
    (
        "kind INVITE\ntarget 1000 a\ntimerc 0\n",
        "opening start 0\n0 start - cancel - up final 408 0\nfork 3 1\nprefer 401,407,415,420,484\ndepth 256\ntarget 0 - 1000 stored 408 0 assumed\nrank 408 0 0\nfinal 408 0\n",
    ),
    (
        "kind INVITE\ntarget 1000 a\nring 0 180\ntimerc 0\n",
        "opening start 0\n0 start - cancel - up provisional 0\n1 start - cancel 0 up -\nunfinished 1\n",
    ),
    (
        "kind INVITE\ntarget 1000 a\nring 0 100\n",
        "opening start 0\n0 start - cancel - up -\nunfinished 1\n",
    ),
    (
        "kind OTHER\ntarget 1000 a\ntarget 1000 b\ncancel\nanswer 0 200\nanswer 1 200\n",
        "opening start 0,1\n0 start - cancel - up -\n1 start - cancel - up success 0\n2 start - cancel - up -\nsucceeded\n",
    ),
    (
        "kind INVITE\ntarget 1000 a\ntarget 1000 b\nanswer 0 200\nanswer 1 200\nanswer 1 200\n",
        "opening start 0,1\n0 start - cancel - up success 0\n1 start - cancel - up success 1\n2 start - cancel - up success 1\nsucceeded\n",
    ),
    (
        "kind INVITE\ntarget 1000 a\ntarget 500 b\n",
        "opening start 0\nunfinished 2\n",
    ),
];

/// The contacts of a 3xx.
pub const CONTACTS: [(&str, &str); 7] = [
    (
        "kind INVITE\ntarget 1000 a\nanswer 0 302\ncontact 1000 b\ncontact 1000 c\nanswer 1 404\ntimeout 2\n",
        "opening start 0\n0 start 1,2 cancel - up -\n1 start - cancel - up -\n2 start - cancel - up final 404 1\nfork 3 3\nprefer 401,407,415,420,484\ndepth 256\ntarget 0 - 1000 taken 0\ntarget 1 0 1000 stored 404 1 received\ntarget 2 0 1000 stored 408 2 assumed\nrank 404 1 1\nrank 408 2 2\nfinal 404 1\n",
    ),
    (
        "kind INVITE\ntarget 1000 a\nanswer 0 302\ncontact 1000 b\nother 1000 <tel:+1555>\nanswer 1 486\n",
        "opening start 0\n0 start 1 cancel - up -\n1 start - cancel - up final 302 0\nfork 3 2\nprefer 401,407,415,420,484\ndepth 256\ntarget 0 - 1000 stored 302 0 received\ntarget 1 0 1000 stored 486 1 received\nrank 302 0 0\nrank 486 1 1\nfinal 302 0\n",
    ),
    (
        "kind INVITE\ntarget 1000 a\nanswer 0 302\ncontact 1000 a\n",
        "opening start 0\n0 start - cancel - up final 408 -\nfork 3 1\nprefer 401,407,415,420,484\ndepth 256\ntarget 0 - 1000 taken 0\nfinal 408 -\n",
    ),
    (
        "kind INVITE\ntarget 1000 a\nanswer 0 302\n",
        "opening start 0\n0 start - cancel - up final 302 0\nfork 3 1\nprefer 401,407,415,420,484\ndepth 256\ntarget 0 - 1000 stored 302 0 received\nrank 302 0 0\nfinal 302 0\n",
    ),
    (
        "kind INVITE\ntarget 1000 a\ntarget 500 b\nanswer 0 302\ncontact 1000 c\nanswer 2 404\ntimeout 1\n",
        "opening start 0\n0 start 2 cancel - up -\n1 start 1 cancel - up -\n2 start - cancel - up final 404 2\nfork 3 3\nprefer 401,407,415,420,484\ndepth 256\ntarget 0 - 1000 taken 0\ntarget 1 - 500 stored 408 2 assumed\ntarget 2 0 1000 stored 404 1 received\nrank 404 2 1\nrank 408 1 2\nfinal 404 2\n",
    ),
    (
        "kind INVITE\ndepth 0\ntarget 1000 a\nanswer 0 302\ncontact 1000 b\n",
        "opening start 0\n0 start - cancel - up final 302 0\nfork 3 1\nprefer 401,407,415,420,484\ndepth 0\ntarget 0 - 1000 stored 302 0 received\nrank 302 0 0\nfinal 302 0\n",
    ),
    (
        "kind INVITE\ndepth 1\ntarget 1000 a\nanswer 0 302\ncontact 1000 b\nanswer 1 302\ncontact 1000 c\n",
        "opening start 0\n0 start 1 cancel - up -\n1 start - cancel - up final 302 1\nfork 3 2\nprefer 401,407,415,420,484\ndepth 1\ntarget 0 - 1000 taken 0\ntarget 1 0 1000 stored 302 1 received\nrank 302 1 1\nfinal 302 1\n",
    ),
];

/// The challenges of a 401 and a 407.
pub const CHALLENGES: [(&str, &str); 4] = [
    (
        "kind INVITE\ntarget 1000 a\ntarget 1000 b\ntarget 1000 c\nanswer 0 486\nanswer 1 401\nchallenge W Digest realm=\"a\"\nanswer 2 407\nchallenge P Digest realm=\"b\"\n",
        "opening start 0,1,2\n0 start - cancel - up -\n1 start - cancel - up -\n2 start - cancel - up final 401 1\nadd Proxy-Authenticate: Digest realm=\"b\"\nfork 3 3\nprefer 401,407,415,420,484\ndepth 256\ntarget 0 - 1000 stored 486 0 received\ntarget 1 - 1000 stored 401 1 received\ntarget 2 - 1000 stored 407 2 received\nrank 401 1 1\nrank 407 2 2\nrank 486 0 0\nfinal 401 1\n",
    ),
    (
        "kind OTHER\ntarget 1000 a\ntarget 1000 b\ntarget 1000 c\nanswer 2 407\nchallenge P 1\nanswer 1 401\nchallenge W  2 \nchallenge P 3\nanswer 0 401\nchallenge W 4\n",
        "opening start 0,1,2\n0 start - cancel - up -\n1 start - cancel - up -\n2 start - cancel - up final 407 2\nadd WWW-Authenticate:  2 \nadd Proxy-Authenticate: 3\nadd WWW-Authenticate: 4\nfork 3 3\nprefer 401,407,415,420,484\ndepth 256\ntarget 0 - 1000 stored 401 2 received\ntarget 1 - 1000 stored 401 1 received\ntarget 2 - 1000 stored 407 0 received\nrank 407 2 0\nrank 401 1 1\nrank 401 0 2\nfinal 407 2\n",
    ),
    (
        "kind INVITE\ntarget 1000 a\ntarget 1000 b\nanswer 0 401\nchallenge W 1\nanswer 1 603\n",
        "opening start 0,1\n0 start - cancel - up -\n1 start - cancel - up final 603 1\nfork 3 2\nprefer 401,407,415,420,484\ndepth 256\ntarget 0 - 1000 stored 401 0 received\ntarget 1 - 1000 stored 603 1 received\nrank 603 1 1\nrank 401 0 0\nfinal 603 1\n",
    ),
    (
        "kind INVITE\ntarget 1000 a\nanswer 0 302\nchallenge W 1\ncontact 1000 b\nchallenge P 2\nother 1000 <tel:+1555>\nanswer 1 404\n",
        "opening start 0\n0 start 1 cancel - up -\n1 start - cancel - up final 302 0\nfork 3 2\nprefer 401,407,415,420,484\ndepth 256\ntarget 0 - 1000 stored 302 0 received\ntarget 1 0 1000 stored 404 1 received\nrank 302 0 0\nrank 404 1 1\nfinal 302 0\n",
    ),
];

/// Scripts with the number of their first malformed line.
const MALFORMED: [(&str, u32); 57] = [
    ("", 1),
    ("\n", 1),
    ("kind INVITE", 1),
    ("kind INVITE\r\n", 1),
    ("kind\tINVITE\n", 1),
    ("kind  INVITE\n", 1),
    ("kind INVITE \n", 1),
    ("kind invite\n", 1),
    ("kind BYE\n", 1),
    ("target 1000 a\n", 1),
    ("kind INVITE\nkind INVITE\n", 2),
    ("kind INVITE\ntarget 01000 a\n", 2),
    ("kind INVITE\ntarget 1001 a\n", 2),
    ("kind INVITE\ntarget 1000 a b\n", 2),
    ("kind INVITE\ntarget 1000 \n", 2),
    ("kind INVITE\ntarget 1000\n", 2),
    (
        "kind INVITE\ntarget 1000 nnnnnnnnnnnnnnnnnnnnnnnnnnnnnnnnnnnnnnnnnnnnnnnnnnnnnnnnnnnnnnnnn\n",
        2,
    ),
    ("kind INVITE\ntarget 1000 a\nanswer 0 404", 3),
    ("kind INVITE\ntarget 1000 a\nanswer 00 404\n", 3),
    ("kind INVITE\ntarget 1000 a\nanswer 0 199\n", 3),
    ("kind INVITE\ntarget 1000 a\nanswer 0 700\n", 3),
    ("kind INVITE\ntarget 1000 a\nanswer 65536 404\n", 3),
    ("kind INVITE\ntarget 1000 a\nanswer 0 404 \n", 3),
    ("kind INVITE\ntarget 1000 a\nring 0 99\n", 3),
    ("kind INVITE\ntarget 1000 a\nring 0 200\n", 3),
    ("kind INVITE\ntarget 1000 a\nring 0 +180\n", 3),
    ("kind INVITE\ntarget 1000 a\ntimeout\n", 3),
    ("kind INVITE\ntarget 1000 a\ntimeout a\n", 3),
    ("kind INVITE\ntarget 1000 a\ncancel 0\n", 3),
    ("kind INVITE\ntarget 1000 a\n\0\n", 3),
    ("kind INVITE\ntarget 1000 a\n\n", 3),
    ("kind INVITE\ntarget 1000 a\nworker\n", 3),
    ("kind INVITE\ntarget 1000 a\ncontact 1000 b\n", 3),
    ("kind INVITE\ntarget 1000 a\ncancel\ncontact 1000 b\n", 4),
    ("kind INVITE\ntarget 1000 a\ncancel\ntarget 1000 b\n", 4),
    ("kind INVITE\ntarget 1000 a\nchallenge W Digest\n", 3),
    (
        "kind INVITE\ntarget 1000 a\ncancel\nchallenge W Digest\n",
        4,
    ),
    (
        "kind INVITE\ntarget 1000 a\nanswer 0 401\nchallenge X Digest\n",
        4,
    ),
    ("kind INVITE\ntarget 1000 a\nanswer 0 401\nchallenge W\n", 4),
    (
        "kind INVITE\ntarget 1000 a\nanswer 0 401\nchallenge W \n",
        4,
    ),
    (
        "kind INVITE\ntarget 1000 a\nanswer 0 401\nchallenge W a\tb\n",
        4,
    ),
    ("kind INVITE\ntarget 1000 a\nanswer 0 302\nother 1000 \n", 4),
    (
        "kind INVITE\ntarget 1000 a\nanswer 0 302\nother 1000 \x01\n",
        4,
    ),
    ("kind INVITE\nprefer 404\nprefer 404\n", 3),
    ("kind INVITE\ndepth 1\nprefer 404\n", 3),
    ("kind INVITE\ndepth 1\ndepth 1\n", 3),
    ("kind INVITE\ntarget 1000 a\nprefer 404\n", 3),
    ("kind INVITE\nprefer\n", 2),
    ("kind INVITE\nprefer \n", 2),
    ("kind INVITE\nprefer 404,\n", 2),
    ("kind INVITE\nprefer 486,404\n", 2),
    ("kind INVITE\nprefer 404,404\n", 2),
    ("kind INVITE\nprefer 399\n", 2),
    ("kind INVITE\nprefer 500\n", 2),
    (
        "kind INVITE\nprefer 400,401,402,403,404,405,406,407,408,409,410,411,412,413,414,415,416\n",
        2,
    ),
    ("kind INVITE\ndepth 257\n", 2),
    ("kind INVITE\ndepth 00\n", 2),
];

#[test]
fn best_answers_go_up(rt: HostRuntime) -> Result<(), Fail> {
    play(&rt, &BEST)
}

#[test]
fn closed_forks_cancel(rt: HostRuntime) -> Result<(), Fail> {
    play(&rt, &CLOSING)
}

#[test]
fn contacts_are_taken(rt: HostRuntime) -> Result<(), Fail> {
    play(&rt, &CONTACTS)
}

#[test]
fn challenges_are_added(rt: HostRuntime) -> Result<(), Fail> {
    play(&rt, &CHALLENGES)
}

#[test]
fn malformed_lines_are_counted(rt: HostRuntime) -> Result<(), Fail> {
    for (script, line) in MALFORMED {
        holds_refused(&rt, script.as_bytes(), ProgFault::Line(line), script)?;
    }
    Ok(())
}
