//! Scripts and listings.

/// Four answers, the best of which is a 407.
pub const BEST_SCRIPT: &[u8] =
    b"kind INVITE\ntarget 1000 a\ntarget 1000 b\ntarget 1000 c\ntarget 1000 d\n\
answer 0 503\nanswer 1 407\nanswer 2 501\nanswer 3 404\n";

/// The same as the program replays it.
pub const BEST_PRINTED: &[u8] =
    b"opening start 0,1,2,3\n0 start - cancel - up -\n1 start - cancel - up -\n\
2 start - cancel - up -\n3 start - cancel - up final 407 1\nfork 3 4\nprefer 401,407,415,420,484\ndepth 256\n\
target 0 - 1000 stored 503 0 received\ntarget 1 - 1000 stored 407 1 received\n\
target 2 - 1000 stored 501 2 received\ntarget 3 - 1000 stored 404 3 received\n\
rank 407 1 1\nrank 404 3 3\nrank 501 2 2\nrank 503 0 0\nfinal 407 1\n";

pub const BEST_LISTING: &[u8] = b"fork 3 4\nprefer 401,407,415,420,484\ndepth 256\n\
target 0 - 1000 stored 503 0 received\ntarget 1 - 1000 stored 407 1 received\n\
target 2 - 1000 stored 501 2 received\ntarget 3 - 1000 stored 404 3 received\n\
rank 407 1 1\nrank 404 3 3\nrank 501 2 2\nrank 503 0 0\nfinal 407 1\n";

/// The same, but for its last line.
pub const WRONG_LISTING: &[u8] = b"fork 3 4\nprefer 401,407,415,420,484\ndepth 256\n\
target 0 - 1000 stored 503 0 received\ntarget 1 - 1000 stored 407 1 received\n\
target 2 - 1000 stored 501 2 received\ntarget 3 - 1000 stored 404 3 received\n\
rank 407 1 1\nrank 404 3 3\nrank 501 2 2\nrank 503 0 0\nfinal 404 3\n";

/// A 486, and a 401 and a 407 with a challenge each.
pub const CHALLENGED_SCRIPT: &[u8] =
    b"kind INVITE\ntarget 1000 a\ntarget 1000 b\ntarget 1000 c\nanswer 0 486\n\
answer 1 401\nchallenge W Digest realm=\"a\"\nanswer 2 407\nchallenge P Digest realm=\"b\"\n";

pub const CHALLENGED_PRINTED: &[u8] =
    b"opening start 0,1,2\n0 start - cancel - up -\n1 start - cancel - up -\n\
2 start - cancel - up final 401 1\nadd Proxy-Authenticate: Digest realm=\"b\"\n\
fork 3 3\nprefer 401,407,415,420,484\ndepth 256\ntarget 0 - 1000 stored 486 0 received\n\
target 1 - 1000 stored 401 1 received\ntarget 2 - 1000 stored 407 2 received\n\
rank 401 1 1\nrank 407 2 2\nrank 486 0 0\nfinal 401 1\n";

pub const CHALLENGED_LISTING: &[u8] = b"fork 3 3\nprefer 401,407,415,420,484\ndepth 256\n\
target 0 - 1000 stored 486 0 received\ntarget 1 - 1000 stored 401 1 received\n\
target 2 - 1000 stored 407 2 received\n\
rank 401 1 1\nrank 407 2 2\nrank 486 0 0\nfinal 401 1\n";

/// Rules of its own, and a first answer that has contacts.
pub const MOVED_SCRIPT: &[u8] =
    b"kind INVITE\nprefer 404\ndepth 9\ntarget 1000 a\nring 0 180\nanswer 0 302\n\
contact 1000 b\nother 1000 <tel:+1555>\nanswer 1 404\n";

pub const MOVED_PRINTED: &[u8] = b"opening start 0\n0 start - cancel - up provisional 0\n\
1 start 1 cancel - up -\n2 start - cancel - up final 302 0\nfork 3 2\nprefer 404\ndepth 9\n\
target 0 - 1000 stored 302 1 received\ntarget 1 0 1000 stored 404 2 received\n\
rank 302 0 1\nrank 404 1 2\nfinal 302 0\n";

/// A 302 with two contacts, both of which are tried.
pub const REDIRECTED_SCRIPT: &[u8] = b"kind INVITE\ntarget 1000 a\n\
answer 0 302\ncontact 1000 b\ncontact 1000 c\nanswer 1 404\ntimeout 2\n";

pub const REDIRECTED_LISTING: &[u8] = b"fork 3 3\nprefer 401,407,415,420,484\ndepth 256\n\
target 0 - 1000 taken 0\ntarget 1 0 1000 stored 404 1 received\n\
target 2 0 1000 stored 408 2 assumed\n\
rank 404 1 1\nrank 408 2 2\nfinal 404 1\n";

/// A 302 with a contact, which is tried before the target of a lower q.
pub const LATE_SCRIPT: &[u8] = b"kind INVITE\ntarget 1000 a\ntarget 500 b\n\
answer 0 302\ncontact 1000 c\nanswer 2 404\ntimeout 1\n";

pub const LATE_LISTING: &[u8] = b"fork 3 3\nprefer 401,407,415,420,484\ndepth 256\n\
target 0 - 1000 taken 0\ntarget 1 - 500 stored 408 2 assumed\n\
target 2 0 1000 stored 404 1 received\n\
rank 404 2 1\nrank 408 1 2\nfinal 404 2\n";

/// The listing of one branch.
pub const ONE_LISTING: &[u8] =
    b"fork 1 1\ntarget 0 - 1000 stored 404 0 received\nrank 404 0 0\nfinal 404 0\n";

/// A 302 with two contacts.
pub const MOVED_TWICE: &[u8] =
    b"kind INVITE\ntarget 1000 a\nanswer 0 302\ncontact 1000 x1\ncontact 1000 y1\n";

/// A 401 with a challenge, and a 302 with a contact, which answers 404.
pub const BOOK_SCRIPT: &[u8] = b"kind INVITE\ntarget 1000 a\ntarget 1000 b\n\
answer 0 401\nchallenge W Digest realm=\"a\"\nanswer 1 302\ncontact 1000 c\nanswer 2 404\n";
