//! What is to be done for a client of the control socket, without a socket.
use crate::holds::holds;
use control_socket::{Client, ClientAnswer, ClientTurn, ControlCommand, ControlRequest};
use std::alloc::Global;
use std::test::Fail;

/// What a client has done so far.
#[derive(Clone, Copy)]
enum State {
    /// It may write more.
    Open,
    /// It has closed its side.
    Closed,
    /// Its time is over.
    Late,
}

const UNKNOWN: Option<ControlCommand> = Some(ControlCommand::Unknown);

/// What a client writes in two pieces, how it stands then, and what it asks.
const REQUESTS: [([&str; 2], State, Option<ControlCommand>); 12] = [
    (["", ""], State::Open, None),
    (["sto", "p 3"], State::Open, None),
    (["sto", "p 3\n"], State::Open, Some(ControlCommand::Stop(3))),
    (
        ["stop 3\r\n", "00\n"],
        State::Open,
        Some(ControlCommand::Stop(3)),
    ),
    (["stop 3", ""], State::Closed, Some(ControlCommand::Stop(3))),
    (["stop 3\n", ""], State::Late, Some(ControlCommand::Stop(3))),
    (["stop 3", ""], State::Late, UNKNOWN),
    (["stop 3\r", ""], State::Closed, UNKNOWN),
    (["", ""], State::Closed, UNKNOWN),
    (["", ""], State::Late, UNKNOWN),
    (["\n", "stats\n"], State::Open, UNKNOWN),
    (
        ["GET / HTTP/1.1\r\n", "Host"],
        State::Open,
        Some(ControlCommand::Metrics),
    ),
];

/// What a request asks that is written so.
fn asked(pieces: [&str; 2], state: State) -> Option<ControlCommand> {
    let mut request = ControlRequest::new();
    for piece in pieces {
        request.feed(piece.as_bytes());
    }
    if matches!(state, State::Closed) {
        request.close();
    }
    request.command(matches!(state, State::Late))
}

#[test]
fn a_line_is_obeyed_once_it_is_whole(rt: HostRuntime) -> Result<(), Fail> {
    for (pieces, state, command) in REQUESTS {
        holds(&rt, asked(pieces, state) == command, pieces[0]);
    }
    Ok(())
}

/// What a request asks that has so many bytes in front of these.
fn asked_behind(count: usize, end: &[u8], is_closed: bool) -> Option<ControlCommand> {
    let mut request = ControlRequest::new();
    for _ in 0..count {
        request.feed(b"x");
    }
    request.feed(end);
    if is_closed {
        request.close();
    }
    request.command(false)
}

#[test]
fn a_line_has_256_bytes_at_most(rt: HostRuntime) {
    for (count, end, is_closed, command) in [
        (256, "", false, None),
        (256, "", true, UNKNOWN),
        (257, "", false, UNKNOWN),
        (256, "\n", false, UNKNOWN),
        (300, "\nstats\n", true, UNKNOWN),
    ] {
        let found = asked_behind(count, end.as_bytes(), is_closed);
        holds(&rt, found == command, "a line by its length");
    }
}

/// A client whose time is over at 1,000 ms, and which writes this.
fn client(line: &[u8]) -> Client {
    let mut client = Client::new(1_000);
    client.feed(line);
    client
}

/// What is to be done for a client that asks for this, is answered by nine bytes with this deadline, of which so many are written, and may
/// have closed its side, at 2,000 ms.
fn turn_of(
    alloc: Global,
    deadline: Option<u64>,
    written: usize,
    is_closed: bool,
) -> (ClientTurn, Option<u64>) {
    let mut client = client(b"stop 3\n");
    client.reply(ClientAnswer::fixed(alloc, b"stopping\n"), deadline);
    client.advance(written);
    if is_closed {
        client.close();
    }
    (client.turn(2_000), client.rest(2_000))
}

#[test]
fn a_client_that_is_not_answered_is_read(rt: HostRuntime) {
    for (line, now, turn) in [
        ("stop 3", 999, ClientTurn::Read),
        ("stop 3", 1_000, ClientTurn::Obey(ControlCommand::Unknown)),
        ("stop 3\n", 0, ClientTurn::Obey(ControlCommand::Stop(3))),
        ("stop 3\n", 5_000, ClientTurn::Obey(ControlCommand::Stop(3))),
    ] {
        let client = client(line.as_bytes());
        holds(&rt, client.turn(now) == turn, line);
        let reads = client.is_read();
        holds(
            &rt,
            reads == !line.ends_with("\n"),
            "a whole line is read on",
        );
    }
}

#[test]
fn an_answered_client_is_written_to_and_closed(rt: HostRuntime) {
    for (deadline, written, is_closed, turn, rest) in [
        (Some(2_500), 0, false, ClientTurn::Write, Some(500)),
        (Some(2_500), 8, true, ClientTurn::Write, Some(500)),
        (Some(2_500), 9, false, ClientTurn::Read, Some(500)),
        (Some(2_500), 9, true, ClientTurn::Close, Some(0)),
        (Some(2_000), 0, false, ClientTurn::Close, Some(0)),
        (None, 8, true, ClientTurn::Write, None),
        (None, 9, false, ClientTurn::Wait, None),
        (None, 9, true, ClientTurn::Wait, None),
    ] {
        let found = turn_of(rt.alloc(), deadline, written, is_closed);
        holds(&rt, found == (turn, rest), "what is to be done");
    }
}

/// What is written of an answer by so many bytes at a time.
fn written_by(alloc: Global, most: usize) -> Option<Vec<u8>> {
    let text = Vec::from_slice(alloc, b"calls 0\n").ok()?;
    let mut answer = ClientAnswer::new(b"head ", text);
    let mut written = Vec::new(alloc);
    for _ in 0..20 {
        let count = answer.next().len().min(most);
        written.extend_from_slice(answer.next().get(..count)?).ok()?;
        answer.advance(count);
    }
    if answer.is_written() {
        Some(written)
    } else {
        None
    }
}

#[test]
fn an_answer_is_written_in_order(rt: HostRuntime) {
    for most in [1, 3, 5, 100] {
        let is_written = match written_by(rt.alloc(), most) {
            Some(written) => written.as_slice() == b"head calls 0\n".as_slice(),
            None => false,
        };
        holds(&rt, is_written, "what is written of an answer");
    }
}

/// Whether a request is closed once its client has closed its side.
fn is_closed_by_its_client() -> bool {
    let mut request = ControlRequest::new();
    let before = request.is_closed();
    request.close();
    !before && request.is_closed()
}

#[test]
fn a_client_is_answered_once_all_is_written(rt: HostRuntime) {
    let mut client = client(b"stop 3\n");
    holds(&rt, client.deadline() == Some(1_000), "its time to write");
    client.reply(ClientAnswer::fixed(rt.alloc(), b"stopping\n"), None);
    holds(&rt, client.deadline().is_none(), "it waits for the end");
    holds(&rt, !client.is_answered(), "nothing is written yet");
    client.advance(9);
    holds(&rt, client.is_answered(), "all is written");
    holds(&rt, is_closed_by_its_client(), "a side that is closed");
}
