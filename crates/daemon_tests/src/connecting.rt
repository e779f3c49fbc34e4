//! A whole proxy over TCP: peers that write byte by byte, keep a connection alive, send what cannot be read, come in numbers, are not there, and
//! a telephone that is called by a connection.
use crate::holds::holds;
use crate::telling::{counts, has_line, told, value_in};
use crate::texts::has;
use service_files::{ConnectionOptions, DaemonFault, Options};
use service_threads::serve_text;
use sip_lex::cut_at;
use std::alloc::Global;
use std::io;
use std::io::{Read, Write};
use std::net::{Net, TcpListener, TcpStream};
use std::test::Fail;
use std::thread::join;
use std::time::{Clock, Duration, Instant};

const PROXY: &str = "127.0.0.1:47500";

const TELEPHONE: &str = "127.0.0.1:47508";

const CONTROL: &str = "forkproxyd_test_connecting_control";

const CONFIGURATION: &[u8] =
    b"own 127.0.0.1 47500\ndomain example.com\nlocation bob 1000 sip:bob@127.0.0.1:47502\nlocation carol 1000 sip:carol@127.0.0.1:47508;transport=tcp\n";

/// How many connections one address may open here.
const MOST_OF_SOURCE: u32 = 4;

const OPTIONS: Options<'static> = Options {
    config: "forkproxyd_test_unused",
    own: None,
    users: None,
    control: CONTROL,
    journal: None,
    store: None,
    most_calls: Some(100),
    most_bindings: 100,
    workers: 2,
    records: false,
    route: None,
    secret: None,
    own_port: true,
    most_per_source: None,
    unlimited: &[],
    metrics: None,
    connections: Some(ConnectionOptions {
        most: 100,
        most_per_source: MOST_OF_SOURCE,
        idle_seconds: 600,
    }),
};

/// How long a peer waits for what comes at most, in milliseconds: far less than the timers of a transaction.
const PATIENCE: u64 = 5_000;

const ASKED: &str =
    "OPTIONS sip:example.com SIP/2.0\r\nVia: SIP/2.0/TCP 127.0.0.1:47501;branch=z9hG4bKoptions\r\nMax-Forwards: 70\r\nFrom: <sip:alice@example.com>;tag=1\r\nTo: <sip:example.com>\r\nCall-ID: options\r\nCSeq: 1 OPTIONS\r\nContent-Length: 0\r\n\r\n";

/// An INVITE without its user, its branch, its Call-ID and its Route line.
const INVITED: (&str, &str, &str) = (
    "@example.com SIP/2.0\r\nVia: SIP/2.0/TCP 127.0.0.1:47501;branch=z9hG4bK",
    "\r\nMax-Forwards: 70\r\nFrom: <sip:alice@example.com>;tag=1\r\nTo: <sip:bob@example.com>\r\nCSeq: 1 INVITE\r\nContact: <sip:alice@127.0.0.1:47501;transport=tcp>\r\n",
    "Content-Length: 0\r\n\r\n",
);

/// By a connection to a telephone that is not there.
const ROUTE: &str = "Route: <sip:127.0.0.1:47509;transport=tcp;lr>\r\n";

/// A connection to the proxy, or to a telephone, whose reads wait a tenth of a second.
fn connected<R: Net<Stream = TcpStream>>(rt: &R) -> io::Result<TcpStream> {
    let stream = TcpStream::connect(rt, PROXY)?;
    stream.set_read_timeout(Some(Duration::from_millis(100)))?;
    Ok(stream)
}

/// What comes by a connection until this text is among it, or it ends, or patience does.
fn read_until<R: Clock>(
    rt: &R,
    alloc: Global,
    stream: &mut TcpStream,
    text: &str,
) -> io::Result<Vec<u8>> {
    let began = Instant::now(rt)?;
    let mut all = Vec::new(alloc);
    let mut buffer = [0u8; 4_096];
    for _ in 0..PATIENCE {
        if has(all.as_slice(), text.as_bytes())
            || began.elapsed(rt)? > Duration::from_millis(PATIENCE)
        {
            break;
        }
        match stream.read(&mut buffer) {
            Ok(0) => break,
            Ok(count) => all.extend_from_slice(&buffer[..count])?,
            Err(_) => {}
        }
    }
    Ok(all)
}

/// Whether the other end closes a connection.
fn closes<R: Clock>(rt: &R, stream: &mut TcpStream) -> io::Result<bool> {
    let began = Instant::now(rt)?;
    let mut buffer = [0u8; 64];
    for _ in 0..PATIENCE {
        match stream.read(&mut buffer) {
            Ok(0) => return Ok(true),
            Ok(_) => {}
            Err(error) if error.kind() == io::ErrorKind::WouldBlock => {}
            Err(_) => return Ok(true),
        }
        if began.elapsed(rt)? > Duration::from_millis(PATIENCE) {
            break;
        }
    }
    Ok(false)
}

/// Whether an OPTIONS that comes byte by byte is answered by its connection, and a keep-alive behind it.
fn answers_pieces<R: Net<Stream = TcpStream> + Clock>(rt: &R, alloc: Global) -> io::Result<bool> {
    let mut stream = connected(rt)?;
    stream.set_nodelay(true)?;
    for byte in ASKED.as_bytes() {
        stream.write_all(&[*byte])?;
    }
    let answer = read_until(rt, alloc, &mut stream, "\r\n\r\n")?;
    stream.write_all(b"\r\n\r\n")?;
    let pong = read_until(rt, alloc, &mut stream, "\r\n")?;
    Ok(answer.starts_with(b"SIP/2.0 200 ") && pong.as_slice() == b"\r\n".as_slice())
}

/// Whether a connection by which something else comes is closed.
fn closes_unreadable<R: Net<Stream = TcpStream> + Clock>(rt: &R) -> io::Result<bool> {
    let mut stream = connected(rt)?;
    stream.write_all(b"GET / HTTP/1.0\n")?;
    closes(rt, &mut stream)
}

/// Whether one connection more than an address may open is closed, and the others stay.
fn closes_one_more<R: Net<Stream = TcpStream> + Clock>(rt: &R, alloc: Global) -> io::Result<bool> {
    let mut kept = Vec::new(alloc);
    for _ in 0..MOST_OF_SOURCE {
        if kept.push(connected(rt)?).is_err() {
            return Ok(false);
        }
    }
    // each is there once it is answered
    for stream in kept.iter_mut() {
        stream.write_all(b"\r\n\r\n")?;
        if read_until(rt, alloc, stream, "\r\n")?.is_empty() {
            return Ok(false);
        }
    }
    let mut more = connected(rt)?;
    closes(rt, &mut more)
}

/// Sends an INVITE for a user by a connection, with this Route line, if it is one.
fn invites(alloc: Global, stream: &mut TcpStream, user: &str, route: &str) -> io::Result<()> {
    let (front, middle, end) = INVITED;
    let text = format!(in alloc;
        "INVITE sip:{user}{front}{user}\r\nCall-ID: {user}{middle}{route}{end}"
    )?;
    stream.write_all(text.as_bytes())
}

/// Whether a caller is told at once that a telephone is not there.
fn tells_unreachable<R: Net<Stream = TcpStream> + Clock>(
    rt: &R,
    alloc: Global,
) -> io::Result<bool> {
    let mut stream = connected(rt)?;
    invites(alloc, &mut stream, "bob", ROUTE)?;
    let answer = read_until(rt, alloc, &mut stream, "SIP/2.0 500 ")?;
    Ok(has(answer.as_slice(), b"SIP/2.0 500 "))
}

/// Whether a user whose location says so is called by a connection, the failure of the telephone goes up, and it gets its ACK.
fn calls_telephone<R: Net<Stream = TcpStream, Listener = TcpListener> + Clock>(
    rt: &R,
    alloc: Global,
) -> io::Result<bool> {
    let listener = TcpListener::bind(rt, TELEPHONE)?;
    let mut stream = connected(rt)?;
    invites(alloc, &mut stream, "carol", "")?;
    let (mut telephone, _) = listener.accept()?;
    telephone.set_read_timeout(Some(Duration::from_millis(100)))?;
    let request = read_until(rt, alloc, &mut telephone, "\r\n\r\n")?;
    let (_, fields) = cut_at(request.as_slice(), b'\n');
    let Some(fields) = fields else {
        return Ok(false);
    };
    telephone.write_all(b"SIP/2.0 486 Busy Here\r\n")?;
    telephone.write_all(fields)?;
    let ack = read_until(rt, alloc, &mut telephone, "\r\n\r\n")?;
    let answer = read_until(rt, alloc, &mut stream, "SIP/2.0 486 ")?;
    Ok(
        has(request.as_slice(), b"\r\nVia: SIP/2.0/TCP 127.0.0.1:47500;")
            && ack.starts_with(b"ACK ")
            && has(answer.as_slice(), b"SIP/2.0 486 "),
    )
}

/// Whether what came over TCP was counted.
fn counts_connections<R: Net + Clock>(rt: &R, alloc: Global) -> bool {
    let Some(text) = told(rt, alloc, CONTROL, "stats") else {
        return false;
    };
    let text = text.as_slice();
    has_line(text, "\nforkproxy_connections_refused_total 1\n")
        && value_in(
            text,
            "\nforkproxy_connections_closed_total{cause=\"unreadable\"} ",
        ) == Some(1)
        && value_in(text, "\nforkproxy_connections_opened_total{way=\"out\"} ") == Some(2)
        && value_in(text, "\nforkproxy_stream_received_total ") >= Some(4)
}

/// Plays all once the proxy serves, and says what did not hold.
fn played<R: Net<Stream = TcpStream, Listener = TcpListener> + Clock>(
    rt: &R,
    alloc: Global,
) -> io::Result<&'static str> {
    if !counts(rt, alloc, CONTROL, "forkproxy_calls 0\n") {
        return Ok("the proxy serves");
    }
    if !answers_pieces(rt, alloc)? {
        return Ok("a request in pieces of one byte is answered, and a keep-alive");
    }
    if !closes_unreadable(rt)? {
        return Ok("what cannot be read closes its connection");
    }
    if !tells_unreachable(rt, alloc)? {
        return Ok("a telephone that is not there is told at once");
    }
    if !calls_telephone(rt, alloc)? {
        return Ok("a telephone is called by a connection");
    }
    // a connection that its caller has ended counts for its address until the proxy has closed it
    if !counts(rt, alloc, CONTROL, "\nforkproxy_connections 0\n") {
        return Ok("connections that their peers end are closed");
    }
    if !closes_one_more(rt, alloc)? {
        return Ok("one connection more than an address may open is closed");
    }
    if !counts_connections(rt, alloc) {
        return Ok("connections and messages are counted");
    }
    Ok("nothing")
}

/// Plays all, and says what did not hold; then the proxy is told to end at once.
fn plays<R: Net<Stream = TcpStream, Listener = TcpListener> + Clock>(
    rt: &R,
    alloc: Global,
) -> &'static str {
    let missed = match played(rt, alloc) {
        Ok(missed) => missed,
        Err(_) => "the connections work",
    };
    let _ = told(rt, alloc, CONTROL, "stop 0");
    missed
}

#[test]
fn a_proxy_serves_over_tcp(rt: HostRuntime) -> Result<(), Fail> {
    let alloc = rt.alloc();
    let (served, missed) = join(
        &rt,
        || serve_text(&rt, alloc, CONFIGURATION, None, 1, OPTIONS),
        || plays(&rt, alloc),
    );
    let ended: Result<(), DaemonFault> = served;
    holds(&rt, missed == "nothing", missed);
    holds(&rt, ended.is_ok(), "the proxy ends in good order");
    Ok(())
}
