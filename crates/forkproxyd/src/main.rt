//! `forkproxyd`: a proxy that serves until it is told to stop, and the words that tell it to.
#![tactic(auto)]

mod addresses;

use addresses::{AddressFault, Addresses, OWN_ADDRESS, addresses_of};
use clap::{Arg, ArgAction, ArgMatches, Command, value_parser};
use control_socket::tell;
use metrics::PageSockets;
use service_config::{UserLineFault, user_line};
use service_files::{ConnectionOptions, DaemonFault, Options, ProxyFiles};
use service_threads::{check_config, serve};
use service_writers::ProxyStores;
use std::alloc::{AllocError, Global};
use std::io::{Eprint, Print, Read};
use std::net::Net;
use std::process::ExitCode;
use std::random::RandomSource;
use std::sync::Wait;
use std::thread::Threads;
use std::time::{Clock, Duration};
use std::{env, thread};
use stream_sockets::ConnectionSockets;

/// The exit status where the words ask for nothing.
const USAGE: u8 = 2;

/// The exit status where a proxy that runs had no memory for its answer.
const NO_ANSWER: u8 = 3;

/// The exit status where the other end of the control socket is not there, or does not answer in time.
const NOT_TOLD: u8 = 5;

/// For how many seconds calls may go on where `stop` does not say.
const SECONDS: &str = "30";

/// For how many seconds an answer is waited for, where it does not wait for the end of the proxy.
const LONGEST_ANSWER: u64 = 10;

/// For how many seconds the end of a proxy is waited for beyond those for which calls may go on.
const LONGEST_END: u64 = 40;

/// How many contacts may be bound to the users in all where the words do not say how many.
const MOST_BINDINGS: u32 = 1_000_000;

/// How many bytes of a password's line are read at most.
const MOST_TYPED: usize = 4_096;

/// How many connections there may be, in all and of one source address, where the words do not say.
const MOST_CONNECTIONS: u32 = 10_000;

const MOST_OF_SOURCE: u32 = 100;

/// For how many seconds a connection may be silent where the words do not say: longer than any call is answered after (timer C: 181 seconds).
const IDLE_SECONDS: u32 = 600;

/// How many threads handle datagrams at least, and at most, where the words do not say how many.
const FEWEST_WORKERS: usize = 2;

const MOST_WORKERS: usize = 64;

/// The command line that tells a proxy that runs.
fn tell_command<'a>(alloc: Global) -> Result<Command<'a>, AllocError> {
    let path = Arg::new(alloc, "path")
        .required(true)
        .help("the control socket's file");
    let what = Arg::new(alloc, "what").required(true).help(
        "stop, reload, stats, calls, call, bindings, forget or refused",
    );
    let argument = Arg::new(alloc, "argument").help(
        "for how many seconds open calls may go on after stop: 30 if left out; from which number on calls tells of calls: 0 if left out; of which call it is told; of which user's contacts bindings tells: of all if left out; which user's contacts are forgotten",
    );
    Command::new(alloc, "tell")
        .about(
            "tells a proxy that runs to stop, to reload its configuration, to write its counters, to tell of the calls that are open or of one call, of the contacts that are bound to users, or of the requests that it refused last, or to forget a user's contacts",
        )
        .arg(path)?
        .arg(what)?
        .arg(argument)
}

/// The command line that prints the line of a user.
fn user_command<'a>(alloc: Global) -> Result<Command<'a>, AllocError> {
    let name = Arg::new(alloc, "name")
        .required(true)
        .help("the name of the user");
    let realm = Arg::new(alloc, "realm")
        .required(true)
        .help("the realm of the configuration");
    Command::new(alloc, "user")
        .about(
            "reads a password, one line from standard input, and prints the line by which the file of the users knows it",
        )
        .arg(name)?
        .arg(realm)
}

/// An argument that names a file.
fn file_arg<'a>(alloc: Global, name: &'a str, value: &'a str, help: &'a str) -> Arg<'a> {
    Arg::new(alloc, name)
        .long(name)
        .value_name(value)
        .help(help)
}

/// The arguments that name files.
fn with_files<'a>(alloc: Global, command: Command<'a>) -> Result<Command<'a>, AllocError> {
    command
        .arg(file_arg(
            alloc,
            "config",
            "FILE",
            "the configuration; needed to serve",
        ))?
        .arg(file_arg(
            alloc,
            "users",
            "FILE",
            "the users and what their passwords are known by; needed where the configuration has a realm",
        ))?
        .arg(file_arg(
            alloc,
            "control",
            "PATH",
            "the control socket's file; needed to serve",
        ))?
        .arg(file_arg(
            alloc,
            "journal",
            "FILE",
            "the file to which each call is written at its end",
        ))?
        .arg(file_arg(
            alloc,
            "secret",
            "FILE",
            "64 hexadecimal digits, which nonces and the tokens of dialogs are made with: one for all proxies that take one another's dialogs over",
        ))?
        .arg(file_arg(
            alloc,
            "store",
            "FILE",
            "the file in which what telephones register is kept, an SQLite database; it is kept in memory alone if left out",
        ))?
        .arg(file_arg(
            alloc,
            "check-config",
            "FILE",
            "reads a configuration, and says whether it is well-formed, with its users where they are named",
        ))
}

/// The arguments that say how many of what a proxy takes.
fn with_limits<'a>(alloc: Global, command: Command<'a>) -> Result<Command<'a>, AllocError> {
    let most_calls = Arg::new(alloc, "most-calls")
        .long("most-calls")
        .value_name("N")
        .value_parser(value_parser!(u64))
        .help(
            "how many calls are kept at most, and a tenth more for requests within dialogs: as many as half of the memory holds, if left out",
        );
    let most_bindings = Arg::new(alloc, "most-bindings")
        .long("most-bindings")
        .value_name("N")
        .value_parser(value_parser!(u32))
        .help("how many contacts may be bound to the users in all: 1000000 if left out");
    let workers = Arg::new(alloc, "workers")
        .long("workers")
        .value_name("N")
        .value_parser(value_parser!(u16).range(1..=64))
        .help(
            "how many threads receive and handle datagrams: as many as there are processors, and 2 at least, if left out",
        );
    let most_per_source = Arg::new(alloc, "most-per-source")
        .long("most-per-source")
        .value_name("N [except A.B.C.D/N ..]")
        .num_args(1..)
        .help(
            "how many datagrams one source address may send at once, and as many more each second, but for the addresses of these nets: no limit if left out",
        );
    command
        .arg(most_calls)?
        .arg(most_bindings)?
        .arg(workers)?
        .arg(most_per_source)
}

/// The arguments that say at which addresses a proxy serves, and by which it is reached.
fn with_addresses<'a>(alloc: Global, command: Command<'a>) -> Result<Command<'a>, AllocError> {
    let own = Arg::new(alloc, "own")
        .long("own")
        .value_name("ADDRESS:PORT")
        .help("where it receives, in place of the line own of the configuration");
    let record_route = Arg::new(alloc, "record-route")
        .long("record-route")
        .value_name("ADDRESS:PORT")
        .num_args(0..=1)
        .default_missing_value(OWN_ADDRESS)
        .help(
            "stays on the path of dialogs, by a Record-Route line in each INVITE that opens one, which names this address: the own one if left out",
        );
    let own_port = Arg::new(alloc, "own-port")
        .long("own-port")
        .action(ArgAction::SetTrue)
        .help("counts the own address as the domain with the own port alone");
    let metrics = Arg::new(alloc, "metrics")
        .long("metrics")
        .value_name("ADDRESS:PORT")
        .help("where the counters are scraped, by a GET of /metrics");
    command
        .arg(own)?
        .arg(record_route)?
        .arg(own_port)?
        .arg(metrics)
}

/// The arguments that say how connections are served.
fn with_connections<'a>(alloc: Global, command: Command<'a>) -> Result<Command<'a>, AllocError> {
    let no_tcp = Arg::new(alloc, "no-tcp")
        .long("no-tcp")
        .action(ArgAction::SetTrue)
        .help(
            "serves over UDP alone, takes no connection, and refuses locations and gateways over TCP",
        );
    let most = Arg::new(alloc, "most-connections")
        .long("most-connections")
        .value_name("N")
        .value_parser(value_parser!(u32).range(1..))
        .help("how many connections there are at most: 10000 if left out");
    let most_per_source = Arg::new(alloc, "most-connections-per-source")
        .long("most-connections-per-source")
        .value_name("N")
        .value_parser(value_parser!(u32).range(1..))
        .help("how many connections one source address may have opened: 100 if left out");
    let idle = Arg::new(alloc, "idle-seconds")
        .long("idle-seconds")
        .value_name("N")
        .value_parser(value_parser!(u32).range(200..))
        .help(
            "for how many seconds nothing may come by a connection, and nothing be written to it, before it is closed: 600 if left out",
        );
    command
        .arg(no_tcp)?
        .arg(most)?
        .arg(most_per_source)?
        .arg(idle)
}

/// The command line.
fn command_line<'a>(alloc: Global) -> Result<Command<'a>, AllocError> {
    let command = Command::new(alloc, "forkproxyd")
        .version("0.3.0")
        .about("a forking SIP proxy that serves until it is told to stop");
    let command = with_files(alloc, command)?;
    let command = with_limits(alloc, command)?;
    let command = with_connections(alloc, command)?;
    let command = with_addresses(alloc, command)?;
    command
        .subcommand(tell_command(alloc)?)?
        .subcommand(user_command(alloc)?)
}

/// How many threads handle datagrams where the words do not say: as many as there are processors, 2 at least and 64 at most.
fn workers_here<R: Threads>(handle: &R) -> usize {
    match thread::available_parallelism(handle) {
        Ok(processors) => processors.get().clamp(FEWEST_WORKERS, MOST_WORKERS),
        Err(_) => FEWEST_WORKERS,
    }
}

/// How the program ends after a run, whose fault it prints on standard error.
fn ended(rt: &HostRuntime, ran: Result<(), DaemonFault>) -> u8 {
    match ran {
        Ok(()) => 0,
        // why the store cannot be used was told as it was opened
        Err(DaemonFault::Store) => DaemonFault::Store.status(),
        Err(fault) => {
            let _ = rt.eprintln(fault);
            fault.status()
        }
    }
}

/// For how many seconds the answer to a word and what stands behind it is waited for: to end, that is as long as calls may go on, and 40 seconds more.
fn longest_for(what: &str, argument: &str) -> u64 {
    if what == "stop" {
        argument
            .parse::<u64>()
            .unwrap_or(0)
            .saturating_add(LONGEST_END)
    } else {
        LONGEST_ANSWER
    }
}

/// The line that tells a proxy this, and how long its answer is waited for.
fn line_of(
    alloc: Global,
    what: &str,
    argument: Option<&str>,
) -> Result<(String<Global>, Duration), AllocError> {
    let argument = if what == "stop" {
        Some(argument.unwrap_or(SECONDS))
    } else {
        argument
    };
    match argument {
        Some(argument) => {
            let longest = Duration::from_secs(longest_for(what, argument));
            Ok((format!(in alloc; "{what} {argument}")?, longest))
        }
        None => {
            let longest = Duration::from_secs(LONGEST_ANSWER);
            Ok((String::from_str(alloc, what)?, longest))
        }
    }
}

/// How the program ends after this answer of a proxy: 1 where it says that it did not do what it was told, or does not wait for the end.
fn status_of(answer: &[u8]) -> u8 {
    if answer.is_empty() {
        return NO_ANSWER;
    }
    let fronts: [&[u8]; 3] = [b"refused", b"unknown", b"busy"];
    for front in fronts {
        if answer.starts_with(front) {
            return 1;
        }
    }
    0
}

/// Tells a proxy that runs, and prints what it answers.
fn told(rt: &HostRuntime, matches: &ArgMatches<'_>) -> u8 {
    let (Some(path), Some(what)) = (matches.get_str("path"), matches.get_str("what")) else {
        return USAGE;
    };
    let argument = matches.get_str("argument");
    let Ok((line, limit)) = line_of(rt.alloc(), what, argument) else {
        return DaemonFault::NoMemory.status();
    };
    let mut answer = Vec::new(rt.alloc());
    let told = tell(rt, path, line.as_bytes(), limit, &mut answer);
    let _ = rt.write_all(answer.as_slice());
    if let Err(error) = told {
        let _ = rt.eprintln(error);
        return NOT_TOLD;
    }
    if answer.is_empty() {
        let _ = rt.eprintln(
            "no answer: the proxy has no memory for it, or has closed the connection",
        );
    }
    status_of(answer.as_slice())
}

/// What is typed, up to the end of its first line, and no more than is read of it.
fn typed(rt: &HostRuntime) -> Result<Vec<u8>, AllocError> {
    let mut bytes = Vec::new(rt.alloc());
    let mut input = rt.reader();
    let mut byte = [0u8; 1];
    for _ in 0..MOST_TYPED {
        match input.read(&mut byte) {
            Ok(1) => bytes.push(byte[0])?,
            _ => break,
        }
        if byte[0] == b'\n' {
            break;
        }
    }
    Ok(bytes)
}

/// The line of a user whose password is typed.
fn line_typed(rt: &HostRuntime, matches: &ArgMatches<'_>) -> Result<Vec<u8>, UserLineFault> {
    let name = matches.get_str("name").unwrap_or("");
    let realm = matches.get_str("realm").unwrap_or("");
    let typed = typed(rt)?;
    user_line(rt.alloc(), name.as_bytes(), realm.as_bytes(), &typed)
}

/// Prints the line of a user whose password is typed.
fn printed_user(rt: &HostRuntime, matches: &ArgMatches<'_>) -> u8 {
    match line_typed(rt, matches) {
        Ok(line) => {
            let _ = rt.write_all(line.as_slice());
            0
        }
        Err(UserLineFault::NoMemory) => DaemonFault::NoMemory.status(),
        Err(fault) => {
            let _ = rt.eprintln(fault);
            1
        }
    }
}

/// The connections that the words say; None where there are to be none.
fn connections_of(matches: &ArgMatches<'_>) -> Option<ConnectionOptions> {
    if matches.get_flag("no-tcp") {
        return None;
    }
    Some(ConnectionOptions {
        most: matches
            .get_one::<u32>("most-connections")
            .unwrap_or(MOST_CONNECTIONS),
        most_per_source: matches
            .get_one::<u32>("most-connections-per-source")
            .unwrap_or(MOST_OF_SOURCE),
        idle_seconds: matches
            .get_one::<u32>("idle-seconds")
            .unwrap_or(IDLE_SECONDS),
    })
}

/// Serves as the words say, with these addresses.
fn served_at<
    R: Threads
        + Wait
        + Net
        + ConnectionSockets
        + ProxyFiles
        + PageSockets
        + ProxyStores
        + Clock
        + Print
        + Eprint
        + RandomSource
        + Sync,
>(handle: &R, rt: &HostRuntime, matches: &ArgMatches<'_>, addresses: &Addresses) -> u8 {
    if let Some(config) = matches.get_str("check-config") {
        let users = matches.get_str("users");
        let streams = !matches.get_flag("no-tcp");
        let checked = check_config(rt, rt.alloc(), config, users, addresses.own, streams);
        return ended(rt, checked);
    }
    let (Some(config), Some(control)) = (matches.get_str("config"), matches.get_str("control"))
    else {
        let _ = rt.eprintln("--config FILE and --control PATH are needed; --help tells more");
        return USAGE;
    };
    let workers = match matches.get_one::<u16>("workers") {
        Some(workers) => usize::from(workers),
        None => workers_here(handle),
    };
    let options = Options {
        config,
        own: addresses.own,
        users: matches.get_str("users"),
        control,
        journal: matches.get_str("journal"),
        store: matches.get_str("store"),
        most_calls: matches.get_one::<u64>("most-calls"),
        most_bindings: matches
            .get_one::<u32>("most-bindings")
            .unwrap_or(MOST_BINDINGS),
        workers,
        records: addresses.records,
        route: addresses.route,
        secret: matches.get_str("secret"),
        own_port: matches.get_flag("own-port"),
        most_per_source: addresses.most_per_source,
        unlimited: &addresses.unlimited,
        metrics: matches.get_str("metrics"),
        connections: connections_of(matches),
    };
    ended(rt, serve(handle, rt.alloc(), options))
}

/// Serves as the words say.
fn served<
    R: Threads
        + Wait
        + Net
        + ConnectionSockets
        + ProxyFiles
        + PageSockets
        + ProxyStores
        + Clock
        + Print
        + Eprint
        + RandomSource
        + Sync,
>(handle: &R, rt: &HostRuntime, matches: &ArgMatches<'_>) -> u8 {
    match addresses_of(rt.alloc(), matches) {
        Ok(addresses) => served_at(handle, rt, matches, &addresses),
        Err(AddressFault::NoMemory) => DaemonFault::NoMemory.status(),
        Err(fault) => {
            let _ = rt.eprintln(fault);
            USAGE
        }
    }
}

/// Does what the words ask for; `handle` has the threads and the sockets.
fn run<
    R: Threads
        + Wait
        + Net
        + ConnectionSockets
        + ProxyFiles
        + PageSockets
        + ProxyStores
        + Clock
        + Print
        + Eprint
        + RandomSource
        + Sync,
>(handle: &R, rt: &HostRuntime, words: &[String]) -> Result<u8, AllocError> {
    let command = command_line(rt.alloc())?;
    match command.try_get_matches_from(words) {
        Ok(matches) => {
            if let Some(matches) = matches.subcommand_matches("tell") {
                return Ok(told(rt, matches));
            }
            if let Some(matches) = matches.subcommand_matches("user") {
                return Ok(printed_user(rt, matches));
            }
            Ok(served(handle, rt, &matches))
        }
        Err(error) => {
            let _ = error.print(rt);
            Ok(error.exit_code() as u8)
        }
    }
}

fn main(rt: HostRuntime) -> ExitCode {
    let Ok(args) = env::args(&rt) else {
        return ExitCode::from(USAGE);
    };
    let words: Result<Vec<String>, AllocError> = args.collect(rt.alloc());
    let Ok(words) = words else {
        return ExitCode::from(DaemonFault::NoMemory.status());
    };
    match run(&rt, &rt, words.as_slice()) {
        Ok(status) => ExitCode::from(status),
        Err(AllocError) => ExitCode::from(DaemonFault::NoMemory.status()),
    }
}
