//! The lines of the control socket.
use crate::holds::holds;
use control_socket::{ControlCommand, read_command};

const LINES: &[(&str, ControlCommand)] = &[
    ("stop 0", ControlCommand::Stop(0)),
    ("stop 30", ControlCommand::Stop(30)),
    ("stop 86400", ControlCommand::Stop(86_400)),
    ("stop 86401", ControlCommand::Unknown),
    ("stop 030", ControlCommand::Unknown),
    ("stop", ControlCommand::Unknown),
    ("stop ", ControlCommand::Unknown),
    ("reload", ControlCommand::Reload),
    ("reload ", ControlCommand::Unknown),
    ("stats", ControlCommand::Stats),
    ("GET /metrics HTTP/1.1", ControlCommand::Metrics),
    ("GET", ControlCommand::Unknown),
    ("get / HTTP/1.1", ControlCommand::Unknown),
    ("calls", ControlCommand::Calls(0)),
    ("calls 0", ControlCommand::Calls(0)),
    ("calls 256", ControlCommand::Calls(256)),
    ("calls ", ControlCommand::Unknown),
    ("calls 0256", ControlCommand::Unknown),
    (
        "calls 18446744073709551615",
        ControlCommand::Calls(u64::MAX),
    ),
    ("calls 18446744073709551616", ControlCommand::Unknown),
    ("call 0", ControlCommand::Call(0)),
    ("call 17", ControlCommand::Call(17)),
    ("call", ControlCommand::Unknown),
    ("bindings", ControlCommand::Bindings),
    ("bindings bob", ControlCommand::BindingsOf),
    ("bindings ", ControlCommand::BindingsOf),
    ("forget bob", ControlCommand::Forget),
    ("forget", ControlCommand::Unknown),
    ("forgetbob", ControlCommand::Unknown),
    ("refused", ControlCommand::Refused),
    ("refused ", ControlCommand::Unknown),
    ("binding", ControlCommand::Unknown),
    ("", ControlCommand::Unknown),
];

/// They stand in a function of their own: a proof reads a constant wherever it is named, once for each call beside it.
fn lines() -> &'static [(&'static str, ControlCommand)] {
    LINES
}

/// Whether a line says this command.
fn says(line: &str, command: &ControlCommand) -> bool {
    read_command(line.as_bytes()) == *command
}

#[test]
fn each_line_says_one_command(rt: HostRuntime) {
    for (line, command) in lines() {
        holds(&rt, says(line, command), line);
    }
}
