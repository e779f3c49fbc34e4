//! What a line at the control socket says.
ghost use Rattle.std.specs.Prelude.{◌≡◌, ◌≢◌, ◌↔◌, ◌++◌, ℕ, List, codes, IfSome, IfNone};
ghost use Rattle.control_socket.specs.Commands.{IsCall, IsCalls, IsCallsFrom, IsGet, IsNamed, IsNumbered, IsStop, argument_of, or_empty};
ghost use Rattle.std.specs.Option.{option_copied};
ghost use Rattle.control_socket.specs.declared.command.ControlCommand.TheVariants as command;

use sip_lex::{cut_at, read_plain_number};

/// For how many seconds open calls may go on at most, once the end was asked for: a day.
const MOST_SECONDS: u64 = 86_400;

/// What a line says.
#[derive(Clone, Copy, Debug, PartialEq, Eq)]
pub enum ControlCommand {
    /// To end once no call is open any more, or after so many seconds.
    Stop(u64),
    /// To read the configuration anew.
    Reload,
    /// To write the counters.
    Stats,
    /// To tell of the calls that are open, from this number on.
    Calls(u64),
    /// To tell of the call of this number.
    Call(u64),
    /// To tell of the contacts that are bound to all users.
    Bindings,
    /// To tell of those that are bound to the user whom the line names.
    BindingsOf,
    /// To forget what is bound to the user whom the line names.
    Forget,
    /// To tell of the requests that were refused last, and why.
    Refused,
    /// The counters, as an answer of HTTP.
    Metrics,
    /// Nothing that is known.
    Unknown,
}

/// What stands behind a text at the front of a line.
fn behind<'a>(line: &'a [u8], front: &[u8]) -> Option<&'a [u8]>
    ensures some { IfSome result (λ rest. line.now ≡ front.now ++ rest.now) }
    ensures none { IfNone result ((rest : List ℕ) → line.now ≢ front.now ++ rest) }
{
    line.strip_prefix(front)
}

/// The number behind a text at the front of a line, in decimal without a leading zero, where it is at most `limit`.
fn number_behind(line: &[u8], front: &[u8], limit: u64) -> Option<u64>
    ensures some { IfSome result (IsNumbered front.now limit line.now) }
    ensures none { IfNone result ((number : ℕ) → IsNumbered front.now limit line.now number → ⊥) }
{
    read_plain_number(behind(line, front)?, limit)
}

/// Reads a command that has a number behind its word.
fn read_numbered(line: &[u8]) -> ControlCommand
    ensures stop { (seconds : ℕ) → (result ≡ command.Stop seconds) ↔ IsStop line.now seconds }
    ensures calls { (from : ℕ) → (result ≡ command.Calls from) ↔ IsCallsFrom line.now from }
    ensures call { (number : ℕ) → (result ≡ command.Call number) ↔ IsCall line.now number }
    ensures plain { (result ≢ command.Reload) × (result ≢ command.Stats) × (result ≢ command.Bindings) × (result ≢ command.Refused) }
    ensures other { (result ≢ command.Metrics) × (result ≢ command.BindingsOf) × (result ≢ command.Forget) }
{
    if let Some(seconds) = number_behind(line, b"stop ", MOST_SECONDS) {
        return ControlCommand::Stop(seconds);
    }
    if let Some(from) = number_behind(line, b"calls ", u64::MAX) {
        return ControlCommand::Calls(from);
    }
    match number_behind(line, b"call ", u64::MAX) {
        Some(number) => ControlCommand::Call(number),
        None => ControlCommand::Unknown,
    }
}

/// Reads a command that has something behind its word.
fn read_long(line: &[u8]) -> ControlCommand
    ensures get { (result ≡ command.Metrics) ↔ IsGet line.now }
    ensures bindings_of { (result ≡ command.BindingsOf) ↔ IsNamed (codes "bindings ") line.now }
    ensures forget { (result ≡ command.Forget) ↔ IsNamed (codes "forget ") line.now }
    ensures stop { (seconds : ℕ) → (result ≡ command.Stop seconds) ↔ IsStop line.now seconds }
    ensures calls { (from : ℕ) → (result ≡ command.Calls from) ↔ IsCallsFrom line.now from }
    ensures call { (number : ℕ) → (result ≡ command.Call number) ↔ IsCall line.now number }
    ensures plain { (result ≢ command.Reload) × (result ≢ command.Stats) × (result ≢ command.Bindings) × (result ≢ command.Refused) }
{
    if behind(line, b"GET ").is_some() {
        return ControlCommand::Metrics;
    }
    if behind(line, b"bindings ").is_some() {
        return ControlCommand::BindingsOf;
    }
    if behind(line, b"forget ").is_some() {
        return ControlCommand::Forget;
    }
    read_numbered(line)
}

/// Reads a line without its end: `stop SECONDS` in decimal without a leading zero, of a day at most; `reload`; `stats`; `calls`, or `calls
/// NUMBER`, from which number on they are told of; `call NUMBER`; `bindings`, or `bindings USER`; `forget USER`; `refused`; or the first line
/// of a GET of HTTP. `Unknown` for any other text.
pub fn read_command(line: &[u8]) -> ControlCommand
    ensures reload { (result ≡ command.Reload) ↔ (line.now ≡ codes "reload") }
    ensures stats { (result ≡ command.Stats) ↔ (line.now ≡ codes "stats") }
    ensures bindings { (result ≡ command.Bindings) ↔ (line.now ≡ codes "bindings") }
    ensures bindings_of { (result ≡ command.BindingsOf) ↔ IsNamed (codes "bindings ") line.now }
    ensures forget { (result ≡ command.Forget) ↔ IsNamed (codes "forget ") line.now }
    ensures refused { (result ≡ command.Refused) ↔ (line.now ≡ codes "refused") }
    ensures get { (result ≡ command.Metrics) ↔ IsGet line.now }
    ensures stop { (seconds : ℕ) → (result ≡ command.Stop seconds) ↔ IsStop line.now seconds }
    ensures calls { (from : ℕ) → (result ≡ command.Calls from) ↔ IsCalls line.now from }
    ensures call { (number : ℕ) → (result ≡ command.Call number) ↔ IsCall line.now number }
{
    if line == b"reload".as_slice() {
        return ControlCommand::Reload;
    }
    if line == b"stats".as_slice() {
        return ControlCommand::Stats;
    }
    if line == b"bindings".as_slice() {
        return ControlCommand::Bindings;
    }
    if line == b"refused".as_slice() {
        return ControlCommand::Refused;
    }
    if line == b"calls".as_slice() {
        return ControlCommand::Calls(0);
    }
    read_long(line)
}

/// A text; an empty one where there is none.
fn or_empty(text: Option<&[u8]>) -> &[u8]
    ensures { result.now ≡ or_empty (option_copied text.entry) }
{
    match text {
        Some(text) => text,
        None => b"",
    }
}

/// What stands behind the word of a line: behind its first space.
pub(crate) fn argument_of(line: &[u8]) -> &[u8]
    ensures { result.now ≡ argument_of line.now }
{
    or_empty(cut_at(line, b' ').1)
}
