//! For how many turns a proxy is asked to serve.
ghost use Rattle.std.specs.Prelude.{◌≡◌, map, string_bytes};
ghost use Rattle.serve_command.specs.Turns.{turns_asked, turns_of};

use sip_lex::read_plain_number;

/// How many turns a proxy serves at most.
const MOST_TURNS: u64 = 1_000_000;

/// The number that digits spell, where it is 1 to 1,000,000.
fn turns_of(digits: &[u8]) -> Option<u32>
    ensures { result ≡ turns_of digits.now }
{
    match read_plain_number(digits, MOST_TURNS) {
        None | Some(0) => None,
        Some(turns) => Some(turns as u32),
    }
}

/// For how many turns the arguments ask to serve, the program's name among them: `serve`, and a number of 1 to 1,000,000 without
/// leading zeros. None of any other arguments.
pub fn parse_serve_args(words: &[String]) -> Option<u32>
    ensures { result ≡ turns_asked (map string_bytes words.now) }
{
    match words {
        [_, word, turns] if word.as_str() == "serve" => turns_of(turns.as_bytes()),
        _ => None,
    }
}
