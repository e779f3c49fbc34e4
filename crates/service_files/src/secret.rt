//! The secret that several proxies share.
ghost use Rattle.std.specs.Prelude.{◌≡◌, ◌↔◌, IfErr, IfSome, IsSome, Ok, length};
ghost use Rattle.std.specs.List.{AllPass};
ghost use Rattle.hex.specs.Hex.{decode_of, is_hex_digit};
ghost use Rattle.service_files.specs.Faults.{IsSecretFault};
ghost use Rattle.service_files.specs.Secret.{only_line};

use crate::fault::{DaemonFault, secret_fault};
use crate::files::ProxyFiles;
use hex::FromHex;
use sip_lex::cut_at;
use std::alloc::Global;

/// How many bytes the file of a secret has at most: 64 digits and a line feed.
const MOST_SECRET: usize = 65;

/// The one line of a text; nothing where there are more.
fn only_line(text: &[u8]) -> &[u8]
    ensures { result.now ≡ only_line text.now }
{
    match cut_at(text, b'\n') {
        (line, None) => line,
        (line, Some(behind)) => { if behind.is_empty() { line } else { b"" } }
    }
}

/// The secret that a text spells: 64 hexadecimal digits, with or without a line feed behind them.
pub fn secret_in(text: &[u8]) -> Option<[u8; 32]>
    ensures value { IfSome result (λ secret. decode_of (only_line text.now) ≡ Ok secret) }
    ensures found { IsSome result ↔ ((length (only_line text.now) ≡ 64) × AllPass is_hex_digit (only_line text.now)) }
{
    <[u8; 32] as FromHex>::from_hex(only_line(text)).ok()
}

/// The secret in a file, if one is named.
///
/// # Errors
///
/// `Secret` where the system refuses, or the file has anything but 64 hexadecimal digits; and `NoMemory`.
pub fn read_secret<R: ProxyFiles>(
    rt: &R,
    alloc: Global,
    path: Option<&str>,
) -> Result<Option<[u8; 32]>, DaemonFault>
    ensures { IfErr result IsSecretFault }
{
    let Some(path) = path else {
        return Ok(None);
    };
    match rt.read_file(alloc, path, MOST_SECRET) {
        Ok(text) => match secret_in(&text) {
            Some(secret) => Ok(Some(secret)),
            None => Err(DaemonFault::Secret),
        },
        Err(error) => Err(secret_fault(error)),
    }
}
