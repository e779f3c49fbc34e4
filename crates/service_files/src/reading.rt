//! Reading no more of a file than is wanted.
ghost use Rattle.std.specs.Prelude.{◌≤◌, IfOk, length};

use std::alloc::Global;
use std::io;
use std::io::{ErrorKind, Read};

/// How many bytes are read at once.
const ONE_READ: usize = 4_096;

/// Reads what a file has, and no more than so many bytes of it.
///
/// # Errors
///
/// What the system says, and want of memory.
pub(crate) fn read_up_to<F: Read>(
    alloc: Global,
    file: &mut F,
    most: usize,
) -> Result<Vec<u8>, io::Error>
    ensures { IfOk result (λ bytes. length bytes.items ≤ most) }
{
    let mut bytes = Vec::new(alloc);
    let mut buffer = [0u8; ONE_READ];
    for _ in 0..u64::MAX {
        let Some(room) = most.checked_sub(bytes.len()) else {
            break;
        };
        if room == 0 {
            return Ok(bytes);
        }
        match file.read(&mut buffer[..room.min(ONE_READ)]) {
            Ok(0) => return Ok(bytes),
            Ok(count) => bytes.extend_from_slice(&buffer[..count])?,
            Err(error) => match error.kind() {
                ErrorKind::Interrupted => {}
                _ => return Err(error),
            },
        }
    }
    Err(io::Error::from(ErrorKind::FileTooLarge))
}
