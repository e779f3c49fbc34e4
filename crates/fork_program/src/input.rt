//! Reading standard input.
ghost use Rattle.std.specs.Prelude.{◌≡◌, ◌+◌, ◌≤◌, ◌<◌, IfOk, IfErr, IfSome, length, take, vec_len};
ghost use Rattle.fork_program.specs.Faults.{most_text};
ghost use Rattle.fork_program.specs.inner.Input.{ReadsMore};
ghost use Rattle.fork_program.specs.Program.{IsReadFault};

use crate::fault::Fault;
use crate::replay::MOST_TEXT;
use std::alloc::{AllocError, Allocator};
use std::io::{ErrorKind, Read};

/// How many reads are made at most: an input that has not ended by then counts as broken.
const MOST_READS: u32 = 2_097_152;

/// How many bytes are asked for at once.
const CHUNK: usize = 65_536;

/// A list of `count` zeros.
fn zeros<A: Allocator>(alloc: A, count: usize) -> Result<Vec<u8, A>, AllocError>
    ensures { IfOk result (λ bytes. vec_len bytes ≡ count) }
{
    vec![in alloc; 0u8; count]
}

/// Reads once, at most as many bytes as the chunk has, and appends them; whether the end is met. An interrupted
/// read brings none.
fn read_more<A: Allocator, R: Read>(
    reader: &mut R,
    chunk: &mut [u8],
    text: &mut Vec<u8, A>,
) -> Result<bool, Fault>
    requires { 0 < length chunk.old }
    ensures more { IfOk result (ReadsMore (R.remaining reader.old) (R.remaining reader.new) (length chunk.old) text.old.items text.new.items) }
    ensures fault { IfErr result IsReadFault }
{
    match reader.read(chunk) {
        Ok(0) => Ok(true),
        Ok(count) => {
            text.extend_from_slice(&chunk[..count])?;
            Ok(false)
        }
        Err(error) if error.kind() == ErrorKind::Interrupted => Ok(false),
        Err(_) => Err(Fault::Read),
    }
}

/// The whole input, or one byte more than a script may have.
///
/// # Errors
///
/// `Read` where a read fails, or `MOST_READS` reads have brought no end; want of memory.
pub fn read_input<A: Allocator + Clone, R: Read>(
    alloc: A,
    reader: &mut R,
) -> Result<Vec<u8, A>, Fault>
    ensures whole { IfOk result (λ text. IfSome (R.remaining reader.old) (λ bytes. text.items ≡ take (most_text + 1) bytes)) }
    ensures few { IfOk result (λ text. length text.items ≤ most_text + 1) }
    ensures fault { IfErr result IsReadFault }
{
    let mut chunk = zeros(alloc.clone()?, CHUNK)?;
    let mut text = Vec::new(alloc);
    for _ in 0..MOST_READS {
        let room = (MOST_TEXT + 1).saturating_sub(text.len()).min(chunk.len());
        if room == 0 {
            return Ok(text);
        }
        if read_more(reader, &mut chunk[..room], &mut text)? {
            return Ok(text);
        }
    }
    Err(Fault::Read)
}
