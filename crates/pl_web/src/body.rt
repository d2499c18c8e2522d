//! Reads the body of a request.
ghost use Rattle.std.specs.Prelude.{◌≡◌, ◌≤◌, IsSome};
ghost use Rattle.pl_web.specs.Ended.{ConnCause, IsUnlost};
ghost use Rattle.pl_web.specs.Received.{BodyReads};

use crate::ended::Ended;
use pl_io::Conn;
use std::alloc::{AllocError, Global};

/// How many bytes are read at a time.
const CHUNK: usize = 8192;

/// Reads a body of `size` bytes, of which `have` and what follows the body was read before. Memory
/// is taken as the bytes come, and none for a body that doesn't.
pub(crate) fn read_body<C: Conn>(
    alloc: Global,
    conn: &mut C,
    have: &[u8],
    size: usize,
) -> Result<Vec<u8>, Ended>
    ensures reads { BodyReads have.now size (C.incoming conn.old) (C.incoming conn.new) result }
    ensures written { C.written conn.new ≡ C.written conn.old }
    ensures fits { IsSome (C.room conn.old) → IsUnlost result }
    ensures room { IsSome (C.room conn.old) → C.room conn.new ≡ C.room conn.old }
    ensures cause { ConnCause (C.faults conn.old) (C.faults conn.new) result }
    ensures never_falls { C.faults conn.old ≤ C.faults conn.new }
{
    if have.len() >= size {
        return match Vec::from_slice(alloc, &have[..size]) {
            Ok(body) => Ok(body),
            Err(AllocError) => Err(Ended::Memory),
        };
    }
    let mut body = match Vec::from_slice(alloc, have) {
        Ok(body) => body,
        Err(AllocError) => return Err(Ended::Memory),
    };
    let mut chunk = [0; CHUNK];
    while body.len() < size {
        let most = CHUNK.min(size - body.len());
        let count = match conn.read(&mut chunk[..most]) {
            Ok(count) => count,
            Err(_) => return Err(Ended::Lost),
        };
        if count == 0 {
            return Err(Ended::Gone);
        }
        if body.extend_from_slice(&chunk[..count]).is_err() {
            return Err(Ended::Memory);
        }
    }
    Ok(body)
}
