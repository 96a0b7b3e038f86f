ghost use Rattle.std.specs.Prelude.{◌≡◌, ◌≤◌, IfOk, length};

use std::fs::File;
use std::io::{self, ErrorKind};
use std::os::unix::fs::FileExt;

/// Reads until `into` is full or the file ends.
pub(crate) fn read_full_at(file: &File, at: u64, into: &mut [u8]) -> io::Result<usize>
    ensures fits { IfOk result (λ count. count ≤ length into.old) }
{
    let mut count = 0;
    for _ in 0..u64::MAX {
        if count >= into.len() {
            return Ok(count);
        }
        match file.read_at(&mut into[count..], at.wrapping_add(count as u64)) {
            Ok(0) => return Ok(count),
            Ok(more) => count += more,
            Err(error) => {
                if error.kind() != ErrorKind::Interrupted {
                    return Err(error);
                }
            }
        }
    }
    Ok(count)
}
