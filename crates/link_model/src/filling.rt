//! How bytes go from one piece of memory to another, as many as both have room for.
ghost use Rattle.std.specs.Prelude.{◌≡◌, min, take, drop, length};

/// Copies as many bytes as both have, from front to front, and answers how many.
pub(crate) fn copy_front(from: &[u8], into: &mut [u8]) -> usize
    ensures count { result ≡ min (length into.old) (length from.now) }
    ensures front { take result into.new ≡ take result from.now }
    ensures rest { drop result into.new ≡ drop result into.old }
{
    let count = into.len().min(from.len());
    let (front, _) = from.split_at(count);
    into[..count].copy_from_slice(front);
    count
}
