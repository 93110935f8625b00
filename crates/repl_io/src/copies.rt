ghost use Rattle.std.specs.Prelude.{◌≡◌, ◌++◌, length, take, drop, min};

/// Copies as much of the front of `from` as fits into the front of `room`, and says how much.
pub(crate) fn copy_front(from: &[u8], room: &mut [u8]) -> usize
    ensures count { result ≡ min (length from.now) (length room.old) }
    ensures copied { take result room.new ≡ take result from.now }
{
    let count = from.len().min(room.len());
    room[..count].copy_from_slice(&from[..count]);
    count
}
