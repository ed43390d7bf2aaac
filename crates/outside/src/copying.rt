//! Copying as much as there is room for.
ghost use Rattle.std.specs.Prelude.{◌≡◌, ◌≤◌, ◌+◌, ◌-◌, ◌++◌, min, length, take};

pub(crate) fn copy_front(from: &[u8], to: &mut [u8]) -> usize
    ensures count { result ≡ min (length from.now) (length to.new) }
    ensures copied { take result to.new ≡ take result from.now }
{
    let count = from.len().min(to.len());
    to[..count].copy_from_slice(&from[..count]);
    count
}

/// Copies a front of the piece behind the first `len` bytes of the room, as much as fits, and answers
/// its length.
pub fn fill(room: &mut [u8], len: usize, piece: &[u8]) -> usize
    requires { len ≤ length room.old }
    ensures count { result ≡ min (length piece.now) (length room.old - len) }
    ensures filled { take (len + result) room.new ≡ take len room.old ++ take result piece.now }
{
    copy_front(piece, &mut room[len..])
}
