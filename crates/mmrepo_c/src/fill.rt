//! Copies a text into a caller's buffer.
ghost use Rattle.std.specs.Prelude.{◌≡◌, length};
ghost use Rattle.mmrepo_c.specs.Filled.{filled_buffer};

/// Copies as much of a text as the buffer can hold, and leaves the rest of the buffer as it was. Returns how many bytes the whole text has.
pub(crate) fn fill(room: &mut [u8], text: &[u8]) -> usize
    ensures count { result ≡ length text.now }
    ensures copied { room.new ≡ filled_buffer text.now room.old }
{
    let count = text.len().min(room.len());
    room[..count].copy_from_slice(&text[..count]);
    text.len()
}
