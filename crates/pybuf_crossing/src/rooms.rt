//! Bytes that are copied to a room.
ghost use Rattle.std.specs.Prelude.{◌≡◌, ◌≢◌, ◌≤◌, Some, length};
ghost use Rattle.pybuf_crossing.specs.Rooms.{Hands, IsCopied};
ghost use Rattle.pybuf_crossing.specs.declared.rooms.Handed.TheVariants as handed;

/// What became of bytes that were asked for.
/// Example: `Handed::TooSmall` stands for three bytes that were asked for into a room of two.
#[derive(Clone, Copy, Debug, PartialEq, Eq)]
pub enum Handed {
    /// They were copied to the front of the room.
    /// Example: `b"abc"` into a room of four bytes gives it.
    Whole,
    /// The room is too small for them, and is as before. How many they are is told.
    /// Example: `b"abc"` into a room of two bytes gives it, and the count 3.
    TooSmall,
    /// There are none to be copied, as of a reply that is a number. Room and count are as before.
    /// Example: the bytes of a last reply that is a number give it.
    Nothing,
    /// Memory ran out before they were there. Room and count are as before.
    /// Example: the text of a kept reply gives it where memory runs out.
    NoMemory,
}

/// Copies bytes to the front of a room that is as long at least.
fn copy_front(bytes: &[u8], room: &mut [u8])
    requires { length bytes.now ≤ length room.old }
    ensures { IsCopied bytes.now room.old room.new }
{
    room[..bytes.len()].copy_from_slice(bytes);
}

/// Copies bytes to the front of a room, where it is long enough, and tells how many they are in `count`, also where
/// it isn't. It is `Handed::TooSmall` then, and the room is as before. Takes no memory.
/// Example: `b"abc"` into a room of four bytes writes the first three, and makes `count` 3.
pub fn hand_bytes(bytes: &[u8], room: &mut [u8], count: &mut usize) -> Handed
    ensures handed { Hands result (Some bytes.now) room.old room.new count.old count.new }
    ensures memory { result ≢ handed.NoMemory }
{
    *count = bytes.len();
    if room.len() < bytes.len() {
        return Handed::TooSmall;
    }
    copy_front(bytes, room);
    Handed::Whole
}
