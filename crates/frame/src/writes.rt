// Writing a line.
ghost use Rattle.std.specs.Prelude.{◌≡◌, ◌+◌, ◌*◌, ◌/◌, ◌%◌, ◌≤◌, [], ◌∷◌, ◌++◌, length, take, drop, IfOk, slice_set};
ghost use Rattle.frame.specs.Digits.{char_of, hex_of};
ghost use Rattle.frame.specs.Lines.{line_of, check_of};
ghost use Rattle.frame.specs.Frames.{ReadsAs};
ghost use Rattle.frame.specs.Tags.{tag_byte};
ghost use Rattle.frame.specs.Writings.{Writes};

use crate::digits::character;
use crate::tags::Tag;
use refusal::Refusal;

// Writes the two digits of a byte at `at`.
fn put(byte: u8, memory: &mut [u8], at: usize)
    requires { at + 2 ≤ length memory.old }
    ensures { memory.new ≡ slice_set (slice_set memory.old at (char_of (byte / 16))) (at + 1) (char_of (byte % 16)) }
{
    memory[at] = character(byte / 16);
    memory[at + 1] = character(byte % 16);
}

// Writes the byte of a tag, payload, check byte and a line feed.
pub(crate) fn put_line(tag: Tag, payload: &[u8], memory: &mut [u8])
    requires few { length payload.now ≤ 17 }
    requires room { 2 * length payload.now + 5 ≤ length memory.old }
    ensures { memory.new ≡ line_of (tag_byte tag) payload.now ++ drop (2 * length payload.now + 5) memory.old }
{
    let kind = u8::from(tag);
    put(kind, memory, 0);
    let mut sum = kind;
    for (i, byte) in payload.iter().enumerate() {
        put(*byte, memory, 2 * i + 2);
        sum = sum.wrapping_add(*byte);
    }
    put(sum.wrapping_neg(), memory, 2 * payload.len() + 2);
    memory[2 * payload.len() + 4] = b'\n';
}

// The line of a kind and its payload at the front of `memory`; answers how long it is.
// The kind is a byte of the caller's, which may stand for no kind: that is refused.
pub fn write(kind: u8, payload: &[u8], memory: &mut [u8]) -> Result<usize, Refusal>
    ensures writes { Writes kind payload.now memory.old result memory.new }
    ensures reads_again { IfOk result (λ n. ReadsAs (take n memory.new) kind payload.now) }
{
    let tag = Tag::try_from(kind)?;
    let bytes = tag.payload_length();
    if payload.len() != bytes {
        return Err(Refusal::WrongLength);
    }
    let length = 2 * bytes + 5;
    if memory.len() < length {
        return Err(Refusal::MemoryTooShort);
    }
    put_line(tag, payload, memory);
    Ok(length)
}
