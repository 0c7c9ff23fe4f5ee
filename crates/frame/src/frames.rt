// A line as it was read: an enum of kinds, whose cases hold the payload.
ghost use Rattle.std.specs.Prelude.{◌≡◌, ◌+◌, ◌<◌, ◌≤◌, slice_index};
ghost use Rattle.frame.specs.Digits.{bytes_of};
ghost use Rattle.frame.specs.Requests.{set_at};

use crate::digits::byte;
use crate::kinds::Kind;
use std::array;

// The digits of a payload, two to a byte: a part of the caller's input, with the place of its line there.
// Only reading a line makes one, so the digits are as many as the kind of the line asks. Their number is no part of the type:
// a frame of any kind may be made of any payload, and says what its digits say.
#[derive(Clone, Copy, Debug)]
pub struct Payload<'a> {
    pub(crate) digits: &'a [u8],
    pub(crate) place: usize,
}

impl Payload<'_> {
    // The byte at `at`; 0 where there is none, as never for a field of the payload's kind.
    pub(crate) fn byte(self, at: usize) -> u8
        requires { at < 32 }
        ensures { result ≡ slice_index (bytes_of self.entry.digits.now) at }
    {
        if self.digits.len() < 2 * at + 2 {
            return 0;
        }
        byte(self.digits[2 * at], self.digits[2 * at + 1])
    }

    // The set whose 8 bytes begin at `at`, highest first.
    pub(crate) fn set(self, at: usize) -> u64
        requires { at ≤ 9 }
        ensures { result ≡ set_at (bytes_of self.entry.digits.now) at }
    {
        let bytes = array::from_fn(
            |i: usize| -> u8
                requires { at + i < 32 }
                ensures { result ≡ slice_index (bytes_of self.entry.digits.now) (at + i) }
            { self.byte(at + i) },
        );
        u64::from_be_bytes(bytes)
    }
}

// A line by its kind, with its payload.
#[derive(Clone, Copy, Debug)]
pub enum Frame<'a> {
    Draw(Payload<'a>),
    Arcs(Payload<'a>),
    Propose(Payload<'a>),
    Search(Payload<'a>),
    Certify(Payload<'a>),
    Fire(Payload<'a>),
    Signal(Payload<'a>),
    Halt(Payload<'a>),
    Resume(Payload<'a>),
    Home(Payload<'a>),
    // the answer to a line of a kind, or to one that has none: an unreadable line, or itself an answer
    Answer {
        to: Option<Kind>,
        payload: Payload<'a>,
    },
}

impl<'a> Frame<'a> {
    ghost use Rattle.frame.specs.Frames.{digits_of, place_of};

    // The digits of the payload, and the place of the line.
    fn parts(self) -> (&'a [u8], usize)
        ensures digits { result.0.now ≡ digits_of self.entry }
        ensures place { result.1 ≡ place_of self.entry }
    {
        match self {
            Frame::Draw(Payload { digits, place })
            | Frame::Arcs(Payload { digits, place })
            | Frame::Propose(Payload { digits, place })
            | Frame::Search(Payload { digits, place })
            | Frame::Certify(Payload { digits, place })
            | Frame::Fire(Payload { digits, place })
            | Frame::Signal(Payload { digits, place })
            | Frame::Halt(Payload { digits, place })
            | Frame::Resume(Payload { digits, place })
            | Frame::Home(Payload { digits, place })
            | Frame::Answer {
                payload: Payload { digits, place },
                ..
            } => (digits, place),
        }
    }

    // The digits of the payload, a part of the input that the line was read from.
    pub fn digits(self) -> &'a [u8]
        ensures { result.now ≡ digits_of self.entry }
    {
        self.parts().0
    }

    // The place of the line in the input.
    pub fn place(self) -> usize
        ensures { result ≡ place_of self.entry }
    {
        self.parts().1
    }
}
