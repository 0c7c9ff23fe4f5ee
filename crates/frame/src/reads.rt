// Reading a line.
ghost use Rattle.std.specs.Prelude.{◌≡◌, ◌/◌, ◌%◌, not, [], ◌∷◌, ◌++◌, length, IfOk, Ok as Fine, sum, ◌==◌};
ghost use Rattle.refusal.specs.declared.Refusal.TheVariants.{Foreign, OddOrShort};
ghost use Rattle.refusal.specs.Outcomes.{refuse_if, Tells};
ghost use Rattle.frame.specs.Digits.{all_digits, bytes_of};
ghost use Rattle.frame.specs.Lines.{digits_in, line_of, check_kind};
ghost use Rattle.frame.specs.Frames.{kind_of, digits_of, place_of, payload_of, Reads};
ghost use Rattle.frame.specs.Tags.{tag_byte};

use crate::digits::digit;
use crate::frames::{Frame, Payload};
use crate::kinds::Kind;
use crate::tags::Tag;
use refusal::Refusal;

// A line without a line feed at its end.
fn digits_in(line: &[u8]) -> &[u8]
    ensures { result.now ≡ digits_in line.now }
{
    line.strip_suffix(b"\n").unwrap_or(line)
}

// The sum of the bytes that digits stand for, modulo 256.
fn sum_of(digits: &[u8]) -> Result<u8, Refusal>
    ensures { Tells (refuse_if (not (all_digits digits.now)) Foreign (refuse_if ((length digits.now % 2) == 1) OddOrShort (Fine tt))) result (λ s. s ≡ sum (bytes_of digits.now) % 256) (Unit {0}) }
{
    let mut sum = 0u8;
    let mut rest = digits;
    while let [high, low, more @ ..] = rest {
        let Some(high) = digit(*high) else {
            return Err(Refusal::Foreign);
        };
        let Some(low) = digit(*low) else {
            return Err(Refusal::Foreign);
        };
        sum = sum.wrapping_add(high * 16 + low);
        rest = more;
    }
    let [last, ..] = rest else {
        return Ok(sum);
    };
    let Some(_) = digit(*last) else {
        return Err(Refusal::Foreign);
    };
    Err(Refusal::OddOrShort)
}

impl Tag {
    // The frame of a line with this tag that holds this payload, however long.
    fn holding<'a>(self, payload: Payload<'a>) -> Frame<'a>
        ensures kind { kind_of result ≡ tag_byte self }
        ensures digits { digits_of result ≡ payload.entry.digits.now }
        ensures place { place_of result ≡ payload.entry.place }
    {
        match self {
            Tag::Asks(Kind::Draw) => Frame::Draw(payload),
            Tag::Asks(Kind::Arcs) => Frame::Arcs(payload),
            Tag::Asks(Kind::Propose) => Frame::Propose(payload),
            Tag::Asks(Kind::Search) => Frame::Search(payload),
            Tag::Asks(Kind::Certify) => Frame::Certify(payload),
            Tag::Asks(Kind::Fire) => Frame::Fire(payload),
            Tag::Asks(Kind::Signal) => Frame::Signal(payload),
            Tag::Asks(Kind::Halt) => Frame::Halt(payload),
            Tag::Asks(Kind::Resume) => Frame::Resume(payload),
            Tag::Asks(Kind::Home) => Frame::Home(payload),
            Tag::Answers(to) => Frame::Answer { to, payload },
        }
    }

    // The frame of a line with this tag, if its payload is as long as the tag asks.
    fn frame<'a>(self, digits: &'a [u8], place: usize) -> Result<Frame<'a>, Refusal>
        requires { length digits.now % 2 ≡ 0 }
        ensures { Tells (check_kind (tag_byte self) (length digits.now / 2) (Fine tt)) result (λ f. (kind_of f ≡ tag_byte self) × (digits_of f ≡ digits.now) × (place_of f ≡ place)) (Unit {0}) }
    {
        if digits.len() != 2 * self.payload_length() {
            return Err(Refusal::WrongLength);
        }
        Ok(self.holding(Payload { digits, place }))
    }
}

// The frame of a line that stands at `place` in the input, or what is wrong with the line.
pub fn read<'a>(line: &'a [u8], place: usize) -> Result<Frame<'a>, Refusal>
    ensures reads { Reads line.now place result }
    ensures writes_again { IfOk result (λ f. line_of (kind_of f) (payload_of f) ≡ digits_in line.now ++ 10 ∷ []) }
{
    let digits = digits_in(line);
    let sum = sum_of(digits)?;
    let [high, low, rest @ ..] = digits else {
        return Err(Refusal::OddOrShort);
    };
    let [payload @ .., _, _] = rest else {
        return Err(Refusal::OddOrShort);
    };
    if sum != 0 {
        return Err(Refusal::WrongCheck);
    }
    let Some(high) = digit(*high) else {
        return Err(Refusal::Foreign);
    };
    let Some(low) = digit(*low) else {
        return Err(Refusal::Foreign);
    };
    let tag = Tag::try_from(high * 16 + low)?;
    tag.frame(payload, place)
}
