// The kind byte of any line, and the length of the payload that goes with it.
ghost use Rattle.std.specs.Prelude.{◌≡◌, Some, None, MatchResult};
ghost use Rattle.refusal.specs.declared.Refusal.TheVariants.{UnknownKind};
ghost use Rattle.frame.specs.Kinds.{payload_length};
ghost use Rattle.frame.specs.Tags.{tag_byte};

use crate::kinds::Kind;
use refusal::Refusal;

// What the kind byte of a line says: the line asks for something, or answers a line. That line had a kind, or none where
// it was unreadable or itself an answer.
#[derive(Clone, Copy, PartialEq, Eq, Debug)]
pub(crate) enum Tag {
    Asks(Kind),
    Answers(Option<Kind>),
}

// The byte of an answer is so much above that of the kind that it answers.
const ANSWER: u8 = 128;

impl TryFrom<u8> for Tag {
    type Error = Refusal;

    ghost try_from_gives = { λ byte tag. MatchResult tag (λ t. tag_byte t ≡ byte) (λ why. (why ≡ UnknownKind) × (payload_length byte ≡ None)) };

    fn try_from(byte: u8) -> Result<Tag, Refusal> {
        match byte.checked_sub(ANSWER) {
            None => Ok(Tag::Asks(Kind::try_from(byte)?)),
            Some(0) => Ok(Tag::Answers(None)),
            Some(to) => Ok(Tag::Answers(Some(Kind::try_from(to)?))),
        }
    }
}

impl From<Tag> for u8 {
    ghost from_gives = { λ tag byte. byte ≡ tag_byte tag };

    fn from(tag: Tag) -> u8 {
        match tag {
            Tag::Asks(kind) => u8::from(kind),
            Tag::Answers(None) => ANSWER,
            Tag::Answers(Some(kind)) => ANSWER + u8::from(kind),
        }
    }
}

impl Tag {
    // How many bytes the payload has.
    pub(crate) fn payload_length(self) -> usize
        ensures { payload_length (tag_byte self) ≡ Some result }
    {
        match self {
            Tag::Asks(Kind::Draw) => 10,
            Tag::Asks(Kind::Arcs) => 17,
            Tag::Asks(Kind::Propose) => 8,
            Tag::Asks(Kind::Fire) => 1,
            Tag::Asks(Kind::Signal) => 2,
            Tag::Asks(Kind::Search | Kind::Certify | Kind::Halt | Kind::Resume | Kind::Home) => 0,
            Tag::Answers(_) => 10,
        }
    }
}

// How many bytes the payload of a kind has, if there is such a kind. A byte and no `Tag`: callers may give any, and are told `None`.
pub fn payload_length(kind: u8) -> Option<usize>
    ensures { result ≡ payload_length kind }
{
    let tag = Tag::try_from(kind).ok()?;
    Some(tag.payload_length())
}
