// The answer to a line, as a line.
ghost use Rattle.std.specs.Prelude.{◌≡◌};
ghost use Rattle.frame.specs.Replies.{asked_by, answer_line, ReadsAnswer};

use crate::kinds::Kind;
use crate::requests::Request;
use crate::tags::Tag;
use crate::writes::put_line;

impl Request {
    // The kind of line that asks for this; none for an answer, which asks for nothing.
    pub fn kind(self) -> Option<Kind>
        ensures { result ≡ asked_by self }
    {
        match self {
            Request::Draw { .. } => Some(Kind::Draw),
            Request::Arcs { .. } => Some(Kind::Arcs),
            Request::Propose { .. } => Some(Kind::Propose),
            Request::Search => Some(Kind::Search),
            Request::Certify => Some(Kind::Certify),
            Request::Fire { .. } => Some(Kind::Fire),
            Request::Signal { .. } => Some(Kind::Signal),
            Request::Halt => Some(Kind::Halt),
            Request::Resume => Some(Kind::Resume),
            Request::Home => Some(Kind::Home),
            Request::Answer { .. } => None,
        }
    }
}

// The answer to a line of a kind, or to one that has none, as a line. Its result and detail are bytes: a line may carry any.
pub fn answer(to: Option<Kind>, res: u8, detail: u8, lit: u64) -> [u8; 25]
    ensures line { result ≡ answer_line to res detail lit }
    ensures reads_again { ReadsAnswer result to res detail lit }
{
    let [a, b, c, d, e, f, g, h] = lit.to_be_bytes();
    let payload = [res, detail, a, b, c, d, e, f, g, h];
    let mut line = [0; 25];
    put_line(Tag::Answers(to), &payload, &mut line);
    line
}
