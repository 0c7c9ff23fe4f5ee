// What a frame says, with its fields decoded.
ghost use Rattle.std.specs.Prelude.{◌≡◌};
ghost use Rattle.frame.specs.Frames.{kind_of, payload_of};
ghost use Rattle.frame.specs.Requests.{request_of};
ghost use Rattle.frame.specs.Tags.{tag_byte};

use crate::frames::Frame;
use crate::kinds::Kind;
use crate::tags::Tag;

#[derive(Clone, Copy, PartialEq, Eq, Debug)]
pub enum Request {
    Draw {
        places: u8,
        transitions: u8,
        marks: u64,
    },
    Arcs {
        transition: u8,
        taken: u64,
        given: u64,
    },
    Propose {
        set: u64,
    },
    Search,
    Certify,
    Fire {
        transition: u8,
    },
    Signal {
        channel: u8,
        event: u8,
    },
    Halt,
    Resume,
    Home,
    Answer {
        to: Option<Kind>,
        // the number of a refusal or 0; a byte, since a line may carry any
        result: u8,
        detail: u8,
        lit: u64,
    },
}

impl Frame<'_> {
    // What the kind byte of the line says.
    fn tag(self) -> Tag
        ensures { tag_byte result ≡ kind_of self.entry }
    {
        match self {
            Frame::Draw(_) => Tag::Asks(Kind::Draw),
            Frame::Arcs(_) => Tag::Asks(Kind::Arcs),
            Frame::Propose(_) => Tag::Asks(Kind::Propose),
            Frame::Search(_) => Tag::Asks(Kind::Search),
            Frame::Certify(_) => Tag::Asks(Kind::Certify),
            Frame::Fire(_) => Tag::Asks(Kind::Fire),
            Frame::Signal(_) => Tag::Asks(Kind::Signal),
            Frame::Halt(_) => Tag::Asks(Kind::Halt),
            Frame::Resume(_) => Tag::Asks(Kind::Resume),
            Frame::Home(_) => Tag::Asks(Kind::Home),
            Frame::Answer { to, .. } => Tag::Answers(to),
        }
    }

    // The kind byte of the line, as it stands there: a byte and no `Tag`, which callers would convert back.
    pub fn kind(self) -> u8
        ensures { result ≡ kind_of self.entry }
    {
        u8::from(self.tag())
    }

    // What the frame says.
    pub fn request(self) -> Request
        ensures { result ≡ request_of (kind_of self.entry) (payload_of self.entry) }
    {
        match self {
            Frame::Draw(p) => Request::Draw {
                places: p.byte(0),
                transitions: p.byte(1),
                marks: p.set(2),
            },
            Frame::Arcs(p) => Request::Arcs {
                transition: p.byte(0),
                taken: p.set(1),
                given: p.set(9),
            },
            Frame::Propose(p) => Request::Propose { set: p.set(0) },
            Frame::Search(_) => Request::Search,
            Frame::Certify(_) => Request::Certify,
            Frame::Fire(p) => Request::Fire {
                transition: p.byte(0),
            },
            Frame::Signal(p) => Request::Signal {
                channel: p.byte(0),
                event: p.byte(1),
            },
            Frame::Halt(_) => Request::Halt,
            Frame::Resume(_) => Request::Resume,
            Frame::Home(_) => Request::Home,
            Frame::Answer { to, payload: p } => Request::Answer {
                to,
                result: p.byte(0),
                detail: p.byte(1),
                lit: p.set(2),
            },
        }
    }
}
