// The kinds of lines, each with its byte and its name.
ghost use Rattle.std.specs.Prelude.{◌≡◌, Some};
ghost use Rattle.std.specs.Option.{ok_or};
ghost use Rattle.refusal.specs.declared.Refusal.TheVariants.{UnknownKind};
ghost use Rattle.frame.specs.Kinds.{byte_of, kind_from, name_of};

use refusal::Refusal;
use std::fmt;

// What a line asks for.
#[derive(Clone, Copy, PartialEq, Eq, Debug)]
pub enum Kind {
    Draw,
    Arcs,
    Propose,
    Search,
    Certify,
    Fire,
    Signal,
    Halt,
    Resume,
    Home,
}

impl TryFrom<u8> for Kind {
    type Error = Refusal;

    ghost try_from_gives = { λ byte kind. kind ≡ ok_or (kind_from byte) UnknownKind };

    fn try_from(byte: u8) -> Result<Kind, Refusal> {
        match byte {
            1 => Ok(Kind::Draw),
            2 => Ok(Kind::Arcs),
            3 => Ok(Kind::Propose),
            4 => Ok(Kind::Search),
            5 => Ok(Kind::Certify),
            6 => Ok(Kind::Fire),
            7 => Ok(Kind::Signal),
            8 => Ok(Kind::Halt),
            9 => Ok(Kind::Resume),
            10 => Ok(Kind::Home),
            _ => Err(Refusal::UnknownKind),
        }
    }
}

impl From<Kind> for u8 {
    ghost from_gives = { λ kind byte. byte ≡ byte_of kind };

    fn from(kind: Kind) -> u8 {
        match kind {
            Kind::Draw => 1,
            Kind::Arcs => 2,
            Kind::Propose => 3,
            Kind::Search => 4,
            Kind::Certify => 5,
            Kind::Fire => 6,
            Kind::Signal => 7,
            Kind::Halt => 8,
            Kind::Resume => 9,
            Kind::Home => 10,
        }
    }
}

impl Kind {
    // The kind in a few words.
    pub fn name(self) -> &'static str
        ensures { result.now ≡ name_of self }
    {
        match self {
            Kind::Draw => "draw",
            Kind::Arcs => "arcs",
            Kind::Propose => "propose",
            Kind::Search => "search",
            Kind::Certify => "certify and start",
            Kind::Fire => "fire",
            Kind::Signal => "signal",
            Kind::Halt => "halt",
            Kind::Resume => "resume",
            Kind::Home => "home",
        }
    }
}

impl fmt::Display for Kind {
    ghost output = { λ kind. Some (name_of kind) };

    fn fmt<W: fmt::Write>(&self, f: &mut fmt::Formatter<W>) -> fmt::Result {
        f.write_str(self.name())
    }
}
