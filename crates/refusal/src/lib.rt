// The refusals of the sequencer: each is a case with what it carries, and has a number by which users know it.
#![tactic(auto)]

ghost use Rattle.std.specs.Prelude.{◌≡◌, Some};
ghost use Rattle.refusal.specs.Numbers.{number_of, detail_of};
ghost use Rattle.refusal.specs.Reasons.{reason_of};

use std::error::Error;
use std::fmt;

#[derive(Clone, Copy, PartialEq, Eq, Debug)]
pub enum Refusal {
    // drawing a net
    TooManyPlaces,
    TooManyTransitions,
    MarkOutside,
    // giving arcs to a transition; a fire of a transition that is not there is refused by the first too
    NoSuchTransition,
    ArcOutside,
    TakenAndGiven,
    // proposing a set of places
    EmptySet,
    PlaceOutside,
    TwoMarks,
    NotEvenOrNotThin { transition: u8 },
    NoBarePlace,
    // certifying a net
    Bare { place: u8 },
    // firing a transition
    Unlit { place: u8 },
    Occupied { place: u8 },
    Shut { channel: u8 },
    // asking for a strand's station
    NoSuchStrand,
    // reading a line
    Foreign,
    OddOrShort,
    WrongCheck,
    UnknownKind,
    WrongLength,
    // answering a job
    OutOfOrder,
    Spent { stage: u8 },
    // writing a line
    MemoryTooShort,
}

// A refusal has two numbers, and a conversion would not say which of them it gives: so each has a method.
impl Refusal {
    // The number by which users know the refusal, from 1 to 24.
    pub fn number(self) -> u8
        ensures { result ≡ number_of self }
    {
        match self {
            Refusal::TooManyPlaces => 1,
            Refusal::TooManyTransitions => 2,
            Refusal::MarkOutside => 3,
            Refusal::NoSuchTransition => 4,
            Refusal::ArcOutside => 5,
            Refusal::TakenAndGiven => 6,
            Refusal::EmptySet => 7,
            Refusal::PlaceOutside => 8,
            Refusal::TwoMarks => 9,
            Refusal::NotEvenOrNotThin { .. } => 10,
            Refusal::NoBarePlace => 11,
            Refusal::Bare { .. } => 12,
            Refusal::Unlit { .. } => 13,
            Refusal::Occupied { .. } => 14,
            Refusal::Shut { .. } => 15,
            Refusal::NoSuchStrand => 16,
            Refusal::Foreign => 17,
            Refusal::OddOrShort => 18,
            Refusal::WrongCheck => 19,
            Refusal::UnknownKind => 20,
            Refusal::WrongLength => 21,
            Refusal::OutOfOrder => 22,
            Refusal::Spent { .. } => 23,
            Refusal::MemoryTooShort => 24,
        }
    }

    // What the refusal carries: a transition, a place, a channel or a stage; 0 where it carries nothing.
    pub fn detail(self) -> u8
        ensures { result ≡ detail_of self }
    {
        match self {
            Refusal::NotEvenOrNotThin { transition } => transition,
            Refusal::Bare { place } | Refusal::Unlit { place } | Refusal::Occupied { place } =>
                place,
            Refusal::Shut { channel } => channel,
            Refusal::Spent { stage } => stage,
            _ => 0,
        }
    }

    // Why the call is refused, in words.
    pub fn reason(self) -> &'static str
        ensures { result.now ≡ reason_of self }
    {
        match self {
            Refusal::TooManyPlaces => "more than 64 places",
            Refusal::TooManyTransitions => "more than 64 transitions",
            Refusal::MarkOutside => "a mark outside the net",
            Refusal::NoSuchTransition => "no such transition",
            Refusal::ArcOutside => "an arc to a place outside the net",
            Refusal::TakenAndGiven => "a place both taken and given",
            Refusal::EmptySet => "the empty set",
            Refusal::PlaceOutside => "a place outside the net",
            Refusal::TwoMarks => "two marked places",
            Refusal::NotEvenOrNotThin { .. } => "not even or not thin at a transition",
            Refusal::NoBarePlace => "no bare place",
            Refusal::Bare { .. } => "a bare place",
            Refusal::Unlit { .. } => "an unlit place",
            Refusal::Occupied { .. } => "an occupied place",
            Refusal::Shut { .. } => "shut by a channel",
            Refusal::NoSuchStrand => "no such strand",
            Refusal::Foreign => "a foreign character",
            Refusal::OddOrShort => "an odd count of digits or fewer than four",
            Refusal::WrongCheck => "a wrong check byte",
            Refusal::UnknownKind => "an unknown kind",
            Refusal::WrongLength => "a wrong payload length",
            Refusal::OutOfOrder => "out of order",
            Refusal::Spent { .. } => "memory spent at a stage",
            Refusal::MemoryTooShort => "memory too short",
        }
    }
}

impl fmt::Display for Refusal {
    ghost output = { λ refusal. Some (reason_of refusal) };

    fn fmt<W: fmt::Write>(&self, f: &mut fmt::Formatter<W>) -> fmt::Result {
        f.write_str(self.reason())
    }
}

impl Error for Refusal {}
