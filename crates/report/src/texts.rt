// Sets, kinds and lines in words.
ghost use Rattle.std.specs.Prelude.{◌≡◌, Some, IfOk, string_bytes};
ghost use Rattle.report.specs.Texts.{members_of, kind_name_of, draw_text, arcs_text, propose_text, fire_text, signal_text, answer_text, saying_of};

use frame::{Kind, Request};
use net::has;
use std::alloc::{AllocError, Global};
use std::fmt;

// A set as its members between braces, as `{ 0 5 }`.
#[derive(Clone, Copy)]
struct Braced(u64);

impl fmt::Display for Braced {
    ghost output = { λ set. Some (members_of set.0) };

    fn fmt<W: fmt::Write>(&self, f: &mut fmt::Formatter<W>) -> fmt::Result {
        // a loop and no chain: `for` with `?` is how a writer is written to, and its invariant says what is written so far
        f.write_str("{")?;
        for place in 0..64 {
            if has(self.0, place) {
                write!(f, " {place}")?;
            }
        }
        f.write_str(" }")
    }
}

// The members of a set between braces, as `{ 0 5 }`.
pub fn members(heap: Global, set: u64) -> Result<String, AllocError>
    ensures { IfOk result (λ s. string_bytes s ≡ members_of set) }
{
    Braced(set).to_string(heap)
}

// The kind of a line in a few words.
pub fn kind_name(kind: Option<Kind>) -> &'static str
    ensures { result.now ≡ kind_name_of kind }
{
    match kind {
        None => "no kind",
        Some(kind) => kind.name(),
    }
}

// Each kind of line with fields has its text in a function of its own: one `fmt` with all of them would be past forty lines.
fn draw_text(heap: Global, places: u8, transitions: u8, marks: u64) -> Result<String, AllocError>
    ensures { IfOk result (λ s. string_bytes s ≡ draw_text places transitions marks) }
{
    format!(in heap;
        "draw: places {places}, transitions {transitions}, marks {}",
        Braced(marks)
    )
}

fn arcs_text(heap: Global, transition: u8, taken: u64, given: u64) -> Result<String, AllocError>
    ensures { IfOk result (λ s. string_bytes s ≡ arcs_text transition taken given) }
{
    format!(in heap;
        "arcs: transition {transition}, taken {}, given {}",
        Braced(taken),
        Braced(given)
    )
}

fn propose_text(heap: Global, set: u64) -> Result<String, AllocError>
    ensures { IfOk result (λ s. string_bytes s ≡ propose_text set) }
{
    format!(in heap; "propose: {}", Braced(set))
}

fn fire_text(heap: Global, transition: u8) -> Result<String, AllocError>
    ensures { IfOk result (λ s. string_bytes s ≡ fire_text transition) }
{
    format!(in heap; "fire: transition {transition}")
}

fn signal_text(heap: Global, channel: u8, event: u8) -> Result<String, AllocError>
    ensures { IfOk result (λ s. string_bytes s ≡ signal_text channel event) }
{
    format!(in heap; "signal: channel {channel}, event {event}")
}

// The result is a byte, as it stands on the line.
fn answer_text(
    heap: Global,
    to: Option<Kind>,
    res: u8,
    detail: u8,
    lit: u64,
) -> Result<String, AllocError>
    ensures { IfOk result (λ s. string_bytes s ≡ answer_text to res detail lit) }
{
    let kind = kind_name(to);
    format!(in heap;
        "answer to {kind}: result {res}, detail {detail}, lit {}",
        Braced(lit)
    )
}

// What a line says, with its fields.
pub fn saying(heap: Global, request: Request) -> Result<String, AllocError>
    ensures { IfOk result (λ s. string_bytes s ≡ saying_of request) }
{
    match request {
        Request::Draw {
            places,
            transitions,
            marks,
        } => draw_text(heap, places, transitions, marks),
        Request::Arcs {
            transition,
            taken,
            given,
        } => arcs_text(heap, transition, taken, given),
        Request::Propose { set } => propose_text(heap, set),
        Request::Search => Kind::Search.to_string(heap),
        Request::Certify => Kind::Certify.to_string(heap),
        Request::Fire { transition } => fire_text(heap, transition),
        Request::Signal { channel, event } => signal_text(heap, channel, event),
        Request::Halt => Kind::Halt.to_string(heap),
        Request::Resume => Kind::Resume.to_string(heap),
        Request::Home => Kind::Home.to_string(heap),
        Request::Answer {
            to,
            result,
            detail,
            lit,
        } => answer_text(heap, to, result, detail, lit),
    }
}
