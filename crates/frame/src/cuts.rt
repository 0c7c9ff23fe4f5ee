// Cutting an input into lines.
ghost use Rattle.std.specs.Prelude.{◌≡◌, ◌<◌, length, slice_index, MatchOption};
ghost use Rattle.std.specs.Iterator.{at_most};
ghost use Rattle.frame.specs.Cuts.{FreeBelow, Cut};
ghost use Rattle.frame.specs.Uncut.{uncut, CutsLine};

// The place of the first line feed, if there is one.
fn first_feed(input: &[u8]) -> Option<usize>
    ensures { MatchOption result (FreeBelow (length input.now) input.now) (λ i. (i < length input.now) × (slice_index input.now i ≡ 10) × FreeBelow i input.now) }
{
    input.iter().position(|c| *c == b'\n')
}

// The first line of an input, with its line feed if it has one, and what comes after it.
pub fn first_line(input: &[u8]) -> (&[u8], &[u8])
    ensures { Cut input.now result.0.now result.1.now }
{
    match first_feed(input) {
        Some(feed) => input.split_at(feed + 1),
        None => input.split_at(input.len()),
    }
}

// The lines of an input, one after another.
#[derive(Drop)]
pub struct Lines<'a> {
    rest: &'a [u8],
}

impl<'a> Lines<'a> {
    // All lines of an input.
    pub fn of(input: &'a [u8]) -> Lines<'a>
        ensures { uncut result ≡ input.now }
    {
        Lines { rest: input }
    }
}

impl<'a> Iterator for Lines<'a> {
    type Item = &'a [u8];

    ghost next_gives = { λ lines line left. CutsLine (uncut lines) line (uncut left) };

    ghost remaining = { λ lines. at_most (length (uncut lines)) };

    fn next(&mut self) -> Option<&'a [u8]> {
        if self.rest.is_empty() {
            return None;
        }
        let (line, rest) = first_line(self.rest);
        self.rest = rest;
        Some(line)
    }
}
