// Lines that can be read.
ghost use Rattle.std.specs.Prelude.{◌≡◌, ℕ, ◌^◌, ◌<◌};
ghost use Rattle.net.specs.Sets.{has};

pub trait Lines {
    // the set of lit lines, which is the whole meaning of lines that can be read
    ghost lit: { Self → ℕ };

    // Whether the line is lit. There are 64 lines, so none is from 64 on.
    fn read(&self, line: u8) -> bool
        ensures { result ≡ has (lit self.now) line };

    // there are 64 lines
    ghost bounded: { (b : Self) → lit b < 2 ^ 64 };
}
