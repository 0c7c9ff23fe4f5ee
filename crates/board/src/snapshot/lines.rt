// Snapshots, and their lines.
ghost use Rattle.std.specs.Prelude.{◌≡◌};

use crate::lines::Lines;
use crate::snapshot::Snapshot;
use net::has;

impl Snapshot {
    // A snapshot of this set.
    pub fn new(set: u64) -> Snapshot
        ensures { result.set ≡ set }
    {
        Snapshot { set }
    }

    // A copy of the lit set of any lines.
    pub fn of<L: Lines>(lines: &L) -> Snapshot
        ensures { result.set ≡ L.Lines.lit lines.now }
    {
        // Each bit is shifted into place as it is read: a filter or a test on each line makes the copy slower.
        let set = (0..64).fold(0, |set, line| set | u64::from(lines.read(line)) << line);
        Snapshot::new(set)
    }

    // The copied set.
    pub fn set(&self) -> u64
        ensures { result ≡ self.now.set }
    {
        self.set
    }
}

impl Lines for Snapshot {
    ghost lit = { λ s. s.set };

    ghost bounded = { λ s. s.fits };

    fn read(&self, line: u8) -> bool {
        has(self.set, line)
    }
}
