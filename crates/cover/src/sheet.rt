ghost use Rattle.std.specs.Prelude.{◌≡◌, ℕ, ◌+◌, ◌<◌, ◌≤◌, true, length};
ghost use Rattle.net.specs.Nets.{drawn};
ghost use Rattle.net.specs.Sets.{size};
ghost use Rattle.cover.specs.Checks.{Checked};
ghost use Rattle.cover.specs.Bare.{bare_places};

use arrayvec::ArrayVec;
use net::Net;

// A net on a sheet, with the strands that were accepted, in that order. Each took a bare place, so there are at most 64.
// A place is bare while no strand on the sheet contains it.
#[derive(Drop)]
pub struct Sheet {
    pub(crate) net: Net,
    pub(crate) strands: ArrayVec<u64, 64>,
    pub(crate) bare: u64,
    ghost checked: { Checked (drawn net) strands.items },
    ghost bared: { bare ≡ bare_places (drawn net) strands.items },
    ghost room: { length strands.items + size bare ≤ (drawn net).places },
}
