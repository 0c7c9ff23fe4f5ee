// Reading a sheet.
ghost use Rattle.std.specs.Prelude.{◌≡◌, length};
ghost use Rattle.std.specs.List.{slice_get};
ghost use Rattle.net.specs.Nets.{drawn};
ghost use Rattle.cover.specs.Bare.{bare_places};
ghost use Rattle.cover.specs.Sheets.{sheet_net, sheet_strands};

use crate::sheet::Sheet;
use net::Net;

impl Sheet {
    // The net on the sheet.
    pub fn net(&self) -> &Net
        ensures { drawn result.now ≡ sheet_net self.now }
    {
        &self.net
    }

    // How many strands are on the sheet.
    pub fn count(&self) -> u8
        ensures { result ≡ length (sheet_strands self.now) }
    {
        self.strands.len() as u8
    }

    // Strand `k`, numbered from 0 in the order accepted, if there are so many.
    pub fn strand(&self, k: u8) -> Option<u64>
        ensures { result ≡ slice_get (sheet_strands self.now) k }
    {
        self.strands.get(k as usize).copied()
    }

    // The set of the bare places.
    pub fn bare(&self) -> u64
        ensures { result ≡ bare_places (sheet_net self.now) (sheet_strands self.now) }
    {
        self.bare
    }
}
