// Reading a certified net.
ghost use Rattle.std.specs.Prelude.{◌≡◌, length};
ghost use Rattle.std.specs.List.{slice_get};
ghost use Rattle.net.specs.Counting.{Safe, ContactFree};
ghost use Rattle.net.specs.Nets.{drawn};
ghost use Rattle.net.specs.Strands.{Cover};
ghost use Rattle.cover.specs.Certificates.{certified_net, certified_strands};

use crate::certified::Certified;
use net::Net;

impl Certified {
    // The certified net: no place of it ever holds two tokens, and what an enabled transition gives is empty.
    pub fn net(&self) -> &Net
        ensures held { drawn result.now ≡ certified_net self.now }
        ensures covered { Cover (drawn result.now) (certified_strands self.now) }
        ensures safe { Safe (drawn result.now) }
        ensures free { ContactFree (drawn result.now) }
    {
        self.sheet.net()
    }

    // How many strands cover the net.
    pub fn count(&self) -> u8
        ensures { result ≡ length (certified_strands self.now) }
    {
        self.sheet.count()
    }

    // Strand `k`, numbered from 0 in the order accepted, if there are so many.
    pub fn strand(&self, k: u8) -> Option<u64>
        ensures { result ≡ slice_get (certified_strands self.now) k }
    {
        self.sheet.strand(k)
    }
}
