// A net on a sheet, and the strands proposed for it.
ghost use Rattle.std.specs.Prelude.{◌≡◌, []};
ghost use Rattle.net.specs.Nets.{drawn};
ghost use Rattle.refusal.specs.Outcomes.{Accepts};
ghost use Rattle.cover.specs.Bare.{NewStrand, propose_outcome};
ghost use Rattle.cover.specs.Sheets.{sheet_net, sheet_strands, Proposed};

use crate::checking::check;
use crate::sheet::Sheet;
use arrayvec::ArrayVec;
use net::{Net, below};
use refusal::Refusal;

impl Sheet {
    // Moves the net onto a sheet with no strands.
    pub fn new(net: Net) -> Sheet
        ensures held { sheet_net result ≡ drawn net }
        ensures empty { sheet_strands result ≡ [] }
    {
        let bare = below(net.places());
        Sheet {
            net,
            strands: ArrayVec::new(),
            bare,
        }
    }

    // Adds the set to the strands, if it is a strand with a bare place in it.
    pub fn propose(&mut self, set: u64) -> Result<(), Refusal>
        ensures answer { result ≡ propose_outcome (sheet_net self.old) (sheet_strands self.old) set }
        ensures strand { Accepts result (NewStrand (sheet_net self.old) (sheet_strands self.old) set) }
        ensures after { Proposed self.old set result self.new }
    {
        check(&self.net, set)?;
        let fresh = self.bare & set;
        if fresh == 0 {
            return Err(Refusal::NoBarePlace);
        }
        self.strands.push(set);
        self.bare ^= fresh;
        Ok(())
    }
}
