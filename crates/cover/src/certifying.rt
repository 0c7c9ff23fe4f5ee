// Nets that are certified by a cover.
ghost use Rattle.std.specs.Prelude.{◌≡◌, [], OnOk};
ghost use Rattle.net.specs.Counting.{Safe, ContactFree};
ghost use Rattle.net.specs.Drawings.{without_arcs};
ghost use Rattle.refusal.specs.Outcomes.{Accepts};
ghost use Rattle.net.specs.Strands.{Cover};
ghost use Rattle.cover.specs.Certificates.{certified_net, certified_strands, certify_outcome, TakenOver};
ghost use Rattle.cover.specs.Sheets.{sheet_net, sheet_strands};

use crate::certified::Certified;
use crate::sheet::Sheet;
use net::{Net, lowest};
use refusal::Refusal;

impl Certified {
    // The net of 0 places, which the empty list covers.
    pub fn new() -> Certified
        ensures held { certified_net result ≡ without_arcs 0 0 0 }
        ensures empty { certified_strands result ≡ [] }
    {
        Certified {
            sheet: Sheet::new(Net::new()),
        }
    }

    // Takes over the net and the strands of the sheet, if no place is bare. The sheet is used up either way.
    pub fn certify(&mut self, sheet: Sheet) -> Result<(), Refusal>
        ensures answer { result ≡ certify_outcome (sheet_net sheet) (sheet_strands sheet) }
        ensures covered { Accepts result (Cover (sheet_net sheet) (sheet_strands sheet)) }
        ensures after { TakenOver self.old sheet result self.new }
        ensures safe { OnOk result (Safe (sheet_net sheet) × ContactFree (sheet_net sheet)) }
    {
        match lowest(sheet.bare) {
            Some(place) => Err(Refusal::Bare { place }),
            None => {
                *self = Certified { sheet };
                Ok(())
            }
        }
    }
}
