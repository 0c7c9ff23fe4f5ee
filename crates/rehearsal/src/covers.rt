// A net certified by the cover that is sent along with it.
ghost use Rattle.std.specs.Prelude.{◌≡◌};
ghost use Rattle.cover.specs.Certificates.{certified_net, certified_strands};
ghost use Rattle.net.specs.Nets.{drawn};
ghost use Rattle.refusal.specs.Outcomes.{Tells};
ghost use Rattle.rehearsal.specs.Covers.{cover_outcome};

use cover::{Certified, Sheet};
use net::Net;
use refusal::Refusal;

// Proposes the sets in their order, and certifies the net.
pub(crate) fn certified_by(net: Net, sets: &[u64]) -> Result<Certified, Refusal>
    ensures { Tells (cover_outcome (drawn net) sets.now) result (λ c. (certified_net c ≡ drawn net) × (certified_strands c ≡ sets.now)) (Unit {0}) }
{
    let mut sheet = Sheet::new(net);
    for set in sets {
        sheet.propose(*set)?;
    }
    let mut certified = Certified::new();
    certified.certify(sheet)?;
    Ok(certified)
}
