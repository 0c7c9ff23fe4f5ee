ghost use Rattle.std.specs.Prelude.{◌≡◌};
ghost use Rattle.cover.specs.Bare.{bare_places};
ghost use Rattle.cover.specs.Sheets.{sheet_net, sheet_strands};

use crate::sheet::Sheet;

// A net with a cover: a sheet whose strands leave no place bare.
#[derive(Drop)]
pub struct Certified {
    pub(crate) sheet: Sheet,
    ghost covered: { bare_places (sheet_net sheet) (sheet_strands sheet) ≡ 0 },
}
