// Requests to a net on a sheet.
ghost use Rattle.cover.specs.Sheets.{sheet_net, sheet_strands};
ghost use Rattle.frame.specs.declared.requests.Request.TheVariants.{Propose};
ghost use Rattle.job.specs.Replies.{obeyed, Gives};
ghost use Rattle.job.specs.Standings.{on_sheet};

use crate::state::State;
use cover::Sheet;
use refusal::Refusal;

// Proposes a set of places; accepted, the detail is how many strands the sheet has then.
pub(crate) fn propose(mut sheet: Sheet, set: u64) -> (State, Result<u8, Refusal>)
    ensures { Gives (obeyed (on_sheet (sheet_net sheet) (sheet_strands sheet)) (Propose set)) result.0 result.1 }
{
    // the two cases apart: the count is read from the sheet that the proposal left
    match sheet.propose(set) {
        Ok(()) => {
            let count = sheet.count();
            (State::OnSheet(sheet), Ok(count))
        }
        Err(why) => (State::OnSheet(sheet), Err(why)),
    }
}
