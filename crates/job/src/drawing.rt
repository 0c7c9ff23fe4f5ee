// Requests before a net is on a sheet.
ghost use Rattle.frame.specs.declared.requests.Request.TheVariants.{Draw, Arcs};
ghost use Rattle.job.specs.Replies.{obeyed, Gives};
ghost use Rattle.job.specs.Standings.{no_net, drawn_net};
ghost use Rattle.net.specs.Nets.{drawn};

use crate::state::State;
use net::Net;
use refusal::Refusal;

// Draws a net where there is none.
pub(crate) fn draw(places: u8, transitions: u8, marks: u64) -> (State, Result<u8, Refusal>)
    ensures { Gives (obeyed no_net (Draw places transitions marks)) result.0 result.1 }
{
    let mut net = Net::new();
    match net.draw(places, transitions, marks) {
        Ok(()) => (State::Drawn(net), Ok(0)),
        Err(why) => (State::NoNet, Err(why)),
    }
}

// Gives arcs to a transition of the net.
pub(crate) fn arcs(
    mut net: Net,
    transition: u8,
    taken: u64,
    given: u64,
) -> (State, Result<u8, Refusal>)
    ensures { Gives (obeyed (drawn_net (drawn net)) (Arcs transition taken given)) result.0 result.1 }
{
    let said = net.arcs(transition, taken, given).map(|()| 0);
    (State::Drawn(net), said)
}
