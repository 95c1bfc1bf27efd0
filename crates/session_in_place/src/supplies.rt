// What the console supplies, on one session: what is left of it.
ghost use Rattle.std.specs.Prelude.{◌≡◌};
ghost use Rattle.octets.specs.Outcome.{outcome};
ghost use Rattle.session_in_place.specs.Supplies.{supplied_by, is_outside, supply_at};

use crate::steps::Left;
use protocol::{Due, Session, Table};
use supplying::turns::in_turn;
use supplying::{Given, supply_at};

// The session that was copied out is supplied. What is owed may name a place outside the table, as in
// `calls`: then free room is, and the session is put back as it was.
#[tactic(auto, unfolding(crate::specs::Supplies::supply_at))]
pub fn supply_in(
    given: Given<'_>,
    found: Option<usize>,
    session: Session,
    owed: Option<(usize, Due)>,
    out: &mut [u8],
) -> Left
    ensures { outcome result out.new ≡ supply_at given.entry found session owed out.old }
{
    if is_outside(found) {
        let aside = supply(given, found, Session::ABSENT, owed, out);
        return Left { session, ..aside };
    }
    supply(given, found, session, owed, out)
}

// Whether its place is outside the table.
fn is_outside(found: Option<usize>) -> bool
    ensures { result ≡ is_outside found }
{
    matches!(found, Some(i) if i >= Table::SESSIONS)
}

// One session is supplied, if it is in turn.
fn supply(
    given: Given<'_>,
    found: Option<usize>,
    session: Session,
    owed: Option<(usize, Due)>,
    out: &mut [u8],
) -> Left
    ensures { outcome result out.new ≡ supplied_by given.entry found session owed out.old }
{
    let turn = in_turn(given.supplying, session.state, found);
    supply_at(given, turn, session, owed, out)
}
