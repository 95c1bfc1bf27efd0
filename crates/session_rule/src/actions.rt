// The action table looked up.
ghost use Rattle.std.specs.Prelude.{◌≡◌, ◌≤◌, ◌<◌};
ghost use Rattle.command.specs.Slots.{action_code};
ghost use Rattle.protocol.specs.Actions.{state_number, kind_of};

use command::Action;
use protocol::{Kind, SessionState, Table};

// A command without an action, which no text gives, is ignored.
pub fn look_up(state: SessionState, action: Action) -> Kind
    ensures { result ≡ kind_of state action }
{
    let code = action_code(action);
    if code == 0 {
        return Kind::Ignore;
    }
    Table::ACTIONS[state_number(state)][code - 1]
}

// Here and below `as` stands alone, to give the number its definition in specs: in the look-up it would
// leave the proof to find both at once, which is no plainer.
fn state_number(state: SessionState) -> usize
    ensures { (result ≡ state_number state) × (result < 7) }
{
    state as usize
}

fn action_code(action: Action) -> usize
    ensures { (result ≡ action_code action) × (result ≤ 8) }
{
    action as usize
}
