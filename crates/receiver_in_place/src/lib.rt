// The console's calls on a receiver that is lent and changed where it lies: feed, supply, and answer for
// the others. Answers, the receiver afterwards and every lent byte are those of the calls by value, for any
// receiver and any buffers. A call copies one session out and back.
//
// Not here: what a call gives (`protocol`), what it does with the one session (`session_in_place`).
#![tactic(auto)]

ghost use Rattle.std.specs.Prelude.{◌≡◌, ◌<◌};
ghost use Rattle.octets.specs.Outcome.{outcome};
ghost use Rattle.protocol.specs.Calls.{feeding, feed_of};
ghost use Rattle.protocol.specs.Supplies.{supply_of};
ghost use Rattle.supplying.specs.Supplied.{supply_in};
ghost use Rattle.session_in_place.specs.Calls.{answered, called_of, fed_id};
ghost use Rattle.session_in_place.specs.Feeds.{fed_in};
ghost use Rattle.session_in_place.specs.Steps.{takes, left_in};

use command::Command;
use protocol::{Receiver, Told};
use session_in_place::calls;
use session_in_place::calls::answer_at;
use session_in_place::feeds::{Heard, act, hear};
use session_in_place::steps::place_of;
use session_in_place::supplies::supply_in;
pub use session_in_place::{AnsweredInPlace, Call, FedInPlace};
pub use supplying::Supplying;
use supplying::{Given, Left, turns};

// ---- The calls. What is decided, the functions that they call decide. Carry, scratch, reply and out are
// lent one by one, as a console lends them.
// Takes one piece through the first thing to report.
pub fn feed<'r, 'p, 'b>(
    receiver: &'r mut Receiver,
    piece: &'p [u8],
    carry: &'b mut [u8],
    scratch: &'b mut [u8],
    reply: &'b mut [u8],
) -> FedInPlace
    ensures { feeding (fed_in receiver.new result) carry.new scratch.new reply.new
        ≡ feed_of receiver.old piece.now carry.old scratch.old reply.old }
{
    let owed = receiver.table.owed;
    let heard = hear(
        receiver.framing,
        owed,
        &receiver.table.sessions,
        piece,
        carry,
        scratch,
        reply.len(),
    );
    receiver.framing = heard.framing;
    let command = match heard.said {
        Ok(command) => command,
        Err(told) => return fed(&heard, Command::NONE, told, 0),
    };
    let i = place_of(heard.found);
    let text = frames::text(piece, carry, heard.report);
    let left = act(
        heard.found,
        receiver.table.sessions[i],
        owed,
        command,
        text,
        scratch,
        reply,
    );
    let answered = put_back(receiver, i, left);
    fed(&heard, command, answered.told, answered.reply_len)
}

// What a feed answers of what it heard.
fn fed(heard: &Heard, command: Command, told: Told, reply_len: usize) -> FedInPlace
    ensures { result ≡ record {
      consumed = heard.now.consumed;
      report = heard.now.report;
      told = told;
      command = command;
      reply_len = reply_len;
    } }
{
    FedInPlace {
        consumed: heard.consumed,
        report: heard.report,
        told,
        command,
        reply_len,
    }
}

// Any other call but supply. Done, failed and unlisted look at no id, a drop at no reply buffer.
pub fn answer<'r, 'i, 'b>(
    receiver: &'r mut Receiver,
    call: Call,
    id: &'i [u8],
    reply: &'b mut [u8],
) -> AnsweredInPlace
    ensures { outcome (answered receiver.new result) reply.new
        ≡ called_of receiver.old call id.now reply.old }
{
    let owed = receiver.table.owed;
    let found = calls::concerned(call, owed, &receiver.table.sessions, id);
    let i = place_of(found);
    let left = answer_at(call, found, receiver.table.sessions[i], owed, reply);
    put_back(receiver, i, left)
}

// The same, by the id of the command that a feed reported: where it lies, in that feed's piece or in the
// carry.
pub fn answer_for<'r, 'p, 'b>(
    receiver: &'r mut Receiver,
    call: Call,
    fed: FedInPlace,
    piece: &'p [u8],
    carry: &'b mut [u8],
    reply: &'b mut [u8],
) -> AnsweredInPlace
    ensures { (outcome (answered receiver.new result) reply.new
        ≡ called_of receiver.old call (fed_id fed piece.now carry.old) reply.old)
        × (carry.new ≡ carry.old) }
{
    let text = frames::text(piece, carry, fed.report);
    let id = octets::part(text, fed.command.id.start, fed.command.id.len);
    answer(receiver, call, id, reply)
}

// What is supplied in a receive session: its strings stand in the text and the contents.
pub fn supply<'r, 's, 'b>(
    receiver: &'r mut Receiver,
    supplying: Supplying,
    text: &'s [u8],
    contents: &'s [u8],
    out: &'b mut [u8],
) -> AnsweredInPlace
    ensures { outcome (answered receiver.new result) out.new
        ≡ supply_of receiver.old (supply_in supplying text.now contents.now) out.old }
{
    let given = Given {
        supplying,
        text,
        contents,
    };
    let owed = receiver.table.owed;
    let found = turns::concerned(given, owed, &receiver.table.sessions);
    let i = place_of(found);
    let left = supply_in(given, found, receiver.table.sessions[i], owed, out);
    put_back(receiver, i, left)
}

// What a call leaves is put back: the session at its place, and what is owed. Inlined, since a call would
// copy the session once more.
#[inline(always)]
fn put_back(receiver: &mut Receiver, i: usize, left: Left) -> AnsweredInPlace
    requires { i < 4 }
    ensures receiver { receiver.new ≡ takes receiver.old i left }
    ensures answer { result ≡ left_in left }
{
    receiver.table.sessions[i] = left.session;
    receiver.table.owed = left.owed;
    AnsweredInPlace {
        told: left.told,
        reply_len: left.written,
    }
}
