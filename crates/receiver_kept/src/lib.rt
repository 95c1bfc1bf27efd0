// The calls in place on a receiver that is taken and given by value: it is lent to each from where it was
// taken to, so whoever calls these lends none.
//
// Not here: speed. A console that wants it keeps the receiver where it lies, and lends it itself.
#![tactic(auto)]

ghost use Rattle.std.specs.Prelude.{◌≡◌};
ghost use Rattle.octets.specs.Outcome.{outcome};
ghost use Rattle.protocol.specs.Calls.{feeding, feed_of};
ghost use Rattle.protocol.specs.Supplies.{supply_of};
ghost use Rattle.supplying.specs.Supplied.{supply_in};
ghost use Rattle.session_in_place.specs.Calls.{called_of};

use protocol::{Answered, Fed, Receiver};
use receiver_in_place::{Call, Supplying};

// A feed in place.
pub fn feed<'p, 'b>(
    mut receiver: Receiver,
    piece: &'p [u8],
    carry: &'b mut [u8],
    scratch: &'b mut [u8],
    reply: &'b mut [u8],
) -> Fed
    ensures { feeding result carry.new scratch.new reply.new
        ≡ feed_of receiver piece.now carry.old scratch.old reply.old }
{
    let fed = receiver_in_place::feed(&mut receiver, piece, carry, scratch, reply);
    Fed {
        receiver,
        consumed: fed.consumed,
        report: fed.report,
        told: fed.told,
        command: fed.command,
        reply_len: fed.reply_len,
    }
}

// Any other call but supply in place.
pub fn answer<'i, 'b>(
    mut receiver: Receiver,
    call: Call,
    id: &'i [u8],
    reply: &'b mut [u8],
) -> Answered
    ensures { outcome result reply.new ≡ called_of receiver call id.now reply.old }
{
    let answered = receiver_in_place::answer(&mut receiver, call, id, reply);
    Answered {
        receiver,
        told: answered.told,
        reply_len: answered.reply_len,
    }
}

// What is supplied in a receive session, in place.
pub fn supply<'s, 'b>(
    mut receiver: Receiver,
    supplying: Supplying,
    text: &'s [u8],
    contents: &'s [u8],
    out: &'b mut [u8],
) -> Answered
    ensures { outcome result out.new
        ≡ supply_of receiver (supply_in supplying text.now contents.now) out.old }
{
    let answered = receiver_in_place::supply(&mut receiver, supplying, text, contents, out);
    Answered {
        receiver,
        told: answered.told,
        reply_len: answered.reply_len,
    }
}
