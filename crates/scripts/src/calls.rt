// The calls on a receiver, by value or in place. One contract holds for both: they give the same answers.
ghost use Rattle.std.specs.Prelude.{◌≡◌};
ghost use Rattle.octets.specs.Outcome.{outcome};
ghost use Rattle.protocol.specs.Calls.{feeding, feed_of};
ghost use Rattle.protocol.specs.Supplies.{supply_of};
ghost use Rattle.supplying.specs.Supplied.{supply_in};
ghost use Rattle.session_in_place.specs.Calls.{called_of};

use protocol::{Answered, Fed, Receiver};
use receiver_in_place::Call;
use supplying::Supplying;

pub trait Calls {
    fn feed(
        receiver: Receiver,
        piece: &[u8],
        carry: &mut [u8],
        scratch: &mut [u8],
        reply: &mut [u8],
    ) -> Fed
        ensures { feeding result carry.new scratch.new reply.new
            ≡ feed_of receiver piece.now carry.old scratch.old reply.old };

    // What the console supplies in a receive session.
    fn supply(
        receiver: Receiver,
        supplying: Supplying,
        text: &[u8],
        contents: &[u8],
        out: &mut [u8],
    ) -> Answered
        ensures { outcome result out.new
            ≡ supply_of receiver (supply_in supplying text.now contents.now) out.old };

    // Any other call.
    fn answer(receiver: Receiver, call: Call, id: &[u8], reply: &mut [u8]) -> Answered
        ensures { outcome result reply.new ≡ called_of receiver call id.now reply.old };
}

// On a receiver that is taken and given by value.
#[derive(Clone, Copy)]
pub struct ByValue;

impl Calls for ByValue {
    fn feed(
        receiver: Receiver,
        piece: &[u8],
        carry: &mut [u8],
        scratch: &mut [u8],
        reply: &mut [u8],
    ) -> Fed {
        receiver::feed(receiver, piece, carry, scratch, reply)
    }

    fn supply(
        receiver: Receiver,
        supplying: Supplying,
        text: &[u8],
        contents: &[u8],
        out: &mut [u8],
    ) -> Answered {
        receiver::supplies::supply(receiver, supplying, text, contents, out)
    }

    #[tactic(auto, unfolding(session_in_place::specs::Calls::called_of))]
    fn answer(receiver: Receiver, call: Call, id: &[u8], reply: &mut [u8]) -> Answered {
        match call {
            Call::Allow => receiver::allow(receiver, id, reply),
            Call::Deny => receiver::deny(receiver, id, reply),
            Call::Drop => receiver::drop(receiver, id),
            Call::Done => receiver::done(receiver, reply),
            Call::Failed(failure) => receiver::failed(receiver, failure, reply),
            Call::Unlisted => receiver::unlisted(receiver, reply),
        }
    }
}

// On a receiver that is lent and changed in place.
#[derive(Clone, Copy)]
pub struct InPlace;

impl Calls for InPlace {
    fn feed(
        receiver: Receiver,
        piece: &[u8],
        carry: &mut [u8],
        scratch: &mut [u8],
        reply: &mut [u8],
    ) -> Fed {
        receiver_kept::feed(receiver, piece, carry, scratch, reply)
    }

    fn supply(
        receiver: Receiver,
        supplying: Supplying,
        text: &[u8],
        contents: &[u8],
        out: &mut [u8],
    ) -> Answered {
        receiver_kept::supply(receiver, supplying, text, contents, out)
    }

    fn answer(receiver: Receiver, call: Call, id: &[u8], reply: &mut [u8]) -> Answered {
        receiver_kept::answer(receiver, call, id, reply)
    }
}
