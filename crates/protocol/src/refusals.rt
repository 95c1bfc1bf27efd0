// The numbers of refusals that a call answers, by the table of document 01, where no enum has them. What a
// text or a written value is refused for, `command::Refusal` numbers.

// "A text that begins with `5113;` or `72;` has more than 8,192 bytes".
pub const TEXT_TOO_LONG: u8 = 1;

// "Such a text is broken off".
pub const TEXT_BROKEN_OFF: u8 = 2;

// "A lent buffer is too short".
pub const SHORT_BUFFER: u8 = 9;

// "A feed, but an ask has not been answered".
pub const ASK_OWED: u8 = 10;

// "Done or failed, but there is no ask to answer".
pub const NOTHING_OWED: u8 = 11;

// "Allow or deny, but no session with this id is asked; drop, but none is present".
pub const NO_SESSION: u8 = 12;

// "Part or last_part with over 4,096 bytes". Of a sender: "a piece over 4,096 bytes; a 33rd file, or one
// whose id a file of this sender has".
pub const OVER_LIMIT: u8 = 17;

// "List, list_failed, home, part, last_part or unlisted out of turn; done for a request". Of a sender: "a
// call that is not ready".
pub const OUT_OF_TURN: u8 = 18;
