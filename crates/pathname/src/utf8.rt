// UTF-8: the well-formed byte sequences of the Unicode Standard, table 3-7.
ghost use Rattle.std.specs.Prelude.{◌≡◌};
ghost use Rattle.pathname.specs.Utf8.{utf8, rows, followers_in};
ghost use Rattle.pathname.specs.DueBytes.{lead_of};

// What must follow: how many bytes, and the least and the greatest that the next one may be; each later
// one is from 80 to BF.
#[derive(Clone, Copy)]
struct Due {
    count: u8,
    low: u8,
    high: u8,
}

impl Due {
    const NOTHING: Due = Due {
        count: 0,
        low: 0x80,
        high: 0xBF,
    };
}

// Whether the bytes are UTF-8. Between two sequences no byte is due. Bytes below 80 hex, which stand alone,
// are passed without a look at the table: all at once where a name has no others, as most have not.
pub(crate) fn is_valid(s: &[u8]) -> bool
    ensures { result ≡ utf8 s.now }
{
    if s.is_ascii() {
        return true;
    }
    let mut due = Due::NOTHING;
    for b in s {
        let b = *b;
        if due.count == 0 {
            if b < 0x80 {
                continue;
            }
            let Some(first) = due_after(b) else {
                return false;
            };
            due = first;
        } else if due.low <= b && b <= due.high {
            due = Due {
                count: due.count - 1,
                ..Due::NOTHING
            };
        } else {
            return false;
        }
    }
    due.count == 0
}

// What must follow b at the start of a sequence, the rest of the table's row that b stands in; nothing
// where it stands in none.
#[tactic(auto, unfolding(crate::specs::Utf8::followers_in, crate::specs::DueBytes::ranges_of))]
fn due_after(b: u8) -> Option<Due>
    ensures { lead_of result ≡ followers_in rows b }
{
    let due = |count, low, high| Some(Due { count, low, high });
    match b {
        0x00..=0x7F => due(0, 0x80, 0xBF),
        0xC2..=0xDF => due(1, 0x80, 0xBF),
        0xE0 => due(2, 0xA0, 0xBF),
        0xE1..=0xEC => due(2, 0x80, 0xBF),
        0xED => due(2, 0x80, 0x9F),
        0xEE..=0xEF => due(2, 0x80, 0xBF),
        0xF0 => due(3, 0x90, 0xBF),
        0xF1..=0xF3 => due(3, 0x80, 0xBF),
        0xF4 => due(3, 0x80, 0x8F),
        _ => None,
    }
}
