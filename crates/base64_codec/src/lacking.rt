// Texts that may leave their padding out. The last group is completed in four bytes of its own, and the
// whole groups before it are read where they lie: nothing is copied, and a text that has its padding
// takes the strict way.
ghost use Rattle.std.specs.Prelude.{◌≡◌, ◌++◌, ◌%◌, length};
ghost use Rattle.octets.specs.Outcome.{outcome};
ghost use Rattle.base64_codec.specs.Decode.{decode_of};
ghost use Rattle.base64_codec.specs.Padding.{decode_with, joined_verdict};
ghost use Rattle.base64_codec.specs.declared.Padding.TheVariants.{Optional};

use crate::alphabet::PAD;
use crate::decoder::{check, fill};
use crate::{DecodeError, Fault};

// A text lacks padding where two or three characters are left over and the last is no `=`.
pub(crate) fn decode(text: &[u8], out: &mut [u8], at: usize) -> Result<usize, DecodeError>
    ensures { outcome result out.new ≡ decode_with Optional text.now out.old at }
{
    let whole = text.len() / 4 * 4;
    let left = &text[whole..];
    if left.len() < 2 || left[left.len() - 1] == PAD {
        return crate::decode(text, out, at);
    }
    let third = left.get(2).copied().unwrap_or(PAD);
    in_two(&text[..whole], &[left[0], left[1], third, PAD], out, at)
}

// Stores the bytes of whole groups and of a last one, which stands apart.
fn in_two(groups: &[u8], last: &[u8; 4], out: &mut [u8], at: usize) -> Result<usize, DecodeError>
    requires { length groups.now % 4 ≡ 0 }
    ensures { outcome result out.new ≡ decode_of (groups.now ++ last.now) out.old at }
{
    let whole = groups.len() / 4 * 3;
    let padding = joined(check(groups), check(last))?;
    let n = whole + 3 - padding;
    if !octets::fits(at, n, out.len()) {
        return Err(DecodeError::NoRoom);
    }
    fill(groups, out, at);
    fill(last, out, at + whole);
    Ok(n)
}

// What two texts of whole groups are together: padding may stand at the end of the second alone. A `=`
// in the first is so a fault of padding, told at its place, whatever bits stand before it.
fn joined(first: Result<usize, Fault>, second: Result<usize, Fault>) -> Result<usize, Fault>
    ensures { result ≡ joined_verdict first second }
{
    match first {
        Ok(0) => second,
        Ok(_) | Err(Fault::Length) | Err(Fault::UnusedBits) => Err(Fault::Length),
        Err(Fault::Character) => Err(Fault::Character),
    }
}
