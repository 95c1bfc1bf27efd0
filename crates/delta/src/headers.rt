// Signatures: a header of twelve bytes, and twenty bytes for each block.
ghost use Rattle.std.specs.Prelude.{◌≡◌, ◌+◌, ◌*◌, ◌≤◌, length};
ghost use Rattle.delta.specs.Read as Read;

use crate::fields::field;
use crate::{Entry, Measured, Refusal, Signature};

const HEADER: usize = 12;

const ENTRY: usize = 20;

// Reads a signature's header, and counts its blocks.
#[tactic(auto, unfolding(crate::specs::Read::signature_of))]
pub fn read_signature(signature: &[u8]) -> Result<Signature, Refusal>
    ensures { result ≡ Read.signature_of signature.now }
{
    let len = signature.len();
    if len > Measured::LIMIT {
        return Err(Refusal::TooLong);
    }
    if len < HEADER || (len - HEADER) % ENTRY != 0 || !plain(signature) {
        return Err(Refusal::Damaged);
    }
    let size = field(signature, 8, 4);
    if size == 0 {
        return Err(Refusal::Damaged);
    }
    Ok(Signature {
        block_size: size as u32,
        blocks: (len - HEADER) / ENTRY,
    })
}

// Whether the four fields before the block size are zero.
#[tactic(auto, unfolding(crate::specs::Read::plain_in))]
fn plain(signature: &[u8]) -> bool
    requires { 12 ≤ length signature.now }
    ensures { result ≡ Read.plain_in signature.now }
{
    let version = field(signature, 0, 2) == 0;
    let checksum = field(signature, 2, 2) == 0;
    let strong = field(signature, 4, 2) == 0;
    let weak = field(signature, 6, 2) == 0;
    version && checksum && strong && weak
}

// What a signature says of its block number i, counted as it lists them.
#[tactic(auto, using(crate::proofs::HeaderLaws::reading), unfolding(crate::specs::Read::entry_of))]
pub fn entry_at(signature: &[u8], i: usize) -> Result<Option<Entry>, Refusal>
    ensures { result ≡ Read.entry_of signature.now i }
{
    let blocks = read_signature(signature)?.blocks;
    Ok(entry(signature, blocks, i))
}

#[tactic(auto, unfolding(crate::specs::Read::entry_in))]
fn entry(signature: &[u8], blocks: usize, i: usize) -> Option<Entry>
    requires { (12 + 20 * blocks ≤ length signature.now) × (length signature.now ≤ Read.limit) }
    ensures { result ≡ Read.entry_in blocks signature.now i }
{
    if i >= blocks {
        return None;
    }
    let at = HEADER + ENTRY * i;
    let index = field(signature, at, 8);
    let weak = field(signature, at + 8, 4) as u32;
    let strong = field(signature, at + 12, 8);
    Some(Entry {
        index,
        weak,
        strong,
    })
}
