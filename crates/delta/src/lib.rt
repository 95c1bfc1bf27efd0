// Signatures and deltas of the rsync algorithm, as source document 001 lays them out: what a signature
// and a delta say, a delta applied to a lent old file, and the weak sum.
//
// Not here: making signatures and deltas, and strong hashes. A delta's hash is told and not compared.
#![tactic(auto)]

mod fields;
mod headers;
mod operations;
mod spans;
mod walk;
mod weak;

ghost use Rattle.std.specs.Prelude.{◌≡◌};
ghost use Rattle.octets.specs.Outcome.{outcome};
ghost use Rattle.delta.specs.Calls as Calls;
ghost use Rattle.delta.specs.Laws.{DeltaLaws};
ghost use Rattle.delta.specs.WrongPatchers.{DeltaTeeth};
ghost use Rattle.delta.specs.Examples.{DeltaExamples};

pub use headers::{entry_at, read_signature};
pub use operations::operation_at;
use walk::Patch;
pub use weak::{roll, weak_sum};

// Why a call is refused, each with its number: an input over the limit; bytes that are no signature or no
// delta of the old file; too little room.
#[derive(Clone, Copy, PartialEq, Eq, Debug)]
pub enum Refusal {
    TooLong = 17,
    Damaged = 16,
    NoRoom = 9,
}

impl Refusal {
    pub fn number(self) -> u8
        ensures { result ≡ Calls.refusal_number self }
    {
        self as u8
    }
}

// A signature's block size, and of how many blocks it has sums.
#[derive(Clone, Copy)]
pub struct Signature {
    pub block_size: u32,
    pub blocks: usize,
}

// What a signature says of a block.
#[derive(Clone, Copy)]
pub struct Entry {
    pub index: u64,
    pub weak: u32,
    pub strong: u64,
}

// Where bytes start in a delta or a file, and how many they are. Not `command::Place`, whose shape this
// is: this crate stands over `octets` alone, and takes no codec of commands for two fields.
#[derive(Clone, Copy)]
pub struct Span {
    pub start: usize,
    pub len: usize,
}

// An operation of a delta: a block's index; where the bytes of data or of a hash stand in the delta; the
// index of the first block of a range, and how many more it has.
#[derive(Clone, Copy)]
pub enum Operation {
    End,
    Block(u64),
    Data(Span),
    Hash(Span),
    Blocks(u64, u32),
}

// An operation, and the place after it; at the end its own place.
#[derive(Clone, Copy)]
pub struct Step {
    pub operation: Operation,
    pub next: usize,
}

// How many bytes the new file has, and where the delta's hash of it stands, if it has one.
#[derive(Clone, Copy)]
pub struct Measured {
    pub length: usize,
    pub checksum: Option<Span>,
}

impl Measured {
    // How many bytes each input and the new file have at most.
    pub const LIMIT: usize = 65536;
}

// How long the new file is that a delta makes of an old one. The signature says how long a block is; of one
// that was not kept whole its header is enough. A caller has three slices, and no use for a struct of them.
#[tactic(auto, using(crate::proofs::CallLaws::inputs_read), unfolding(crate::specs::Calls::measure_of, crate::specs::Calls::patch_of))]
pub fn measure<'a>(signature: &'a [u8], old: &'a [u8], delta: &'a [u8]) -> Result<Measured, Refusal>
    ensures { result ≡ Calls.measure_of signature.now old.now delta.now }
{
    let size = inputs(signature, old, delta)?.block_size;
    Patch { size, old, delta }.measured()
}

// Makes the new file at the start of the output. Nothing is written where something is refused.
#[tactic(auto, using(crate::proofs::CallLaws::inputs_read), unfolding(crate::specs::Calls::apply_of, crate::specs::Calls::patch_of))]
pub fn apply<'a>(
    signature: &'a [u8],
    old: &'a [u8],
    delta: &'a [u8],
    out: &mut [u8],
) -> Result<Measured, Refusal>
    ensures out_after { outcome result out.new
        ≡ Calls.apply_of signature.now old.now delta.now out.old }
    ensures delta_laws { DeltaLaws × DeltaTeeth × DeltaExamples }
{
    let size = inputs(signature, old, delta)?.block_size;
    Patch { size, old, delta }.made(out)
}

// The signature, where no input is over the limit.
#[tactic(auto, unfolding(crate::specs::Calls::inputs_of))]
fn inputs<'a>(signature: &'a [u8], old: &'a [u8], delta: &'a [u8]) -> Result<Signature, Refusal>
    ensures { result ≡ Calls.inputs_of signature.now old.now delta.now }
{
    if old.len() > Measured::LIMIT || delta.len() > Measured::LIMIT {
        return Err(Refusal::TooLong);
    }
    read_signature(signature)
}
