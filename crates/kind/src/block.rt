// What a kind of block gives, and what it owes.
ghost use Rattle.std.specs.Prelude.{◌≡◌, ℕ, length};
ghost use Rattle.kind.specs.Laws.{Ops, Laws, bin};

// The most blocks that are sealed together.
pub const MOST_BLOCKS: usize = 64;

// A kind of block: a field whose elements are strings of bytes. `ops` are its operations. `laws` is what it shows of them for all its elements, and
// `sized` that the constant BYTES is the size of the operations: a later kind owes these two and nothing else.
pub trait Block: Copy {
    // The bytes of a block: 8, 16, 32, 64 or 128.
    const BYTES: usize;

    ghost BYTES: { ℕ };

    ghost ops: { Ops Self };

    // The constant BYTES.
    fn size() -> usize
        ensures { result ≡ ops.size }
    {
        Self::BYTES
    }

    // The zero, which added changes no element.
    fn zero() -> Self
        ensures { result ≡ ops.zero };

    // The one of the product.
    fn one() -> Self
        ensures { result ≡ ops.one };

    // The block whose big-endian number is c.
    fn numbered(c: u64) -> Self
        ensures { result ≡ bin ops c };

    // The sum, which is that of the bytes' bits.
    fn add(self, other: Self) -> Self
        ensures { result ≡ ops.add self other };

    // The product.
    fn times(self, other: Self) -> Self
        ensures { result ≡ ops.mul self other };

    // The products of the element with two others, for less than two products take.
    fn times_both(self, a: Self, c: Self) -> (Self, Self)
        ensures first { result.0 ≡ ops.mul self a }
        ensures second { result.1 ≡ ops.mul self c };

    // x times the element.
    fn double(self) -> Self
        ensures { result ≡ ops.mul ops.x self };

    // The inverse; none where the element is zero.
    fn inverse(self) -> Option<Self>
        ensures { result ≡ ops.inverse self };

    // Kept: slices whose length the next two ask for, since no array's length can be the size of a kind's block.

    // The block of the bytes. Called with just the bytes of one block.
    fn load(from: &[u8]) -> Self
        requires { length from.now ≡ ops.size }
        ensures { result ≡ ops.block from.now };

    // Writes the block's bytes over `into`. Called with just the bytes of one block.
    fn store(self, into: &mut [u8])
        requires { length into.old ≡ ops.size }
        ensures { into.new ≡ ops.bytes self };

    ghost laws: { Laws ops };

    // The constant is the size that the operations have.
    ghost sized: { BYTES ≡ ops.size };
}
