// A buffer of bytes seen as blocks.
ghost use Rattle.std.specs.Prelude.{◌≡◌, ℕ, ◌+◌, ◌*◌, ◌<◌, ◌≤◌, length, slice_index_or, slice_set};
ghost use Rattle.kind.specs.Blocks.{blocks};
ghost use Rattle.kind.specs.Laws.{Bytes};

use crate::block::Block;
use std::marker::PhantomData;

// Block i of a buffer that has at least so many.
pub fn load_block<K: Block>(bytes: &[u8], i: usize) -> K
    requires { i * K.ops.size + K.ops.size ≤ length bytes.now }
    ensures { (m : ℕ) → i < m → result ≡ slice_index_or (blocks K.ops m bytes.now) i result }
{
    let n = K::size();
    let start = i * n;
    K::load(&bytes[start..start + n])
}

// A caller's buffer taken as `count` whole blocks, which are read and changed in their place. Its fields are private to this crate, so that nothing else
// is known to be whole blocks.
#[derive(Drop)]
pub struct Blocks<'a, K: Block> {
    pub(crate) bytes: &'a mut [u8],
    pub(crate) count: usize,
    kind: PhantomData<K>,
    pub ghost whole: { length bytes.now ≡ count * K.ops.size },
    pub ghost octets: { Bytes bytes.now },
}

impl<'a, K: Block> Blocks<'a, K> {
    // Takes a buffer that is just `count` blocks long.
    pub fn of(bytes: &'a mut [u8], count: usize) -> Self
        requires { length bytes.old ≡ count * K.ops.size }
        ensures same { result.bytes.ghost_name ≡ bytes.entry.ghost_name }
        ensures bytes { result.bytes.now ≡ bytes.old }
        ensures count { result.count ≡ count }
    {
        Blocks {
            bytes,
            count,
            kind: PhantomData,
        }
    }

    // The number of blocks.
    pub fn count(&self) -> usize
        ensures { result ≡ self.now.count }
    {
        self.count
    }

    // Block i.
    pub fn load(&self, i: usize) -> K
        requires { i < self.now.count }
        ensures { result ≡ slice_index_or (blocks K.ops self.now.count self.now.bytes.now) i result }
    {
        load_block(self.bytes, i)
    }

    // Makes k block i, and leaves the other blocks.
    pub fn store(&mut self, i: usize, k: K)
        requires { i < self.old.count }
        ensures same { self.new.bytes.ghost_name ≡ self.old.bytes.ghost_name }
        ensures count { self.new.count ≡ self.old.count }
        ensures value { blocks K.ops self.old.count self.new.bytes.now ≡ slice_set (blocks K.ops self.old.count self.old.bytes.now) i k }
    {
        let n = K::size();
        let at = i * n;
        k.store(&mut self.bytes[at..at + n]);
    }
}
