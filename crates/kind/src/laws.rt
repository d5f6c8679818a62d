// What follows from the laws of a kind, and the worked cases of the arithmetic.
ghost use Rattle.kind.specs.Blocks.{BufferLaws};
ghost use Rattle.kind.specs.Cases.{ArithmeticCases};
ghost use Rattle.kind.specs.Inverses.{IsInverse};
ghost use Rattle.kind.specs.Laws.{Laws};

use crate::block::Block;

// What every kind has shown of its elements.
pub fn kind_laws<K: Block>()
    ensures { Laws K.ops }
{}

// A buffer of whole blocks is decided by its blocks, and they by the buffer.
pub fn buffer_laws<K: Block>()
    ensures { BufferLaws K.ops }
{}

// The inverse of an element of any kind: the only element whose product with it is one. Zero has none, and the answer is then none.
pub fn inverse_of<K: Block>(a: K) -> Option<K>
    ensures { IsInverse K.ops a result }
{
    a.inverse()
}

// The worked cases of the product, the inverse and the mask coefficients hold in the short and the wide kind.
pub fn arithmetic_cases()
    ensures { ArithmeticCases }
{}
