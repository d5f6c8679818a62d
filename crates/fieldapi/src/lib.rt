// The arithmetic of the two kinds on bytes, for C and for the benchmark.
#![tactic(auto)]

ghost use Rattle.std.specs.Prelude.{◌≡◌, length};
ghost use Rattle.kind.specs.Polynomials.{wide_ops, short_ops};
ghost use Rattle.fieldapi.specs.Elements.{product, inverted, is_there};

use kind::Block;
use poly::{Short, Wide};

// Kept: slices whose length the next two ask for, as a block's own `load` and `store` do: with `[u8; N]` for a const parameter N the premise would stay, as one that N is the size of the kind's block.

// Puts the product of two elements in place of the second.
fn multiply<K: Block>(a: &[u8], b: &mut [u8])
    requires first { length a.now ≡ K.ops.size }
    requires second { length b.old ≡ K.ops.size }
    ensures { b.new ≡ product K.ops a.now b.old }
{
    let x = K::load(a);
    let y = K::load(b);
    x.times(y).store(b);
}

// Puts the inverse of an element in its place and answers true; zero has none, stays, and the answer is false.
fn invert<K: Block>(a: &mut [u8]) -> bool
    requires { length a.old ≡ K.ops.size }
    ensures there { result ≡ is_there (K.ops.inverse (K.ops.block a.old)) }
    ensures bytes { a.new ≡ inverted K.ops a.old }
{
    let x = K::load(a);
    let Some(y) = x.inverse() else {
        return false;
    };
    y.store(a);
    true
}

// Kept: the exports, and the answer true or false, are the C interface, which has a function for each kind.

// Puts the product of two elements of the wide kind in place of the second.
#[unsafe(no_mangle)]
pub extern "C" fn cardlock_wide_product(a: &[u8; 16], b: &mut [u8; 16])
    ensures { b.new ≡ product wide_ops a.now b.old }
{
    multiply::<Wide>(a, b);
}

// Puts the product of two elements of the short kind in place of the second.
#[unsafe(no_mangle)]
pub extern "C" fn cardlock_short_product(a: &[u8; 8], b: &mut [u8; 8])
    ensures { b.new ≡ product short_ops a.now b.old }
{
    multiply::<Short>(a, b);
}

// Puts the inverse of an element of the wide kind in its place and answers true; zero has none, stays, and the answer is false.
#[unsafe(no_mangle)]
pub extern "C" fn cardlock_wide_inverse(a: &mut [u8; 16]) -> bool
    ensures there { result ≡ is_there (wide_ops.inverse (wide_ops.block a.old)) }
    ensures bytes { a.new ≡ inverted wide_ops a.old }
{
    invert::<Wide>(a)
}

// Puts the inverse of an element of the short kind in its place and answers true; zero has none, stays, and the answer is false.
#[unsafe(no_mangle)]
pub extern "C" fn cardlock_short_inverse(a: &mut [u8; 8]) -> bool
    ensures there { result ≡ is_there (short_ops.inverse (short_ops.block a.old)) }
    ensures bytes { a.new ≡ inverted short_ops a.old }
{
    invert::<Short>(a)
}
