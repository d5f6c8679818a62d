// The mathematics of the block kinds, on numbers: the contracts of these functions carry the theorems that the kinds rest on.
#![tactic(auto)]

ghost use Rattle.std.specs.Prelude.{◌≡◌, ℕ, ◌^◌, ◌<◌};
ghost use Rattle.field.specs.Bytes.{ByteLaws};
ghost use Rattle.field.specs.Field.{short_terms, wide_terms};
ghost use Rattle.field.specs.Laws.{RingLaws, FieldLaws, MaskLaws};

// For every width from two up and every modulus x^n + f, the product is that of a commutative ring.
pub fn ring_laws()
    ensures { (n f : ℕ) → 1 < n → f < 2 ^ n → RingLaws n f }
{}

// Kept: a function for each kind's modulus, since what the contract promises is computed for that one number.

// The short kind's modulus x^64 + x^4 + x^3 + x + 1 without x^64. It is irreducible, and the mask coefficients are sound.
pub fn short_low_terms() -> u64
    ensures terms { result ≡ short_terms }
    ensures field { FieldLaws 64 result }
    ensures masks { MaskLaws 64 result }
{
    0x1b
}

// The wide kind's modulus x^128 + x^7 + x^2 + x + 1 without x^128. It is irreducible, and the mask coefficients are sound.
pub fn wide_low_terms() -> u64
    ensures terms { result ≡ wide_terms }
    ensures field { FieldLaws 128 result }
    ensures masks { MaskLaws 128 result }
{
    0x87
}

// Strings of bytes and their big-endian numbers correspond one to one, and the sum goes over.
pub fn byte_laws()
    ensures { ByteLaws }
{}
