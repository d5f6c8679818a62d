// Products of a byte with the constants that the steps need, in the field of FIPS 197.
ghost use Rattle.std.specs.Prelude.{◌≡◌, ◌%◌};
ghost use Rattle.aes_steps.specs.Field.{xtime, mul};

// x times b: a shift to the left, and the modulus added where the top bit was set.
fn xtime(b: u8) -> u8
    ensures { result ≡ xtime b }
{
    (b << 1) ^ ((b >> 7) * 0x1b)
}

// FACTOR times b, for a factor of four bits: the sum of b, x b, x^2 b and x^3 b, of each whose bit the factor has.
// Kept: four terms written out: as a loop over the bits of the factor, the deciphering of an AES block takes 13 % longer.
pub(crate) fn times<const FACTOR: u8>(b: u8) -> u8
    ensures { result ≡ mul (FACTOR % 16) b }
{
    let two = xtime(b);
    let four = xtime(two);
    let eight = xtime(four);
    FACTOR % 2 * b ^ FACTOR / 2 % 2 * two ^ FACTOR / 4 % 2 * four ^ FACTOR / 8 % 2 * eight
}
