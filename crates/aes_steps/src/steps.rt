// SubBytes, ShiftRows and MixColumns, and their inverses. The fourth step, AddRoundKey, is its own inverse and needs the key.
ghost use Rattle.std.specs.Prelude.{◌≡◌, [], ◌∷◌};
ghost use Rattle.aes_steps.specs.Steps.{state, sub_bytes, inv_sub_bytes, shift_rows, inv_shift_rows, row, in_column, mix_columns, inv_mix_columns};

use crate::factors::times;
use crate::sbox::{inv_s_box, s_box};
use std::array;

// SubBytes: every byte goes through the S-box.
pub fn sub_bytes(s: [u8; 16]) -> [u8; 16]
    ensures { result ≡ sub_bytes s }
{
    array::from_fn(|i| s_box(s[i]))
}

// InvSubBytes: every byte goes through the inverse S-box.
pub fn inv_sub_bytes(s: [u8; 16]) -> [u8; 16]
    ensures { result ≡ inv_sub_bytes s }
{
    s.map(inv_s_box)
}

// Kept: the two orders of the bytes as the standard draws them; a function for both would count byte i's place as 5 i or 13 i modulo 16.

// ShiftRows: row r moves r places to the left.
#[rattlefmt::skip]
pub fn shift_rows(s: [u8; 16]) -> [u8; 16]
    ensures { result ≡ shift_rows s }
{
    [
        s[0], s[5], s[10], s[15],
        s[4], s[9], s[14], s[3],
        s[8], s[13], s[2], s[7],
        s[12], s[1], s[6], s[11],
    ]
}

// InvShiftRows: row r moves r places to the right.
#[rattlefmt::skip]
pub fn inv_shift_rows(s: [u8; 16]) -> [u8; 16]
    ensures { result ≡ inv_shift_rows s }
{
    [
        s[0], s[13], s[10], s[7],
        s[4], s[1], s[14], s[11],
        s[8], s[5], s[2], s[15],
        s[12], s[9], s[6], s[3],
    ]
}

// MixColumns: every column is multiplied by the matrix with 02 03 01 01 in its first row.
pub fn mix_columns(s: [u8; 16]) -> [u8; 16]
    ensures { result ≡ mix_columns s }
{
    mixed_columns::<0x02, 0x03, 0x01, 0x01>(s)
}

// InvMixColumns: every column is multiplied by the matrix with 0e 0b 0d 09 in its first row.
pub fn inv_mix_columns(s: [u8; 16]) -> [u8; 16]
    ensures { result ≡ inv_mix_columns s }
{
    mixed_columns::<0x0e, 0x0b, 0x0d, 0x09>(s)
}

// The state with every column multiplied by the matrix with K L M N in its first row.
fn mixed_columns<const K: u8, const L: u8, const M: u8, const N: u8>(s: [u8; 16]) -> [u8; 16]
    ensures { result ≡ state (in_column (row K L M N) s) }
{
    let [a, b, c, d] = mixed_column::<K, L, M, N>(s[0], s[1], s[2], s[3]);
    let [e, f, g, h] = mixed_column::<K, L, M, N>(s[4], s[5], s[6], s[7]);
    let [i, j, k, l] = mixed_column::<K, L, M, N>(s[8], s[9], s[10], s[11]);
    let [m, n, o, p] = mixed_column::<K, L, M, N>(s[12], s[13], s[14], s[15]);
    [a, b, c, d, e, f, g, h, i, j, k, l, m, n, o, p]
}

// The column a b c d multiplied by that matrix, whose rows are its first one turned by one place more each.
fn mixed_column<const K: u8, const L: u8, const M: u8, const N: u8>(
    a: u8,
    b: u8,
    c: u8,
    d: u8,
) -> [u8; 4]
    ensures { result ≡ row K L M N a b c d ∷ row K L M N b c d a ∷ row K L M N c d a b ∷ row K L M N d a b c ∷ [] }
{
    [
        mixed_byte::<K, L, M, N>(a, b, c, d),
        mixed_byte::<K, L, M, N>(b, c, d, a),
        mixed_byte::<K, L, M, N>(c, d, a, b),
        mixed_byte::<K, L, M, N>(d, a, b, c),
    ]
}

// The product of the row K L M N and the column a b c d.
fn mixed_byte<const K: u8, const L: u8, const M: u8, const N: u8>(a: u8, b: u8, c: u8, d: u8) -> u8
    ensures { result ≡ row K L M N a b c d }
{
    times::<K>(a) ^ times::<L>(b) ^ times::<M>(c) ^ times::<N>(d)
}
