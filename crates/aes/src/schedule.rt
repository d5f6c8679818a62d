// The key schedule: eleven round keys of 16 bytes from a key of 16 bytes.
ghost use Rattle.std.specs.Prelude.{◌≡◌, ℕ, ◌<◌, ◌≤◌};
ghost use Rattle.aes.specs.Keys.{word_at, rot_word, sub_word, xor_words, temp, next_word, key_expansion};

use crate::keyed::Aes;
use aes_steps::s_box;
use std::array;

// The round constants: the powers of x from x^0 to x^9 in the field of FIPS 197.
const ROUND_CONSTANTS: [u8; 10] = [0x01, 0x02, 0x04, 0x08, 0x10, 0x20, 0x40, 0x80, 0x1b, 0x36];

impl Aes {
    // The cipher of a key. It never refuses.
    pub fn new(key: &[u8; 16]) -> Aes
        ensures { result.keys ≡ key_expansion key.now }
    {
        Aes {
            keys: expand_key(key),
        }
    }
}

// The round keys of a key: its own four words, and forty more.
fn expand_key(key: &[u8; 16]) -> [u8; 176]
    ensures { result ≡ key_expansion key.now }
{
    let mut w = [0; 176];
    w[..16].copy_from_slice(key);
    // Kept: the words by their numbers, up to 43, as the standard has them: word i is made of the words i - 4 and i - 1, which no iterator over words gives.
    for i in 4..44usize {
        let [a, b, c, d] = next_word(&w, i);
        // Kept: with `copy_from_slice` for the four writes, making a cipher and enciphering one block takes 7 % longer, and it must take no longer than with these.
        w[4 * i] = a;
        w[4 * i + 1] = b;
        w[4 * i + 2] = c;
        w[4 * i + 3] = d;
    }
    w
}

// Word i, from the words before it.
fn next_word(w: &[u8; 176], i: usize) -> [u8; 4]
    requires { (4 ≤ i) × (i < 44) }
    ensures { result ≡ next_word w.now i }
{
    xor_words(word_at(w, i - 4), added_word(w, i))
}

// What is added to word i - 4 to make word i.
fn added_word(w: &[u8; 176], i: usize) -> [u8; 4]
    requires { (4 ≤ i) × (i < 44) }
    ensures { result ≡ temp w.now i }
{
    let last = word_at(w, i - 1);
    if i % 4 != 0 {
        return last;
    }
    xor_words(
        sub_word(rot_word(last)),
        [ROUND_CONSTANTS[i / 4 - 1], 0, 0, 0],
    )
}

// Word i.
fn word_at(w: &[u8; 176], i: usize) -> [u8; 4]
    requires { i < 44 }
    ensures { result ≡ word_at w.now i }
{
    let (words, _) = w.as_chunks();
    words[i]
}

// RotWord: the first byte comes last.
fn rot_word(word: [u8; 4]) -> [u8; 4]
    ensures { result ≡ rot_word word }
{
    let [a, b, c, d] = word;
    [b, c, d, a]
}

// SubWord: every byte goes through the S-box.
fn sub_word(word: [u8; 4]) -> [u8; 4]
    ensures { result ≡ sub_word word }
{
    word.map(|b| s_box(b))
}

// The sum of two words.
fn xor_words(a: [u8; 4], b: [u8; 4]) -> [u8; 4]
    ensures { result ≡ xor_words a b }
{
    array::from_fn(|i| a[i] ^ b[i])
}
