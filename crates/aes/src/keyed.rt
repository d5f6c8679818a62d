// The state of AES-128 under one key.
ghost use Rattle.std.specs.Prelude.{ℕ, ◌<◌, slice_index};

// AES-128 (FIPS 197) under one key. It holds the eleven round keys, one after the other.
// Kept: one array and not one for each round key, since the standard's expanded key, of which contracts speak, is one list of words.
#[derive(Clone, Copy)]
pub struct Aes {
    pub(crate) keys: [u8; 176],
    ghost bytes: { (i : ℕ) → slice_index keys i < 256 },
}
