// The terms of a sealing: what the tweak and the number of blocks fix before any block is looked at.

// R = E(tweak), EN = E(R + bin(m)), EEN = E(x EN), and the number m of blocks.
#[derive(Clone, Copy)]
pub struct Terms<K> {
    pub r: K,
    pub en: K,
    pub een: K,
    pub m: u16,
}
