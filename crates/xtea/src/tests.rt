// The published vectors of XTEA: three blocks under the key 00 01 .. 0f, and three under the key of zeros.
use super::*;

const COUNTING: [u8; 16] = [0, 1, 2, 3, 4, 5, 6, 7, 8, 9, 10, 11, 12, 13, 14, 15];

const VECTORS: [([u8; 16], u64, u64); 6] = [
    (COUNTING, 0x4142434445464748, 0x497df3d072612cb5),
    (COUNTING, 0x4141414141414141, 0xe78f2d13744341d8),
    (COUNTING, 0x5a5b6e278948d77f, 0x4141414141414141),
    ([0; 16], 0x4142434445464748, 0xa0390589f8b8efa5),
    ([0; 16], 0x4141414141414141, 0xed23375a821a8c2d),
    ([0; 16], 0x70e1225d6e4e7655, 0x4141414141414141),
];

#[test]
fn published_blocks(rt: HostRuntime) {
    for (key, plain, sealed) in VECTORS {
        let c = Xtea::new(&key);
        assert_eq!(rt; u64::from(c.encrypt(Short::from(plain))), sealed);
        assert_eq!(rt; u64::from(c.decrypt(Short::from(sealed))), plain);
    }
}
