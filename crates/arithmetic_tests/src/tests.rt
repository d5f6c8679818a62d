// The tables that outside/vectors/field.py prints, and the tests that go through them. The elements are given by their numbers.
use coefficient::power;
use kind::Block;
use poly::{Short, Wide};
use std::test::Fail;

// a, b and their product.
const SHORT_PRODUCTS: [[u64; 3]; 12] = [
    [0x0000000000000000, 0xb7b3ff7b623dd8df, 0x0000000000000000],
    [0x0000000000000001, 0x0cd58cc6f137bdc5, 0x0cd58cc6f137bdc5],
    [0x0000000000000002, 0xf41fcb28e1eca229, 0xe83f9651c3d94449],
    [0x8000000000000000, 0x1aa5148c01a8c3f5, 0x284b689a0a99b27e],
    [0xffffffffffffffff, 0xf5057fee4c3ef459, 0x0e2daa39e9dcfae7],
    [0xfffffffffffffffe, 0x02dd21250b729601, 0x175de9cb5d453df7],
    [0x02dd21250b729601, 0xfffffffffffffffe, 0x175de9cb5d453df7],
    [0xf5057fee4c3ef459, 0xffffffffffffffff, 0x0e2daa39e9dcfae7],
    [0x1aa5148c01a8c3f5, 0x8000000000000000, 0x284b689a0a99b27e],
    [0xf41fcb28e1eca229, 0x0000000000000002, 0xe83f9651c3d94449],
    [0x0cd58cc6f137bdc5, 0x0000000000000001, 0x0cd58cc6f137bdc5],
    [0xb7b3ff7b623dd8df, 0x0000000000000000, 0x0000000000000000],
];

// a and its inverse.
const SHORT_INVERSES: [[u64; 2]; 11] = [
    [0x0000000000000001, 0x0000000000000001],
    [0x0000000000000002, 0x800000000000000d],
    [0x8000000000000000, 0xe38e38e38e38e386],
    [0xffffffffffffffff, 0x1d3a74e9d3a74e9c],
    [0xfffffffffffffffe, 0x591eb23d647ac8f2],
    [0x02dd21250b729601, 0x549afda87ded12e1],
    [0xf5057fee4c3ef459, 0xc29b80238dde14e6],
    [0x1aa5148c01a8c3f5, 0x386c927f21e81050],
    [0xf41fcb28e1eca229, 0xc4cffd0c6e6c2c97],
    [0x0cd58cc6f137bdc5, 0x6a608921c4007dbb],
    [0xb7b3ff7b623dd8df, 0xf2bee1760d95bd13],
];

// k and x^k.
const SHORT_POWERS: [(usize, u64); 8] = [
    (0, 0x0000000000000001),
    (1, 0x0000000000000002),
    (63, 0x8000000000000000),
    (64, 0x000000000000001b),
    (65, 0x0000000000000036),
    (128, 0x0000000000000145),
    (200, 0x00000000001db700),
    (255, 0x8000000000008805),
];

// a, b and their product.
const WIDE_PRODUCTS: [[u128; 3]; 12] = [
    [
        0x00000000000000000000000000000000,
        0x54dc765189f8f6dc9f9326be5a7eff0d,
        0x00000000000000000000000000000000,
    ],
    [
        0x00000000000000000000000000000001,
        0x44d09f3d38c20ebb55bab91cd20b52cf,
        0x44d09f3d38c20ebb55bab91cd20b52cf,
    ],
    [
        0x00000000000000000000000000000002,
        0xd8aaa1f6d2b6c1ba5e97f5f843c901ee,
        0xb15543eda56d8374bd2febf08792035b,
    ],
    [
        0x80000000000000000000000000000000,
        0xd01e13be235f461f83923dd14744f3e0,
        0x1fa9d295a39feecfa1f02ccabb538fdb,
    ],
    [
        0xffffffffffffffffffffffffffffffff,
        0x43c243ee094546ce1f76663f8330df68,
        0x27642adf8cebaf66a802393f8e44dd70,
    ],
    [
        0xfffffffffffffffffffffffffffffffe,
        0xe52fec142d752a6a05840f4ce50ee168,
        0xa2223231e1ec6dbfb08e8c04adc35888,
    ],
    [
        0xe52fec142d752a6a05840f4ce50ee168,
        0xfffffffffffffffffffffffffffffffe,
        0xa2223231e1ec6dbfb08e8c04adc35888,
    ],
    [
        0x43c243ee094546ce1f76663f8330df68,
        0xffffffffffffffffffffffffffffffff,
        0x27642adf8cebaf66a802393f8e44dd70,
    ],
    [
        0xd01e13be235f461f83923dd14744f3e0,
        0x80000000000000000000000000000000,
        0x1fa9d295a39feecfa1f02ccabb538fdb,
    ],
    [
        0xd8aaa1f6d2b6c1ba5e97f5f843c901ee,
        0x00000000000000000000000000000002,
        0xb15543eda56d8374bd2febf08792035b,
    ],
    [
        0x44d09f3d38c20ebb55bab91cd20b52cf,
        0x00000000000000000000000000000001,
        0x44d09f3d38c20ebb55bab91cd20b52cf,
    ],
    [
        0x54dc765189f8f6dc9f9326be5a7eff0d,
        0x00000000000000000000000000000000,
        0x00000000000000000000000000000000,
    ],
];

// a and its inverse.
const WIDE_INVERSES: [[u128; 2]; 11] = [
    [
        0x00000000000000000000000000000001,
        0x00000000000000000000000000000001,
    ],
    [
        0x00000000000000000000000000000002,
        0x80000000000000000000000000000043,
    ],
    [
        0x80000000000000000000000000000000,
        0xb604395d27ef1a8b604395d27ef1a8ee,
    ],
    [
        0xffffffffffffffffffffffffffffffff,
        0xfe08629e8e4b766afc10c53d1c96eca8,
    ],
    [
        0xfffffffffffffffffffffffffffffffe,
        0x67f063d9793baa04291ae2d33f831ef9,
    ],
    [
        0xe52fec142d752a6a05840f4ce50ee168,
        0xadad02897040552cf7881720041ab22d,
    ],
    [
        0x43c243ee094546ce1f76663f8330df68,
        0x17f2a4398db1256dbec4dc01e1738d70,
    ],
    [
        0xd01e13be235f461f83923dd14744f3e0,
        0x210d1465447ee45f67392e7b58845d42,
    ],
    [
        0xd8aaa1f6d2b6c1ba5e97f5f843c901ee,
        0x5af4d9d392ffa1e5641508041ad76b41,
    ],
    [
        0x44d09f3d38c20ebb55bab91cd20b52cf,
        0x9a3858c4e17559c216f091fd5d092d85,
    ],
    [
        0x54dc765189f8f6dc9f9326be5a7eff0d,
        0x2d162f3c88aee8197dd8ab583cdd904c,
    ],
];

// k and x^k.
const WIDE_POWERS: [(usize, u128); 8] = [
    (0, 0x00000000000000000000000000000001),
    (1, 0x00000000000000000000000000000002),
    (127, 0x80000000000000000000000000000000),
    (128, 0x00000000000000000000000000000087),
    (129, 0x0000000000000000000000000000010e),
    (256, 0x00000000000000000000000000004015),
    (200, 0x00000000000087000000000000000000),
    (255, 0x80000000000000000000000000002049),
];

// Each product of the table, in the kind K whose elements' numbers are of the type N.
fn products<K, N>(table: &[[N; 3]]) -> Result<(), Fail>
where
    K: Block + From<N>,
    N: Copy + PartialEq + From<K>,
{
    for [a, b, product] in table {
        let found = K::from(*a).times(K::from(*b));
        if N::from(found) != *product {
            return Err(Fail::new("a product that is not the table's"));
        }
    }
    Ok(())
}

// Each inverse of the table, and that zero has none.
fn inverses<K, N>(table: &[[N; 2]]) -> Result<(), Fail>
where
    K: Block + From<N>,
    N: Copy + PartialEq + From<K>,
{
    if K::zero().inverse().is_some() {
        return Err(Fail::new("an inverse of zero"));
    }
    for [a, inverse] in table {
        let Some(found) = K::from(*a).inverse() else {
            return Err(Fail::new("an element without an inverse"));
        };
        if N::from(found) != *inverse {
            return Err(Fail::new("an inverse that is not the table's"));
        }
    }
    Ok(())
}

// Each power of x of the table.
fn powers<K, N>(table: &[(usize, N)]) -> Result<(), Fail>
where
    K: Block,
    N: Copy + PartialEq + From<K>,
{
    for (k, number) in table {
        let found: K = power(*k);
        if N::from(found) != *number {
            return Err(Fail::new("a power of x that is not the table's"));
        }
    }
    Ok(())
}

#[test]
fn short_products() -> Result<(), Fail> {
    products::<Short, u64>(&SHORT_PRODUCTS)
}

#[test]
fn short_inverses() -> Result<(), Fail> {
    inverses::<Short, u64>(&SHORT_INVERSES)
}

#[test]
fn short_powers() -> Result<(), Fail> {
    powers::<Short, u64>(&SHORT_POWERS)
}

#[test]
fn wide_products() -> Result<(), Fail> {
    products::<Wide, u128>(&WIDE_PRODUCTS)
}

#[test]
fn wide_inverses() -> Result<(), Fail> {
    inverses::<Wide, u128>(&WIDE_INVERSES)
}

#[test]
fn wide_powers() -> Result<(), Fail> {
    powers::<Wide, u128>(&WIDE_POWERS)
}
