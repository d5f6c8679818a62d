// What runs along with the blocks of a buffer. Nothing here grows with the number of blocks.

// A power of r. The first block has the power 0, which is one: it stays, and no product is made. After it `power` is that of the coming block, with
// `left` blocks to come, and at the last of them no further power is made.
#[derive(Clone, Copy)]
pub struct Powers<K> {
    pub r: K,
    pub power: Option<K>,
    pub left: usize,
}

// The masks of one block or two: the coming one, and the one after it.
#[derive(Clone, Copy)]
pub struct Pair<K> {
    pub first: K,
    pub second: K,
}

// Where the masks of three blocks and more have come to: they are the mask coefficients with the mask's value M in the place of one, each made from
// the one before by doublings (products with x) and sums.
#[derive(Clone, Copy)]
pub enum Masks<K> {
    // `left` masks of the head to come: `at` is the next power of x times M, `value` is M itself, and `alone` powers come after the head.
    Head {
        value: K,
        at: K,
        left: u16,
        alone: u16,
    },
    // `left` powers of the run to come, each a mask alone: `at` is the next of them, and `first` the first.
    Alone {
        first: K,
        at: K,
        left: u16,
    },
    // The powers of the run again, two in each mask: `at` is the first of the next two.
    Pairs {
        at: K,
    },
}
