// The elements of the wide kind.
ghost use Rattle.std.specs.Prelude.{◌^◌, ◌<◌};

// A polynomial of a degree below 128: the high word has the coefficients of x^64 to x^127.
#[derive(Clone, Copy)]
pub struct Wide {
    pub high: u64,
    pub low: u64,
    ghost highfits: { high < 2 ^ 64 },
    ghost lowfits: { low < 2 ^ 64 },
}
