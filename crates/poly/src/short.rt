// The elements of the short kind.
ghost use Rattle.std.specs.Prelude.{◌^◌, ◌<◌};

// A polynomial of a degree below 64: bit i of the word is the coefficient of x^i.
#[derive(Clone, Copy)]
pub struct Short {
    pub word: u64,
    ghost fits: { word < 2 ^ 64 },
}
