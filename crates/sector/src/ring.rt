// The ring: the ciphers that a card is used with.
ghost use Rattle.std.specs.Prelude.{◌≡◌, ℕ, length};

// One to eight ciphers of one type; a key number is a place among them. A ring of another size can be made, and each call that looks at it refuses 1.
#[derive(Drop)]
pub struct Ring<'a, C> {
    pub(crate) ciphers: &'a [C],
}

impl<'a, C> Ring<'a, C> {
    // The ring of these ciphers, the first with key number 0.
    pub fn new(ciphers: &'a [C]) -> Self
        ensures { result.ciphers.now ≡ ciphers.now }
    {
        Ring { ciphers }
    }

    // How many ciphers the ring has.
    pub fn size(&self) -> usize
        ensures { result ≡ length self.now.ciphers.now }
    {
        self.ciphers.len()
    }
}
