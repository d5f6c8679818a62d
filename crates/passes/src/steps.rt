// The steps of a pass: what becomes of one block, and of what runs along.
ghost use Rattle.std.specs.Prelude.{◌≡◌, ℕ, ◌≤◌};
ghost use Rattle.passes.specs.Running.{power_now, power_next, pair_next, mask_now, mask_next, first_masks};

use crate::running::{Masks, Pair, Powers};
use kind::Block;
use kind::pass::Step;

// Multiplies a block by its power of r.
impl<K: Block> Step<K> for Powers<K> {
    ghost out = { λ s b. power_now K.ops s b };

    ghost next = { λ s b. power_next K.ops s };

    fn step(&mut self, b: K) -> K {
        let Some(power) = self.power else {
            self.power = Some(self.r);
            return b;
        };
        if self.left <= 1 {
            return power.times(b);
        }
        let (product, next) = power.times_both(b, self.r);
        self.power = Some(next);
        self.left -= 1;
        product
    }
}

// Adds the mask of one block or two.
impl<K: Block> Step<K> for Pair<K> {
    ghost out = { λ s b. K.ops.add b s.first };

    ghost next = { λ s b. pair_next s };

    fn step(&mut self, b: K) -> K {
        let mask = self.first;
        self.first = self.second;
        b.add(mask)
    }
}

// The masks of m blocks, m from three up, that are multiples of `value`.
pub(crate) fn first_masks<K: Block>(value: K, m: u16) -> Masks<K>
    requires { 3 ≤ m }
    ensures { result ≡ first_masks K.ops value m }
{
    let t = m / 3;
    match m % 3 {
        0 => {
            let first = value.double();
            Masks::Alone {
                first,
                at: first,
                left: 2 * t,
            }
        }
        rest => Masks::Head {
            value,
            at: value,
            left: rest + 3,
            alone: 2 * (t - 1),
        },
    }
}

// Adds the mask of three blocks and more: doublings and sums, and no product.
impl<K: Block> Step<K> for Masks<K> {
    ghost out = { λ s b. K.ops.add b (mask_now K.ops s) };

    ghost next = { λ s b. mask_next K.ops s };

    fn step(&mut self, b: K) -> K {
        match *self {
            Masks::Head {
                value,
                at,
                left,
                alone,
            } => {
                let next = at.double();
                if left > 1 {
                    *self = Masks::Head {
                        value,
                        at: next,
                        left: left - 1,
                        alone,
                    };
                    return b.add(at.add(next));
                }
                *self = Masks::Alone {
                    first: next,
                    at: next,
                    left: alone,
                };
                b.add(at.add(value))
            }
            Masks::Alone { first, at, left } => {
                *self = if left > 1 {
                    Masks::Alone {
                        first,
                        at: at.double(),
                        left: left - 1,
                    }
                } else {
                    Masks::Pairs { at: first }
                };
                b.add(at)
            }
            Masks::Pairs { at } => {
                let next = at.double();
                *self = Masks::Pairs { at: next.double() };
                b.add(at.add(next))
            }
        }
    }
}
