// The mask coefficients by place, made by doublings and sums alone, and what is promised of them.
#![tactic(auto)]

ghost use Rattle.std.specs.Prelude.{◌≡◌, ◌+◌, ◌-◌, ◌*◌, ◌<◌, ◌≤◌, slice_index_or};
ghost use Rattle.field.specs.Mask.{times, run, written};
ghost use Rattle.kind.specs.Laws.{mask_coefficients, most_blocks};
ghost use Rattle.coefficient.specs.Coefficients.{mask_coefficient, MaskLaws, CoefficientDegree};

use kind::{Block, MOST_BLOCKS};
use poly::{Field, degree};

// x^k.
#[tactic(auto, unfolding(field::specs::Mask::times))]
pub fn power<K: Block>(k: usize) -> K
    ensures { result ≡ times (K.ops.mul K.ops.x) k K.ops.one }
{
    let mut power = K::one();
    for _ in 0..k {
        power = power.double();
    }
    power
}

// x^s times element i, counted from 0, of the run of length 3 t. Called with i below 3 t.
fn run_element<K: Block>(t: usize, i: usize, s: usize) -> K
    requires { (t ≤ most_blocks) × ((i < 3 * t) × (s ≤ 4)) }
    ensures { result ≡ times (K.ops.mul K.ops.x) s (slice_index_or (run K.ops.add (K.ops.mul K.ops.x) K.ops.one t) i K.ops.zero) }
{
    match i.checked_sub(2 * t) {
        None => power(s + (i + 1)),
        Some(j) => power::<K>(s + (2 * j + 1)).add(power(s + (2 * j + 2))),
    }
}

// Element i, counted from 0, of the k sums 1 + x, x + x^2, .. that stand before a run, the last of them x^(k - 1) + 1. Called with i below k.
fn head_element<K: Block>(k: usize, i: usize) -> K
    requires { (i < k) × (k ≤ 5) }
    ensures inner { i + 1 < k → result ≡ K.ops.add (times (K.ops.mul K.ops.x) i K.ops.one) (times (K.ops.mul K.ops.x) (i + 1) K.ops.one) }
    ensures outer { i + 1 ≡ k → result ≡ K.ops.add (times (K.ops.mul K.ops.x) i K.ops.one) K.ops.one }
{
    if i + 1 < k {
        power::<K>(i).add(power(i + 1))
    } else {
        power::<K>(i).add(K::one())
    }
}

// The mask coefficient at place i of m blocks. Where three divides m they are a run; else a head stands before it, of three more than what is left
// over. Called with a count and a place that there are.
fn coefficient_at<K: Block>(m: usize, i: usize) -> K
    requires { (3 ≤ m) × ((m ≤ most_blocks) × (i < m)) }
    ensures { result ≡ slice_index_or (mask_coefficients K.ops m) i K.ops.zero }
{
    let t = m / 3;
    match m % 3 {
        0 => run_element(t, i, 0),
        rest if i < rest + 3 => head_element(rest + 3, i),
        rest => run_element(t - 1, i - (rest + 3), rest + 2),
    }
}

// The mask coefficient at place i, counted from 0, of m blocks. None where m is below 3 or above the most blocks, or i is not below m.
#[tactic(auto, unfolding(crate::specs::Coefficients::mask_coefficient))]
pub fn mask_coefficient<K: Block>(m: usize, i: usize) -> Option<K>
    ensures { result ≡ mask_coefficient K.ops m i }
{
    if m < 3 || MOST_BLOCKS < m || m <= i {
        return None;
    }
    Some(coefficient_at(m, i))
}

// The degree of that coefficient in a polynomial kind, by leading zeros: that of the written polynomial, and below the kind's width. None
// where `mask_coefficient` has none.
pub fn mask_degree<P: Field>(m: usize, i: usize) -> Option<u32>
    ensures { CoefficientDegree P.width m i result }
{
    let coefficient: P = mask_coefficient(m, i)?;
    degree(coefficient)
}

// In every kind there are m coefficients for m blocks, they add to zero, and no two are equal.
pub fn mask_laws<K: Block>()
    ensures { MaskLaws K.ops most_blocks }
{}
