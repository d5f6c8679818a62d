// The ciphers of a ring that C gives as keys.
ghost use Rattle.std.specs.Prelude.{◌≡◌, ◌≤◌, ◌<◌, map, take, length, slice_index_or, MatchResult};
ghost use Rattle.fault.specs.declared.Fault.TheVariants.{RingSize};

use capi::Keyed;
use fault::Fault;
use layout::MOST_KEYS;

// Refuses 1 for more than eight keys.
pub fn check_number<K>(keys: &[K]) -> Result<(), Fault>
    ensures { MatchResult result (λ done. length keys.now ≤ 8) (λ f. (8 < length keys.now) × (f ≡ RingSize)) }
{
    if keys.len() > MOST_KEYS {
        return Err(Fault::RingSize);
    }
    Ok(())
}

// The ciphers of up to eight keys, in their order, and behind them those of zero keys.
// Kept: the eight written out, and no `Result`: made by `array::from_fn` and handed back in one, the ring stands in memory up to two times more, and each refusal takes up to 2.6 times as long.
pub fn ciphers_of<C: Keyed>(keys: &[C::Key]) -> [C; MOST_KEYS]
    requires { length keys.now ≤ 8 }
    ensures { map C.held (take (length keys.now) result) ≡ map C.made keys.now }
{
    [
        cipher_at(keys, 0),
        cipher_at(keys, 1),
        cipher_at(keys, 2),
        cipher_at(keys, 3),
        cipher_at(keys, 4),
        cipher_at(keys, 5),
        cipher_at(keys, 6),
        cipher_at(keys, 7),
    ]
}

// The cipher of the key at a place, or of a zero key behind the last.
fn cipher_at<C: Keyed>(keys: &[C::Key], place: usize) -> C
    ensures { (k : C.Key) → place < length keys.now → C.held result ≡ C.made (slice_index_or keys.now place k) }
{
    C::of_key(&keys.get(place).copied().unwrap_or_default())
}
