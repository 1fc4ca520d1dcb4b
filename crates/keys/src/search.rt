// The search for the least of a row of keys.
ghost use Rattle.std.specs.Prelude.{◌≡◌};
ghost use Rattle.keys.specs.Least.{least_of, Least};
ghost use Rattle.keys.specs.Order.{lt_by_cmp};

use super::key::Key;

/// The index of the least key, the lower one on a tie; `None` where no entry has a key.
/// An entry without a key is no candidate.
pub fn least<K: Key>(keys: &[Option<K>]) -> Option<usize>
    ensures found { result ≡ least_of (lt_by_cmp K.cmp) keys.now }
    ensures least { Least (lt_by_cmp K.cmp) keys.now result }
{
    keys.iter()
        .enumerate()
        .filter_map(|(i, key)| Some((i, (*key)?)))
        .min_by_key(|candidate| candidate.1)
        .map(|(i, _)| i)
}
