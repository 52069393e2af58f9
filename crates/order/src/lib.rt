// Who goes before whom in a row, by keys: how many places have a key that is large enough, and how large it is to be.
#![tactic(auto)]

ghost use Rattle.std.specs.Prelude.{◌≡◌, ℕ, ◌<◌, ◌≤◌, leb};
ghost use Rattle.order.specs.Keys.{count_from};
ghost use Rattle.order.specs.Search.{Bracketed};

use std::ops::Range;

// Places, at most 64, that have keys.
pub trait Keys {
    // the key at a place, and how many places there are
    ghost key: { Self → ℕ → ℕ };

    ghost places: { Self → ℕ };

    fn places(&self) -> usize
        ensures all { result ≡ places self.now }
        ensures few { result ≤ 64 };

    // Whether the key at a place is `least` or more.
    fn reaches(&self, place: usize, least: u64) -> bool
        requires { place < places self.now }
        ensures { result ≡ leb least (key self.now place) };
}

// How many keys are `least` or more.
// Kept: a sum by a loop. Of `(0..n).filter(..).count()` the proof did not close.
pub fn count_from<K: Keys>(keys: &K, least: u64) -> u32
    ensures { result ≡ count_from (K.key keys.now) (K.places keys.now) least }
{
    let mut n = 0;
    for place in 0..keys.places() {
        n += u32::from(keys.reaches(place, least));
    }
    n
}

// A number of the span, or its end, such that just `most` keys are that large or larger: halves the span until it is found.
// Kept: halving by hand, as the library's partition_point searches a slice, and here is none.
pub fn bisected<K: Keys>(keys: &K, most: u32, span: Range<u64>) -> u64
    requires { Bracketed (K.key keys.now) (K.places keys.now) most span.start span.end }
    ensures count { count_from (K.key keys.now) (K.places keys.now) result ≡ most }
    ensures within { (span.start ≤ result) × (result ≤ span.end) }
{
    let mut low = span.start;
    let mut high = span.end;
    while low < high {
        let middle = low + ((high - low) >> 1);
        let many = count_from(keys, middle);
        if many == most {
            return middle;
        }
        if most < many {
            low = middle + 1;
        } else {
            high = middle;
        }
    }
    low
}
