// A bill in whole cents shared out by travel counts, on plain numbers: a row that holds the counts is changed to hold the shares.
#![tactic(auto)]

ghost use Rattle.std.specs.Prelude.{◌≡◌, ◌≢◌, ◌&&◌, not, ℕ, ◌+◌, ◌*◌, ◌/◌, ◌%◌, ◌^◌, ◌<◌, ◌≤◌, ltb, leb, eqb, length, get_or, set};
ghost use Rattle.numbers.specs.Numbers.{pick};
ghost use Rattle.answer.specs.Refusal.{refused_by};
ghost use Rattle.order.specs.Keys.{key_of};
ghost use Rattle.bill.specs.Bill.{shares};
ghost use Rattle.bill.specs.Settle.{Shareable, Divided, key_in, paid};
ghost use Rattle.bill.specs.Tally.{tallied, noted, covered};
ghost use Rattle.bill.specs.Counted.{packed};

use answer::{Refusal, refuse};
use numbers::pick;
use order::Keys;

// 2^32: a key is kept as `UPPER * high + low`.
const UPPER: u64 = 4294967296;

// What the drive at a place is compared by: one with the larger remainder has the larger key and, among equals, that with the lower number.
fn key(remainder: u64, place: usize) -> u64
    requires { (remainder < 2 ^ 40) × (place < 64) }
    ensures { (result ≡ key_of remainder place) × (result < 2 ^ 46) }
{
    64 * remainder + (63 - place as u64)
}

fn joined(high: u16, low: u32) -> u64
    ensures { result ≡ 2 ^ 32 * high + low }
{
    UPPER * u64::from(high) + u64::from(low)
}

// The keys of the places of a row, which are below 2^46.
// Kept: two rows, the keys' lower 32 bits and the rest: they take 384 bytes of stack where one row of keys would take 512.
// Kept: the rows are lent, since rows of its own, side by side, are set to 0 by a call of memset, and an archive calls nothing outside.
#[derive(Drop)]
struct Remainders<'a> {
    lows: &'a mut [u32],
    highs: &'a mut [u16],
    ghost few: { length lows.now ≤ 64 },
    ghost same: { length highs.now ≡ length lows.now },
}

impl Remainders<'_> {
    fn note(&mut self, place: usize, key: u64)
        requires { (place < length self.old.lows.now) × (key < 2 ^ 46) }
        ensures lows { self.new.lows.now ≡ set self.old.lows.now place (key % 2 ^ 32) }
        ensures highs { self.new.highs.now ≡ set self.old.highs.now place (key / 2 ^ 32) }
    {
        self.lows[place] = (key % UPPER) as u32;
        self.highs[place] = (key / UPPER) as u16;
    }
}

impl Keys for Remainders<'_> {
    ghost key = { λ it. key_in it.lows.now it.highs.now };

    ghost places = { λ it. length it.lows.now };

    fn places(&self) -> usize {
        self.lows.len()
    }

    fn reaches(&self, place: usize, least: u64) -> bool {
        let highs = &*self.highs;
        let lows = &*self.lows;
        least <= joined(highs[place], lows[place])
    }
}

// Sets each count to the part of the bill that it makes, rounded down, and notes the keys of the remainders; gives the cents left over.
fn divide(row: &mut [u32], keys: &mut Remainders, bill: u64, total: u64) -> u32
    requires { (Shareable bill row.old total) × (length keys.old.lows.now ≡ length row.old) }
    ensures divided { Divided bill row.old row.new keys.new.lows.now keys.new.highs.now result }
    ensures places { length keys.new.lows.now ≡ length row.new }
{
    let mut left = bill as u32;
    for (place, count) in row.iter_mut().enumerate() {
        let product = bill * u64::from(*count);
        let part = (product / total) as u32;
        keys.note(place, key(product % total, place));
        *count = part;
        left -= part;
    }
    left
}

// One cent more for each whose key is `least` or more.
fn pay(row: &mut [u32], keys: &Remainders, least: u64)
    requires { (length row.old ≡ length keys.now.lows.now) × ((i : ℕ) → i < length row.old → get_or row.old i 0 + 1 < 2 ^ 32) }
    ensures { row.new ≡ paid row.old (key_in keys.now.lows.now keys.now.highs.now) least }
{
    for (place, part) in row.iter_mut().enumerate() {
        *part += u32::from(keys.reaches(place, least));
    }
}

// Shares a bill out by the counts that the row holds, of which `total` is the sum.
// Kept: `Shareable` in three contracts: a struct with it would be no plainer, as it would hold the lent row, which each of them changes.
fn settle(row: &mut [u32], bill: u64, total: u64)
    requires { Shareable bill row.old total }
    ensures { row.new ≡ shares bill row.old }
{
    let mut lows = [0u32; 64];
    let mut highs = [0u16; 64];
    let mut keys = Remainders {
        lows: &mut lows[..row.len()],
        highs: &mut highs[..row.len()],
    };
    let left = divide(row, &mut keys, bill, total);
    if left == 0 {
        return;
    }
    let least = order::bisected(&keys, left, 0..64 * total + 1);
    pay(row, &keys, least);
}

// What is noted of the drives so far: the units that they have moved, and how many drives stand before the first that has moved.
#[derive(Clone, Copy, Default)]
pub struct Tally {
    pub total: u64,
    pub first: u64,
}

impl Tally {
    // Whether no drive has moved so far, with one more of this count.
    fn unmoved(self, count: u32) -> bool
        requires { self.first < 128 }
        ensures { result ≡ (ltb (packed self) 128 && eqb count 0) }
    {
        (self.total == 0) & (count == 0)
    }
}

// One drive's turn. A count is written once a drive has moved, so that the row is left as it is where none has.
pub fn note(row: &mut [u32], place: usize, tally: Tally, count: u32) -> Tally
    requires { (place < length row.old) × (packed tally < 2 ^ 48) × (tally.first < 128) }
    ensures { (packed result ≡ tallied (packed tally) count) × (row.new ≡ noted row.old place (packed tally) count)
        × (packed result ≤ packed tally + 2 ^ 39) × (result.first ≤ tally.first + 1) }
{
    if tally.unmoved(count) {
        return Tally {
            total: 0,
            first: tally.first + 1,
        };
    }
    row[place] = count;
    Tally {
        total: tally.total + u64::from(count),
        first: tally.first,
    }
}

// The counts that were not written, of the drives before the first that has moved, are 0.
// Kept: a loop over all, since one over these alone (or `fill`) is a call of memset, and an archive calls nothing outside.
fn cover(row: &mut [u32], first: u64)
    ensures { row.new ≡ covered row.old first }
{
    for (place, count) in row.iter_mut().enumerate() {
        *count = pick((place as u64) < first, 0, *count);
    }
}

// The end of a call: where a drive has moved, the counts become shares.
pub fn finish(row: &mut [u32], bill: u64, tally: Tally) -> Result<(), Refusal>
    requires { tally.total ≢ 0 → Shareable bill (covered row.old tally.first) tally.total }
    ensures { (refused_by result ≡ pick (eqb tally.total 0) 21 0)
        × (row.new ≡ pick (not (eqb tally.total 0)) (shares bill (covered row.old tally.first)) row.old) }
{
    refuse(tally.total == 0, Refusal::Unmoved)?;
    cover(row, tally.first);
    settle(row, bill, tally.total);
    Ok(())
}
