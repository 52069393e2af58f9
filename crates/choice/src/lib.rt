// Which of the due drives a hall tick sends, on plain numbers: as many as the quota, or all, those that waited longest first.
#![tactic(auto)]

ghost use Rattle.std.specs.Prelude.{◌≡◌, ◌<◌, ◌≤◌, length, position, IfSome, unwrap_or};
ghost use Rattle.choice.specs.Sent.{is_report_number};
ghost use Rattle.choice.specs.Choice.{key_if, number_in, Distinct, Spanned, kept, kept_above, Next};

use numbers::pick;
use order::Keys;
use std::ops::Range;

// From here on a number of a hall tick is a report; until the choice is made, a key.
const REPORT: u32 = 65536;

// The most drives of a row.
const MOST: u32 = 64;

// What stands for a drive until the choice is made: 0 where it is not due, and otherwise a key. One that waited longer has the larger key
// and, among equals, that with the lower number.
// Kept: a key of its own, beside bill's, since each has an edit ties_to_the_higher_number of its own.
// Kept: a place below 64, as six functions ask: a type for it would be made of a loop's counter and taken apart at once.
pub fn key(due: bool, wait: u16, place: usize) -> u32
    requires { place < 64 }
    ensures { result ≡ key_if due wait place }
{
    let number = place as u32;
    let before = MOST - 1 - number;
    pick(due, REPORT + (MOST * u32::from(wait) + before), 0)
}

// The numbers as keys.
#[derive(Clone, Copy)]
struct Numbers<'a> {
    row: &'a [u32],
    ghost few: { length row.now ≤ 64 },
}

impl Keys for Numbers<'_> {
    ghost key = { λ it. number_in it.row.now };

    ghost places = { λ it. length it.row.now };

    fn places(&self) -> usize {
        self.row.len()
    }

    fn reaches(&self, place: usize, least: u64) -> bool {
        least <= u64::from(self.row[place])
    }
}

// From the smallest report to behind the largest number. Where waits are much the same, these are near each other.
// Kept: least and most in one loop, and the largest number where there is no report, which `Spanned` allows.
fn span_of(numbers: &[u32]) -> Range<u64>
    ensures { Spanned numbers.now (length numbers.now) result.start result.end }
{
    let mut least = u32::MAX;
    let mut most = 0;
    for number in numbers {
        least = least.min(pick(REPORT <= *number, *number, u32::MAX));
        most = most.max(*number);
    }
    u64::from(least)..u64::from(most) + 1
}

// Sets the reports that are not larger than `bound` to 0.
fn hold_back(numbers: &mut [u32], bound: u64)
    ensures { numbers.new ≡ kept_above numbers.old (length numbers.old) bound }
{
    for number in numbers.iter_mut() {
        *number = pick(
            (REPORT <= *number) & (u64::from(*number) <= bound),
            0,
            *number,
        );
    }
}

// Of the reports keeps the largest, as many as the quota or all, and sets the others to 0.
fn keep(numbers: &mut [u32], quota: u32)
    requires { Distinct numbers.old (length numbers.old) }
    ensures { numbers.new ≡ kept numbers.old (length numbers.old) quota }
{
    if order::count_from(&Numbers { row: numbers }, u64::from(REPORT)) <= quota {
        return;
    }
    let span = span_of(numbers);
    let least = order::bisected(&Numbers { row: numbers }, quota, span);
    hold_back(numbers, least - 1);
}

// The first place whose number is a report.
fn first_sent(numbers: &[u32]) -> Option<usize>
    ensures { result ≡ position is_report_number numbers.now }
{
    numbers.iter().position(|number| REPORT <= *number)
}

// The first place from `from` on whose number is a report.
pub fn next_sent(numbers: &[u32], from: usize) -> Option<usize>
    requires { from ≤ length numbers.now }
    ensures next { Next numbers.now from (length numbers.now) (unwrap_or result (length numbers.now)) }
    ensures within { IfSome result (λ k. k < length numbers.now) }
{
    let k = first_sent(&numbers[from..])?;
    Some(from + k)
}

// Keeps the keys of those that go, and gives the place of the first of them.
pub fn choose(numbers: &mut [u32], quota: u32) -> Option<usize>
    requires { Distinct numbers.old (length numbers.old) }
    ensures kept { numbers.new ≡ kept numbers.old (length numbers.old) quota }
    ensures next { Next numbers.new 0 (length numbers.new) (unwrap_or result (length numbers.new)) }
    ensures within { IfSome result (λ k. k < length numbers.new) }
{
    keep(numbers, quota);
    next_sent(numbers, 0)
}
