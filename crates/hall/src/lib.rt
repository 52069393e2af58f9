// When a hall call is refused itself.
#![tactic(auto)]

ghost use Rattle.std.specs.Prelude.{◌≡◌, false, leb};
ghost use Rattle.std.specs.List.{list_any};
ghost use Rattle.answer.specs.Refusal.{refused_by};
ghost use Rattle.hall.specs.Hall.{give, bad_row, bad_number, is_tick, names_twice, tick_refusal, call_refusal};

use answer::{Refusal, refuse};
use event::Kind;
use numbers::{flag, with_flag};

// The most drives of a row, entries of a list, and reports that a hall tick may be asked to send.
const MOST: usize = 64;

// Whether a number of the list reaches the bound.
fn reaches(list: &[u32], bound: usize) -> bool
    ensures { result ≡ list_any (leb bound) list.now }
{
    list.iter().any(|number| bound <= *number as usize)
}

// Whether the list has a number that is not below the row's length.
#[tactic(auto, using(crate::specs::Laws::bad_number_is))]
fn bad_number(drives: usize, list: &[u32]) -> bool
    ensures { result ≡ bad_number drives list.now }
{
    reaches(list, drives)
}

// Whether the reader accepts the bytes as a tick.
fn is_tick(s: &[u8]) -> bool
    ensures { result ≡ is_tick s.now }
{
    event::kind_in(s) == Some(Kind::Tick)
}

// Whether the list names a drive twice, in one pass: flag i says that number i has been met.
#[tactic(auto, using(crate::specs::ListLaws::pass), unfolding(crate::specs::Hall::named_in, crate::specs::Hall::names_twice))]
fn names_twice(list: &[u32]) -> bool
    requires { bad_number 64 list.now ≡ false }
    ensures { result ≡ names_twice list.now }
{
    let mut met: u64 = 0;
    for number in list {
        let number = *number as usize;
        if flag(met, number) {
            return true;
        }
        met = with_flag(met, number);
    }
    false
}

// Whether a row of drives is empty or too long.
pub fn bad_row(drives: usize) -> bool
    ensures { result ≡ bad_row drives }
{
    (drives < 1) | (MOST < drives)
}

// Refused by the first of 14, 15, 16 and 19 that fits an event call.
#[tactic(auto, using(crate::specs::Laws::bad_longer, crate::specs::Laws::row_few), unfolding(crate::specs::Hall::call_refusal))]
pub fn event_refusal(drives: usize, list: &[u32], s: &[u8], places: usize) -> Result<(), Refusal>
    ensures { refused_by result ≡ call_refusal drives (give list.now s.now places) }
{
    refuse(bad_row(drives), Refusal::Row)?;
    refuse(bad_number(drives, list), Refusal::Number)?;
    refuse(
        is_tick(s) | (MOST < list.len()) | (places < list.len()),
        Refusal::Call,
    )?;
    refuse(names_twice(list), Refusal::Twice)
}

// Refused by the first of 14, 16 and 18 that fits a hall tick.
pub fn tick_refusal(drives: usize, quota: u32, places: usize) -> Result<(), Refusal>
    ensures { refused_by result ≡ tick_refusal drives quota places }
{
    refuse(bad_row(drives), Refusal::Row)?;
    refuse(places < drives, Refusal::Call)?;
    refuse((quota < 1) | (MOST < quota as usize), Refusal::Quota)
}
