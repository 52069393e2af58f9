// The bill of a hall for a host in C or Rust. `hall_bill_c` exports it.
#![tactic(auto)]

ghost use Rattle.std.specs.Prelude.{◌≡◌, ◌≤◌, length, IfErr};
ghost use Rattle.answer.specs.Refusal.{number, refused_by};
ghost use Rattle.hall_bill.specs.HallBill.{bill_refusal, shares_after};
ghost use Rattle.hall_bill.specs.Turns.{first_refusal};

use answer::{Refusal, refuse};
use bill::Tally;
use damper::Drive;

// The most cents of a bill.
const MOST: u64 = 1000000000;

// The first of 14 and 20 that fits a call.
fn judged(drives: usize, bill: u64, places: usize) -> Result<(), Refusal>
    ensures first { refused_by result ≡ first_refusal drives bill places }
    ensures some { IfErr result (λ r. 1 ≤ number r) }
{
    refuse(hall::bad_row(drives), Refusal::Row)?;
    refuse((MOST < bill) | (places != drives), Refusal::Bill)
}

// Shares the bill, in cents, out by the travel of the drives, one share for each. Refused by 14, 20 or 21, it changes nothing.
// Kept: the place of a share by number, since a share is not written before a drive has moved (`noted`).
pub fn damper_hall_bill_layout3(row: &[Drive], bill: u64, shares: &mut [u32]) -> Result<(), Refusal>
    ensures { (refused_by result ≡ bill_refusal row.now bill (length shares.old))
        × (shares.new ≡ shares_after row.now bill shares.old) }
{
    judged(row.len(), bill, shares.len())?;
    let mut tally = Tally::default();
    for (place, d) in row.iter().enumerate() {
        tally = bill::note(shares, place, tally, d.travel);
    }
    bill::finish(shares, bill, tally)
}
