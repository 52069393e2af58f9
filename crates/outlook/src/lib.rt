// What a tick would go by: who rules it and toward what, what it leaves, and each condition of step 4.
#![tactic(auto)]

ghost use Rattle.std.specs.Prelude.{◌≡◌};
ghost use Rattle.outlook.specs.Outlook.{outlook_of};

use answer::Refusal;
use damper::{Drive, Formed};

// Of a tick that finds the drive as it is. A report goes out where `waited` and one of the four behind it hold.
// Kept: no Result, and zeros where it is refused, since the C interface has this struct.
#[repr(C)]
#[derive(Clone, Copy)]
pub struct Outlook {
    // 1 where the record is not well formed, and then all else is 0 or false; otherwise 0.
    pub refusal: u8,
    // The ruling rank during the move, and its target.
    pub rank: u8,
    pub target: u8,
    // What the tick leaves.
    pub position: u8,
    pub status: u8,
    // Since is at least MinRepTime.
    pub waited: bool,
    // No report yet.
    pub first: bool,
    // By ActPosCOV or more from the last reported position.
    pub changed: bool,
    // Status differs from the last reported one.
    pub differs: bool,
    // Since is at least RepPer.
    pub period: bool,
}

const NONE: Outlook = Outlook {
    refusal: Refusal::Record as u8,
    rank: 0,
    target: 0,
    position: 0,
    status: 0,
    waited: false,
    first: false,
    changed: false,
    differs: false,
    period: false,
};

#[tactic(auto, unfolding(crate::specs::Outlook::outlook_of, damper::specs::Tick::aged))]
pub fn ahead(d: Drive) -> Outlook
    ensures { result ≡ outlook_of d }
{
    // Kept: tested here and not by `formed`: of its Option, a copy of the record, the call took three tenths more time.
    if !d.well_formed() {
        return NONE;
    }
    let formed = Formed { drive: d };
    let aged = d.aged();
    let rank = aged.ruling();
    let n = formed.advance().drive;
    let params = n.params;
    let status = n.status();
    let reported = n.last.reported == 1;
    let changed = rules::changed(params[table::ACT_POS_COV], n.position, n.last.position);
    Outlook {
        refusal: 0,
        rank: rank.number,
        target: aged.target(rank),
        position: n.position,
        status,
        waited: params[table::MIN_REP_TIME] <= n.since,
        first: !reported,
        changed: reported & changed,
        differs: reported & (status != n.last.status),
        period: params[table::REP_PER] <= n.since,
    }
}
