// Document 01's rules over plain numbers and flags, and what the latest commands say.
#![tactic(auto)]

ghost use Rattle.std.specs.Prelude.{◌≡◌, ◌≤◌};
ghost use Rattle.answer.specs.Refusal.{refused_by};
ghost use Rattle.rules.specs.Commands.{flagged, commands_fit};
ghost use Rattle.rules.specs.Rank.{start_run, forced, forbids, bus_active, ruling_rank, limited, backup_target};
ghost use Rattle.rules.specs.Report.{status, changed};
ghost use Rattle.rules.specs.Refusal.{state_refusal};

use answer::{Refusal, refuse};
use event::{Event, Kind};
use numbers::{bit, pick};
use table::Params;

// What the latest commands say. A flag is a byte, set at 1, so that any bytes are commands; those that fit have flags of 0 and 1.
// Kept: no Option, no bool and no enum, since the C interface has this struct, and any bytes are one.
#[repr(C)]
#[derive(Clone, Copy)]
pub struct Commands {
    pub fault: u8,
    // 0 and 1 none, 2 forced to 0, 3 forced to 255.
    pub forcing: u8,
    pub hand: u8,
    pub handpos: u8,
    // An override from the tool.
    pub tool: u8,
    pub toolpos: u8,
    // Whether a bus setpoint is stored, and which.
    pub stored: u8,
    pub setpoint: u8,
}

// Kept: a constant written out, since the value of a constant can not be a call of default().
pub const NO_COMMANDS: Commands = Commands {
    fault: 0,
    forcing: 0,
    hand: 0,
    handpos: 0,
    tool: 0,
    toolpos: 0,
    stored: 0,
    setpoint: 0,
};

// A run as a number.
// Kept: no enum, since the C interface has the number in the record, and any byte is one.
pub const NO_RUN: u8 = 0;

pub const CALIBRATION: u8 = 1;

pub const SYNC_CLOSE: u8 = 2;

pub const SYNC_OPEN: u8 = 3;

impl Commands {
    // Whether each flag is 0 or 1, forcing 0 to 3, and the value of a flag that is off 0, with the age of the setpoint.
    #[tactic(auto, unfolding(crate::specs::Commands::commands_fit))]
    pub fn fit(self, age: u16) -> bool
        ensures { result ≡ commands_fit self age }
    {
        if !((self.fault <= 1) & (self.forcing <= 3)) {
            return false;
        }
        if !flagged(self.hand, self.handpos) {
            return false;
        }
        if !flagged(self.tool, self.toolpos) {
            return false;
        }
        if self.stored == 1 {
            return true;
        }
        (self.stored == 0) & (self.setpoint == 0) & (age == 0)
    }
}

// A flag that is set, or one of 0 beside a value of 0. (Branches in well-formedness: without them a step costs a tenth more.)
fn flagged(flag: u8, value: u8) -> bool
    ensures { result ≡ flagged flag value }
{
    if flag == 1 {
        return true;
    }
    (flag == 0) & (value == 0)
}

// The highest set bit: 7 less the leading zeros of an active byte, which is not 0 since backup is always active.
#[tactic(auto, unfolding(crate::specs::Rank::ruling_rank))]
pub fn ruling_rank(active: u8) -> u8
    requires { 1 ≤ active }
    ensures { result ≡ ruling_rank active }
{
    (7 - u8::leading_zeros(active)) as u8
}

// v brought into the Low to High of the parameters.
pub fn limited(params: Params, v: u8) -> u8
    ensures { result ≡ limited params.values v }
{
    motion::within(params.low(), params.high(), v)
}

// Where backup leads: the commands, the present position and the parameters tell.
#[tactic(auto, unfolding(crate::specs::Rank::backup_target))]
pub fn backup_target(c: Commands, position: u8, params: Params) -> u8
    ensures { result ≡ backup_target c position params.values }
{
    let values = params.values;
    if values[table::BACKUP_MODE] == 0 {
        return limited(params, motion::to_position(params.backup_value()));
    }
    if c.stored == 1 {
        return limited(params, c.setpoint);
    }
    position
}

// The run that a restart starts.
pub fn start_run(synchronization: u16) -> u8
    ensures { result ≡ start_run synchronization }
{
    pick(
        synchronization == 1,
        SYNC_CLOSE,
        pick(synchronization == 2, SYNC_OPEN, NO_RUN),
    )
}

pub fn forced(forcing: u8) -> bool
    ensures { result ≡ forced forcing }
{
    (forcing == 2) | (forcing == 3)
}

// Whether a fault flag and forcing forbid a run.
pub fn forbids_run(fault: u8, forcing: u8) -> bool
    ensures { result ≡ forbids fault forcing }
{
    (fault == 1) | forced(forcing)
}

pub fn bus_active(c: Commands, age: u16, timeout: u16) -> bool
    ensures { result ≡ bus_active c age timeout }
{
    (c.stored == 1) & (age <= timeout)
}

// Bit 0 fault, 1 hand or tool, 2 calibration, 3 synchronization, 4 forced, 5 bus not active.
#[tactic(auto, unfolding(crate::specs::Report::status))]
pub fn status(c: Commands, run: u8, bus: bool) -> u8
    ensures { result ≡ status c run bus }
{
    bit(c.fault == 1, 1)
        + bit((c.hand == 1) | (c.tool == 1), 2)
        + bit(run == CALIBRATION, 4)
        + bit((run == SYNC_CLOSE) | (run == SYNC_OPEN), 8)
        + bit(forced(c.forcing), 16)
        + bit(!bus, 32)
}

// Whether a position differs by ActPosCOV or more from the last one reported.
pub fn changed(cov: u16, position: u8, last: u8) -> bool
    ensures { result ≡ changed cov position last }
{
    255 * (cov as u32) <= 100 * (numbers::distance(position, last) as u32)
}

// The first of the refusals 9 to 13 that fits.
#[tactic(auto, unfolding(crate::specs::Refusal::state_refusal))]
pub fn state_refusal(
    e: Event,
    mode: u16,
    low: u16,
    high: u16,
    running: bool,
    forbidden: bool,
) -> Result<(), Refusal>
    ensures { refused_by result ≡ state_refusal e mode low high running forbidden }
{
    match Kind::try_from(e.kind) {
        Ok(Kind::LteSetpoint) => refuse((e.a as u32) != 50 + mode as u32, Refusal::Property),
        Ok(Kind::Calibration) => refuse(forbidden, Refusal::Blocked),
        Ok(Kind::Write) => {
            let v = event::value_of(e);
            let crossed = ((e.a == table::LOW_NUMBER) & (high < v))
                | ((e.a == table::HIGH_NUMBER) & (v < low));
            refuse(!table::takes(e.a, v), Refusal::Range)?;
            refuse(crossed, Refusal::LowAboveHigh)?;
            refuse((e.a == table::RATE_NUMBER) & running, Refusal::RateInRun)
        }
        _ => Ok(()),
    }
}
