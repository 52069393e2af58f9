// The drive record: its fields, the fresh drive, when it is well formed, and its updates.
#![tactic(auto)]

ghost use Rattle.std.specs.Prelude.{◌≡◌, ◌<◌, ◌≤◌, length};
ghost use Rattle.table.specs.Table.{rows};
ghost use Rattle.motion.specs.Motion.{run_ticks};
ghost use Rattle.damper.specs.Record.{fresh_drive, with_counts, with_position, with_move, with_run, with_report, with_heard, with_param, with_setpoint, with_tool, with_hand, with_wait, cleared};
ghost use Rattle.damper.specs.WellFormed.{run_fits, last_fits, well_formed};

use answer::Answer;
use rules::Commands;

mod formed;
mod rank;
mod step;
mod tick;

pub use formed::Formed;
pub use rank::Rank;

// A run: 0 none, 1 calibration, 2 sync close, 3 sync open; the ticks left.
// Kept: no Option here and in Last, since the C interface has these structs, and any bytes are one.
#[repr(C)]
#[derive(Clone, Copy)]
pub struct Run {
    pub kind: u8,
    pub left: u8,
}

// Whether there is a last report, and what it said.
#[repr(C)]
#[derive(Clone, Copy)]
pub struct Last {
    pub reported: u8,
    pub position: u8,
    pub status: u8,
}

// Kept: constants written out, since the value of a constant can not be a call of default().
const NO_RUN: Run = Run {
    kind: rules::NO_RUN,
    left: 0,
};

pub const NO_REPORT: Last = Last {
    reported: 0,
    position: 0,
    status: 0,
};

// A host in C or Rust may hold the record and restore it from storage: every field is a number, an array of numbers or a struct of
// such, so any bytes are a record. Whether each flag is 0 or 1 is part of well-formedness. In this order no byte belongs to no field.
#[repr(C)]
#[derive(Clone, Copy)]
pub struct Drive {
    // The twelve parameters, in the table's order.
    pub params: [u16; table::COUNT],
    // What the latest commands say.
    pub commands: Commands,
    // The age of the bus setpoint in ticks, which stops at 65,535.
    pub age: u16,
    pub run: Run,
    // Ticks since the last report or restart, which stop at 65,535.
    pub since: u16,
    pub last: Last,
    // 0 to 255, where 255 is 100 %.
    pub position: u8,
    // Hall ticks in a row at which a report was due and not sent, which stop at 65,535. A single tick does not look at it.
    pub wait: u16,
    // The position units moved, which stop at 4,294,967,295.
    pub travel: u32,
}

// Kept: numbers, as the definition `advance` and the answers have them.
// A drive after steps 1 to 3 of a tick, the ruling rank during the move, and the motor: 0 still, 1 rising, 2 falling, or 1 and 2
// exchanged.
#[derive(Clone, Copy)]
pub struct Advanced {
    pub drive: Drive,
    pub rank: u8,
    pub motor: u8,
}

// The drive after an event, and the answer to it.
#[derive(Clone, Copy)]
pub struct Outcome {
    pub drive: Drive,
    pub answer: Answer,
}

impl Run {
    // Left is at most K just where left × rate is below 255 + rate, which needs no division.
    #[tactic(auto, unfolding(crate::specs::WellFormed::run_fits))]
    fn fits(self, rate: u16, forbidden: bool) -> bool
        requires { 1 ≤ rate }
        ensures { result ≡ run_fits self (run_ticks rate) forbidden }
    {
        let left = self.left;
        if self.kind == rules::NO_RUN {
            return left == 0;
        }
        let bounded = (left as u32) * (rate as u32) < 255 + rate as u32;
        (self.kind <= rules::SYNC_OPEN) & ((1 <= left) & bounded & !forbidden)
    }
}

impl Last {
    #[tactic(auto, unfolding(crate::specs::WellFormed::last_fits))]
    fn fits(self) -> bool
        ensures { result ≡ last_fits self }
    {
        if self.reported == 1 {
            return true;
        }
        (self.reported == 0) & (self.position == 0) & (self.status == 0)
    }
}

impl Drive {
    // The ranks.
    // Kept: numbers, the form that document 01 names: "the seven ranks belong to the drive as constants".
    pub const FAULT: u8 = 6;

    pub const FORCING: u8 = 5;

    pub const RUN: u8 = 4;

    pub const HAND: u8 = 3;

    pub const TOOL: u8 = 2;

    pub const BUS: u8 = 1;

    pub const BACKUP: u8 = 0;

    pub fn fresh() -> Drive
        ensures { result ≡ fresh_drive }
    {
        Drive {
            params: table::fresh_values(),
            commands: rules::NO_COMMANDS,
            age: 0,
            run: NO_RUN,
            since: 0,
            last: NO_REPORT,
            position: 0,
            wait: 0,
            travel: 0,
        }
    }

    #[tactic(auto, unfolding(crate::specs::WellFormed::well_formed))]
    pub fn well_formed(self) -> bool
        ensures { result ≡ well_formed self }
    {
        let params = self.params;
        // Tested first: K has no meaning where Rate is 0.
        if !table::all_in(params) {
            return false;
        }
        if params[table::HIGH] < params[table::LOW] {
            return false;
        }
        if !self.commands.fit(self.age) {
            return false;
        }
        if !self.last.fits() {
            return false;
        }
        self.run.fits(
            params[table::RATE],
            rules::forbids_run(self.commands.fault, self.commands.forcing),
        )
    }

    pub fn with_counts(mut self, age: u16, since: u16) -> Drive
        ensures { result ≡ with_counts self age since }
    {
        self.age = age;
        self.since = since;
        self
    }

    pub fn with_position(mut self, position: u8) -> Drive
        ensures { result ≡ with_position self position }
    {
        self.position = position;
        self
    }

    // The position after a move, which is counted.
    pub fn with_move(mut self, position: u8) -> Drive
        ensures { result ≡ with_move self position }
    {
        let travel = numbers::counted(self.travel, numbers::distance(self.position, position));
        self.position = position;
        self.travel = travel;
        self
    }

    pub fn with_run(mut self, run: Run) -> Drive
        ensures { result ≡ with_run self run }
    {
        self.run = run;
        self
    }

    pub fn with_report(mut self, status: u8) -> Drive
        ensures { result ≡ with_report self status }
    {
        let last = Last {
            reported: 1,
            position: self.position,
            status: status,
        };
        self.since = 0;
        self.last = last;
        self
    }

    pub fn with_heard(mut self, since: u16, last: Last) -> Drive
        ensures { result ≡ with_heard self since last }
    {
        self.since = since;
        self.last = last;
        self
    }

    pub(crate) fn with_param(mut self, place: usize, value: u16) -> Drive
        requires { place < length rows }
        ensures { result ≡ with_param self place value }
    {
        self.params[place] = value;
        self
    }

    pub fn with_setpoint(mut self, position: u8) -> Drive
        ensures { result ≡ with_setpoint self position }
    {
        self.commands.stored = 1;
        self.commands.setpoint = position;
        self.age = 0;
        self
    }

    // Kept: a flag and a position here and in with_hand, as the definitions of these names and the record have them.
    pub fn with_tool(mut self, on: u8, position: u8) -> Drive
        ensures { result ≡ with_tool self on position }
    {
        self.commands.tool = on;
        self.commands.toolpos = position;
        self
    }

    pub fn with_hand(mut self, on: u8, position: u8) -> Drive
        ensures { result ≡ with_hand self on position }
    {
        self.commands.hand = on;
        self.commands.handpos = position;
        self
    }

    pub fn with_wait(mut self, wait: u16) -> Drive
        ensures { result ≡ with_wait self wait }
    {
        self.wait = wait;
        self
    }

    pub fn cleared(self) -> Drive
        ensures { result ≡ cleared self }
    {
        let params = self.params;
        Drive {
            params,
            position: self.position,
            travel: self.travel,
            ..Drive::fresh()
        }
    }
}
