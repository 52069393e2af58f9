// An audit of a drive's answers, ours or another's: which sentences of demands 2 and 3 fail at each event record. What the answers are held
// against is the list of event records alone, carried by the proved drive.
#![tactic(auto)]

ghost use Rattle.std.specs.Prelude.{◌≡◌, true};
ghost use Rattle.numbers.specs.Numbers.{pick, next};
ghost use Rattle.damper.specs.WellFormed.{well_formed};
ghost use Rattle.audit.specs.Audit.{said_in, fresh_audit, met_by, findings_of, followed, audit_of};

use answer::{Answer, Refusal};
use damper::{Drive, Formed, Last, NO_REPORT, Outcome};
use event::Kind;
use numbers::{next, pick};

// What is kept from one event record to the next.
#[repr(C)]
#[derive(Clone, Copy)]
pub struct Audit {
    // The drive that the list makes, with the reports that were heard in place of its own.
    pub drive: Drive,
    // The position that was last shown.
    pub seen: u8,
    // Ticks since the latest report that was heard, past restarts, which stop at 65,535; as many where none was.
    pub apart: u16,
}

// Which sentences fail at an event record.
#[repr(C)]
#[derive(Clone, Copy, Default)]
pub struct Findings {
    pub spacing: bool,
    pub waiting: bool,
    pub moving: bool,
    pub position: bool,
    pub content: bool,
    // Another event than a tick moves the damper, or sends a report.
    pub othermove: bool,
    pub otherreport: bool,
    pub due: bool,
    pub refusal: bool,
    pub answer: bool,
}

// The audit after an event record, 1 in place of 0 where its drive record is not well formed, and what was found.
// Kept: no Result, and zeros where it is refused, since the C interface has this struct.
#[repr(C)]
#[derive(Clone, Copy)]
pub struct Audited {
    pub audit: Audit,
    pub refusal: u8,
    pub findings: Findings,
}

// What an answer says: the number of its refusal, the position that it shows or the one before, whether it is a report, and of which
// status.
// Kept: a number, and a flag beside the status, which the definitions `said_in` and `findings_of` hold apart, since any drive's number is
// a byte, and five findings ask for the flag alone.
#[derive(Clone, Copy)]
pub struct Said {
    pub number: u8,
    pub position: u8,
    pub reports: bool,
    pub status: u8,
}

// What document 01's drive makes of an event record: the drive after it, the refusal's number, whether a report is due and what is
// answered; whether it is an accepted tick or restart; and where a tick would lead from the position that was last shown.
// Kept: numbers and flags, which the definitions `met_by` and `findings_of` hold against the word and the code that C hands in.
#[derive(Clone, Copy)]
pub struct Met {
    pub drive: Drive,
    pub number: u8,
    pub reports: bool,
    pub word: u8,
    pub code: u32,
    pub tick: bool,
    pub restart: bool,
    pub moved: u8,
}

fn said_in(before: u8, answer: Answer) -> Said
    ensures { result ≡ said_in before answer }
{
    let nothing = Said {
        number: 0,
        position: before,
        reports: false,
        status: 0,
    };
    match answer {
        Answer::No(number) => Said { number, ..nothing },
        Answer::Done => nothing,
        Answer::Par(_) => nothing,
        Answer::At { position, .. } => Said {
            position,
            ..nothing
        },
        Answer::Tick { position, .. } => Said {
            position,
            ..nothing
        },
        Answer::Report {
            position,
            status,
            ..
        } => Said {
            number: 0,
            position,
            reports: true,
            status,
        },
    }
}

// A count that rises at a tick.
fn counted(tick: bool, n: u16) -> u16
    ensures { result ≡ pick tick (next n) n }
{
    pick(tick, next(n), n)
}

impl Audit {
    // Of a drive that is fresh.
    pub fn fresh() -> Audit
        ensures { result ≡ fresh_audit }
    {
        Audit {
            drive: Drive::fresh(),
            seen: 0,
            apart: 65535,
        }
    }

    #[tactic(auto, unfolding(crate::specs::Audit::met_by))]
    fn met(self, s: &[u8]) -> Met
        requires { well_formed self.drive ≡ true }
        ensures { result ≡ met_by self s.now }
    {
        let d = self.drive;
        let Outcome { drive, answer } = d.step_if(true, s);
        let said = said_in(0, answer);
        let kind = event::kind_in(s);
        let shown = Formed {
            drive: d.with_position(self.seen),
        };
        let there = shown.advance().drive;
        Met {
            drive,
            number: said.number,
            reports: said.reports,
            word: answer.word(),
            code: answer.code(),
            tick: (said.number == 0) & matches!(kind, Some(Kind::Tick)),
            restart: (said.number == 0) & matches!(kind, Some(Kind::Restart)),
            moved: there.position,
        }
    }

    #[tactic(auto, unfolding(crate::specs::Audit::findings_of))]
    fn findings(self, m: Met, said: Said, word: u8, code: u32) -> Findings
        ensures { result ≡ findings_of self m said word code }
    {
        let next = m.drive;
        let last = self.drive.last;
        let params = next.params;
        let time = params[table::MIN_REP_TIME];
        let status = next.status();
        let tick = m.tick;
        let reports = said.reports;
        let shown = said.position;
        let since = counted(tick, self.drive.since);
        let apart = counted(tick, self.apart);
        let changed = rules::changed(params[table::ACT_POS_COV], next.position, last.position);
        let differs = (last.reported != 1) | changed | (status != last.status);
        let same = (shown == next.position) & (said.status == status);
        Findings {
            spacing: reports & (apart < time),
            waiting: tick & !reports & (time <= since) & differs,
            moving: tick & (shown != m.moved),
            position: shown != next.position,
            content: reports & !same,
            othermove: !tick & (shown != self.seen),
            otherreport: !tick & reports,
            due: tick & (m.reports != reports),
            refusal: said.number != m.number,
            answer: !((word == m.word) & (code == m.code)),
        }
    }

    #[tactic(auto, unfolding(crate::specs::Audit::followed))]
    fn followed(self, m: Met, said: Said) -> Audit
        ensures { result ≡ followed self m said }
    {
        let heard = Last {
            reported: 1,
            position: said.position,
            status: said.status,
        };
        let since = counted(m.tick, self.drive.since);
        let apart = counted(m.tick, self.apart);
        let last = pick(
            m.restart,
            NO_REPORT,
            pick(said.reports, heard, self.drive.last),
        );
        Audit {
            drive: m
                .drive
                .with_heard(pick(said.reports | m.restart, 0, since), last),
            seen: said.position,
            apart: pick(said.reports, 0, apart),
        }
    }

    // One event record, of any bytes, and the answer that it got.
    #[tactic(auto, unfolding(crate::specs::Audit::audit_of))]
    pub fn hear(self, s: &[u8], answer: Answer) -> Audited
        ensures { result ≡ audit_of self s.now answer }
    {
        if !self.drive.well_formed() {
            return Audited {
                audit: self,
                refusal: Refusal::Record.number(),
                findings: Findings::default(),
            };
        }
        let m = self.met(s);
        let said = said_in(self.seen, answer);
        Audited {
            audit: self.followed(m, said),
            refusal: 0,
            findings: self.findings(m, said, answer.word(), answer.code()),
        }
    }
}
