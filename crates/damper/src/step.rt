// One event record given to a drive.
ghost use Rattle.std.specs.Prelude.{◌≡◌, ◌≤◌, true, get_or, IfOk};
ghost use Rattle.table.specs.Table.{known, place_of};
ghost use Rattle.answer.specs.Refusal.{refused_by};
ghost use Rattle.event.specs.Event.{event_in, data_refusal};
ghost use Rattle.damper.specs.WellFormed.{well_formed};
ghost use Rattle.damper.specs.Step.{commanded, calibrated, restarted, applied, refusal_of, step_of};

use crate::{Drive, Formed, NO_RUN, Outcome, Run};
use answer::{Answer, Refusal, refuse};
use event::{Event, Kind};
use numbers::pick;

impl Formed {
    // Kind 6.
    #[tactic(auto, unfolding(crate::specs::Step::calibrated))]
    fn calibrated(self) -> Drive
        ensures { result ≡ calibrated self.drive }
    {
        self.drive.with_run(Run {
            kind: rules::CALIBRATION,
            left: motion::run_ticks(self.params().rate() as u16),
        })
    }

    // Kind 9.
    #[tactic(auto, unfolding(crate::specs::Step::restarted))]
    fn restarted(self) -> Drive
        ensures { result ≡ restarted self.drive }
    {
        let params = self.drive.params;
        let ticks = motion::run_ticks(self.params().rate() as u16);
        let kind = rules::start_run(params[table::START_SYNCHRONIZATION]);
        let left = pick(kind != rules::NO_RUN, ticks, 0);
        self.drive.cleared().with_run(Run { kind, left })
    }

    // What an accepted event does. Kinds 2 to 9 share one outcome, built at the end: arms that each build one cost a tenth more
    // instructions.
    #[tactic(auto, unfolding(crate::specs::Step::applied, crate::specs::Step::obeyed))]
    fn applied(self, e: Event) -> Outcome
        requires { data_refusal e ≡ 0 }
        ensures { result ≡ applied self.drive e }
    {
        let a = e.a;
        let mut d = self.drive;
        match e.kind_admitted() {
            Kind::Tick => return self.tick(),
            Kind::Setpoint => d = d.with_setpoint(a),
            Kind::LteSetpoint => d = d.commanded(e.b, e.c),
            Kind::Forcing => {
                let forbidden = rules::forbids_run(d.commands.fault, a);
                d.commands.forcing = a;
                d.run = pick(forbidden, NO_RUN, d.run);
            }
            Kind::Hand => d = d.with_hand(a, pick(a == 1, e.b, 0)),
            Kind::Calibration => d = self.calibrated(),
            Kind::Fault => {
                let forbidden = rules::forbids_run(a, d.commands.forcing);
                d.commands.fault = a;
                d.run = pick(forbidden, NO_RUN, d.run);
            }
            Kind::Write => d = d.with_param(table::place_of(a).unwrap(), event::value_of(e)),
            Kind::Restart => d = self.restarted(),
            Kind::ReadPosition => {
                let answer = Answer::At {
                    position: d.position,
                    percent: motion::to_percent(d.position),
                    status: d.status(),
                };
                return Outcome { drive: d, answer };
            }
            Kind::ReadParameter => {
                let answer = Answer::Par(d.parameter(a));
                return Outcome { drive: d, answer };
            }
        }
        Outcome {
            drive: d,
            answer: Answer::Done,
        }
    }
}

impl Drive {
    // Kind 3: a normal write, an override or a release.
    #[tactic(auto, unfolding(crate::specs::Step::commanded))]
    fn commanded(self, percent: u8, command: u8) -> Drive
        requires { command ≤ 1 → percent ≤ 100 }
        ensures { result ≡ commanded self percent command }
    {
        match command {
            event::NORMAL => self.with_setpoint(motion::to_position(percent)),
            event::OVERRIDE => self.with_tool(1, motion::to_position(percent)),
            _ => self.with_tool(0, 0),
        }
    }

    // Kind 11.
    fn parameter(self, number: u8) -> u16
        requires { known number ≡ true }
        ensures { result ≡ get_or self.params (place_of number) 0 }
    {
        let params = self.params;
        params[table::place_of(number).unwrap()]
    }

    // The event that the bytes hold, or the first of the refusals 1 to 13 that fits, where it is known whether the record is well formed.
    #[tactic(auto, unfolding(crate::specs::Step::refusal_of, rules::specs::Refusal::refusal, event::specs::Event::read_of))]
    fn admitted(self, formed: bool, s: &[u8]) -> Result<Event, Refusal>
        requires { formed ≡ well_formed self }
        ensures refusal { refused_by result ≡ refusal_of self s.now }
        ensures event { IfOk result (λ e. e ≡ event_in s.now) }
    {
        refuse(!formed, Refusal::Record)?;
        let e = event::read(s)?;
        let params = self.params;
        rules::state_refusal(
            e,
            params[table::DAMPER_MODE],
            params[table::LOW],
            params[table::HIGH],
            self.run.kind != rules::NO_RUN,
            rules::forbids_run(self.commands.fault, self.commands.forcing),
        )?;
        Ok(e)
    }

    // One event record, of any bytes, where it is known whether the record is well formed. A caller that gives one event after the
    // other tests the first record only, since an event leaves a record as well formed as it was (`formed_kept`).
    // Kept: the flag beside the record. One that is not well formed is carried, too; that a step keeps it so is proved above this crate.
    #[tactic(auto, unfolding(crate::specs::Step::step_of))]
    pub fn step_if(self, formed: bool, s: &[u8]) -> Outcome
        requires { formed ≡ well_formed self }
        ensures { result ≡ step_of self s.now }
    {
        match self.admitted(formed, s) {
            Ok(e) => Formed { drive: self }.applied(e),
            Err(refusal) => Outcome {
                drive: self,
                answer: Answer::from(refusal),
            },
        }
    }

    // One event record, of any bytes: the answer and the drive after it. A refusal gives the same drive.
    pub fn step(self, s: &[u8]) -> Outcome
        ensures { result ≡ step_of self s.now }
    {
        self.step_if(self.well_formed(), s)
    }
}
