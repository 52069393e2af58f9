// A flow box: its record, a reading as a flow, the percent shown, and what a reading does to the record.
#![tactic(auto)]

ghost use Rattle.std.specs.Prelude.{◌≡◌, true, false, MatchOption};
ghost use Rattle.flow.specs.Refusal.{number};
ghost use Rattle.flow.specs.Answer.{answered};
ghost use Rattle.flow.specs.Flow.{between, is_setting, is_flow, is_share, measured, apart, percent_of, fresh_record, well_formed, due_at, outcome, hear_of, heard_with};

// What the sensor answers: a flow in m³/h, a share of nominal, or that it is broken.
#[derive(Clone, Copy, Debug, PartialEq)]
pub enum Reading {
    Flow(f32),
    Share(f32),
    Broken,
}

// What a call is refused by: the numbers of document 02.
#[derive(Clone, Copy, Debug, PartialEq, Eq)]
pub enum FlowRefusal {
    // The record is not well formed.
    Record = 22,
    // The reading is out of its range.
    Reading = 23,
}

impl FlowRefusal {
    pub fn number(self) -> u8
        ensures { result ≡ number self }
    {
        self as u8
    }
}

#[derive(Clone, Copy, Debug, PartialEq)]
pub struct FlowReport {
    pub flow: f32,
    pub percent: u8,
}

// A host in C or Rust may hold the record: any bytes are one, and `well_formed` says which are taken.
// Kept: no Option for the last flow, since the C interface has this struct, and any bytes are one.
#[repr(C)]
#[derive(Clone, Copy)]
pub struct FlowRecord {
    // Ticks since the last report, which stop at 65,535.
    pub since: u16,
    // Whether any was sent: 1 or 0.
    pub sent: u8,
    // ActFlowMinRepTime, so wide that 65,546 is not taken for 10.
    pub time: u32,
    // Nominal flow.
    pub nominal: f32,
    // ActFlowCOV.
    pub cov: f32,
    // The last flow sent.
    pub last: f32,
}

// The record after a call; the flow of a report; the refusal; whether there is a report, 1 or 0; its percent. What there is not, is 0.
// Kept: the C interface has this struct, since no enum crosses.
#[repr(C)]
#[derive(Clone, Copy)]
pub struct FlowHeard {
    pub state: FlowRecord,
    pub flow: f32,
    pub refusal: u8,
    pub reported: u8,
    pub percent: u8,
}

impl FlowHeard {
    // A call as a host is told of it.
    #[tactic(auto, using(crate::specs::Literals::is_0))]
    pub fn of(state: FlowRecord, answer: Result<Option<FlowReport>, FlowRefusal>) -> FlowHeard
        ensures { result ≡ heard_with state (answered answer) }
    {
        let silent = FlowHeard {
            state,
            flow: 0.0,
            refusal: 0,
            reported: 0,
            percent: 0,
        };
        match answer {
            Ok(Some(report)) => FlowHeard {
                flow: report.flow,
                reported: 1,
                percent: report.percent,
                ..silent
            },
            Ok(None) => silent,
            Err(refusal) => FlowHeard {
                refusal: refusal.number(),
                ..silent
            },
        }
    }
}

// Both ends are in; a NaN never is.
// Kept: with `(low..=high).contains(&x)` of floats a call took 158 instructions in place of 134, and with `&&` here and below 149.
fn within(x: f32, low: f32, high: f32) -> bool
    ensures { result ≡ between low high x }
{
    (low <= x) & (x <= high)
}

// From 1 to 1,000,000, as nominal and ActFlowCOV are.
#[tactic(auto, using(crate::specs::Literals::is_1, crate::specs::Literals::is_million), unfolding(crate::specs::Flow::is_setting))]
fn is_setting(x: f32) -> bool
    ensures { result ≡ is_setting x }
{
    within(x, 1.0, 1000000.0)
}

// From 0 to 1,000,000.
#[tactic(auto, using(crate::specs::Literals::is_0, crate::specs::Literals::is_million), unfolding(crate::specs::Flow::is_flow))]
fn is_flow(x: f32) -> bool
    ensures { result ≡ is_flow x }
{
    within(x, 0.0, 1000000.0)
}

// From 0 to 1.
#[tactic(auto, using(crate::specs::Literals::is_0, crate::specs::Literals::is_1), unfolding(crate::specs::Flow::is_share))]
fn is_share(x: f32) -> bool
    ensures { result ≡ is_share x }
{
    within(x, 0.0, 1.0)
}

// The larger less the smaller.
// Kept: no `(a - b).abs()`, which is 0 where the definition `apart`, of -0 and 0, is -0.
#[tactic(auto, unfolding(crate::specs::Flow::apart))]
fn apart(a: f32, b: f32) -> f32
    ensures { result ≡ apart a b }
{
    if a < b { b - a } else { a - b }
}

impl FlowRecord {
    // Kept: three settings side by side, as the C interface has them.
    #[tactic(auto, using(crate::specs::Literals::is_0))]
    pub fn fresh(nominal: f32, cov: f32, time: u32) -> FlowRecord
        ensures { result ≡ fresh_record nominal cov time }
    {
        FlowRecord {
            since: 0,
            sent: 0,
            time,
            nominal,
            cov,
            last: 0.0,
        }
    }

    // What refusal 22 asks.
    #[tactic(auto, unfolding(crate::specs::Flow::well_formed, crate::specs::Flow::settings_fit))]
    pub fn well_formed(self) -> bool
        ensures { result ≡ well_formed self }
    {
        is_setting(self.nominal)
            & is_setting(self.cov)
            & (1..=3600).contains(&self.time)
            & is_flow(self.last)
            & (self.sent <= 1)
    }

    // The record, where 22 does not refuse it.
    // Kept: an Option and no TryFrom, since the one who asks tells the refusal.
    pub fn checked(self) -> Option<FlowBox>
        ensures { MatchOption result (well_formed self ≡ false) (λ taken. taken.state ≡ self) }
    {
        if self.well_formed() {
            Some(FlowBox { state: self })
        } else {
            None
        }
    }

    #[tactic(auto, unfolding(crate::specs::Flow::due_by))]
    fn due(self, x: f32) -> bool
        ensures { result ≡ due_at self x }
    {
        (self.time <= self.since as u32) && (self.sent != 1 || self.cov <= apart(x, self.last))
    }
}

// A record that 22 does not refuse.
#[derive(Clone, Copy)]
pub struct FlowBox {
    pub state: FlowRecord,
    pub ghost formed: { well_formed state ≡ true },
}

impl FlowBox {
    // A reading as a flow, where it is one.
    fn measure(&self, got: Reading) -> Result<Option<f32>, FlowRefusal>
        ensures { result ≡ measured self.now.state.nominal got }
    {
        match got {
            Reading::Flow(x) if is_flow(x) => Ok(Some(x)),
            Reading::Share(x) if is_share(x) => Ok(Some(self.state.nominal * x)),
            Reading::Broken => Ok(None),
            _ => Err(FlowRefusal::Reading),
        }
    }

    // The percent shown, by halves: `low` qualifies and `high` does not.
    // Kept: no library search, which would be no plainer: `partition_point` wants a table of the numbers 1 to 100.
    #[tactic(auto, using(crate::specs::Literals::is_100), unfolding(crate::specs::Flow::qualifies))]
    fn percent(&self, x: f32) -> u8
        ensures { result ≡ percent_of self.now.state.nominal x }
    {
        let nominal = self.state.nominal;
        let top = 100.0 * x;
        let mut low: u8 = 0;
        let mut high: u8 = 101;
        while low + 1 < high {
            let mid = (low + high) / 2;
            if (mid as f32) * nominal <= top {
                low = mid;
            } else {
                high = mid;
            }
        }
        low
    }

    // What one reading does: a report, where one is due.
    #[tactic(auto, using(crate::specs::Laws::record_taken))]
    pub fn hear(&mut self, got: Reading) -> Result<Option<FlowReport>, FlowRefusal>
        ensures { outcome self.new.state (answered result) ≡ hear_of self.old.state got }
    {
        let measured = self.measure(got)?;
        self.state.since = numbers::next(self.state.since);
        let Some(flow) = measured else {
            return Ok(None);
        };
        if !self.state.due(flow) {
            return Ok(None);
        }
        let report = FlowReport {
            flow,
            percent: self.percent(flow),
        };
        self.state.last = flow;
        self.state.since = 0;
        self.state.sent = 1;
        Ok(Some(report))
    }
}
