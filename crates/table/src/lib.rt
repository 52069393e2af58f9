// The parameter table: one constant of twelve rows, the search by number, the range rule and the fresh values.
#![tactic(auto)]

ghost use Rattle.std.specs.Prelude.{◌≡◌, ℕ, ◌<◌, eqb};
ghost use Rattle.std.specs.List.{position_from, list_all, zip};
ghost use Rattle.table.specs.declared.Row.{Row};
ghost use Rattle.numbers.specs.Numbers.{pick};
ghost use Rattle.table.specs.Table.{rows, place_of, in_range, all_in, known, takes, fresh_values};

mod params;

pub use params::Params;

#[derive(Clone, Copy)]
pub struct Row {
    pub number: u8,
    pub least: u16,
    pub most: u16,
    pub fresh: u16,
}

// How many parameters there are.
pub const COUNT: usize = 12;

// The place of each parameter in the table, and in a record's row of values.
pub const DAMPER_MODE: usize = 0;

pub const OPEN_CLOSE_DIRECTION: usize = 1;

pub const ACT_POS_COV: usize = 2;

pub const MIN_REP_TIME: usize = 3;

pub const BACKUP_MODE: usize = 4;

pub const BACKUP_VALUE: usize = 5;

pub const START_SYNCHRONIZATION: usize = 6;

pub const TIMEOUT: usize = 7;

pub const REP_PER: usize = 8;

pub const RATE: usize = 9;

pub const LOW: usize = 10;

pub const HIGH: usize = 11;

// The numbers that a refusal looks for.
pub const RATE_NUMBER: u8 = 203;

pub const LOW_NUMBER: u8 = 204;

pub const HIGH_NUMBER: u8 = 205;

// 111 to 122 are the property numbers of KNX chapter 7/10/3, 201 to 205 our own. Percents in %, times in s, a tick each, Rate in
// position units a tick, Low and High as positions.
pub const TABLE: [Row; COUNT] = [
    Row {
        number: 111,
        least: 1,
        most: 4,
        fresh: 1,
    },
    Row {
        number: 115,
        least: 0,
        most: 1,
        fresh: 0,
    },
    Row {
        number: 116,
        least: 1,
        most: 100,
        fresh: 1,
    },
    Row {
        number: 117,
        least: 1,
        most: 3600,
        fresh: 10,
    },
    Row {
        number: 120,
        least: 0,
        most: 1,
        fresh: 0,
    },
    Row {
        number: 121,
        least: 0,
        most: 100,
        fresh: 0,
    },
    Row {
        number: 122,
        least: 0,
        most: 2,
        fresh: 0,
    },
    Row {
        number: 201,
        least: 1,
        most: 7200,
        fresh: 1860,
    },
    Row {
        number: 202,
        least: 1,
        most: 7200,
        fresh: 900,
    },
    Row {
        number: RATE_NUMBER,
        least: 1,
        most: 255,
        fresh: 5,
    },
    Row {
        number: LOW_NUMBER,
        least: 0,
        most: 255,
        fresh: 0,
    },
    Row {
        number: HIGH_NUMBER,
        least: 0,
        most: 255,
        fresh: 255,
    },
];

fn place_in(rows: &[Row], n: u8) -> Option<usize>
    ensures { result ≡ position_from (λ (r : Row). eqb r.number n) 0 rows.now }
{
    rows.iter().position(|row| row.number == n)
}

// The place of the row with number n.
#[tactic(auto, using(crate::specs::Laws::place_of_is))]
pub fn place_of(n: u8) -> Option<usize>
    ensures { result ≡ pick (known n) (Some (place_of n)) None }
{
    place_in(&TABLE, n)
}

// Whether n is a number of the table.
pub fn known(n: u8) -> bool
    ensures { result ≡ known n }
{
    place_of(n).is_some()
}

// The range rule.
fn in_range(row: Row, v: u16) -> bool
    ensures { result ≡ in_range row v }
{
    (row.least <= v) & (v <= row.most)
}

// Whether v lies in the range of the parameter with number n.
pub fn takes(n: u8, v: u16) -> bool
    ensures { result ≡ takes n v }
{
    match place_of(n) {
        Some(place) => in_range(TABLE[place], v),
        None => false,
    }
}

fn each_in(rows: &[Row], values: &[u16]) -> bool
    ensures { result ≡ list_all (λ (q : Row × ℕ). in_range q.0 q.1) (zip rows.now values.now) }
{
    rows.iter()
        .zip(values.iter())
        .all(|(row, v)| in_range(*row, *v))
}

// Whether each value lies in the range of its row.
pub fn all_in(values: [u16; COUNT]) -> bool
    ensures { result ≡ all_in rows values }
{
    each_in(&TABLE, &values)
}

// The fresh value of each parameter.
// Kept: each by its place. Of `TABLE.map(|row| row.fresh)` the proof did not close.
pub fn fresh_values() -> [u16; COUNT]
    ensures { result ≡ fresh_values }
{
    let t = TABLE;
    [
        t[DAMPER_MODE].fresh,
        t[OPEN_CLOSE_DIRECTION].fresh,
        t[ACT_POS_COV].fresh,
        t[MIN_REP_TIME].fresh,
        t[BACKUP_MODE].fresh,
        t[BACKUP_VALUE].fresh,
        t[START_SYNCHRONIZATION].fresh,
        t[TIMEOUT].fresh,
        t[REP_PER].fresh,
        t[RATE].fresh,
        t[LOW].fresh,
        t[HIGH].fresh,
    ]
}
