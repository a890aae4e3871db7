//! What the arguments ask for.
use sc_base::RingArc;

/// What a scan shows: an arc of the circle as it stands after the first rows of a run, in pages.
#[derive(Clone, Copy, Debug, PartialEq, Eq)]
pub struct Sight {
    /// The positions that are shown.
    pub arc: RingArc,
    /// The number of rows after which it is shown; all of them where there are fewer.
    pub rows: u32,
    /// The most pairs of a page, at least 1.
    pub most: u32,
}

/// What the arguments ask for: a subcommand with its arguments.
#[derive(Clone, Copy, Debug, PartialEq, Eq)]
pub enum Subcommand {
    /// `run`: a run of the scenario on the input.
    Run,
    /// `journal`: a run of the scenario on the input, of which the journal is printed.
    Journal,
    /// `audit`: whether the journal on the input is lawful.
    Audit,
    /// `pool`: a run of the scenario on the input, by a pool of workers.
    Pool,
    /// `explain`: what each row of the journal on the input decided, if it is lawful.
    Explain,
    /// `scan LO LEN R MOST`: a run of the scenario on the input, of which an arc is shown.
    Scan(Sight),
    /// `make N S`: a run of the made scenario with N requests a client and the seed S.
    Make { n: u32, seed: u64 },
}
