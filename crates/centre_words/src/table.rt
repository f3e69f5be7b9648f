// The commands of the program, a row each.
ghost use Rattle.std.specs.Prelude.{◌≡◌};
ghost use Rattle.centre_words.specs.Table.{table};
ghost use Rattle.centre_words.specs.Rows.{row_of, rows_of};

/// A number that a word may spell, from a least to a greatest one.
#[derive(Clone, Copy, Drop)]
pub struct Number {
    pub name: &'static str,
    pub least: u64,
    pub most: u64,
    /// What counts where no word spells it.
    pub usual: Option<u64>,
}

/// What stands behind a command: in its place, or an option anywhere.
#[derive(Clone, Copy, Drop)]
pub enum Item {
    File(&'static str),
    Count(Number),
    Choice(Number),
}

/// A command.
#[derive(Clone, Copy, Drop)]
pub struct Row {
    pub name: &'static str,
    pub items: &'static [Item],
}

// How many threads take turns side by side. Where it is 0 the caller takes them, in order.
pub const WORKERS: Number = Number {
    name: "workers",
    least: 0,
    most: 16,
    usual: Some(4),
};

pub const TURNS: Number = Number {
    name: "turns",
    least: 0,
    most: 1_000_000,
    usual: Some(64),
};

pub const SEED: Number = Number {
    name: "seed",
    least: 0,
    most: u64::MAX,
    usual: Some(1),
};

// The greatest number of flips that a run may be allowed.
pub const FLIPS: Number = Number {
    name: "flips",
    least: 0,
    most: 1_000_000_000,
    usual: None,
};

// The place of an input of an instance.
pub const INPUT: Number = Number {
    name: "input",
    least: 0,
    most: 255,
    usual: None,
};

// The seed of a generated instance, and how many points and inputs it has.
pub const BENCH_SEED: Number = Number {
    name: "seed",
    least: 0,
    most: u64::MAX,
    usual: None,
};

pub const BENCH_POINTS: Number = Number {
    name: "points",
    least: 3,
    most: 16_384,
    usual: None,
};

pub const BENCH_INPUTS: Number = Number {
    name: "inputs",
    least: 1,
    most: 256,
    usual: None,
};

static ROWS: [Row; 6] = [
    Row {
        name: "check",
        items: &[Item::File("instance")],
    },
    Row {
        name: "score",
        items: &[Item::File("instance"), Item::File("solution")],
    },
    Row {
        name: "solve",
        items: &[
            Item::File("instance"),
            Item::File("solution"),
            Item::File("certificate"),
            Item::Choice(WORKERS),
            Item::Choice(TURNS),
            Item::Choice(SEED),
            Item::Choice(FLIPS),
        ],
    },
    Row {
        name: "verify",
        items: &[
            Item::File("instance"),
            Item::File("solution"),
            Item::File("certificate"),
        ],
    },
    Row {
        name: "trace",
        items: &[Item::File("instance"), Item::Count(INPUT)],
    },
    Row {
        name: "bench",
        items: &[
            Item::Count(BENCH_SEED),
            Item::Count(BENCH_POINTS),
            Item::Count(BENCH_INPUTS),
        ],
    },
];

/// The rows, in the order in which they were written.
pub fn rows() -> &'static [Row]
    ensures { rows_of result.now ≡ table }
{
    &ROWS
}
