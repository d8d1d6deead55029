//! How two sides differ, object by object: the rows of a comparison, and their counts.
ghost use Rattle.std.specs.Prelude.{◌≡◌, ◌++◌, ◌∷◌, [], List, OnOk, OnErr};
ghost use Rattle.flute_streams.specs.Compared.{differs};
ghost use Rattle.flute_streams.specs.Counting.{counted, more, new_row, no_sides, plus};

use flute_parts::{Address, DeviceFault, Key, Part};

/// Which side has something at an address.
#[derive(Clone, Copy)]
pub enum Side {
    /// Both, and the same: one value, or a conflict.
    Same,
    /// Both, and not the same: two values, or a value and a conflict.
    Differ,
    /// Only the first.
    First,
    /// Only the second.
    Second,
}

/// What two sides have at an address.
#[derive(Clone, Copy)]
pub struct Meeting {
    pub at: Address,
    pub side: Side,
}

/// How many symbols two sides have.
#[derive(Clone, Copy)]
pub struct Sides {
    /// Both, and the same.
    pub same: u64,
    /// Both, and not the same.
    pub differ: u64,
    /// Only the first.
    pub first: u64,
    /// Only the second.
    pub second: u64,
}

/// How two sides differ in one object.
#[derive(Clone, Copy)]
pub struct Row {
    pub key: Key,
    /// Which side has its transmission information. None if neither has.
    pub information: Option<Side>,
    pub symbols: Sides,
}

impl Sides {
    /// No symbols.
    pub fn none() -> Sides
        ensures { result ≡ no_sides }
    {
        Sides {
            same: 0,
            differ: 0,
            first: 0,
            second: 0,
        }
    }

    /// Counts one more, as far as 64 bits go.
    #[inline(always)]
    pub fn more(&self, side: Side) -> Sides
        ensures { result ≡ more self.now side }
    {
        match side {
            Side::Same => Sides {
                same: self.same.saturating_add(1),
                ..*self
            },
            Side::Differ => Sides {
                differ: self.differ.saturating_add(1),
                ..*self
            },
            Side::First => Sides {
                first: self.first.saturating_add(1),
                ..*self
            },
            Side::Second => Sides {
                second: self.second.saturating_add(1),
                ..*self
            },
        }
    }

    /// Both counts together, as far as 64 bits go.
    pub fn plus(&self, other: &Sides) -> Sides
        ensures { result ≡ plus self.now other.now }
    {
        Sides {
            same: self.same.saturating_add(other.same),
            differ: self.differ.saturating_add(other.differ),
            first: self.first.saturating_add(other.first),
            second: self.second.saturating_add(other.second),
        }
    }
}

impl Row {
    /// The row of an object of which nothing was counted.
    pub fn new(key: Key) -> Row
        ensures { result ≡ new_row key }
    {
        Row {
            key,
            information: None,
            symbols: Sides::none(),
        }
    }

    /// Counts what two sides have at one more address of the object.
    #[inline(always)]
    pub fn counted(&self, meeting: &Meeting) -> Row
        ensures { result ≡ counted self.now meeting.now }
    {
        match meeting.at.part {
            Part::Info => Row {
                information: Some(meeting.side),
                ..*self
            },
            Part::Symbol(_) => Row {
                symbols: self.symbols.more(meeting.side),
                ..*self
            },
        }
    }

    /// Whether both sides have something that is not the same.
    pub fn differs(&self) -> bool
        ensures { result ≡ differs self.now }
    {
        matches!(self.information, Some(Side::Differ)) || self.symbols.differ != 0
    }
}

/// What takes the rows of objects, one after another.
pub trait Rows {
    ghost use Rattle.flute_streams.specs.declared.merge.sides.Row.{Row};

    // Between two states these rows were taken.
    ghost takes: { Self → List Row → Self → Type 0 };

    // Between two states some rows were taken, and then one was not.
    ghost fails: { Self → Self → Type 0 };

    /// Takes the next row.
    ///
    /// # Errors
    ///
    /// If a device failed.
    fn row(&mut self, row: Row) -> Result<(), DeviceFault>
        ensures taken { OnOk result (takes self.old (row ∷ []) self.new) }
        ensures failed { OnErr result (fails self.old self.new) };

    ghost none: { (s : Self) → takes s [] s };

    ghost more: { (s t u : Self) (first then : List Row) → takes s first t → takes t then u
        → takes s (first ++ then) u };

    ghost later: { (s t u : Self) (first : List Row) → takes s first t → fails t u → fails s u };
}
