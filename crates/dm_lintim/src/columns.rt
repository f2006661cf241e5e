//! The columns of the files, and the words that name them.
ghost use Rattle.std.specs.Prelude.{◌≡◌};
ghost use Rattle.dm_lintim.specs.Columns.{HasAll, ReadsFileColumns, activity_required, event_required, standard_columns};

use crate::layout::Layout;
use crate::words::read_columns;
use std::marker::Model;

/// A column of a file.
#[derive(Clone, Copy, PartialEq, Eq, Debug)]
pub enum Column {
    /// The number of an event or an activity, up to 4294967295.
    Id,

    /// Passed over unread.
    PeriodicId,

    /// A type word; ASCII letters count in either case. It is named `type`.
    Kind,

    /// The scheduled time, in seconds, up to 1000000000.
    Time,

    /// Passengers, up to 1000000, as a decimal text; it is read in thousandths.
    Weight,

    /// The number of a stop, up to 4294967295.
    Stop,

    /// The number of the event where an activity begins, up to 4294967295.
    Tail,

    /// The number of the event where an activity ends, up to 4294967295.
    Head,

    /// The least time from the tail to the head, in seconds, up to 1000000.
    Lower,

    /// Passed over unread.
    Upper,

    /// A source delay, in seconds, up to 1000000.
    Delay,
}

/// Why a list of column words gives no columns. A place counts the words of its text from 0.
#[derive(Clone, Copy, PartialEq, Eq, Debug)]
pub enum ColumnFault {
    /// The word names no column of the file.
    UnknownColumn(usize),

    /// The word names a column that an earlier one names.
    DoubleColumn(usize),

    /// A 17th column.
    TooMany,

    /// No word names this column, which the file must have.
    MissingColumn(Column),
}

/// The largest number of an event, an activity or a stop.
pub(crate) const LARGEST_ID: u64 = 4_294_967_295;

pub(crate) const COLUMNS: usize = 11;

impl Column {
    ghost use Rattle.std.specs.Prelude.{◌<◌};
    ghost use Rattle.dm_lintim.specs.Columns.{column_name, column_number, same_column};

    /// The word that names the column.
    pub fn name(self) -> &'static str
        ensures { result.now ≡ column_name self }
    {
        match self {
            Column::Id => "id",
            Column::PeriodicId => "periodic-id",
            Column::Kind => "type",
            Column::Time => "time",
            Column::Weight => "weight",
            Column::Stop => "stop",
            Column::Tail => "tail",
            Column::Head => "head",
            Column::Lower => "lower",
            Column::Upper => "upper",
            Column::Delay => "delay",
        }
    }

    /// The column's place among all columns.
    pub(crate) fn number(self) -> usize
        ensures number { result ≡ column_number self }
        ensures within { result < COLUMNS }
    {
        self as usize
    }

    pub(crate) fn is(self, other: Column) -> bool
        ensures { result ≡ same_column self other }
    {
        self == other
    }
}

// The columns that a file of events may have, in the standard order, and those that it must have.
const EVENTS: [Column; 6] = [
    Column::Id,
    Column::PeriodicId,
    Column::Kind,
    Column::Time,
    Column::Weight,
    Column::Stop,
];

const EVENTS_REQUIRED: [Column; 4] = [Column::Id, Column::Kind, Column::Time, Column::Weight];

// The same of a file of activities.
const ACTIVITIES: [Column; 8] = [
    Column::Id,
    Column::PeriodicId,
    Column::Kind,
    Column::Tail,
    Column::Head,
    Column::Lower,
    Column::Upper,
    Column::Weight,
];

const ACTIVITIES_REQUIRED: [Column; 6] = [
    Column::Id,
    Column::Kind,
    Column::Tail,
    Column::Head,
    Column::Lower,
    Column::Weight,
];

/// The columns of the event files and of the activity files, in the order in which they stand there. It takes no
/// memory.
#[derive(Debug, Drop)]
pub struct Columns {
    events: Layout,
    activities: Layout,
}

impl Model for Columns {
    ghost use Rattle.dm_lintim.specs.Columns.{FileColumns, HasRequired};

    ghost Value = { FileColumns };

    ghost view = { λ a. record { events = a.events; activities = a.activities } };

    ghost invariant = { λ a. HasRequired a.events a.activities };
}

impl Columns {
    /// The standard columns, in the standard order: of events `id,periodic-id,type,time,weight,stop`, of activities
    /// `id,periodic-id,type,tail,head,lower,upper,weight`.
    pub fn standard() -> Columns
        ensures { result ≡ standard_columns }
    {
        Columns {
            events: Layout::of(&EVENTS),
            activities: Layout::of(&ACTIVITIES),
        }
    }

    /// The columns that two texts name, each a list of column words separated by commas: at most 16, in any order,
    /// none twice but `-`, which passes a column over. The text of the events is tested first. Each text is refused
    /// at the first word that breaks a rule, or else for the first required column, in the standard order, that no
    /// word names.
    pub fn read(events: &str, activities: &str) -> Result<Columns, ColumnFault>
        ensures { ReadsFileColumns events.now activities.now result }
    {
        let events = read_columns(&EVENTS, &EVENTS_REQUIRED, events.as_bytes())?;
        let activities = read_columns(&ACTIVITIES, &ACTIVITIES_REQUIRED, activities.as_bytes())?;
        Ok(Columns { events, activities })
    }

    /// The columns of the events, `None` for one that is passed over.
    pub(crate) fn events(&self) -> &[Option<Column>]
        ensures columns { result.now ≡ self.now.events }
        ensures required { HasAll result.now event_required }
    {
        self.events.as_slice()
    }

    pub(crate) fn activities(&self) -> &[Option<Column>]
        ensures columns { result.now ≡ self.now.activities }
        ensures required { HasAll result.now activity_required }
    {
        self.activities.as_slice()
    }
}
