//! What the grammar of files says, whatever the bytes: each function's contract is a law, and its body is empty.
ghost use Rattle.std.specs.Prelude.{ℕ, ◌≡◌, codes, List, Option, Result, Ok};
ghost use Rattle.csv.specs.Reading.{records};
ghost use Rattle.dm_base.specs.declared.rows.ActRow.{ActRow};
ghost use Rattle.dm_base.specs.declared.rows.DelayRow.{DelayRow};
ghost use Rattle.dm_base.specs.declared.rows.EventRow.{EventRow};
ghost use Rattle.dm_lintim.specs.declared.columns.Column.{Column};
ghost use Rattle.dm_lintim.specs.declared.fault.FileFault.{FileFault};
ghost use Rattle.dm_lintim.specs.declared.columns.ColumnFault.{ColumnFault};
ghost use Rattle.dm_lintim.specs.Columns.{FileColumns, ReadsFileColumns, standard_columns};
ghost use Rattle.dm_lintim.specs.Files.{ReadsActivities, ReadsDelays, ReadsEvents, ReadsIds};
ghost use Rattle.dm_lintim.specs.Pieces.{split_records};
ghost use Rattle.dm_lintim.specs.Split.{plain_config};

/// The machine of `csv` splits a file plainly: its lines are the pieces at LF and CR, those that are empty left out,
/// and a record's fields are the pieces of its line at semicolons.
pub fn csv_splits_plainly()
    ensures { (bytes : List ℕ) → records plain_config bytes ≡ split_records bytes }
{}

/// The bytes of a file of events have one answer at most.
pub fn one_answer_of_events()
    ensures { (columns : List (Option Column)) (bytes : List ℕ) (one other : Result (List EventRow) FileFault) →
        ReadsEvents columns bytes one → ReadsEvents columns bytes other → one ≡ other }
{}

/// The bytes of a file of activities have one answer at most.
pub fn one_answer_of_activities()
    ensures { (columns : List (Option Column)) (bytes : List ℕ) (one other : Result (List ActRow) FileFault) →
        ReadsActivities columns bytes one → ReadsActivities columns bytes other → one ≡ other }
{}

/// The bytes of a file of delays have one answer at most.
pub fn one_answer_of_delays()
    ensures { (bytes : List ℕ) (one other : Result (List DelayRow) FileFault) → ReadsDelays bytes one → ReadsDelays bytes other
        → one ≡ other }
{}

/// The bytes of a file of ids have one answer at most.
pub fn one_answer_of_ids()
    ensures { (bytes : List ℕ) (one other : Result (List ℕ) FileFault) → ReadsIds bytes one → ReadsIds bytes other → one ≡ other }
{}

/// Two texts of column words have one answer at most.
pub fn one_answer_of_columns()
    ensures { (events activities : List ℕ) (one other : Result FileColumns ColumnFault) →
        ReadsFileColumns events activities one → ReadsFileColumns events activities other → one ≡ other }
{}

/// The texts of the standard order give the standard columns.
pub fn standard_texts_give_standard_columns()
    ensures { ReadsFileColumns (codes "id,periodic-id,type,time,weight,stop")
        (codes "id,periodic-id,type,tail,head,lower,upper,weight") (Ok standard_columns) }
{}
