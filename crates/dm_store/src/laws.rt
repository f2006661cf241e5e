//! What holds of every file, and of every store in memory. A law has no code: it is proved as the contract of an empty function.
ghost use Rattle.dm_store.specs.Laws.{OneStands, SomeIsLeft};
ghost use Rattle.dm_store.specs.Worked.{WorkedIsSpelled};

/// Of a file one list of contents stands, and no other.
pub fn one_list_stands()
    ensures { OneStands }
{}

/// A head and a round of two feeds at rest are these bytes.
pub fn worked_is_spelled()
    ensures { WorkedIsSpelled }
{}

/// At each moment of the life of a store in memory a crash left some image.
pub fn some_is_left()
    ensures { SomeIsLeft }
{}
