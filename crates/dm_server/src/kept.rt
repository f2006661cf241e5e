//! The state that a server hands out.
use dm_network::Network;
use dm_rows::Rows;
use dm_table::Table;
use dm_turn::HasHistory;

/// What of a table never changes. No value of it is made: contracts see the base of a pass so.
pub struct Base {
    pub network: Network,
    pub start: Rows,
    pub penalty: u64,
}

/// The table of a server, as the state of a turn. It is in a box, since each turn moves the state out of its slot and back.
#[derive(Drop)]
pub struct Kept<'n> {
    pub(crate) table: Box<Table<'n>>,
}

impl<'n> HasHistory for Kept<'n> {
    ghost use Rattle.dm_server.specs.Answers.{base_of};

    type Base = Base;

    ghost history = { λ kept. kept.table.value.history };

    ghost base = { λ kept. base_of kept.table.value };

    fn entries(&self) -> u32 {
        self.table.len()
    }
}
