//! The tables of commands and options.

/// A command, with how many names stand behind it.
#[derive(Clone, Copy)]
pub struct CommandTable {
    pub name: &'static str,

    /// How it is written.
    pub form: &'static str,

    pub least: usize,

    pub most: usize,

    /// Which options it may have, as a sum of their bits.
    pub options: u32,
}

/// What stands behind the name of an option.
#[derive(Clone, Copy)]
pub enum OptionValue {
    Number { least: u64, most: u64 },
    Text,
    Nothing,
}

/// An option with its bit and an example.
#[derive(Clone, Copy)]
pub struct OptionTable {
    pub bit: u32,

    /// With the equals sign behind it, where a value follows.
    pub name: &'static str,

    pub example: &'static str,

    pub value: OptionValue,

    pub meaning: &'static str,
}

/// The columns where the words give none.
pub const EVENT_WORDS: &str = "id,periodic-id,type,time,weight,stop";

pub const ACTIVITY_WORDS: &str = "id,periodic-id,type,tail,head,lower,upper,weight";

const PENALTY: u32 = 1;

pub const BATCH: u32 = 2;

const BOARDS: u32 = 4;

const EVENT_COLUMNS: u32 = 8;

const ACTIVITY_COLUMNS: u32 = 16;

const EVENT_DELAYS: u32 = 32;

const ACTIVITY_DELAYS: u32 = 64;

const CHANGES: u32 = 128;

const WORKERS: u32 = 256;

const AT: u32 = 512;

const PLANS: u32 = 1024;

const HELD: u32 = 2048;

const MINIMAL: u32 = 4096;

const SOLVE: u32 = 8192;

const CANCELLED: u32 = 16384;

const FILES: u32 = PENALTY
    + PLANS
    + EVENT_COLUMNS
    + ACTIVITY_COLUMNS
    + EVENT_DELAYS
    + ACTIVITY_DELAYS
    + CANCELLED;

/// All commands.
pub const COMMANDS: [CommandTable; 9] = [
    CommandTable {
        name: "run",
        form: "run DIR FEED..",
        least: 2,
        most: 65,
        options: FILES + BATCH + WORKERS + BOARDS,
    },
    CommandTable {
        name: "serve",
        form: "serve [--new] DIR STORE FEED..",
        least: 3,
        most: 66,
        options: FILES + BATCH + WORKERS + BOARDS,
    },
    CommandTable {
        name: "text",
        form: "text DIR STORE FEED..",
        least: 3,
        most: 66,
        options: FILES + BATCH + WORKERS + BOARDS,
    },
    CommandTable {
        name: "check",
        form: "check DIR TEXT",
        least: 2,
        most: 2,
        options: FILES,
    },
    CommandTable {
        name: "gen",
        form: "gen NUMBER TRAINS",
        least: 2,
        most: 2,
        options: PENALTY,
    },
    CommandTable {
        name: "follow",
        form: "follow DIR TEXT",
        least: 2,
        most: 2,
        options: FILES,
    },
    CommandTable {
        name: "window",
        form: "window DIR TEXT FROM TO BUDGET",
        least: 5,
        most: 5,
        options: FILES + AT + HELD + MINIMAL + SOLVE,
    },
    CommandTable {
        name: "rules",
        form: "rules DIR TEXT RULE BUDGET",
        least: 4,
        most: 4,
        options: FILES + WORKERS + SOLVE,
    },
    CommandTable {
        name: "journey",
        form: "journey DIR TEXT FROM TO AFTER",
        least: 5,
        most: 5,
        options: FILES + CHANGES,
    },
];

/// All options.
pub const OPTIONS: [OptionTable; 15] = [
    OptionTable {
        bit: PENALTY,
        name: "--penalty=",
        example: "--penalty=3600",
        value: OptionValue::Number {
            least: 0,
            most: 1_000_000,
        },
        meaning: "seconds for each passenger who misses a change, or whose train is cancelled (3600)",
    },
    OptionTable {
        bit: PLANS,
        name: "--plans=",
        example: "--plans=16",
        value: OptionValue::Number {
            least: 1,
            most: 4_096,
        },
        meaning: "how many plans a feed may have, 1 to 4096 (16)",
    },
    OptionTable {
        bit: BATCH,
        name: "--batch=",
        example: "--batch=16",
        value: OptionValue::Number {
            least: 1,
            most: 1_000_000,
        },
        meaning: "lines of each feed that are answered in a round (16; of a server 1000)",
    },
    OptionTable {
        bit: BOARDS,
        name: "--boards=",
        example: "--boards=4,2",
        value: OptionValue::Text,
        meaning: "1 to 64 different stops, each with a board in DIR/board-STOP.txt",
    },
    OptionTable {
        bit: EVENT_COLUMNS,
        name: "--event-columns=",
        example: "--event-columns=id,periodic-id,type,time,weight,stop",
        value: OptionValue::Text,
        meaning: "the order of the columns of the events file",
    },
    OptionTable {
        bit: ACTIVITY_COLUMNS,
        name: "--activity-columns=",
        example: "--activity-columns=id,periodic-id,type,tail,head,lower,upper,weight",
        value: OptionValue::Text,
        meaning: "the order of the columns of the activities file",
    },
    OptionTable {
        bit: EVENT_DELAYS,
        name: "--event-delays=",
        example: "--event-delays=Delays-Events.giv",
        value: OptionValue::Text,
        meaning: "a file in DIR with delays of events at the start",
    },
    OptionTable {
        bit: ACTIVITY_DELAYS,
        name: "--activity-delays=",
        example: "--activity-delays=Delays-Activities.giv",
        value: OptionValue::Text,
        meaning: "a file in DIR with delays of activities at the start",
    },
    OptionTable {
        bit: CANCELLED,
        name: "--cancelled=",
        example: "--cancelled=Reserve.giv",
        value: OptionValue::Text,
        meaning: "a file in DIR with ids of events that are cancelled at the start",
    },
    OptionTable {
        bit: CHANGES,
        name: "--changes=",
        example: "--changes=4",
        value: OptionValue::Number { least: 0, most: 8 },
        meaning: "the most changes of a journey (4)",
    },
    OptionTable {
        bit: WORKERS,
        name: "--workers=",
        example: "--workers=1",
        value: OptionValue::Number { least: 1, most: 16 },
        meaning: "how many search for a plan, 1 to 16 (1)",
    },
    OptionTable {
        bit: AT,
        name: "--at=",
        example: "--at=0",
        value: OptionValue::Number {
            least: 0,
            most: 1_000_000,
        },
        meaning: "after how many entries a window is planned (all)",
    },
    OptionTable {
        bit: HELD,
        name: "--held=",
        example: "--held=5,6",
        value: OptionValue::Text,
        meaning: "1 to 4096 changes and headways whose choices a window leaves as they are",
    },
    OptionTable {
        bit: MINIMAL,
        name: "--minimal=",
        example: "--minimal=60000",
        value: OptionValue::Number {
            least: 0,
            most: 18_446_744_073_709_551_615,
        },
        meaning: "gives choices of a window's plan back while that costs no more than this",
    },
    OptionTable {
        bit: SOLVE,
        name: "--solve",
        example: "--solve",
        value: OptionValue::Nothing,
        meaning: "a plan by parts, of a window or beside a rule",
    },
];

/// The command of this name.
pub fn command_of(name: &str) -> Option<CommandTable> {
    for command in &COMMANDS {
        if command.name == name {
            return Some(*command);
        }
    }
    None
}

/// The option that a word begins with.
pub fn option_of(word: &str) -> Option<OptionTable> {
    for option in &OPTIONS {
        if word.strip_prefix(option.name).is_some() {
            return Some(*option);
        }
    }
    None
}
