//! A day of the connection at one station, and the logs and text that it has to give.

/// What asks for the server: a line of each feed is answered in a round.
pub const WORDS: [&str; 7] = [
    "serve",
    "net",
    "store",
    "f",
    "g",
    "--penalty=10",
    "--batch=1",
];

/// Two trains, a change from the first to the second, and a headway pair.
pub const EVENTS: &[u8] =
    b"1; 1; \"departure\"; 100; 10; 1\n2; 2; \"arrival\"; 200; 10; 2\n3; 3; \"departure\"; 220; 10; 2\n4; 4; \"arrival\"; 300; 10; 3\n5; 5; \"departure\"; 230; 5; 2\n6; 6; \"arrival\"; 330; 5; 4\n";

pub const ACTIVITIES: &[u8] =
    b"1; 1; \"drive\"; 1; 2; 90; 100; 10\n2; 2; \"wait\"; 2; 3; 10; 30; 10\n3; 3; \"drive\"; 3; 4; 80; 100; 10\n4; 4; \"drive\"; 5; 6; 95; 110; 5\n5; 5; \"change\"; 2; 5; 20; 79; 4\n6; 6; \"headway\"; 3; 5; 8; 60; 0\n7; 7; \"headway\"; 5; 3; 8; 60; 0\n";

/// The first feed plans, adopts, locks a choice and carries the plan over; behind that stand a line that is not due and one that
/// has not ended. One line is none: so no answer turns on whether a feed is a round behind the other.
pub const FIRST: &[u8] =
    b"delay event 1 60\nplan 100\nadopt\nnone\nlock 5\ncarry\ntime 6\nadopt\n# the end\ncost";

/// The second feed asks, has a line that is none, turns the pair back before the plan is carried over, and has no plan itself.
pub const SECOND: &[u8] = b"cost\nnone\nfirst 3 5\ncarry\n";

/// The due lines of the feeds, each by its number of one digit.
pub const DUE: [&[u8]; 2] = [b"12345678", b"1234"];

/// What the feeds are answered.
pub const LOGS: [&[u8]; 2] = [FIRST_LOG, SECOND_LOG];

const FIRST_LOG: &[u8] =
    b"1 delay event 1 60 -> 1 ok\n2 plan 100 -> 1 plan optimal cost 940000 bound 940000 choices 2 nodes 3\nchoice drop 5\nchoice first 5 3\ninner change 5\nbound 1075000\nbound 940000\n3 adopt -> 2 ok\n4 malformed\n5 lock 5 -> 4 ok\n6 carry -> 5 ok\n7 time 6 -> 5 time 330\n8 adopt -> 5 old\n";

const SECOND_LOG: &[u8] =
    b"1 cost -> 1 cost 1075000\n2 malformed\n3 first 3 5 -> 3 ok\n4 carry -> noplan\n";

/// The text of the day, in parts.
pub const TEXT: [&[u8]; 5] = [
    HEAD,
    FIRST_LOG,
    b"end\nfeed 2 4\n",
    SECOND_LOG,
    b"end\nboards 0\ntimes 5\n1; 160\n2; 250\n3; 260\n4; 340\n5; 230\n6; 330\ncost 940000\ndone\n",
];

const HEAD: &[u8] =
    b"dm-run 2\npenalty 10\nfeeds 2\nentries 5\nentry 1 feed 1 line 1 delay event 1 60\nentry 2 feed 1 line 3 adopt drop 5 first 5 3\nentry 3 feed 2 line 3 first 3 5\nentry 4 feed 1 line 5 lock 5\nentry 5 feed 1 line 6 adopt first 5 3\nfeed 1 8\n";

/// What is printed where the store cannot be read.
pub const UNREAD: &[u8] = b"read fault store\n";
