//! What the verdict on a text means.
use crate::files::front_of;
use crate::saying::{say_at, say_line, say_text};
use crate::text::{cut, has, is_same, line_at, number, word_at};
use dm_outside::Piece;
use dm_words::FileWords;
use std::fs::File;
use std::io;
use std::rt::Files;

/// What each kind of a bad record means.
const MEANINGS: [(&str, &str); 9] = [
    ("form", "the line has not the form that must stand there"),
    ("truncated", "the text ends before this line is whole"),
    (
        "entry",
        "the entry is not the next one, or its message is refused by the rows before it",
    ),
    (
        "reply",
        "the answer is not the one that the rows at its entry give",
    ),
    (
        "plan",
        "the plan, or its tree, is not true of the rows at its entry",
    ),
    ("unnamed", "some entry is named by no `ok` of a log"),
    (
        "board",
        "the note of a board is out of order or of no board",
    ),
    (
        "time",
        "the time is not that of the least timetable after all entries",
    ),
    ("cost", "the cost is not that of the rows after all entries"),
];

/// What a kind of a bad record means.
pub fn meaning_of(kind: &[u8]) -> &'static str {
    for (word, means) in &MEANINGS {
        if is_same(kind, word) {
            return *means;
        }
    }
    "the record breaks its rule"
}

/// Says what `bad LINE KIND` means, and what to look at first.
pub fn tell_bad<R: Eprint + Files<File = File>>(
    rt: &R,
    files: &FileWords<'_>,
    name: &str,
    verdict: &[u8],
) -> io::Result<()> {
    let Some(line) = number(word_at(verdict, 1)) else {
        return Ok(());
    };
    let kind = word_at(verdict, 2);
    let means = meaning_of(kind);
    say_at(rt, name, line, &[Piece::Text(means)])?;
    if is_same(kind, "form") {
        return tell_form(rt, files.penalty, name, line);
    }
    tell_look(rt, files.plans, line, kind)
}

/// Says what to look at first where a line has its form.
fn tell_look<R: Eprint>(rt: &R, plans: u32, line: u64, kind: &[u8]) -> io::Result<()> {
    if is_same(kind, "truncated") {
        return say_line(
            rt,
            line,
            &[Piece::Text("was the run cut off, or the text not copied whole?")],
        );
    }
    if is_same(kind, "plan") || is_same(kind, "reply") {
        return say_line(
            rt,
            line,
            &[
                Piece::Text(
                    "are the network, its columns, the delays and the cancelled events at the start and --plans=",
                ),
                Piece::Number(plans as u128),
                Piece::Text(" those of the run, and the text unchanged?"),
            ],
        );
    }
    say_line(
        rt,
        line,
        &[Piece::Text(
            "are the network, its columns, the delays and the cancelled events at the start those of the run, and the text unchanged?",
        )],
    )
}

/// Says what to look at first where a line has not its form.
fn tell_form<R: Eprint + Files<File = File>>(
    rt: &R,
    penalty: u64,
    name: &str,
    line: u64,
) -> io::Result<()> {
    let front = front_of(rt, name);
    let (first, _) = cut(front.bytes(), b'\n');
    if has(first, b'\r') {
        return say_line(
            rt,
            line,
            &[Piece::Text(
                "the text has the line ends of Windows, CR before LF: a run writes LF alone",
            )],
        );
    }
    if line == 1 {
        return say_text(
            rt,
            "line 1: the text of a run begins with `dm-run 2` or `dm-run 1`",
        );
    }
    if line == 2 {
        return tell_penalty(rt, penalty, line_at(front.bytes(), 2));
    }
    say_line(
        rt,
        line,
        &[Piece::Text("is the text of this network, whole and unchanged?")],
    )
}

/// Says how the penalty of a text and that of the words differ.
fn tell_penalty<R: Eprint>(rt: &R, penalty: u64, line: &[u8]) -> io::Result<()> {
    match number(word_at(line, 1)) {
        Some(other) => say_line(
            rt,
            2,
            &[
                Piece::Text("the text's penalty is not the one of these words, which is "),
                Piece::Number(penalty as u128),
                Piece::Text(": give --penalty="),
                Piece::Number(other as u128),
            ],
        ),
        None => say_line(
            rt,
            2,
            &[
                Piece::Text("the penalty of the run stands here, as `penalty "),
                Piece::Number(penalty as u128),
                Piece::Text("`"),
            ],
        ),
    }
}
