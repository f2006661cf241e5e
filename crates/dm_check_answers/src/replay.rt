//! The rows at the entries of a journal.
ghost use Rattle.std.specs.Prelude.{◌≡◌, ◌+◌, ◌<◌, ◌≤◌, true, false, length, Ok, IfOk, OnOk, OnErr};
ghost use Rattle.dm_rows.specs.Rows.{IsSized};
ghost use Rattle.dm_cert.specs.Answers.{rows_after};
ghost use Rattle.dm_check_rows.specs.Claims.{AreCheckedRowsOf};
ghost use Rattle.dm_check_answers.specs.Judging.{IsRunSetting, setting_of, history_of, value_of};

use crate::journal::Journal;
use crate::known::Known;
use dm_check_rows::CheckedRows;
use dm_rows::Rows;
use std::alloc::AllocError;
use std::marker::Model;

/// The rows after so many entries of a journal, and their times, with the claims of such rows whose truth is known.
pub struct Replay<'a> {
    pub(crate) journal: Journal<'a>,
    pub(crate) checked: CheckedRows,
    entry: usize,
    pub(crate) known: Known,
}

impl Drop for Replay<'_> {
    fn drop(self) {
        let Replay {
            journal: _,
            checked: _,
            entry: _,
            known: _,
        } = self;
    }
}

impl<'a> Model for Replay<'a> {
    ghost use Rattle.dm_check_answers.specs.Judging.{ReplayValue, IsReplay, value_of};

    ghost Value = { ReplayValue };

    ghost view = { λ r. record { journal = value_of r.journal; entry = r.entry } };

    ghost invariant = { λ r. IsReplay r.journal r.checked r.entry r.known };
}

impl<'a> Replay<'a> {
    /// The rows before the first entry. `Err` is want of memory alone.
    pub fn new(journal: Journal<'a>) -> Result<Replay<'a>, AllocError>
        requires { IsRunSetting journal.setting }
        ensures { IfOk result (λ r. r.journal ≡ value_of journal.entry) }
    {
        let checked = match journal.setting.rows() {
            Ok(checked) => checked,
            Err(AllocError) => return Err(AllocError),
        };
        Ok(Replay {
            journal,
            checked,
            entry: 0,
            known: Known::none(journal.setting.alloc),
        })
    }

    /// The journal that it goes over.
    pub fn journal(&self) -> Journal<'a>
        ensures value { value_of result ≡ self.now.journal }
        ensures version { result.setting.version ≡ self.now.journal.setting.version }
        ensures setting { IsRunSetting result.setting }
    {
        self.journal
    }

    /// The rows where it stands.
    pub fn rows(&self) -> &Rows
        ensures rows { result.now ≡ rows_after self.now.journal.setting self.now.journal.history self.now.entry }
        ensures sized { IsSized self.now.journal.setting.net result.now }
    {
        self.checked.rows()
    }

    /// Goes to the rows after so many entries. They are gone over from where it stands, and from the first one where that
    /// is behind. Only an `Adopt` takes memory.
    pub fn go_to(&mut self, entry: usize) -> Result<(), AllocError>
        requires within { entry ≤ length self.old.journal.history }
        ensures same { self.new.journal ≡ self.old.journal }
        ensures there { OnOk result (self.new.entry ≡ entry) }
    {
        if entry < self.entry {
            self.begin_again();
        }
        while self.entry < entry {
            match self.step() {
                Ok(()) => (),
                Err(AllocError) => return Err(AllocError),
            }
        }
        Ok(())
    }

    /// Goes to the rows before the first entry.
    fn begin_again(&mut self)
        ensures same { self.new.journal ≡ self.old.journal }
        ensures there { self.new.entry ≡ 0 }
    {
        self.checked
            .go_to(self.journal.setting.net, self.journal.setting.start);
        self.entry = 0;
    }

    /// Goes over one entry. `Err` is want of memory alone.
    fn step(&mut self) -> Result<(), AllocError>
        requires more { self.old.entry < length self.old.journal.history }
        ensures same { self.new.journal ≡ self.old.journal }
        ensures on { OnOk result (self.new.entry ≡ self.old.entry + 1) }
    {
        match enter_next(&self.journal, &mut self.checked, self.entry) {
            Ok(()) => {
                self.entry += 1;
                Ok(())
            }
            Err(AllocError) => Err(AllocError),
        }
    }

    /// Goes to the rows after so many entries, where there are so many. The answer is whether there are.
    pub(crate) fn reach(&mut self, number: u32) -> Result<bool, AllocError>
        ensures same { self.new.journal ≡ self.old.journal }
        ensures there { result ≡ Ok true → self.new.entry ≡ number }
        ensures past { result ≡ Ok false → length self.old.journal.history < number }
    {
        let number = number as usize;
        if number > self.journal.entries.len() {
            return Ok(false);
        }
        match self.go_to(number) {
            Ok(()) => Ok(true),
            Err(AllocError) => Err(AllocError),
        }
    }
}

/// Makes the rows those after the next entry. An accepted message is refused for want of memory alone.
fn enter_next(
    journal: &Journal<'_>,
    checked: &mut CheckedRows,
    entry: usize,
) -> Result<(), AllocError>
    requires stands { AreCheckedRowsOf journal.now.setting.net.now checked.old }
    requires rows_are { checked.old.rows ≡ rows_after (setting_of journal.now.setting) (history_of journal.now) entry }
    requires more { entry < length (history_of journal.now) }
    ensures stands { AreCheckedRowsOf journal.now.setting.net.now checked.new }
    ensures on { OnOk result (checked.new.rows ≡ rows_after (setting_of journal.now.setting) (history_of journal.now) (entry + 1)) }
    ensures same { OnErr result (checked.new.rows ≡ checked.old.rows) }
{
    match checked.enter(
        journal.setting.alloc,
        journal.setting.net,
        &journal.entries[entry].message,
    ) {
        Ok(()) => Ok(()),
        Err(_) => Err(AllocError),
    }
}
