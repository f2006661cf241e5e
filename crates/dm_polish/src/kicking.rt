//! Choices that are turned by force. Those near them are decided anew.

use crate::diving::decide_cheaper;
use crate::gaining::try_both;
use crate::windows::Windows;
use dm_base::Cost;
use dm_scout::{Numbers, Scout};
use std::alloc::{AllocError, Global};

/// How many choices near a kick are left undecided, how many events are looked at for them, and how many windows follow.
const BALL: usize = 8;

const EVENTS: usize = 128;

const WINDOWS: usize = 8;

/// How many choices a window behind a kick has at most, and how often it branches.
pub const NARROW: usize = 16;

/// The search for better choices by kicks, and windows where one is better.
pub struct Kicks {
    pub windows: Windows,
    ball: Numbers,
    events: Numbers,
}

impl Drop for Kicks {
    fn drop(self) {
        let Kicks {
            windows: _,
            ball: _,
            events: _,
        } = self;
    }
}

impl Kicks {
    /// No kick yet. What becomes better is told to another searcher, or is touched.
    pub fn new(alloc: Global, scout: &Scout<'_>, tells: bool) -> Result<Kicks, AllocError> {
        let choices = scout.choices().len();
        let mut kicks = Kicks {
            windows: Windows::new(alloc, choices, tells)?,
            ball: Numbers::new(alloc),
            events: Numbers::new(alloc),
        };
        kicks.ball.extend(choices)?;
        kicks.events.extend(scout.net().events())?;
        Ok(kicks)
    }

    /// One kick of each of these choices that binds.
    pub fn round(&mut self, scout: &mut Scout<'_>, seeds: &[usize]) -> Result<(), AllocError> {
        for i in seeds {
            if self.windows.is_spent(scout) {
                return Ok(());
            }
            if scout.is_binding(*i) {
                self.kick(scout, *i)?;
            }
        }
        Ok(())
    }

    /// Turns a choice to its other side, decides what is near anew, and keeps what is better.
    fn kick(&mut self, scout: &mut Scout<'_>, i: usize) -> Result<(), AllocError> {
        let Some(side) = scout.side(i) else {
            return Ok(());
        };
        let before = scout.cost();
        scout.begin()?;
        self.gather(scout, i)?;
        for member in self.ball.list() {
            scout.undecide(*member)?;
        }
        let most = before.saturating_add(before / 1000);
        if !scout.decide(i, side.other())? || !repair(scout, most)? {
            return scout.restore();
        }
        if scout.cost() >= before {
            self.mend(scout, i)?;
        }
        if scout.cost() >= before {
            return scout.restore();
        }
        self.windows.keep(scout)
    }

    /// Opens small windows around the first choices that bind where something has moved.
    fn mend(&mut self, scout: &mut Scout<'_>, i: usize) -> Result<(), AllocError> {
        let mut left = WINDOWS;
        let far = scout.far()?;
        for j in &far {
            if left > 0 && scout.is_binding(*j) {
                left = left.saturating_sub(1);
                if *j != i {
                    let _better = self.windows.open(scout, *j, NARROW)?;
                }
            }
        }
        Ok(())
    }

    /// The decided choices that are nearest to one in the network, itself first.
    fn gather(&mut self, scout: &mut Scout<'_>, i: usize) -> Result<(), AllocError> {
        self.ball.forget();
        self.events.forget();
        self.ball.add(i)?;
        if let Some(ends) = scout.choices().ends(i) {
            self.events.add(ends.tail)?;
            self.events.add(ends.head)?;
        }
        for k in 0..EVENTS {
            let Some(event) = self.events.list().get(k).copied() else {
                return Ok(());
            };
            if self.ball.list().len() >= BALL {
                return Ok(());
            }
            let (into, out_of) = scout.rows(event);
            self.add_near(scout, event, into)?;
            self.add_near(scout, event, out_of)?;
        }
        Ok(())
    }

    /// Adds the decided choices of an event's row, and the events beside it there.
    fn add_near(
        &mut self,
        scout: &Scout<'_>,
        event: usize,
        row: &[usize],
    ) -> Result<(), AllocError> {
        let net = scout.net();
        for a in row {
            if let Some(j) = scout.choices().number(*a) {
                if self.ball.list().len() < BALL && scout.side(j).is_some() {
                    self.ball.add(j)?;
                }
            }
            if *a < net.activities() {
                let (tail, head) = (net.activity(*a).tail, net.activity(*a).head);
                self.events.add(if tail == event { head } else { tail })?;
            }
        }
        Ok(())
    }
}

/// Decides the first violated choice on its cheaper side until nothing is violated. It is false where that costs more than
/// this, or each side of a choice makes a cycle.
pub fn repair(scout: &mut Scout<'_>, most: Cost) -> Result<bool, AllocError> {
    for _ in 0..scout.choices().len() {
        if scout.cost() > most {
            return Ok(false);
        }
        let Some(i) = scout.first_violated()? else {
            return Ok(true);
        };
        let gains = try_both(scout, i);
        if !decide_cheaper(scout, i, gains.first <= gains.second)? {
            return Ok(false);
        }
    }
    Ok(false)
}
