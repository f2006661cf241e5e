//! What parts would gain from each other.

use dm_base::Cost;
use std::alloc::{AllocError, Global};

/// What two groups would gain if they were one. The lesser number stands first.
#[derive(Clone, Copy)]
pub struct Border {
    pub one: usize,
    pub two: usize,
    pub gain: Cost,
}

/// Borders between groups.
pub struct Borders {
    list: Vec<Border>,
}

impl Drop for Borders {
    fn drop(self) {
        let Borders { list: _ } = self;
    }
}

impl Borders {
    /// No borders.
    pub fn new(alloc: Global) -> Borders {
        Borders {
            list: Vec::new(alloc),
        }
    }

    pub fn list(&self) -> &[Border] {
        &self.list
    }

    /// Adds a gain between two groups.
    pub fn add(&mut self, a: usize, b: usize, gain: Cost) -> Result<(), AllocError> {
        if a != b && gain > 0 {
            self.list.push(Border {
                one: a.min(b),
                two: a.max(b),
                gain,
            })?;
        }
        Ok(())
    }

    /// Adds the gains between one group and others, none of which counts for more than a cap.
    pub fn add_all(&mut self, group: usize, gains: &Gains, cap: Cost) -> Result<(), AllocError> {
        for (other, gain) in &gains.list {
            self.add(group, *other, (*gain).min(cap))?;
        }
        Ok(())
    }

    /// Adds up the gains between the same two groups, and puts the largest first.
    pub fn sort(&mut self) {
        self.list
            .sort_unstable_by_key(|border| (border.one, border.two, border.gain));
        for k in 1..self.list.len() {
            self.add_up(k.saturating_sub(1), k);
        }
        self.list.retain(|border| border.gain > 0);
        self.list.sort_unstable_by_key(|border| (
            Cost::MAX.saturating_sub(border.gain),
            border.one,
            border.two,
        ));
    }

    /// Adds a gain to the next one, if it is between the same two.
    fn add_up(&mut self, k: usize, next: usize) {
        let Some(border) = self.list.get(k).copied() else {
            return;
        };
        if let Some(other) = self.list.get_mut(next) {
            if border.one == other.one && border.two == other.two {
                other.gain = other.gain.saturating_add(border.gain);
                self.forget(k);
            }
        }
    }

    fn forget(&mut self, k: usize) {
        if let Some(border) = self.list.get_mut(k) {
            border.gain = 0;
        }
    }
}

/// What some groups gain, each once.
pub struct Gains {
    list: Vec<(usize, Cost)>,
}

impl Drop for Gains {
    fn drop(self) {
        let Gains { list: _ } = self;
    }
}

impl Gains {
    /// Nothing gained.
    pub fn new(alloc: Global) -> Gains {
        Gains {
            list: Vec::new(alloc),
        }
    }

    /// Adds to what a group gains.
    pub fn add(&mut self, group: usize, gain: Cost) -> Result<(), AllocError> {
        for (other, sum) in self.list.iter_mut() {
            if *other == group {
                *sum = sum.saturating_add(gain);
                return Ok(());
            }
        }
        self.list.push((group, gain))?;
        Ok(())
    }

    /// Takes what groups lose from what they gain.
    pub fn less(&mut self, losses: &Gains) {
        for (group, loss) in &losses.list {
            self.take(*group, *loss);
        }
    }

    /// Takes from what a group gains, and nothing where it gains nothing.
    fn take(&mut self, group: usize, loss: Cost) {
        for (other, sum) in self.list.iter_mut() {
            if *other == group {
                *sum = sum.saturating_sub(loss);
            }
        }
    }
}
