//! What deciding a choice adds to the cost of a part.

use dm_base::Cost;
use dm_probe::{Mover, Side};

/// What deciding a choice on either side adds.
#[derive(Clone, Copy)]
pub struct Gains {
    first: Cost,
    second: Cost,
}

impl Gains {
    /// The gains where either side costs so much.
    pub fn over(cost: Cost, first: Cost, second: Cost) -> Gains {
        Gains {
            first: first.saturating_sub(cost),
            second: second.saturating_sub(cost),
        }
    }

    /// Twice the smaller gain and once the larger, neither counting for more than the cap.
    pub fn promise(&self, cap: Cost) -> Cost {
        let low = self.first.min(self.second).min(cap);
        let high = self.first.max(self.second).min(cap);
        low.saturating_mul(2).saturating_add(high)
    }
}

/// What a choice gained where it was tried last, and how often it was tried.
#[derive(Clone, Copy)]
pub struct Tries {
    first: Cost,
    second: Cost,
    many: Cost,
}

impl Tries {
    /// It was never tried.
    pub fn none() -> Tries {
        Tries {
            first: 0,
            second: 0,
            many: 0,
        }
    }

    /// Notes what it gains where it is tried now.
    pub fn note(&mut self, gains: Gains) {
        self.first = gains.first;
        self.second = gains.second;
        self.many = self.many.saturating_add(1);
    }

    /// What it gained last, if it was tried.
    pub fn gains(&self) -> Option<Gains> {
        if self.many == 0 {
            return None;
        }
        Some(Gains {
            first: self.first,
            second: self.second,
        })
    }
}

/// Tries both sides of a choice where the share costs so much.
pub fn try_both(mover: &mut Mover<'_>, number: usize, cost: Cost) -> Gains {
    let first = mover.share_cost_with(number, Side::First);
    let second = mover.share_cost_with(number, Side::Second);
    Gains::over(cost, first, second)
}
