//! Activities that are let go and taken up, as rows have them active.
ghost use Rattle.std.specs.Prelude.{◌≡◌, ◌<◌, length, All, OnOk, OnErr};
ghost use Rattle.dm_priced.specs.Priced.{IsPriced};
ghost use Rattle.dm_propagate.specs.Inside.Flags.{flags_of, FixesNoOther};
ghost use Rattle.dm_propagate.specs.Inside.Turning.{IsAmong, IsOnly, LetsGo, TakesUp, IsRefused};

use crate::day::Day;
use dm_graph::search::Cyclic;
use dm_priced::PricedTimetable;
use dm_rows::is_active;

/// Lets go those of these activities that are held and not active.
#[tactic(auto, using(crate::proofs::HeldLemmas::none_let_go, crate::proofs::HeldLemmas::next_let_go))]
pub fn let_go(priced: &mut PricedTimetable, day: &Day<'_>, acts: &[usize])
    requires priced { IsPriced day.now.net.now priced.old }
    requires are_activities { All (λ a. a < length day.now.net.now.activities) acts.now }
    ensures priced { IsPriced day.now.net.now priced.new }
    ensures flags { flags_of priced.new ≡ flags_of priced.old }
    ensures gone { LetsGo day.now.net.now day.now.rows.now (IsAmong acts.now (length acts.now)) priced.old.live priced.new.live }
{
    for a in acts {
        let_go_one(priced, day, *a);
    }
}

/// Lets an activity go where it is held and not active.
#[tactic(auto, using(crate::proofs::HeldLemmas::let_go_not, crate::proofs::HeldLemmas::let_go_one, crate::proofs::Flagging::flags_stay))]
pub fn let_go_one(priced: &mut PricedTimetable, day: &Day<'_>, a: usize)
    requires priced { IsPriced day.now.net.now priced.old }
    requires is_activity { a < length day.now.net.now.activities }
    ensures priced { IsPriced day.now.net.now priced.new }
    ensures flags { flags_of priced.new ≡ flags_of priced.old }
    ensures gone { LetsGo day.now.net.now day.now.rows.now (IsOnly a) priced.old.live priced.new.live }
{
    if priced.live().is_held(a) && !is_active(day.net, day.rows, a) {
        priced.release(day.net, a);
    }
}

/// Holds those of these activities that are active and not held. One that would make a cycle is refused, and then no more
/// are held.
#[tactic(auto, using(crate::proofs::HeldLemmas::none_taken_up, crate::proofs::HeldLemmas::next_taken_up, crate::proofs::HeldLemmas::refused_later))]
pub fn take_up(priced: &mut PricedTimetable, day: &Day<'_>, acts: &[usize]) -> Result<(), Cyclic>
    requires priced { IsPriced day.now.net.now priced.old }
    requires are_activities { All (λ a. a < length day.now.net.now.activities) acts.now }
    requires open { FixesNoOther day.now.rows.now priced.old.live.fixed }
    ensures priced { IsPriced day.now.net.now priced.new }
    ensures flags { flags_of priced.new ≡ flags_of priced.old }
    ensures taken { OnOk result (TakesUp day.now.net.now day.now.rows.now (IsAmong acts.now (length acts.now)) priced.old.live
        priced.new.live) }
    ensures refused { OnErr result (IsRefused day.now.net.now day.now.rows.now priced.old.live priced.new.live) }
{
    for a in acts {
        match take_up_one(priced, day, *a) {
            Ok(()) => {}
            Err(Cyclic) => return Err(Cyclic),
        }
    }
    Ok(())
}

/// Holds an activity where it is active and not held, unless it would make a cycle.
#[tactic(auto, using(crate::proofs::HeldLemmas::taken_up_not, crate::proofs::HeldLemmas::refused_one, crate::proofs::Flagging::flags_stay))]
pub fn take_up_one(priced: &mut PricedTimetable, day: &Day<'_>, a: usize) -> Result<(), Cyclic>
    requires priced { IsPriced day.now.net.now priced.old }
    requires is_activity { a < length day.now.net.now.activities }
    requires open { FixesNoOther day.now.rows.now priced.old.live.fixed }
    ensures priced { IsPriced day.now.net.now priced.new }
    ensures flags { flags_of priced.new ≡ flags_of priced.old }
    ensures taken { OnOk result (TakesUp day.now.net.now day.now.rows.now (IsOnly a) priced.old.live priced.new.live) }
    ensures refused { OnErr result (IsRefused day.now.net.now day.now.rows.now priced.old.live priced.new.live) }
{
    if priced.live().is_held(a) || !is_active(day.net, day.rows, a) {
        return Ok(());
    }
    match priced.hold(day.net, a) {
        Ok(()) => Ok(()),
        Err(Cyclic) => Err(Cyclic),
    }
}
