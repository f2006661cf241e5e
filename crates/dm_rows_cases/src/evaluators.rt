//! Decisions of an evaluator that are made and taken back, for a ledger that nothing reads.
ghost use Rattle.std.specs.Prelude.{◌≡◌, ◌<◌};
ghost use Rattle.dm_rows.specs.Rows.{IsSized};

use crate::messages::{Said, messages_of};
use crate::networks::network_named;
use dm_base::{Cost, Steps};
use dm_evaluate::Evaluator;
use dm_network::Network;
use dm_rows::{Choice, Decision, Message, Rows};
use dm_samples::{Case, Failure, rows_on_time};
use std::alloc::Global;
use std::marker::{Brand, Model};
use std::sync::ledger::{Blank, Ledger};

/// Seconds for each passenger.
const PENALTY: u64 = 3_600;

/// An evaluator with its network.
#[derive(Drop)]
struct EvaluatorOn<'n> {
    net: &'n Network,
    evaluator: Evaluator,
}

impl<'n> Model for EvaluatorOn<'n> {
    ghost use Rattle.dm_evaluate.specs.Evaluator.{EvaluatorValue, IsEvaluatorOf};

    ghost Value = { EvaluatorValue };

    ghost view = { λ on. on.evaluator };

    ghost invariant = { λ on. IsEvaluatorOf on.net.now on.evaluator };
}

impl<'n> EvaluatorOn<'n> {
    /// The evaluator of these rows, with nothing decided.
    fn new(alloc: Global, net: &'n Network, rows: Rows) -> Result<EvaluatorOn<'n>, Failure>
        requires { IsSized net.now rows }
    {
        match Evaluator::new(alloc, net, rows) {
            Ok(evaluator) => Ok(EvaluatorOn { net, evaluator }),
            Err(_) => Err(Failure::NoDay),
        }
    }

    /// Makes a decision, and says whether it was open and makes no cycle.
    fn decide(&mut self, decision: Decision) -> bool {
        self.decide_with::<Brand>(decision, Blank::new(1))
    }

    fn decide_with<L: Ledger>(&mut self, decision: Decision, blank: Blank) -> bool
        requires name { blank.name ≡ L.name }
        requires parts { blank.parts ≡ L.parts }
        requires has_a_part { 0 < blank.parts }
    {
        if !self.evaluator.is_open(self.net, decision.choice()) {
            return false;
        }
        let mut steps = Steps::<L>::new(blank);
        self.evaluator
            .decide(self.net, decision, &mut steps)
            .is_ok()
    }

    /// Takes the decision of a choice back, and says whether there was one.
    fn take_back(&mut self, choice: Choice) -> bool {
        self.take_back_with::<Brand>(choice, Blank::new(1))
    }

    fn take_back_with<L: Ledger>(&mut self, choice: Choice, blank: Blank) -> bool
        requires name { blank.name ≡ L.name }
        requires parts { blank.parts ≡ L.parts }
        requires has_a_part { 0 < blank.parts }
    {
        if !self.evaluator.has_decided(choice) {
            return false;
        }
        let mut steps = Steps::<L>::new(blank);
        self.evaluator.undecide(self.net, choice, &mut steps);
        true
    }

    fn cost(&self) -> Cost {
        self.evaluator.cost(self.net, PENALTY)
    }
}

/// What the day costs after the decisions of a case were made and taken back so many times, and the last ones made.
pub fn told_of_moves(alloc: Global, case: &Case<'_>, count: u64) -> Result<String, Failure> {
    let said = Said::of(case);
    let net = network_named(alloc, case.word(1))?;
    let rows = rows_on_time(alloc, &net)?;
    let mut on = EvaluatorOn::new(alloc, &net, rows)?;
    move_often(
        &mut on,
        decision_of(&messages_of(alloc, said.turn)?)?,
        count / 2,
    )?;
    if !on.decide(decision_of(&messages_of(alloc, said.last)?)?) {
        return Err(Failure::Differs(0));
    }
    let cost = on.cost();
    Ok(format!(in alloc; "cost {cost}")?)
}

fn move_often(on: &mut EvaluatorOn<'_>, decision: Decision, count: u64) -> Result<(), Failure> {
    for turn in 0..count {
        let made = on.decide(decision);
        if !made || !on.take_back(decision.choice()) {
            return Err(Failure::Differs(turn.min(1_000_000_000) as u32));
        }
    }
    Ok(())
}

/// The decision that the first of these messages says.
fn decision_of(messages: &[Message]) -> Result<Decision, Failure> {
    match messages.first() {
        Some(Message::Keep(act)) => Ok(Decision::Keep(*act)),
        Some(Message::Drop(act)) => Ok(Decision::Drop(*act)),
        Some(Message::First(first, second)) => Ok(Decision::First(*first, *second)),
        _ => Err(Failure::NoDay),
    }
}
