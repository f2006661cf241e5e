//! What holds of every priced timetable that evaluates a path, and of every evaluator. A law has no code: it is proved as the
//! contract of an empty function.

ghost use Rattle.std.specs.Prelude.{ℕ, ◌≡◌, List};
ghost use Rattle.dm_live.specs.Live.{IsAtRest};
ghost use Rattle.dm_network.specs.Net.{Net, EndsAreKnown};
ghost use Rattle.dm_rows.specs.declared.messages.Decision.{Decision};
ghost use Rattle.dm_rows.specs.Rows.{RowsValue};
ghost use Rattle.dm_priced.specs.Priced.{PricedValue, priced_cost};
ghost use Rattle.dm_tree.specs.Relaxed.{IsRelaxedLeast, relaxed_cost_of, HasNoRelaxedCycle};
ghost use Rattle.dm_evaluate.specs.Evaluating.{Evaluates};
ghost use Rattle.dm_evaluate.specs.Evaluator.{EvaluatorValue, IsEvaluatorOf, times_of};

/// At rest it has the least times of the relaxed problem.
pub fn least_at_rest()
    ensures { (net : Net) (rows : RowsValue) (path : List Decision) (priced : PricedValue) → EndsAreKnown net
        → Evaluates net rows path priced →
        IsAtRest priced.live → IsRelaxedLeast net rows path priced.live.times }
{}

/// It costs the relaxed cost of its times.
pub fn costs_as_relaxed()
    ensures { (net : Net) (rows : RowsValue) (path : List Decision) (priced : PricedValue) (penalty : ℕ) → EndsAreKnown net
        → Evaluates net rows path priced →
        priced_cost net priced penalty ≡ relaxed_cost_of net rows path priced.live.times penalty }
{}

/// The relaxed problem of its path has no cycle.
pub fn has_no_relaxed_cycle()
    ensures { (net : Net) (rows : RowsValue) (path : List Decision) (priced : PricedValue) → Evaluates net rows path priced
        → HasNoRelaxedCycle net rows path }
{}

/// An evaluator has the least times of the relaxed problem of its path.
pub fn evaluators_have_least_times()
    ensures { (net : Net) (evaluator : EvaluatorValue) → EndsAreKnown net → IsEvaluatorOf net evaluator
        → IsRelaxedLeast net evaluator.rows evaluator.path (times_of evaluator) }
{}
