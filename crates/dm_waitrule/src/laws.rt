//! What holds of the choices of every waiting rule. A law has no code: it is proved as the contract of an empty function.
ghost use Rattle.dm_waitrule.specs.Laws.{RuleChoicesAreBounded};

/// A rule has one list of choices for rows; with them rows without a cycle have none, and they cost no less than the bound of
/// any true plan of the rows.
pub fn rule_choices_are_bounded()
    ensures { RuleChoicesAreBounded }
{}
