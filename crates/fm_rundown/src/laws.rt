//! What the gate's rule says for all seats and every schedule: each law is the contract of a call that does nothing.

ghost use Rattle.fm_rundown.specs.Laws.{RuleIsKept, NoWordWraps, DrainedIsFinal};

/// Every schedule of the seats' steps keeps the rule.
pub fn rule_is_kept()
    ensures { RuleIsKept }
{}

/// No word wraps: each has room for another pass.
pub fn no_word_wraps()
    ensures { NoWordWraps }
{}

/// After a volume's rundown was seen drained, nobody holds or gets a pass of it, whatever any seat does.
pub fn drained_is_final()
    ensures { DrainedIsFinal }
{}
