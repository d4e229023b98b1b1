//! The laws of the model, as functions that promise them and do nothing.

ghost use Rattle.fm_world.specs.Headline.{RulesKeepHeadline};
ghost use Rattle.fm_world.specs.Lasting.{ContextsLast};

/// Whatever events a list holds, in whatever order, and whichever of the answers that the rules leave open each gets: the World at its end keeps the
/// Headline.
pub fn rules_keep_headline()
    ensures { RulesKeepHeadline }
{}

/// Whatever events follow others: no context that was allocated is allocated again, under the same slot and generation; none that a worker got for its
/// cleanup is got again, so that `PFLT_CONTEXT_CLEANUP_CALLBACK` is called once for each; and one that is cleaned stays so.
pub fn contexts_last()
    ensures { ContextsLast }
{}
