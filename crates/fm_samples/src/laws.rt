//! What follows from what the sample filters may answer.

ghost use Rattle.fm_samples.specs.Laws.{PlainWhereQuiet, ReadsWhatWasWritten};

/// A sample filter that calls nothing of the manager is plain: it holds nothing, binds no worker, and sends
/// no context along. It does nothing.
pub fn plain_where_quiet()
    ensures { PlainWhereQuiet }
{}

/// Bytes that shift changed on their way down and again on their way up are what they were. It does
/// nothing.
pub fn reads_what_was_written()
    ensures { ReadsWhatWasWritten }
{}
