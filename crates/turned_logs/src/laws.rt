//! The laws of logs that are turned.
ghost use Rattle.turned_logs.specs.Turned.{AreLogsTurned, AreLegalLogs, AreAllTestsSame};

/// What comes last in a log comes first in its history, what a log was is the end of its history, and a log that is
/// turned twice is itself.
pub fn logs_are_turned()
    ensures { AreLogsTurned }
{}

/// A log leads, entry by entry as each is allowed, exactly to what it is turned into, where that is a legal history.
pub fn legal_histories_are_logs()
    ensures { AreLegalLogs }
{}

/// An item was claimed, finished or made by the history exactly where an entry of the log says so.
pub fn logs_tell_what_was_claimed()
    ensures { AreAllTestsSame }
{}
