//! The laws.
ghost use Rattle.run_meaning.specs.Laws.{AreRunsOfSources, AreSourcesRun};

use meaning_laws::plain_depths_agree;
use one_meaning::words_are_read_or_refused;

/// What a run of the unit of a text gives on words, the program of the text gives on the same words, by
/// the definition of record, in at least an eighth as many steps as nodes fire.
pub fn runs_give_the_values_of_the_source()
    ensures { AreRunsOfSources }
{}

/// Where the program gives values on words and 8 times its steps are within the limit of firings, each
/// run of the unit on these words gives these values, and a run is refused for want of memory alone.
pub fn sources_within_the_limit_are_run()
    ensures { AreSourcesRun }
{
    plain_depths_agree();
    words_are_read_or_refused();
}
