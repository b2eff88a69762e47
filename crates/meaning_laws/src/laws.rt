//! The laws of the definition with a depth of calls and turns alone.
ghost use Rattle.std.specs.Prelude.{◌≡◌, ◌≤◌, IfOk, IfErr};
ghost use Rattle.meaning_laws.specs.Laws.{IsGiven, PassesAlways, IsNothingCalledAtZero, IsBodyOneLess, AreTurnsOneLess, IsMeaningStable, AreCallsStable, IsMeaningOne, IsCallOne, DoesMeaningFall, DoCallsFall, IsMeaningTheSame, AreCallsTheSame, AreLimitsTheSame};
ghost use Rattle.meaning.specs.Plain.{plain_calls};

use flow_value::Items;
use source_meaning::{Found, MeanFault, mean};
use std::alloc::Global;
use typed_tree::Program;

/// A call gives what the results of the function give at a depth one less, and nothing at depth 0.
pub fn calls_go_one_less()
    ensures none { IsNothingCalledAtZero }
    ensures body { IsBodyOneLess }
{}

/// The parts of each turn of a loop go one depth less than those of the turn before.
pub fn turns_go_one_less()
    ensures { AreTurnsOneLess }
{}

/// What is given at one depth is given at every greater one, and no two depths give different
/// values or steps.
pub fn plain_depths_agree()
    ensures greater { IsMeaningStable }
    ensures one_value { IsMeaningOne }
    ensures calls_greater { AreCallsStable }
    ensures calls_one_value { IsCallOne }
{}

/// The definition with a depth of calls and turns alone gives the same values with the same steps
/// as the definition that bounds all turns of a loop by one depth, and where it gives them, the
/// other gives them at the same depth.
pub fn definitions_agree()
    ensures expressions { IsMeaningTheSame }
    ensures functions { AreCallsTheSame }
    ensures falls { DoesMeaningFall }
    ensures calls_fall { DoCallsFall }
{}

/// A limit of steps is passed by the one definition exactly where it is passed by the other.
pub fn limits_agree()
    ensures { AreLimitsTheSame }
{}

/// The values that the definition with a depth of calls and turns alone gives to a call of a
/// function at some depth, if that takes at most `limit` steps. The function stands by its number.
pub fn plain_mean(
    alloc: Global,
    program: &Program,
    function: u32,
    args: Items,
    limit: u64,
) -> Result<Found, MeanFault>
    ensures found { IfOk result (λ r. (r.steps ≤ limit) × IsGiven (λ n. plain_calls n program.now.functions function args) r.values r.steps) }
    ensures turn_limit { IfErr result (λ e. e ≡ MeanFault.TurnLimit → PassesAlways limit (λ n. plain_calls n program.now.functions function args)) }
{
    mean(alloc, program, function, args, limit)
}
