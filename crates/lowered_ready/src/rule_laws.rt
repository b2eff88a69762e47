//! The law of rules.
ghost use Rattle.lowered_ready.specs.RuleLaws.{ObeyRules};

/// The lowered graphs of a program that fits obey the rules of ports and types.
pub fn lowered_graphs_obey_the_rules()
    ensures { ObeyRules }
{}
