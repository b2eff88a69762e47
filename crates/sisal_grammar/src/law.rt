//! What the table means: the grammar as the manual has it.

ghost use Rattle.std.specs.Prelude.{◌≡◌, List};
ghost use Rattle.pushdown.specs.declared.Step.{Step};
ghost use Rattle.sisal_grammar.specs.declared.value.Outline.{Outline};
ghost use Rattle.sisal_grammar.specs.declared.value.Placed.{Placed};
ghost use Rattle.sisal_grammar.specs.Derived.{IsDerived};
ghost use Rattle.sisal_grammar.specs.Phrases.{unit};
ghost use Rattle.sisal_grammar.specs.Spells.{Spells};

use crate::table::tables;

/// The table derives a unit exactly where the grammar of the manual spells it, with the same value.
pub fn table_spells()
    ensures spelled { (tokens : List Placed) (o : Outline) (steps : List Step)
        → IsDerived tokens o steps → Spells unit tokens o }
    ensures derived { (tokens : List Placed) (o : Outline)
        → Spells unit tokens o → (steps : List Step) × IsDerived tokens o steps }
{}

/// No tokens are two units.
pub fn one_unit()
    ensures { (tokens : List Placed) (o p : Outline)
        → Spells unit tokens o → Spells unit tokens p → o ≡ p }
{
    let _tables = tables();
}
