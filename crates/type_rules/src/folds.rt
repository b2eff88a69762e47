//! What a clause of a loop makes of its values.
ghost use Rattle.std.specs.Prelude.{◌≡◌, IfOk, IfErr, OnErr};
ghost use Rattle.typed_tree.specs.Operations.{direction_of};
ghost use Rattle.type_rules.specs.Applies.{Grows};
ghost use Rattle.type_rules.specs.Folds.{masking_by, catenated, summed, reduced, kept, makes_of, IsMade, IsUnmade};

use crate::applying::number_of;
use crate::fault::Refused;
use crate::head::Sort;
use loop_folds::{Folding, Masking};
use sisal_tree::{ClauseKind, Direction, Reduction};
use type_table::{Form, INTEGER, Types};
use typed_tree::ClauseForm;

/// A clause over values of a type: its form, and the number of the type that it makes.
#[derive(Drop)]
pub struct Made {
    /// What it makes of its values.
    pub form: ClauseForm,
    /// The type of what it makes.
    pub ty: usize,
}

/// What a clause does with values of a type, and the type that it makes.
#[derive(Drop)]
pub struct Folded {
    /// What it makes of its values.
    pub folding: Folding,
    /// The type of what it makes.
    pub sort: Sort,
}

// A reduction of values of a wrong type.
const REDUCTION: u8 = 23;

fn direction_of(kind: ClauseKind) -> Direction
    ensures { result ≡ direction_of kind }
{
    match kind {
        ClauseKind::Reduce(direction, _) => direction,
        _ => Direction::Any,
    }
}

fn masking_by(mask: Option<bool>) -> Masking
    ensures { result ≡ masking_by mask }
{
    match mask {
        None => Masking::All,
        Some(is_unless) => {
            if is_unless {
                Masking::Unless
            } else {
                Masking::When
            }
        }
    }
}

/// What `catenate` goes over.
fn catenated(types: &Types, value: usize) -> Option<Folding>
    ensures { result ≡ catenated types.now value }
{
    match types.form(value) {
        Some(Form::Array(_)) => Some(Folding::CatenateArrays),
        Some(Form::Stream(_)) => Some(Folding::CatenateStreams),
        _ => None,
    }
}

/// A reduction of integers.
fn summed(folding: Folding, value: usize) -> Option<Folding>
    ensures { result ≡ summed folding value }
{
    if value == INTEGER {
        Some(folding)
    } else {
        None
    }
}

fn reduced(types: &Types, reduction: Reduction, value: usize) -> Option<Folding>
    ensures { result ≡ reduced types.now reduction value }
{
    match reduction {
        Reduction::Sum => summed(Folding::Sum, value),
        Reduction::Product => summed(Folding::Product, value),
        Reduction::Least => summed(Folding::Least, value),
        Reduction::Greatest => summed(Folding::Greatest, value),
        Reduction::Catenate => catenated(types, value),
    }
}

/// A reduction has the type of its values.
fn kept(folding: Option<Folding>, value: usize) -> Option<Folded>
    ensures { result ≡ kept folding value }
{
    match folding {
        Some(folding) => Some(Folded {
            folding,
            sort: Sort::There(value),
        }),
        None => None,
    }
}

fn makes_of(types: &Types, kind: ClauseKind, value: usize) -> Option<Folded>
    ensures { result ≡ makes_of types.now kind value }
{
    match kind {
        ClauseKind::Array => Some(Folded {
            folding: Folding::Array,
            sort: Sort::Made(Form::Array(value)),
        }),
        ClauseKind::Stream => Some(Folded {
            folding: Folding::Stream,
            sort: Sort::Made(Form::Stream(value)),
        }),
        ClauseKind::Last => kept(Some(Folding::Last), value),
        ClauseKind::Reduce(_, reduction) => kept(reduced(types, reduction, value), value),
    }
}

/// A clause of a loop over values of a type, with no mask, or one that is `unless` or not: its form
/// and the type that it makes; or the number of the rule that it breaks: 23 of a reduction of values
/// of a wrong type, and 4 where the type would be deeper than 64. The table has at most one type
/// more, and on an error it is as before.
pub fn clause(
    types: &mut Types,
    kind: ClauseKind,
    mask: Option<bool>,
    value: usize,
) -> Result<Made, Refused>
    ensures made { IfOk result (λ m. IsMade types.old kind mask value m types.new) }
    ensures refused { IfErr result (λ e. IsUnmade types.old kind value e) }
    ensures table { Grows types.old types.new }
    ensures err { OnErr result (types.new ≡ types.old) }
{
    match makes_of(types, kind, value) {
        Some(folded) => {
            let Folded { folding, sort } = folded;
            let ty = number_of(types, sort)?;
            let form = ClauseForm {
                folding,
                direction: direction_of(kind),
                masking: masking_by(mask),
            };
            Ok(Made { form, ty })
        }
        None => Err(Refused::Rule(REDUCTION)),
    }
}
