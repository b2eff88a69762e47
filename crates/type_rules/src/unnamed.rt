//! The forms over operands that name no type.
ghost use Rattle.sisal_tree.specs.declared.expr.ExprKind.TheViews.{out-ExprKind};
ghost use Rattle.type_rules.specs.Heads.{NamesNoType, IsUnnamedHead};

use crate::head::Head;
use sisal_tree::ExprKind;

/// The form of an expression over operands that names no type.
#[tactic(auto, using(crate::proofs::Nameless::a_convert, crate::proofs::Nameless::an_is_error, crate::proofs::Nameless::an_is_tag, crate::proofs::Nameless::a_prefix, crate::proofs::Nameless::a_binary, crate::proofs::Nameless::a_select, crate::proofs::Nameless::an_update, crate::proofs::Nameless::a_field))]
pub fn unnamed_head(kind: &ExprKind) -> Head
    requires { NamesNoType (out-ExprKind kind.now) }
    ensures { IsUnnamedHead kind.now result }
{
    match kind {
        ExprKind::Convert(to, _) => Head::Convert(*to),
        ExprKind::IsError(_) => Head::IsError,
        ExprKind::IsTag(tag, _) => Head::IsTag(*tag),
        ExprKind::Prefix(operator, _) => Head::Prefix(*operator),
        ExprKind::Binary(operator, _, _) => Head::Binary(*operator),
        ExprKind::Select(_, _) => Head::Select,
        ExprKind::Update(_, _, _) => Head::Update,
        ExprKind::Field(_, field) => Head::Field(*field),
        _ => unreachable!(),
    }
}
