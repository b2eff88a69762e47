//! The topic of each action.

ghost use Rattle.std.specs.Prelude.{◌≡◌};
ghost use Rattle.sisal_build.specs.Tasks.{task_action};

use sisal_expr_acts::{CaseAct, CompoundAct, ExprAct, SelectorAct};
use sisal_grammar::Action;
use sisal_unit_acts::{ClauseAct, DefAct, LoopAct, TypeAct, UnitAct};

/// An action, by its topic.
#[derive(Clone, Copy)]
pub enum Task {
    /// Of units and functions.
    Unit(UnitAct),
    /// Of written types.
    Type(TypeAct),
    /// Of definitions.
    Def(DefAct),
    /// Of loops.
    Loop(LoopAct),
    /// Of the results of loops.
    Clause(ClauseAct),
    /// Of lists of expressions, operators and operands.
    Expr(ExprAct),
    /// Of what follows an operand.
    Selector(SelectorAct),
    /// Of expressions between words.
    Compound(CompoundAct),
    /// Of `tagcase`.
    Case(CaseAct),
}

/// An action, by its topic.
pub fn task_of(action: Action) -> Task
    ensures { task_action result ≡ action }
{
    match action {
        Action::Whole => Task::Unit(UnitAct::Whole),
        Action::NoNames => Task::Unit(UnitAct::NoNames),
        Action::MoreNames => Task::Unit(UnitAct::MoreNames),
        Action::Absent => Task::Unit(UnitAct::Absent),
        Action::Sign => Task::Unit(UnitAct::Sign),
        Action::NoItems => Task::Unit(UnitAct::NoItems),
        Action::MoreItems => Task::Unit(UnitAct::MoreItems),
        Action::Alias => Task::Unit(UnitAct::Alias),
        Action::Forward => Task::Unit(UnitAct::Forward),
        Action::Global => Task::Unit(UnitAct::Global),
        Action::Defined => Task::Unit(UnitAct::Defined),
        Action::Basic => Task::Type(TypeAct::Basic),
        Action::Listed => Task::Type(TypeAct::Listed),
        Action::Fielded => Task::Type(TypeAct::Fielded),
        Action::Tagged => Task::Type(TypeAct::Tagged),
        Action::NoFields => Task::Type(TypeAct::NoFields),
        Action::SemiFields => Task::Type(TypeAct::SemiFields),
        Action::MoreFields => Task::Type(TypeAct::MoreFields),
        Action::OneField => Task::Type(TypeAct::OneField),
        Action::SemiTags => Task::Type(TypeAct::SemiTags),
        Action::MoreTags => Task::Type(TypeAct::MoreTags),
        Action::OneTag => Task::Type(TypeAct::OneTag),
        Action::TypedTag => Task::Type(TypeAct::TypedTag),
        Action::OneHeader => Task::Unit(UnitAct::OneHeader),
        Action::NoTypes => Task::Type(TypeAct::NoTypes),
        Action::MoreTypes => Task::Type(TypeAct::MoreTypes),
        Action::Exprs => Task::Expr(ExprAct::Exprs),
        Action::NoExprs => Task::Expr(ExprAct::NoExprs),
        Action::MoreExprs => Task::Expr(ExprAct::MoreExprs),
        Action::SameExprs => Task::Expr(ExprAct::SameExprs),
        Action::Chain => Task::Expr(ExprAct::Chain),
        Action::NoTail => Task::Expr(ExprAct::NoTail),
        Action::MoreTail => Task::Expr(ExprAct::MoreTail),
        Action::Prefix => Task::Expr(ExprAct::Prefix),
        Action::SameExpr => Task::Expr(ExprAct::SameExpr),
        Action::OneTail => Task::Expr(ExprAct::OneTail),
        Action::Posted => Task::Selector(SelectorAct::Posted),
        Action::NoPosts => Task::Selector(SelectorAct::NoPosts),
        Action::MorePosts => Task::Selector(SelectorAct::MorePosts),
        Action::Bracket => Task::Selector(SelectorAct::Bracket),
        Action::Dot => Task::Selector(SelectorAct::Dot),
        Action::Replaced => Task::Selector(SelectorAct::Replaced),
        Action::CloseBracket => Task::Selector(SelectorAct::CloseBracket),
        Action::MoreBracket => Task::Selector(SelectorAct::MoreBracket),
        Action::ColonBracket => Task::Selector(SelectorAct::ColonBracket),
        Action::OneValue => Task::Selector(SelectorAct::OneValue),
        Action::NoValues => Task::Selector(SelectorAct::NoValues),
        Action::SemiValues => Task::Selector(SelectorAct::SemiValues),
        Action::MoreValues => Task::Selector(SelectorAct::MoreValues),
        Action::NameOrCall => Task::Expr(ExprAct::NameOrCall),
        Action::NoCall => Task::Expr(ExprAct::NoCall),
        Action::Call => Task::Expr(ExprAct::Call),
        Action::Literal => Task::Expr(ExprAct::Literal),
        Action::Old => Task::Expr(ExprAct::Old),
        Action::Convert => Task::Expr(ExprAct::Convert),
        Action::Group => Task::Expr(ExprAct::Group),
        Action::ErrorOf => Task::Expr(ExprAct::ErrorOf),
        Action::Is => Task::Expr(ExprAct::Is),
        Action::Array => Task::Compound(CompoundAct::Array),
        Action::Stream => Task::Compound(CompoundAct::Stream),
        Action::Record => Task::Compound(CompoundAct::Record),
        Action::Union => Task::Compound(CompoundAct::Union),
        Action::Let => Task::Compound(CompoundAct::Let),
        Action::If => Task::Compound(CompoundAct::If),
        Action::Case => Task::Case(CaseAct::Case),
        Action::For => Task::Compound(CompoundAct::For),
        Action::WordName => Task::Compound(CompoundAct::WordName),
        Action::AName => Task::Compound(CompoundAct::AName),
        Action::NoName => Task::Compound(CompoundAct::NoName),
        Action::NoElements => Task::Compound(CompoundAct::NoElements),
        Action::SomeElements => Task::Compound(CompoundAct::SomeElements),
        Action::NoExpr => Task::Expr(ExprAct::NoExpr),
        Action::SomeExpr => Task::Expr(ExprAct::SomeExpr),
        Action::ElseIf => Task::Compound(CompoundAct::ElseIf),
        Action::Else => Task::Compound(CompoundAct::Else),
        Action::NameSubject => Task::Case(CaseAct::NameSubject),
        Action::OtherSubject => Task::Case(CaseAct::OtherSubject),
        Action::Bound => Task::Case(CaseAct::Bound),
        Action::Rest => Task::Case(CaseAct::Rest),
        Action::NoArms => Task::Case(CaseAct::NoArms),
        Action::MoreArms => Task::Case(CaseAct::MoreArms),
        Action::OneArm => Task::Case(CaseAct::OneArm),
        Action::Otherwise => Task::Case(CaseAct::Otherwise),
        Action::Product => Task::Loop(LoopAct::Product),
        Action::Initial => Task::Loop(LoopAct::Initial),
        Action::NoGroups => Task::Loop(LoopAct::NoGroups),
        Action::MoreGroups => Task::Loop(LoopAct::MoreGroups),
        Action::Gens => Task::Loop(LoopAct::Gens),
        Action::NoGens => Task::Loop(LoopAct::NoGens),
        Action::MoreGens => Task::Loop(LoopAct::MoreGens),
        Action::OneGen => Task::Loop(LoopAct::OneGen),
        Action::AtName => Task::Loop(LoopAct::AtName),
        Action::NoDefs => Task::Def(DefAct::NoDefs),
        Action::SameDefs => Task::Def(DefAct::SameDefs),
        Action::Defs => Task::Def(DefAct::Defs),
        Action::SemiDefs => Task::Def(DefAct::SemiDefs),
        Action::OneDef => Task::Def(DefAct::OneDef),
        Action::NoTargets => Task::Def(DefAct::NoTargets),
        Action::MoreTargets => Task::Def(DefAct::MoreTargets),
        Action::OneTarget => Task::Def(DefAct::OneTarget),
        Action::NoType => Task::Type(TypeAct::NoType),
        Action::SomeType => Task::Type(TypeAct::SomeType),
        Action::TestFirst => Task::Loop(LoopAct::TestFirst),
        Action::TestLast => Task::Loop(LoopAct::TestLast),
        Action::OneTest => Task::Loop(LoopAct::OneTest),
        Action::NoClauses => Task::Clause(ClauseAct::NoClauses),
        Action::MoreClauses => Task::Clause(ClauseAct::MoreClauses),
        Action::Gathered => Task::Clause(ClauseAct::Gathered),
        Action::Valued => Task::Clause(ClauseAct::Valued),
        Action::NoFold => Task::Clause(ClauseAct::NoFold),
        Action::PlainFold => Task::Clause(ClauseAct::PlainFold),
        Action::Directed => Task::Clause(ClauseAct::Directed),
        Action::Reduced => Task::Clause(ClauseAct::Reduced),
        Action::NoMask => Task::Clause(ClauseAct::NoMask),
        Action::SomeMask => Task::Clause(ClauseAct::SomeMask),
    }
}
