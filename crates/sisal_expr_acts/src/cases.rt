//! `tagcase`: what each production makes of the values of its symbols.

ghost use Rattle.std.specs.Prelude.{◌≡◌, OnOk, Some};
ghost use Rattle.pushdown.specs.Meaning.{perform};
ghost use Rattle.sisal_grammar.specs.Acts.{sisal};
ghost use Rattle.sisal_grammar.specs.Sorts.{args};
ghost use Rattle.parse_stack.specs.Stack.{Tops};
ghost use Rattle.sisal_expr_acts.specs.Actions.{case_action};

use crate::folds::{in_order, subject_of};
use flow_value::{Held, NoMemory};
use parse_stack::{Values, named};
use sisal_grammar::{Action, Back, ExprRest, Subject, SubjectRest, Value};
use sisal_tree::{Arm, Expr, ExprKind, TagCase};
use std::alloc::Global;

/// The actions of `tagcase`.
#[derive(Clone, Copy)]
pub enum CaseAct {
    /// `other = "tagcase" subject arm arms otherwise "end" "tagcase"`
    Case,
    /// `subject = @name subject_more`
    NameSubject,
    /// `subject = o_expr`
    OtherSubject,
    /// `subject_more = ":=" expr`
    Bound,
    /// `subject_more = call posts term_more sum_more cat_more rel_more conj_more expr_more`
    Rest,
    /// `arms =`
    NoArms,
    /// `arms = arm arms`
    MoreArms,
    /// `arm = "tag" @name names ":" exprs`
    OneArm,
    /// `otherwise = "otherwise" ":" exprs`
    Otherwise,
}

/// Takes the values of a production's symbols, and puts what the production makes of them.
pub fn perform_case(stack: &mut Values, alloc: Global, act: CaseAct) -> Result<(), NoMemory>
    requires { Tops (args (case_action act)) stack.old }
    ensures { OnOk result (Some stack.new ≡ perform sisal (case_action act) stack.old) }
{
    match act {
        CaseAct::Case => tag_case(stack, alloc),
        CaseAct::NameSubject => name_subject(stack, alloc),
        CaseAct::OtherSubject => other_subject(stack),
        CaseAct::Bound => bound_content(stack),
        CaseAct::Rest => rest_of_name(stack),
        CaseAct::NoArms => no_arms(stack, alloc),
        CaseAct::MoreArms => more_arms(stack),
        CaseAct::OneArm => one_arm(stack),
        CaseAct::Otherwise => otherwise(stack),
    }
}

/// `other = "tagcase" subject arm arms otherwise "end" "tagcase"`
fn tag_case(stack: &mut Values, alloc: Global) -> Result<(), NoMemory>
    requires { Tops (args Action.Case) stack.old }
    ensures { OnOk result (Some stack.new ≡ perform sisal Action.Case stack.old) }
{
    let word = stack.take_token();
    let subject = stack.take_subject();
    let first = stack.take_arm();
    let mut rest = stack.take_arms();
    let otherwise = stack.take_maybe_exprs();
    let _end = stack.take_token();
    let _tagcase = stack.take_token();
    rest.push(first)?;
    let name = subject.name;
    let case = TagCase {
        name,
        subject: Held::new(alloc, subject.expr)?,
        arms: rest.into_seq(),
        otherwise: in_order(otherwise),
    };
    stack.push(Value::AnExpr(Expr {
        line: word.line,
        kind: ExprKind::TagCase(case),
    }))
}

/// `subject = @name subject_more`
fn name_subject(stack: &mut Values, alloc: Global) -> Result<(), NoMemory>
    requires { Tops (args Action.NameSubject) stack.old }
    ensures { OnOk result (Some stack.new ≡ perform sisal Action.NameSubject stack.old) }
{
    let name = stack.take_token();
    let rest = stack.take_rest();
    let subject = subject_of(alloc, &name, rest)?;
    stack.push(Value::ASubject(subject))
}

/// `subject = o_expr`
fn other_subject(stack: &mut Values) -> Result<(), NoMemory>
    requires { Tops (args Action.OtherSubject) stack.old }
    ensures { OnOk result (Some stack.new ≡ perform sisal Action.OtherSubject stack.old) }
{
    let expr = stack.take_expr();
    stack.push(Value::ASubject(Subject { name: None, expr }))
}

/// `subject_more = ":=" expr`
fn bound_content(stack: &mut Values) -> Result<(), NoMemory>
    requires { Tops (args Action.Bound) stack.old }
    ensures { OnOk result (Some stack.new ≡ perform sisal Action.Bound stack.old) }
{
    let _assign = stack.take_token();
    let expr = stack.take_expr();
    stack.push(Value::ARest(SubjectRest::Bound(expr)))
}

/// `subject_more = call posts term_more sum_more cat_more rel_more conj_more expr_more`
fn rest_of_name(stack: &mut Values) -> Result<(), NoMemory>
    requires { Tops (args Action.Rest) stack.old }
    ensures { OnOk result (Some stack.new ≡ perform sisal Action.Rest stack.old) }
{
    let call = stack.take_maybe_exprs();
    let posts = stack.take_posts();
    let factors = stack.take_tail();
    let terms = stack.take_tail();
    let parts = stack.take_tail();
    let compared = stack.take_tail();
    let all = stack.take_tail();
    let any = stack.take_tail();
    stack.push(Value::ARest(SubjectRest::Rest(ExprRest {
        call,
        posts,
        factors,
        terms,
        parts,
        compared,
        all,
        any,
    })))
}

/// `arms =`
fn no_arms(stack: &mut Values, alloc: Global) -> Result<(), NoMemory>
    requires { Tops (args Action.NoArms) stack.old }
    ensures { OnOk result (Some stack.new ≡ perform sisal Action.NoArms stack.old) }
{
    stack.push(Value::Arms(Back::new(alloc)))
}

/// `arms = arm arms`
fn more_arms(stack: &mut Values) -> Result<(), NoMemory>
    requires { Tops (args Action.MoreArms) stack.old }
    ensures { OnOk result (Some stack.new ≡ perform sisal Action.MoreArms stack.old) }
{
    let first = stack.take_arm();
    let mut rest = stack.take_arms();
    rest.push(first)?;
    stack.push(Value::Arms(rest))
}

/// `arm = "tag" @name names ":" exprs`
fn one_arm(stack: &mut Values) -> Result<(), NoMemory>
    requires { Tops (args Action.OneArm) stack.old }
    ensures { OnOk result (Some stack.new ≡ perform sisal Action.OneArm stack.old) }
{
    let word = stack.take_token();
    let tag = stack.take_token();
    let mut tags = stack.take_names();
    let _colon = stack.take_token();
    let results = stack.take_exprs();
    tags.push(named(&tag))?;
    stack.push(Value::AnArm(Arm {
        line: word.line,
        tags: tags.into_seq(),
        results: results.into_seq(),
    }))
}

/// `otherwise = "otherwise" ":" exprs`
fn otherwise(stack: &mut Values) -> Result<(), NoMemory>
    requires { Tops (args Action.Otherwise) stack.old }
    ensures { OnOk result (Some stack.new ≡ perform sisal Action.Otherwise stack.old) }
{
    let _otherwise = stack.take_token();
    let _colon = stack.take_token();
    let results = stack.take_exprs();
    stack.push(Value::MaybeExprs(Some(results)))
}
