//! Written types: what each production makes of the values of its symbols.

ghost use Rattle.std.specs.Prelude.{◌≡◌, OnOk, Some};
ghost use Rattle.pushdown.specs.Meaning.{perform};
ghost use Rattle.sisal_grammar.specs.Acts.{sisal};
ghost use Rattle.sisal_grammar.specs.Sorts.{args};
ghost use Rattle.parse_stack.specs.Stack.{Tops};
ghost use Rattle.sisal_unit_acts.specs.Actions.{type_action};

use flow_value::NoMemory;
use parse_stack::{Values, named, span};
use sisal_grammar::{Action, Back, Value};
use sisal_tree::Field;
use std::alloc::Global;

/// The actions of written types.
#[derive(Clone, Copy)]
pub enum TypeAct {
    /// `type = "integer"` and the like
    Basic,
    /// `type = "array" "[" type "]"` and the like
    Listed,
    /// `type = "record" "[" field fields "]"`
    Fielded,
    /// `type = "union" "[" tagf tagfs "]"`
    Tagged,
    /// `fields =` and the like
    NoFields,
    /// `fields = ";" fields_more`
    SemiFields,
    /// `fields_more = field fields`
    MoreFields,
    /// `field = @name names ":" type`
    OneField,
    /// `tagfs = ";" tagfs_more`
    SemiTags,
    /// `tagfs_more = tagf tagfs`
    MoreTags,
    /// `tagf = @name names tag_type`
    OneTag,
    /// `tag_type = ":" type`
    TypedTag,
    /// `types =`
    NoTypes,
    /// `types = "," type types`
    MoreTypes,
    /// `of_type =`
    NoType,
    /// `of_type = ":" type`
    SomeType,
}

/// Takes the values of a production's symbols, and puts what the production makes of them.
pub fn perform_type(stack: &mut Values, alloc: Global, act: TypeAct) -> Result<(), NoMemory>
    requires { Tops (args (type_action act)) stack.old }
    ensures { OnOk result (Some stack.new ≡ perform sisal (type_action act) stack.old) }
{
    match act {
        TypeAct::Basic => basic(stack),
        TypeAct::Listed => listed(stack),
        TypeAct::Fielded => fielded(stack),
        TypeAct::Tagged => tagged(stack),
        TypeAct::NoFields => no_fields(stack, alloc),
        TypeAct::SemiFields => semi_fields(stack),
        TypeAct::MoreFields => more_fields(stack),
        TypeAct::OneField => one_field(stack),
        TypeAct::SemiTags => semi_tags(stack),
        TypeAct::MoreTags => more_tags(stack),
        TypeAct::OneTag => one_tag(stack),
        TypeAct::TypedTag => typed_tag(stack),
        TypeAct::NoTypes => no_types(stack, alloc),
        TypeAct::MoreTypes => more_types(stack),
        TypeAct::NoType => no_type(stack),
        TypeAct::SomeType => some_type(stack),
    }
}

/// `type = "integer"`
fn basic(stack: &mut Values) -> Result<(), NoMemory>
    requires { Tops (args Action.Basic) stack.old }
    ensures { OnOk result (Some stack.new ≡ perform sisal Action.Basic stack.old) }
{
    let word = stack.take_token();
    let ty = span(&word, &word);
    stack.push(Value::AType(ty))
}

/// `type = "array" "[" type "]"`
fn listed(stack: &mut Values) -> Result<(), NoMemory>
    requires { Tops (args Action.Listed) stack.old }
    ensures { OnOk result (Some stack.new ≡ perform sisal Action.Listed stack.old) }
{
    let word = stack.take_token();
    let _open = stack.take_token();
    let _element = stack.take_written();
    let close = stack.take_token();
    let ty = span(&word, &close);
    stack.push(Value::AType(ty))
}

/// `type = "record" "[" field fields "]"`
fn fielded(stack: &mut Values) -> Result<(), NoMemory>
    requires { Tops (args Action.Fielded) stack.old }
    ensures { OnOk result (Some stack.new ≡ perform sisal Action.Fielded stack.old) }
{
    let word = stack.take_token();
    let _open = stack.take_token();
    let _first = stack.take_field();
    let _rest = stack.take_fields();
    let close = stack.take_token();
    let ty = span(&word, &close);
    stack.push(Value::AType(ty))
}

/// `type = "union" "[" tagf tagfs "]"`
fn tagged(stack: &mut Values) -> Result<(), NoMemory>
    requires { Tops (args Action.Tagged) stack.old }
    ensures { OnOk result (Some stack.new ≡ perform sisal Action.Tagged stack.old) }
{
    let word = stack.take_token();
    let _open = stack.take_token();
    stack.take_nothing();
    stack.take_nothing();
    let close = stack.take_token();
    let ty = span(&word, &close);
    stack.push(Value::AType(ty))
}

/// `fields =`
fn no_fields(stack: &mut Values, alloc: Global) -> Result<(), NoMemory>
    requires { Tops (args Action.NoFields) stack.old }
    ensures { OnOk result (Some stack.new ≡ perform sisal Action.NoFields stack.old) }
{
    stack.push(Value::Fields(Back::new(alloc)))
}

/// `fields = ";" fields_more`
fn semi_fields(stack: &mut Values) -> Result<(), NoMemory>
    requires { Tops (args Action.SemiFields) stack.old }
    ensures { OnOk result (Some stack.new ≡ perform sisal Action.SemiFields stack.old) }
{
    let _semicolon = stack.take_token();
    let rest = stack.take_fields();
    stack.push(Value::Fields(rest))
}

/// `fields_more = field fields`
fn more_fields(stack: &mut Values) -> Result<(), NoMemory>
    requires { Tops (args Action.MoreFields) stack.old }
    ensures { OnOk result (Some stack.new ≡ perform sisal Action.MoreFields stack.old) }
{
    let first = stack.take_field();
    let mut rest = stack.take_fields();
    rest.push(first)?;
    stack.push(Value::Fields(rest))
}

/// `field = @name names ":" type`
fn one_field(stack: &mut Values) -> Result<(), NoMemory>
    requires { Tops (args Action.OneField) stack.old }
    ensures { OnOk result (Some stack.new ≡ perform sisal Action.OneField stack.old) }
{
    let name = stack.take_token();
    let mut names = stack.take_names();
    let _colon = stack.take_token();
    let ty = stack.take_written();
    names.push(named(&name))?;
    stack.push(Value::AField(Field {
        names: names.into_seq(),
        ty,
    }))
}

/// `tagfs = ";" tagfs_more`
fn semi_tags(stack: &mut Values) -> Result<(), NoMemory>
    requires { Tops (args Action.SemiTags) stack.old }
    ensures { OnOk result (Some stack.new ≡ perform sisal Action.SemiTags stack.old) }
{
    let _semicolon = stack.take_token();
    stack.take_nothing();
    stack.push(Value::Nothing)
}

/// `tagfs_more = tagf tagfs`
fn more_tags(stack: &mut Values) -> Result<(), NoMemory>
    requires { Tops (args Action.MoreTags) stack.old }
    ensures { OnOk result (Some stack.new ≡ perform sisal Action.MoreTags stack.old) }
{
    stack.take_nothing();
    stack.take_nothing();
    stack.push(Value::Nothing)
}

/// `tagf = @name names tag_type`
fn one_tag(stack: &mut Values) -> Result<(), NoMemory>
    requires { Tops (args Action.OneTag) stack.old }
    ensures { OnOk result (Some stack.new ≡ perform sisal Action.OneTag stack.old) }
{
    let _name = stack.take_token();
    let _names = stack.take_names();
    stack.take_nothing();
    stack.push(Value::Nothing)
}

/// `tag_type = ":" type`
fn typed_tag(stack: &mut Values) -> Result<(), NoMemory>
    requires { Tops (args Action.TypedTag) stack.old }
    ensures { OnOk result (Some stack.new ≡ perform sisal Action.TypedTag stack.old) }
{
    let _colon = stack.take_token();
    let _ty = stack.take_written();
    stack.push(Value::Nothing)
}

/// `types =`
fn no_types(stack: &mut Values, alloc: Global) -> Result<(), NoMemory>
    requires { Tops (args Action.NoTypes) stack.old }
    ensures { OnOk result (Some stack.new ≡ perform sisal Action.NoTypes stack.old) }
{
    stack.push(Value::Types(Back::new(alloc)))
}

/// `types = "," type types`
fn more_types(stack: &mut Values) -> Result<(), NoMemory>
    requires { Tops (args Action.MoreTypes) stack.old }
    ensures { OnOk result (Some stack.new ≡ perform sisal Action.MoreTypes stack.old) }
{
    let _comma = stack.take_token();
    let first = stack.take_written();
    let mut rest = stack.take_types();
    rest.push(first)?;
    stack.push(Value::Types(rest))
}

/// `of_type =`
fn no_type(stack: &mut Values) -> Result<(), NoMemory>
    requires { Tops (args Action.NoType) stack.old }
    ensures { OnOk result (Some stack.new ≡ perform sisal Action.NoType stack.old) }
{
    stack.push(Value::MaybeType(None))
}

/// `of_type = ":" type`
fn some_type(stack: &mut Values) -> Result<(), NoMemory>
    requires { Tops (args Action.SomeType) stack.old }
    ensures { OnOk result (Some stack.new ≡ perform sisal Action.SomeType stack.old) }
{
    let _colon = stack.take_token();
    let ty = stack.take_written();
    stack.push(Value::MaybeType(Some(ty)))
}
