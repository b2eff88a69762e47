//! The parameters of functions: by labels and numbers, and as types that are written out, with the names
//! of fields and tags.
ghost use Rattle.std.specs.Prelude.{◌≡◌, IfOk, length, map, option_map};
ghost use Rattle.std.specs.Option.{option_copied};
ghost use Rattle.std.specs.List.Sorted.{IsStrictlyIncreasing};
ghost use Rattle.if1_graph.specs.Kinds.{kind_at};
ghost use Rattle.if1_graph.specs.Types.{with_names, members, scalar, ty_of, ty_within, ty_at, tuple_at, params_of, params_at};
ghost use Rattle.if1_types.specs.Tables.{is_line, entry_on};
ghost use Rattle.if1_types.specs.Parameters as labelled;

use crate::lines::{Line, is_line};
use crate::numbered::Sorts;
use crate::parameters::Parameter;
use flow_value::{Fields, Held, Name, NoMemory, Numbers, Seq, Ty, Types};
use if1_graph::{Basic, TypeEntry, TypeKind, basic_of, entry_of, kind_of};
use std::alloc::Global;

/// No type is deeper.
const DEEPEST: u32 = 64;

fn scalar_ty(basic: Option<Basic>) -> Option<Ty>
    ensures { result ≡ scalar basic }
{
    match basic {
        Some(Basic::Boolean) => Some(Ty::Bool),
        Some(Basic::Character) => Some(Ty::Char),
        Some(Basic::Integer) => Some(Ty::Int),
        Some(Basic::Null) => Some(Ty::Null),
        _ => None,
    }
}

/// The type of a label, at most so deep.
#[cycle(params)]
fn label_ty(
    alloc: Global,
    types: &[TypeEntry],
    depth: u32,
    label: u32,
) -> Result<Option<Ty>, NoMemory>
    requires { IsStrictlyIncreasing (map (λ e. e.label) types.now) }
    ensures { IfOk result (λ found. found ≡ ty_within with_names depth types.now label) }
{
    if depth == 0 {
        return Ok(None);
    }
    let Some(entry) = entry_of(types, label) else {
        return Ok(None);
    };
    let found = entry_ty(alloc, types, depth - 1, entry)?;
    Ok(found)
}

/// The type of an entry, whose parts are at most so deep.
#[cycle(params)]
fn entry_ty(
    alloc: Global,
    types: &[TypeEntry],
    depth: u32,
    entry: &TypeEntry,
) -> Result<Option<Ty>, NoMemory>
    requires { IsStrictlyIncreasing (map (λ e. e.label) types.now) }
    ensures { IfOk result (λ found. found ≡ ty_of with_names (ty_within with_names depth types.now) types.now entry.now (kind_at entry.now.code)) }
{
    match kind_of(entry.code) {
        Some(TypeKind::Basic) => Ok(scalar_ty(basic_of(entry.first))),
        Some(TypeKind::Array) => match label_ty(alloc, types, depth, entry.first)? {
            Some(element) => Ok(Some(Ty::Arr(Held::new(alloc, element)?))),
            None => Ok(None),
        },
        Some(TypeKind::Stream) => match label_ty(alloc, types, depth, entry.first)? {
            Some(element) => Ok(Some(Ty::Stream(Held::new(alloc, element)?))),
            None => Ok(None),
        },
        Some(TypeKind::Record) => {
            match member_types(alloc, types, depth, Line::Field, entry.first)? {
                Some(fields) => Ok(Some(Ty::Rec(fields))),
                None => Ok(None),
            }
        }
        Some(TypeKind::Union) => match member_types(alloc, types, depth, Line::Tag, entry.first)? {
            Some(tags) => Ok(Some(Ty::Uni(tags))),
            None => Ok(None),
        },
        _ => Ok(None),
    }
}

/// The members of a list from a label on, each with its name and its type.
#[cycle(params)]
fn member_types(
    alloc: Global,
    types: &[TypeEntry],
    depth: u32,
    line: Line,
    first: u32,
) -> Result<Option<Fields>, NoMemory>
    requires { IsStrictlyIncreasing (map (λ e. e.label) types.now) }
    ensures { IfOk result (λ found. found ≡ members with_names (ty_within with_names depth types.now) (is_line line) types.now (length types.now) first) }
{
    let mut fields = Fields::new(alloc);
    let mut label = first;
    let mut left = types.len();
    while label != 0 {
        if left == 0 {
            return Ok(None);
        }
        let Some(entry) = line_at(types, line, label) else {
            return Ok(None);
        };
        let Some(ty) = label_ty(alloc, types, depth, entry.first)? else {
            return Ok(None);
        };
        left -= 1;
        fields.add((Name::from_slice(alloc, entry.name.as_slice())?, ty))?;
        label = entry.second;
    }
    Ok(Some(fields))
}

/// The entry of a label, where it is a line of this kind.
fn line_at(types: &[TypeEntry], line: Line, label: u32) -> Option<&TypeEntry>
    requires { IsStrictlyIncreasing (map (λ e. e.label) types.now) }
    ensures { option_copied result ≡ entry_on (is_line line) types.now label }
{
    let entry = entry_of(types, label)?;
    if is_line(line, kind_of(entry.code)) {
        Some(entry)
    } else {
        None
    }
}

fn types_of(alloc: Global, members: Option<Fields>) -> Result<Option<Types>, NoMemory>
    ensures { IfOk result (λ found. found ≡ option_map (λ ms. map (λ m. m.1) ms) members) }
{
    let Some(members) = members else {
        return Ok(None);
    };
    let mut types = Types::new(alloc);
    for (_, ty) in members.into_vec() {
        types.add(ty)?;
    }
    Ok(Some(types))
}

/// The types of the arguments of a function, by the label of its type, with the names of fields and
/// tags; none where the label is that of no function's type. They are written out, so types that share
/// their parts may want much memory.
pub fn params_of(alloc: Global, types: &[TypeEntry], label: u32) -> Result<Option<Types>, NoMemory>
    requires { IsStrictlyIncreasing (map (λ e. e.label) types.now) }
    ensures { IfOk result (λ found. found ≡ params_at types.now label) }
{
    let Some(entry) = entry_of(types, label) else {
        return Ok(None);
    };
    let Some(TypeKind::Function) = kind_of(entry.code) else {
        return Ok(None);
    };
    let members = member_types(alloc, types, DEEPEST, Line::Tuple, entry.first)?;
    let params = types_of(alloc, members)?;
    Ok(params)
}

/// The labels of the types of a list's members, from a label on.
fn member_labels(
    alloc: Global,
    types: &[TypeEntry],
    line: Line,
    first: u32,
) -> Result<Option<Numbers>, NoMemory>
    requires { IsStrictlyIncreasing (map (λ e. e.label) types.now) }
    ensures { IfOk result (λ found. found ≡ labelled.member_labels (is_line line) types.now (length types.now) first) }
{
    let mut labels = Seq::new(alloc);
    let mut label = first;
    let mut left = types.len();
    while label != 0 {
        if left == 0 {
            return Ok(None);
        }
        let Some(entry) = line_at(types, line, label) else {
            return Ok(None);
        };
        left -= 1;
        labels.add(entry.first)?;
        label = entry.second;
    }
    Ok(Some(labels))
}

/// The labels of the types of a function's arguments, by the label of its own type.
fn param_labels(alloc: Global, types: &[TypeEntry], label: u32) -> Result<Option<Numbers>, NoMemory>
    requires { IsStrictlyIncreasing (map (λ e. e.label) types.now) }
    ensures { IfOk result (λ found. found ≡ labelled.param_labels types.now label) }
{
    let Some(entry) = entry_of(types, label) else {
        return Ok(None);
    };
    let Some(TypeKind::Function) = kind_of(entry.code) else {
        return Ok(None);
    };
    let labels = member_labels(alloc, types, Line::Tuple, entry.first)?;
    Ok(labels)
}

fn with_numbers(alloc: Global, sorts: &Sorts, labels: &[u32]) -> Result<Seq<Parameter>, NoMemory>
    ensures { IfOk result (λ ps. ps ≡ map (labelled.parameter sorts.now) labels.now) }
{
    let mut parameters = Seq::with_room(alloc, labels.len())?;
    for label in labels {
        parameters.add(Parameter {
            label: *label,
            ty: sorts.type_of(*label),
        })?;
    }
    Ok(parameters)
}

/// The parameters of a function in order, by the label of its type, each with the label and the number
/// of its own; none where the label is that of no function's type. No type is written out. Takes time
/// near linear in the parameters.
pub fn parameters_of(
    alloc: Global,
    types: &[TypeEntry],
    sorts: &Sorts,
    label: u32,
) -> Result<Option<Seq<Parameter>>, NoMemory>
    requires { IsStrictlyIncreasing (map (λ e. e.label) types.now) }
    ensures { IfOk result (λ found. found ≡ labelled.params_at types.now sorts.now label) }
{
    let Some(labels) = param_labels(alloc, types, label)? else {
        return Ok(None);
    };
    let parameters = with_numbers(alloc, sorts, labels.as_slice())?;
    Ok(Some(parameters))
}
