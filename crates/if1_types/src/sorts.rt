//! What the labels of a table stand for, by number.
ghost use Rattle.std.specs.Prelude.{◌≡◌, ◌≤◌, ◌<◌, ◌-◌, ◌+◌, ◌^◌, suc, ℕ, IsSome, List, Some, IfOk, map, length};
ghost use Rattle.std.specs.List.Sorted.{IsStrictlyIncreasing};
ghost use Rattle.if1_graph.specs.Formed.{most};
ghost use Rattle.if1_graph.specs.Kinds.{kind_at};
ghost use Rattle.flow_value.specs.declared.ty.Ty.{Ty};
ghost use Rattle.if1_graph.specs.declared.graph.TypeEntry.{TypeEntry};
ghost use Rattle.if1_graph.specs.Types.{Sort, Plain, is_tuple, most_deep, sort_at};
ghost use Rattle.if1_types.specs.Numbering.{IsNumbering};
ghost use Rattle.if1_types.specs.Parameters.{type_at};
ghost use Rattle.if1_types.specs.Trees.{kind_number, list, over, over_both, sort_tree, tree_within};
ghost use Rattle.if1_types.specs.Finds.{AreFound};
ghost use Rattle.if1_types.specs.Shapes.{trees_in, tree_at, members_in, HasKeys, IsLater, Stands};
ghost use Rattle.if1_types.specs.Tables.{labels_in, number_at, AreTold, AreSorts};
ghost use Rattle.if1_types.specs.Skips.{first_in, behind, end_at, member_at, members_at, IsFurther};
ghost use Rattle.if1_types.specs.Forms.{IsSort, IsTy, IsList, Stand, AreOnce, AreRead, sort_form_at, ty_form_at, list_form_at, IsSortForm, IsTyForm, IsListForm, sort_form_of, ty_form_of, list_form_of};

use crate::forms::{ListForm, SortForm, TyForm};
use crate::found::{Found, Part, list_part, type_part};
use crate::kind::{Kind, kind_by};
use crate::lines::Line;
use crate::numbered::Sorts;
use crate::shapes::Shapes;
use crate::skips::{skip_at, skips_of};
use crate::table::number_at;
use crate::walk::found_in;
use flow_value::{NoMemory, Numbers, Seq};
use if1_graph::{TypeEntry, TypeKind, kind_of};
use std::alloc::Global;

impl Sorts {
    /// The number of what a label stands for: 0 where it stands for nothing, since it is absent, names
    /// an absent label, contains itself, is deeper than 64, or holds a real or wild type.
    pub fn number(&self, label: u32) -> u32
        requires { IsStrictlyIncreasing self.now.labels }
        ensures { result ≡ number_at self.now.labels self.now.numbers label }
    {
        number_at(self.labels.as_slice(), self.numbers.as_slice(), label)
    }

    /// The number of the type of the values that a label stands for, 0 where it stands for no value.
    pub fn type_of(&self, label: u32) -> u32
        ensures is { result ≡ type_at self.now label }
        ensures of { (ts : List TypeEntry) (t : Ty) → IsNumbering ts self.now → sort_at ts label ≡ Some (Plain t) → IsTy self.now.shapes result t }
    {
        match self.sort(self.number(label)) {
            SortForm::Value(ty) => ty,
            SortForm::Multiple(_) => 0,
            SortForm::Function(_, _) => 0,
            SortForm::Nothing => 0,
        }
    }

    /// What the number of a label stands for.
    pub fn sort(&self, number: u32) -> SortForm
        ensures form { result ≡ sort_form_at self.now.shapes number }
        ensures of { (s : Sort) → IsSort self.now.shapes number s → IsSortForm self.now.shapes s result }
    {
        match self.shapes.key(number as usize) {
            Some(key) => sort_form_of(kind_by(key.0), key.1, key.2),
            None => SortForm::Nothing,
        }
    }

    /// What the number of a type stands for.
    pub fn ty(&self, number: usize) -> TyForm
        ensures form { result ≡ ty_form_at self.now.shapes number }
        ensures of { (t : Ty) → IsTy self.now.shapes number t → IsTyForm self.now.shapes t result }
    {
        match self.shapes.key(number) {
            Some(key) => ty_form_of(kind_by(key.0), key.1),
            None => TyForm::Nothing,
        }
    }

    /// What the number of a list of types stands for.
    pub fn list(&self, number: u32) -> ListForm
        ensures form { result ≡ list_form_at self.now.shapes number }
        ensures of { (ts : List Ty) → IsList self.now.shapes number ts → IsListForm self.now.shapes ts result }
    {
        match self.shapes.key(number as usize) {
            Some(key) => list_form_of(kind_by(key.0), key.1, key.2),
            None => ListForm::End,
        }
    }

    /// How many types a list has; takes constant time.
    pub fn length(&self, number: u32) -> u32
        ensures members { result ≡ members_in (tree_at (trees_in self.now.shapes) number) }
        ensures of { (ts : List Ty) → IsList self.now.shapes number ts → result ≡ length ts }
    {
        self.shapes.members(number)
    }

    /// The type at a place of a list, from 0. Takes few steps, however long the list is.
    pub fn member(&self, list: u32, place: u32) -> Option<u32>
        ensures is { result ≡ member_at self.now.shapes list place }
        ensures within { IsSome result → place < members_at self.now.shapes list }
    {
        let members = self.length(list);
        if place >= members {
            return None;
        }
        let end = self.end_with(list, members - place);
        first_of(self.list(end))
    }

    /// The end of a list that has so many members.
    fn end_with(&self, list: u32, left: u32) -> u32
        requires some { 0 < left }
        requires within { left ≤ members_at self.now.shapes list }
        ensures { result ≡ end_at self.now.shapes (members_at self.now.shapes list - left) list }
    {
        let mut end = list;
        let mut members = self.length(list);
        while members > left {
            end = self.further(end, left);
            members = self.length(end);
        }
        end
    }

    /// A list further on, with at least so many members.
    fn further(&self, list: u32, left: u32) -> u32
        requires { left < members_at self.now.shapes list }
        ensures on { IsFurther self.now.shapes list result }
        ensures within { left ≤ members_at self.now.shapes result }
    {
        let rest = rest_of(self.list(list));
        match skip_at(self.skips.as_slice(), list) {
            Some(skip) if self.length(skip) >= left => skip,
            _ => rest,
        }
    }
}

fn first_of(form: ListForm) -> Option<u32>
    ensures { result ≡ first_in form }
{
    match form {
        ListForm::Member(ty, _) => Some(ty),
        ListForm::End => None,
    }
}

fn rest_of(form: ListForm) -> u32
    ensures { result ≡ behind form }
{
    match form {
        ListForm::Member(_, rest) => rest,
        ListForm::End => 0,
    }
}

/// The form of a sort, by the kind of its tree and the numbers of the parts.
fn sort_form_of(kind: Option<Kind>, first: u32, second: u32) -> SortForm
    ensures { result ≡ sort_form_of kind first second }
{
    match kind {
        Some(Kind::Value) => SortForm::Value(first),
        Some(Kind::Multiple) => SortForm::Multiple(first),
        Some(Kind::Function) => SortForm::Function(first, second),
        _ => SortForm::Nothing,
    }
}

/// The form of a type, by the kind of its tree and the number of the part.
fn ty_form_of(kind: Option<Kind>, first: u32) -> TyForm
    ensures { result ≡ ty_form_of kind first }
{
    match kind {
        Some(Kind::Boolean) => TyForm::Boolean,
        Some(Kind::Character) => TyForm::Character,
        Some(Kind::Integer) => TyForm::Integer,
        Some(Kind::Null) => TyForm::Null,
        Some(Kind::Array) => TyForm::Array(first),
        Some(Kind::Stream) => TyForm::Stream(first),
        Some(Kind::Record) => TyForm::Record(first),
        Some(Kind::Union) => TyForm::Union(first),
        _ => TyForm::Nothing,
    }
}

/// The form of a list, by the kind of its tree and the numbers of the parts.
fn list_form_of(kind: Option<Kind>, first: u32, second: u32) -> ListForm
    ensures { result ≡ list_form_of kind first second }
{
    match kind {
        Some(Kind::Member) => ListForm::Member(first, second),
        _ => ListForm::End,
    }
}

fn over_part(shapes: &mut Shapes, kind: Kind, part: Part) -> Result<u32, NoMemory>
    requires within { part.number ≤ length (trees_in shapes.old) }
    requires room { suc (length (trees_in shapes.old)) < 2 ^ 32 }
    ensures number { IfOk result (λ n. Stands (trees_in shapes.new) n (over (kind_number kind) (tree_at (trees_in shapes.old) part.number))) }
    ensures later { IsLater (trees_in shapes.old) (trees_in shapes.new) }
    ensures grows { length (trees_in shapes.new) ≤ suc (length (trees_in shapes.old)) }
{
    let number = shapes.over(kind, part.number)?;
    Ok(number)
}

fn function_number(
    shapes: &mut Shapes,
    types: &[TypeEntry],
    found: &Found,
    entry: &TypeEntry,
) -> Result<u32, NoMemory>
    requires rising { IsStrictlyIncreasing (map (λ e. e.label) types.now) }
    requires labels { found.now.labels ≡ labels_in types.now }
    requires found { AreFound (trees_in shapes.old) types.now found.now }
    requires room { suc (length (trees_in shapes.old)) < 2 ^ 32 }
    ensures number { IfOk result (λ n. Stands (trees_in shapes.new) n (over_both 12 (list (tree_within most_deep types.now) is_tuple types.now (length types.now) entry.now.first) (list (tree_within most_deep types.now) is_tuple types.now (length types.now) entry.now.second))) }
    ensures later { IsLater (trees_in shapes.old) (trees_in shapes.new) }
    ensures grows { length (trees_in shapes.new) ≤ suc (length (trees_in shapes.old)) }
{
    let arguments = list_part(shapes, types, found, Line::Tuple, entry.first);
    let results = list_part(shapes, types, found, Line::Tuple, entry.second);
    let number = shapes.over_both(Kind::Function, arguments.number, results.number)?;
    Ok(number)
}

/// The number of what an entry stands for, by those of types and of lists of arguments and results.
fn sort_number(
    shapes: &mut Shapes,
    types: &[TypeEntry],
    found: &Found,
    entry: &TypeEntry,
) -> Result<u32, NoMemory>
    requires rising { IsStrictlyIncreasing (map (λ e. e.label) types.now) }
    requires labels { found.now.labels ≡ labels_in types.now }
    requires found { AreFound (trees_in shapes.old) types.now found.now }
    requires room { suc (length (trees_in shapes.old)) < 2 ^ 32 }
    ensures number { IfOk result (λ n. Stands (trees_in shapes.new) n (sort_tree (tree_within most_deep types.now) types.now entry.now (kind_at entry.now.code))) }
    ensures later { IsLater (trees_in shapes.old) (trees_in shapes.new) }
    ensures grows { length (trees_in shapes.new) ≤ suc (length (trees_in shapes.old)) }
{
    match kind_of(entry.code) {
        Some(TypeKind::Multiple) => over_part(
            shapes,
            Kind::Multiple,
            type_part(types, found, entry.first),
        ),
        Some(TypeKind::Function) => function_number(shapes, types, found, entry),
        _ => over_part(shapes, Kind::Value, type_part(types, found, entry.label)),
    }
}

fn sort_numbers(
    shapes: &mut Shapes,
    types: &[TypeEntry],
    found: &Found,
) -> Result<Numbers, NoMemory>
    requires rising { IsStrictlyIncreasing (map (λ e. e.label) types.now) }
    requires labels { found.now.labels ≡ labels_in types.now }
    requires found { AreFound (trees_in shapes.old) types.now found.now }
    requires room { length (trees_in shapes.old) + length types.now < 2 ^ 32 }
    ensures { IfOk result (AreTold (trees_in shapes.new) (λ e. sort_tree (tree_within most_deep types.now) types.now e (kind_at e.code)) types.now) }
{
    let mut sorts = Seq::with_room(shapes.allocator(), types.len())?;
    for entry in types {
        let number = sort_number(shapes, types, found, entry)?;
        sorts.add(number)?;
    }
    Ok(sorts)
}

/// What the labels of a type table stand for, by number: the numbers of two labels are equal exactly
/// where they stand for the same, names left out, and a label's number is 0 exactly where it stands
/// for nothing (IF1 manual M-170, type table). No type is written out.
pub fn sorts_of(alloc: Global, types: &[TypeEntry]) -> Result<Sorts, NoMemory>
    requires rising { IsStrictlyIncreasing (map (λ e. e.label) types.now) }
    requires few { length types.now ≤ most }
    ensures numbers { IfOk result (λ s. AreSorts types.now s.labels s.numbers) }
    ensures stand { IfOk result (λ s. Stand types.now s.shapes s.labels s.numbers) }
    ensures labels { IfOk result (λ s. s.labels ≡ labels_in types.now) }
    ensures once { IfOk result (λ s. AreOnce s.shapes) }
    ensures read { IfOk result (λ s. AreRead s.shapes) }
    ensures keys { IfOk result (λ s. HasKeys s.shapes) }
{
    let mut shapes = Shapes::new(alloc);
    let found = found_in(&mut shapes, types)?;
    let numbers = sort_numbers(&mut shapes, types, &found)?;
    let skips = skips_of(&shapes)?;
    Ok(Sorts {
        labels: found.labels,
        numbers,
        shapes,
        skips,
    })
}
