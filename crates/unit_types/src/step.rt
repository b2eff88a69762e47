//! A token of a written type.
ghost use Rattle.std.specs.Prelude.{◌≡◌, ◌≤◌, ◌+◌, ◌-◌, ◌^◌, ◌++◌, ℕ, List, [], ◌∷◌, length, drop, IsSome, IfOk, IfErr, OnOk};
ghost use Rattle.type_table.specs.declared.form.Form.{Form};
ghost use Rattle.type_table.specs.Tables.{HasFew};
ghost use Rattle.sisal_lex.specs.declared.token.Token.{Token};
ghost use Rattle.typed_tree.specs.Scopes.{AreDistinct};
ghost use Rattle.unit_types.specs.declared.open.Open.{Open};
ghost use Rattle.unit_types.specs.declared.open.Members.{Members};
ghost use Rattle.unit_types.specs.Faults.{IsFault, IsReal, IsUnknown, IsDeep, IsMemberTwice};
ghost use Rattle.unit_types.specs.Accepting.{AreMembers, IsUnion, class, goes, a_name, a_type, behind, behind_name, behind_semicolon, members as within, place_of, shape_of, shapes_of};
ghost use Rattle.unit_types.specs.Reached.{Leads, Refuses};
ghost use Rattle.unit_types.specs.Rests.{AreSized, IsMade, word_of, begun, opened_by, inside_of, no_members, with_name, with_group, members_with, sequence_form, members_form};

use crate::fault::UnitFault;
use crate::form::number;
use crate::name_set::{NameSet, first_twice};
use crate::open::{First, Members, Next, Open, Opener, Sequence};
use crate::type_names::TypeNames;
use flow_value::{NoMemory, Seq};
use sisal_grammar::Back;
use sisal_lex::{Kind, Sign, Token, Word};
use sisal_tree::Named;
use std::alloc::Global;
use type_table::{BOOLEAN, CHARACTER, Form, INTEGER, Member, NULL, Types};

/// Reads a token that may stand here.
pub fn step(
    alloc: Global,
    token: &Token,
    next: Next,
    stack: &mut Back<Open>,
    named: &TypeNames,
    known: usize,
    types: &mut Types,
) -> Result<Next, UnitFault>
    requires goes { IsSome (goes (place_of next) (shapes_of stack.old) (class token.now.kind)) }
    requires few { AreSized (2 ^ 32) stack.old }
    ensures leads { IfOk result (λ later. Leads (drop (length named.now - known) named.now) types.old types.new next stack.old token.now later stack.new) }
    ensures refuses { IfErr result (IsFault (Refuses (drop (length named.now - known) named.now) types.old next stack.old token.now)) }
{
    match next {
        Next::Type => begin(token, named, known, types),
        Next::Bracket(opener, line) => enter(alloc, opener, line, stack),
        Next::Name => add_name(token, stack),
        Next::AfterName => after_name(token, stack, types),
        Next::After(ty) => after_type(token, ty, stack, types),
        Next::AfterSemicolon => after_semicolon(token, stack, types),
    }
}

/// The first token of a type.
fn begin(token: &Token, named: &TypeNames, known: usize, types: &Types) -> Result<Next, UnitFault>
    requires { IsSome (goes a_type [] (class token.now.kind)) }
    ensures leads { IfOk result (λ later. (os : List Open) → Leads (drop (length named.now - known) named.now) types.now types.now Next.Type os token.now later os) }
    ensures refuses { IfErr result (IsFault (λ rule line. (os : List Open) → Refuses (drop (length named.now - known) named.now) types.now Next.Type os token.now rule line)) }
{
    match &token.kind {
        Kind::Word(word) => begin_by_word(*word, token.line),
        Kind::Id(name) => begin_by_name(*name, token.line, named, known, types),
        _ => unreachable!(),
    }
}

fn begin_by_word(word: Word, line: u32) -> Result<Next, UnitFault>
    requires { IsSome (goes a_type [] (class (Kind.Word word))) }
    ensures leads { IfOk result (λ later. (known : List (ℕ × ℕ)) (forms : List Form) (os : List Open) (t : Token) → t.kind ≡ Kind.Word word → t.line ≡ line → Leads known forms forms Next.Type os t later os) }
    ensures refuses { IfErr result (IsFault (λ rule l. (known : List (ℕ × ℕ)) (forms : List Form) (os : List Open) (t : Token) → t.kind ≡ Kind.Word word → t.line ≡ line → Refuses known forms Next.Type os t rule l)) }
{
    begin_by(first_of(word), line)
}

/// What a word begins.
fn first_of(word: Word) -> First
    requires { IsSome (goes a_type [] (class (Kind.Word word))) }
    ensures { word ≡ word_of result }
{
    match word {
        Word::WBoolean => First::Boolean,
        Word::WCharacter => First::Character,
        Word::WInteger => First::Integer,
        Word::WNull => First::Null,
        Word::WReal => First::Real,
        Word::WDoubleReal => First::DoubleReal,
        Word::WArray => First::Opens(Opener::Array),
        Word::WStream => First::Opens(Opener::Stream),
        Word::WRecord => First::Opens(Opener::Record),
        Word::WUnion => First::Opens(Opener::Union),
        _ => unreachable!(),
    }
}

/// What comes behind the first word of a type: rule 3 where it is real.
fn begin_by(first: First, line: u32) -> Result<Next, UnitFault>
    ensures begun { IfOk result (λ later. begun first line ≡ Some later) }
    ensures real { IfErr result (IsFault (IsReal first line)) }
{
    match first {
        First::Boolean => Ok(Next::After(BOOLEAN)),
        First::Character => Ok(Next::After(CHARACTER)),
        First::Integer => Ok(Next::After(INTEGER)),
        First::Null => Ok(Next::After(NULL)),
        First::Real | First::DoubleReal => Err(UnitFault::RealType(line)),
        First::Opens(opener) => Ok(Next::Bracket(opener, line)),
    }
}

/// A name whose number is not in the table is not known either; no text has one.
fn begin_by_name(
    name: u32,
    line: u32,
    named: &TypeNames,
    known: usize,
    types: &Types,
) -> Result<Next, UnitFault>
    ensures leads { IfOk result (λ later. (os : List Open) (t : Token) → t.kind ≡ Kind.Id name → Leads (drop (length named.now - known) named.now) types.now types.now Next.Type os t later os) }
    ensures unknown { IfErr result (IsFault (IsUnknown types.now (drop (length named.now - known) named.now) name line)) }
{
    match named.find(name, known) {
        Some(ty) => {
            if ty < types.len() {
                Ok(Next::After(ty))
            } else {
                Err(UnitFault::UnknownType(line))
            }
        }
        None => Err(UnitFault::UnknownType(line)),
    }
}

/// The opening bracket.
fn enter(
    alloc: Global,
    opener: Opener,
    line: u32,
    stack: &mut Back<Open>,
) -> Result<Next, UnitFault>
    ensures leads { IfOk result (λ later. (known : List (ℕ × ℕ)) (forms : List Form) (t : Token) → t.kind ≡ Kind.Sign Sign.SOpenBracket → Leads known forms forms (Next.Bracket opener line) stack.old t later stack.new) }
    ensures memory { IfErr result (λ e. e ≡ UnitFault.NoMemory) }
{
    stack.push(opened(alloc, opener, line))?;
    Ok(inside(opener))
}

fn opened(alloc: Global, opener: Opener, line: u32) -> Open
    ensures { result ≡ opened_by opener line }
{
    match opener {
        Opener::Array => Open::Sequence(Sequence {
            line,
            is_stream: false,
        }),
        Opener::Stream => Open::Sequence(Sequence {
            line,
            is_stream: true,
        }),
        Opener::Record => Open::Members(no_members(alloc, line, false)),
        Opener::Union => Open::Members(no_members(alloc, line, true)),
    }
}

fn no_members(alloc: Global, line: u32, is_union: bool) -> Members
    ensures { result ≡ no_members line is_union }
{
    Members {
        line,
        is_union,
        members: Seq::new(alloc),
        names: NameSet::new(alloc),
        group: Seq::new(alloc),
    }
}

fn inside(opener: Opener) -> Next
    ensures { result ≡ inside_of opener }
{
    match opener {
        Opener::Array | Opener::Stream => Next::Type,
        Opener::Record | Opener::Union => Next::Name,
    }
}

/// A name of a member.
fn add_name(token: &Token, stack: &mut Back<Open>) -> Result<Next, UnitFault>
    requires { IsSome (goes a_name (shapes_of stack.old) (class token.now.kind)) }
    ensures name { IfOk result (λ later. (known : List (ℕ × ℕ)) (forms : List Form) → Leads known forms forms Next.Name stack.old token.now later stack.new) }
    ensures behind { IfOk result (λ later. (known : List (ℕ × ℕ)) (forms : List Form) → Leads known forms forms Next.AfterSemicolon stack.old token.now later stack.new) }
    ensures memory { IfErr result (λ e. e ≡ UnitFault.NoMemory) }
{
    match &token.kind {
        Kind::Id(name) => {
            let named = Named {
                name: *name,
                line: token.line,
            };
            add_to_group(named, stack)?;
            Ok(Next::AfterName)
        }
        _ => unreachable!(),
    }
}

fn add_to_group(named: Named, stack: &mut Back<Open>) -> Result<(), NoMemory>
    requires { AreMembers (shapes_of stack.old) }
    ensures { OnOk result ((m : Members) × (os : List Open) × (stack.old ≡ Open.Members m ∷ os) × (stack.new ≡ Open.Members (with_name m named) ∷ os)) }
{
    let Members {
        line,
        is_union,
        members,
        names,
        mut group,
    } = innermost(stack);
    group.add(named)?;
    stack.push(Open::Members(Members {
        line,
        is_union,
        members,
        names,
        group,
    }))
}

/// Takes the innermost of what is open, a record or a union.
fn innermost(stack: &mut Back<Open>) -> Members
    requires { AreMembers (shapes_of stack.old) }
    ensures { stack.old ≡ Open.Members result ∷ stack.new }
{
    match stack.pop() {
        Some(Open::Members(members)) => members,
        _ => unreachable!(),
    }
}

/// What stands behind a name of a member.
fn after_name(token: &Token, stack: &mut Back<Open>, types: &mut Types) -> Result<Next, UnitFault>
    requires goes { IsSome (goes behind_name (shapes_of stack.old) (class token.now.kind)) }
    requires few { AreSized (2 ^ 32) stack.old }
    ensures leads { IfOk result (λ later. (known : List (ℕ × ℕ)) → Leads known types.old types.new Next.AfterName stack.old token.now later stack.new) }
    ensures refuses { IfErr result (IsFault (λ rule line. (known : List (ℕ × ℕ)) → Refuses known types.old Next.AfterName stack.old token.now rule line)) }
{
    match &token.kind {
        Kind::Sign(sign) => end_name(*sign, stack, types),
        _ => unreachable!(),
    }
}

fn end_name(sign: Sign, stack: &mut Back<Open>, types: &mut Types) -> Result<Next, UnitFault>
    requires goes { IsSome (goes behind_name (shapes_of stack.old) (class (Kind.Sign sign))) }
    requires few { AreSized (2 ^ 32) stack.old }
    ensures leads { IfOk result (λ later. (known : List (ℕ × ℕ)) (t : Token) → t.kind ≡ Kind.Sign sign → Leads known types.old types.new Next.AfterName stack.old t later stack.new) }
    ensures refuses { IfErr result (IsFault (λ rule line. (known : List (ℕ × ℕ)) (t : Token) → t.kind ≡ Kind.Sign sign → Refuses known types.old Next.AfterName stack.old t rule line)) }
{
    match sign {
        Sign::SComma => Ok(Next::Name),
        Sign::SColon => Ok(Next::Type),
        _ => without_type(sign, stack, types),
    }
}

/// Tags without a type have the type `null`.
fn without_type(sign: Sign, stack: &mut Back<Open>, types: &mut Types) -> Result<Next, UnitFault>
    requires union { IsUnion (shapes_of stack.old) }
    requires goes { IsSome (goes behind (shapes_of stack.old) (class (Kind.Sign sign))) }
    requires few { AreSized (2 ^ 32) stack.old }
    ensures leads { IfOk result (λ later. (known : List (ℕ × ℕ)) (t : Token) → t.kind ≡ Kind.Sign sign → Leads known types.old types.new Next.AfterName stack.old t later stack.new) }
    ensures refuses { IfErr result (IsFault (λ rule line. (known : List (ℕ × ℕ)) (t : Token) → t.kind ≡ Kind.Sign sign → Refuses known types.old Next.AfterName stack.old t rule line)) }
{
    let members = innermost(stack);
    end_group(sign, NULL, members, stack, types)
}

/// What stands behind a type.
fn after_type(
    token: &Token,
    ty: usize,
    stack: &mut Back<Open>,
    types: &mut Types,
) -> Result<Next, UnitFault>
    requires goes { IsSome (goes behind (shapes_of stack.old) (class token.now.kind)) }
    requires few { AreSized (2 ^ 32) stack.old }
    ensures leads { IfOk result (λ later. (known : List (ℕ × ℕ)) → Leads known types.old types.new (Next.After ty) stack.old token.now later stack.new) }
    ensures refuses { IfErr result (IsFault (λ rule line. (known : List (ℕ × ℕ)) → Refuses known types.old (Next.After ty) stack.old token.now rule line)) }
{
    match &token.kind {
        Kind::Sign(sign) => end_type(*sign, ty, stack, types),
        _ => unreachable!(),
    }
}

fn end_type(
    sign: Sign,
    ty: usize,
    stack: &mut Back<Open>,
    types: &mut Types,
) -> Result<Next, UnitFault>
    requires goes { IsSome (goes behind (shapes_of stack.old) (class (Kind.Sign sign))) }
    requires few { AreSized (2 ^ 32) stack.old }
    ensures leads { IfOk result (λ later. (known : List (ℕ × ℕ)) (t : Token) → t.kind ≡ Kind.Sign sign → Leads known types.old types.new (Next.After ty) stack.old t later stack.new) }
    ensures refuses { IfErr result (IsFault (λ rule line. (known : List (ℕ × ℕ)) (t : Token) → t.kind ≡ Kind.Sign sign → Refuses known types.old (Next.After ty) stack.old t rule line)) }
{
    match stack.pop() {
        Some(innermost) => end_type_in(sign, ty, innermost, stack, types),
        None => unreachable!(),
    }
}

/// What stands behind a type in this bracket.
fn end_type_in(
    sign: Sign,
    ty: usize,
    innermost: Open,
    stack: &mut Back<Open>,
    types: &mut Types,
) -> Result<Next, UnitFault>
    requires goes { IsSome (goes behind (shape_of innermost ∷ shapes_of stack.old) (class (Kind.Sign sign))) }
    requires few { AreSized (2 ^ 32) (innermost ∷ stack.old) }
    ensures leads { IfOk result (λ later. (known : List (ℕ × ℕ)) (t : Token) → t.kind ≡ Kind.Sign sign → Leads known types.old types.new (Next.After ty) (innermost ∷ stack.old) t later stack.new) }
    ensures refuses { IfErr result (IsFault (λ rule line. (known : List (ℕ × ℕ)) (t : Token) → t.kind ≡ Kind.Sign sign → Refuses known types.old (Next.After ty) (innermost ∷ stack.old) t rule line)) }
{
    match innermost {
        Open::Sequence(sequence) => close_sequence(ty, sequence, types),
        Open::Members(members) => end_group(sign, ty, members, stack, types),
    }
}

fn close_sequence(ty: usize, sequence: Sequence, types: &mut Types) -> Result<Next, UnitFault>
    ensures leads { IfOk result (λ later. (known : List (ℕ × ℕ)) (os : List Open) (t : Token) → t.kind ≡ Kind.Sign Sign.SCloseBracket → Leads known types.old types.new (Next.After ty) (Open.Sequence sequence ∷ os) t later os) }
    ensures refuses { IfErr result (IsFault (λ rule line. (known : List (ℕ × ℕ)) (os : List Open) (t : Token) → t.kind ≡ Kind.Sign Sign.SCloseBracket → Refuses known types.old (Next.After ty) (Open.Sequence sequence ∷ os) t rule line)) }
{
    made(sequence_form(sequence.is_stream, ty), sequence.line, types)
}

fn sequence_form(is_stream: bool, ty: usize) -> Form
    ensures { result ≡ sequence_form is_stream ty }
{
    if is_stream {
        Form::Stream(ty)
    } else {
        Form::Array(ty)
    }
}

/// Gives the names of a group their type, and reads the sign behind it.
fn end_group(
    sign: Sign,
    ty: usize,
    members: Members,
    stack: &mut Back<Open>,
    types: &mut Types,
) -> Result<Next, UnitFault>
    requires goes { IsSome (goes behind (within members.is_union ∷ shapes_of stack.old) (class (Kind.Sign sign))) }
    requires few { length members.members + length members.group ≤ 2 ^ 32 }
    ensures leads { IfOk result (λ later. (known : List (ℕ × ℕ)) (t : Token) → t.kind ≡ Kind.Sign sign → Leads known types.old types.new (Next.After ty) (Open.Members members ∷ stack.old) t later stack.new) }
    ensures refuses { IfErr result (IsFault (λ rule line. (known : List (ℕ × ℕ)) (t : Token) → t.kind ≡ Kind.Sign sign → Refuses known types.old (Next.After ty) (Open.Members members ∷ stack.old) t rule line)) }
{
    let grouped = with_group(members, ty)?;
    match sign {
        Sign::SSemicolon => keep_open(grouped, stack),
        Sign::SCloseBracket => close_members(grouped, types),
        _ => unreachable!(),
    }
}

fn keep_open(members: Members, stack: &mut Back<Open>) -> Result<Next, UnitFault>
    ensures later { IfOk result (λ later. later ≡ Next.AfterSemicolon) }
    ensures stack { OnOk result (stack.new ≡ Open.Members members ∷ stack.old) }
    ensures memory { IfErr result (λ e. e ≡ UnitFault.NoMemory) }
{
    stack.push(Open::Members(members))?;
    Ok(Next::AfterSemicolon)
}

/// The members with those of the group, of this type: rule 5 where a name stands twice.
fn with_group(members: Members, ty: usize) -> Result<Members, UnitFault>
    ensures grouped { IfOk result (λ m. m ≡ with_group members ty) }
    ensures twice { IfErr result (IsFault (IsMemberTwice members)) }
{
    let Members {
        line,
        is_union,
        mut members,
        mut names,
        group,
    } = members;
    if let Some(line) = first_twice(group.as_slice(), &mut names)? {
        return Err(UnitFault::MemberTwice(line));
    }
    add_members(group.as_slice(), ty, &mut members)?;
    Ok(Members {
        line,
        is_union,
        members,
        names,
        group: group.fresh(),
    })
}

fn add_members(names: &[Named], ty: usize, members: &mut Seq<Member>) -> Result<(), NoMemory>
    ensures { OnOk result (members.new ≡ members.old ++ members_with names.now ty) }
{
    for named in names {
        members.add(Member {
            name: named.name,
            ty,
        })?;
    }
    Ok(())
}

/// What stands behind a semicolon: it may be the last.
fn after_semicolon(
    token: &Token,
    stack: &mut Back<Open>,
    types: &mut Types,
) -> Result<Next, UnitFault>
    requires goes { IsSome (goes behind_semicolon (shapes_of stack.old) (class token.now.kind)) }
    requires few { AreSized (2 ^ 32) stack.old }
    ensures leads { IfOk result (λ later. (known : List (ℕ × ℕ)) → Leads known types.old types.new Next.AfterSemicolon stack.old token.now later stack.new) }
    ensures refuses { IfErr result (IsFault (λ rule line. (known : List (ℕ × ℕ)) → Refuses known types.old Next.AfterSemicolon stack.old token.now rule line)) }
{
    match &token.kind {
        Kind::Sign(_) => {
            let members = innermost(stack);
            close_members(members, types)
        }
        _ => add_name(token, stack),
    }
}

/// The type of a record or a union.
fn close_members(members: Members, types: &mut Types) -> Result<Next, UnitFault>
    requires { length members.members ≤ 2 ^ 32 }
    ensures made { IfOk result (λ later. IsMade types.old types.new (members_form members.is_union members.members) later) }
    ensures distinct { AreDistinct members.names }
    ensures deep { IfErr result (IsFault (IsDeep types.old (members_form members.is_union members.members) members.line)) }
{
    let Members {
        line,
        is_union,
        members,
        names,
        group: _,
    } = members;
    names.holds();
    made(members_form(is_union, members), line, types)
}

fn members_form(is_union: bool, members: Seq<Member>) -> Form
    ensures { result ≡ members_form is_union members }
{
    if is_union {
        Form::Union(members)
    } else {
        Form::Record(members)
    }
}

/// The type of a form: rule 4, on the line of its word, where it is deeper than 64.
fn made(form: Form, line: u32, types: &mut Types) -> Result<Next, UnitFault>
    requires { HasFew form }
    ensures made { IfOk result (λ later. IsMade types.old types.new form later) }
    ensures deep { IfErr result (IsFault (IsDeep types.old form line)) }
{
    match number(types, form)? {
        Some(ty) => Ok(Next::After(ty)),
        None => Err(UnitFault::DeepType(line)),
    }
}
