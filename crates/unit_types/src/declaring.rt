//! Type definitions and headers of a unit.
ghost use Rattle.std.specs.Prelude.{◌≡◌, ◌≢◌, ◌+◌, ◌≤◌, ℕ, List, drop, ◌++◌, [], ◌∷◌, map, length, All, Some, true, false, None, slice_get, IfErr, IfOk, IfSome, OnOk};
ghost use Rattle.std.specs.Option.{option_copied};
ghost use Rattle.name_scope.specs.Newest.{newest};
ghost use Rattle.flow_value.specs.declared.ty.Ty.{Ty};
ghost use Rattle.type_rules.specs.declared.fault.TypeFault.TheVariants as fault;
ghost use Rattle.text_trees.specs.Spelled.{IsHeader, IsItem, IsType};
ghost use Rattle.type_rules.specs.Faults.{IsRule};
ghost use Rattle.type_rules.specs.Typed.{AreSpelledOnce};
ghost use Rattle.type_table.specs.Tables.{basic_forms, IsTable};
ghost use Rattle.unit_types.specs.Rests.{AreTokensSpelled, HasNames, Names, IsNamed};
ghost use Rattle.sisal_tree.specs.declared.unit.Item.{Item};
ghost use Rattle.sisal_tree.specs.declared.unit.Unit as tree;
ghost use Rattle.typed_tree.specs.Faults.{BreaksUnit};
ghost use Rattle.unit_types.specs.Headers.{IsOf, IsDeclaring, BreaksAt, AreItems, IsDeclared};
ghost use Rattle.unit_types.specs.Faults.{IsUnitRule, fault_of, IsFault};
ghost use Rattle.unit_types.specs.Headings.{AreCounted, HaveResults, heading_of, heading_in, has_body, given_functions, given_by, given_as, announced_as, numbering, IsOwnName, IsBuiltName, IsFree, IsTaken, AreOwn, HasNoBody, IsUndefined, IsKept, IsBroken, HasSame, function_at};

use crate::fault::{UnitFault, numbered};
use crate::header::{Signature, signature_of};
use crate::type_names::TypeNames;
use crate::written::type_of;
use flow_value::{Name, NoMemory, Numbers, Seq, item_at};
use name_scope::Scope;
use sisal_lex::Token;
use sisal_tree::{FunDef, FunKind, Item, Named, TypeDef, Unit};
use std::alloc::Global;
use type_rules::TypeFault;
use type_table::Types;
use typed_tree::built_in_named;

/// What the type definitions and headers of a unit say.
#[derive(Drop)]
pub struct Declared {
    /// The types.
    pub types: Types,
    /// The names of types.
    pub named: TypeNames,
    /// The functions that are given and not only announced by `forward`, in the order of the text.
    pub functions: Seq<Signature>,
    /// Their numbers by their names.
    pub numbers: Scope<u32>,
    /// The functions after `define`, by their numbers.
    pub defines: Numbers,
}

/// A header behind `forward`.
#[derive(Drop)]
struct Announced {
    /// The line of the function's name.
    line: u32,
    /// What it says.
    signature: Signature,
}

/// What the items up to some place say.
#[derive(Drop)]
struct Declaring {
    types: Types,
    named: TypeNames,
    functions: Seq<Signature>,
    /// For each function whether its body is here.
    bodies: Seq<bool>,
    numbers: Scope<u32>,
    announced: Seq<Announced>,
    ghost counted: { AreCounted functions numbers },
}

/// What the type definitions and headers of a unit say (SISAL Language Reference Manual 1.2,
/// programs and scope). The first fault is named: for each item in order rules 2 to 5 on its
/// types, 1 on two types of a name, 8 on two parameters of a name, 6 on a function whose name
/// another one has; then 7 on the names after `define`, and 6 and 7 on the headers behind
/// `forward`.
pub fn declare(alloc: Global, unit: &Unit) -> Result<Declared, TypeFault>
    requires { All (IsItem unit.now.tokens.list (length unit.now.tokens.names)) unit.now.items }
    // The functions are those that are given, in the order of the text.
    ensures functions { IfOk result (λ d. map heading_in d.functions ≡ map heading_of (given_functions unit.now.items)) }
    ensures numbers { IfOk result (λ d. d.numbers ≡ numbering 0 [] (map (λ s. s.name) d.functions)) }
    // Each name after `define` is that of the function of its number, which has its body here.
    ensures named { IfOk result (λ d. map (λ k. slice_get (map (λ s. s.name) d.functions) k) d.defines ≡ map (λ n. Some n.name) unit.now.defines) }
    ensures bodies { IfOk result (λ d. All (λ k. slice_get (map (λ f. has_body f.kind) (given_functions unit.now.items)) k ≡ Some true) d.defines) }
    // The names of types are those of the type definitions, where the names of the text are spelled so.
    ensures names { IfOk result (λ d. (texts : List (List ℕ)) → AreTokensSpelled texts unit.now.tokens.list
        → (types : List (ℕ × Ty)) × Names texts unit.now.tokens.list [] unit.now.items types × HasNames texts d.types d.named types) }
    ensures rule { IfErr result IsUnitRule }
    // The functions of the unit are declared, each once, and these are the ones that are given, with the types of their parameters and results.
    ensures declares { IfOk result (λ d. AreTokensSpelled unit.now.tokens.names unit.now.tokens.list → IsDeclared unit.now d.types d.named d.functions d.defines) }
    // No two functions have one name, and none has that of a call that is built in.
    ensures own { IfOk result (λ d. AreOwn unit.now.tokens.names (map (λ s. s.name) d.functions)) }
    // Each function has a result.
    ensures results { IfOk result (λ d. All (λ s. 1 ≤ length s.results) d.functions) }
    // A rule that is named is broken on the line, where each name is spelled in its own way.
    ensures breaks { IfErr result (IsRule (λ rule line. AreTokensSpelled unit.now.tokens.names unit.now.tokens.list → AreSpelledOnce unit.now.tokens.names → BreaksUnit unit.now rule line)) }
{
    match declare_unit(alloc, unit) {
        Ok(declared) => Ok(declared),
        Err(fault) => Err(numbered(fault)),
    }
}

/// The same, by the kind of the fault.
fn declare_unit(alloc: Global, unit: &Unit) -> Result<Declared, UnitFault>
    requires { All (IsItem unit.now.tokens.list (length unit.now.tokens.names)) unit.now.items }
    // The functions are those that are given, in the order of the text.
    ensures functions { IfOk result (λ d. map heading_in d.functions ≡ map heading_of (given_functions unit.now.items)) }
    ensures numbers { IfOk result (λ d. d.numbers ≡ numbering 0 [] (map (λ s. s.name) d.functions)) }
    // Each name after `define` is that of the function of its number, which has its body here.
    ensures named { IfOk result (λ d. map (λ k. slice_get (map (λ s. s.name) d.functions) k) d.defines ≡ map (λ n. Some n.name) unit.now.defines) }
    ensures bodies { IfOk result (λ d. All (λ k. slice_get (map (λ f. has_body f.kind) (given_functions unit.now.items)) k ≡ Some true) d.defines) }
    // The names of types are those of the type definitions, where the names of the text are spelled so.
    ensures names { IfOk result (λ d. (texts : List (List ℕ)) → AreTokensSpelled texts unit.now.tokens.list
        → (types : List (ℕ × Ty)) × Names texts unit.now.tokens.list [] unit.now.items types × HasNames texts d.types d.named types) }
    // The functions of the unit are declared, each once, and these are the ones that are given, with the types of their parameters and results.
    ensures declares { IfOk result (λ d. AreTokensSpelled unit.now.tokens.names unit.now.tokens.list → IsDeclared unit.now d.types d.named d.functions d.defines) }
    // No two functions have one name, and none has that of a call that is built in.
    ensures own { IfOk result (λ d. AreOwn unit.now.tokens.names (map (λ s. s.name) d.functions)) }
    ensures results { IfOk result (λ d. HaveResults d.functions) }
    // A rule that is named is broken on the line, where each name is spelled in its own way.
    ensures breaks { IfErr result (IsFault (λ rule line. AreTokensSpelled unit.now.tokens.names unit.now.tokens.list → AreSpelledOnce unit.now.tokens.names → BreaksUnit unit.now rule line)) }
{
    let tokens = unit.tokens.list.as_slice();
    let spellings = unit.tokens.names.as_slice();
    let declaring = declare_all(alloc, tokens, spellings, unit.items.as_slice())?;
    let defines = defined(alloc, unit.defines.as_slice(), &declaring)?;
    are_given(&declaring)?;
    Ok(finish(declaring, defines))
}

/// All items in order.
fn declare_all(
    alloc: Global,
    tokens: &[Token],
    spellings: &[Name],
    items: &[Item],
) -> Result<Declaring, UnitFault>
    requires { All (IsItem tokens.now (length spellings.now)) items.now }
    ensures functions { IfOk result (λ d. map heading_in d.functions ≡ map heading_of (given_functions items.now)) }
    ensures bodies { IfOk result (λ d. d.bodies ≡ map (λ f. has_body f.kind) (given_functions items.now)) }
    ensures numbers { IfOk result (λ d. d.numbers ≡ numbering 0 [] (map (λ s. s.name) d.functions)) }
    ensures names { IfOk result (λ d. (texts : List (List ℕ)) → AreTokensSpelled texts tokens.now → (types : List (ℕ × Ty)) × Names texts tokens.now [] items.now types × HasNames texts d.types d.named types) }
    ensures declares { IfOk result (λ d. (u : tree.Unit) → u.tokens.list ≡ tokens.now → AreTokensSpelled u.tokens.names tokens.now → AreItems u items.now d.types d.named d.functions d.announced) }
    ensures own { IfOk result (λ d. AreOwn spellings.now (map (λ s. s.name) d.functions)) }
    ensures results { IfOk result (λ d. HaveResults d.functions) }
    ensures table { IfOk result (λ d. IsTable d.types) }
    ensures breaks { IfErr result (IsFault (λ rule line. (u : tree.Unit) → IsOf tokens.now spellings.now u → u.items ≡ items.now → BreaksUnit u rule line)) }
{
    let mut declaring = nothing_declared(alloc)?;
    for item in items {
        declare_item(alloc, tokens, spellings, item, &mut declaring)?;
    }
    declaring.types.holds();
    Ok(declaring)
}

fn nothing_declared(alloc: Global) -> Result<Declaring, NoMemory>
    ensures functions { IfOk result (λ d. d.functions ≡ []) }
    ensures bodies { IfOk result (λ d. d.bodies ≡ []) }
    ensures numbers { IfOk result (λ d. d.numbers ≡ []) }
    ensures types { IfOk result (λ d. d.types ≡ basic_forms) }
    ensures named { IfOk result (λ d. d.named ≡ []) }
    ensures announced { IfOk result (λ d. d.announced ≡ []) }
{
    Ok(Declaring {
        types: Types::new(alloc)?,
        named: TypeNames::new(alloc),
        functions: Seq::new(alloc),
        bodies: Seq::new(alloc),
        numbers: Scope::new(alloc),
        announced: Seq::new(alloc),
    })
}

fn finish(declaring: Declaring, defines: Numbers) -> Declared
    ensures functions { result.functions ≡ declaring.functions }
    ensures numbers { result.numbers ≡ declaring.numbers }
    ensures defines { result.defines ≡ defines }
    ensures types { result.types ≡ declaring.types }
    ensures named { result.named ≡ declaring.named }
{
    let Declaring {
        types,
        named,
        functions,
        bodies: _,
        numbers,
        announced: _,
    } = declaring;
    Declared {
        types,
        named,
        functions,
        numbers,
        defines,
    }
}

fn declare_item(
    alloc: Global,
    tokens: &[Token],
    spellings: &[Name],
    item: &Item,
    declaring: &mut Declaring,
) -> Result<(), UnitFault>
    requires { IsItem tokens.now (length spellings.now) item.now }
    ensures functions { OnOk result (map heading_in declaring.new.functions ≡ map heading_in declaring.old.functions ++ map heading_of (given_by item.now)) }
    ensures results { HaveResults declaring.old.functions → OnOk result (HaveResults declaring.new.functions) }
    ensures bodies { OnOk result (declaring.new.bodies ≡ declaring.old.bodies ++ map (λ f. has_body f.kind) (given_by item.now)) }
    ensures numbers { declaring.old.numbers ≡ numbering 0 [] (map (λ s. s.name) declaring.old.functions) → OnOk result (declaring.new.numbers ≡ numbering 0 [] (map (λ s. s.name) declaring.new.functions)) }
    ensures names { OnOk result ((texts : List (List ℕ)) (types : List (ℕ × Ty)) → AreTokensSpelled texts tokens.now → HasNames texts declaring.old.types declaring.old.named types
        → IsNamed texts tokens.now types item.now declaring.new.types declaring.new.named) }
    ensures declares { OnOk result ((u : tree.Unit) (items : List Item) (n : ℕ) → u.tokens.list ≡ tokens.now → AreTokensSpelled u.tokens.names tokens.now → drop n items ≡ item.now ∷ drop (n + 1) items
        → IsDeclaring u items n declaring.old.types declaring.old.named declaring.old.functions declaring.old.announced → IsDeclaring u items (n + 1) declaring.new.types declaring.new.named declaring.new.functions declaring.new.announced) }
    ensures breaks { declaring.old.numbers ≡ numbering 0 [] (map (λ s. s.name) declaring.old.functions) → IfErr result (IsFault (BreaksAt tokens.now spellings.now item.now declaring.old.types declaring.old.named declaring.old.functions declaring.old.announced)) }
    ensures own { declaring.old.numbers ≡ numbering 0 [] (map (λ s. s.name) declaring.old.functions) → AreOwn spellings.now (map (λ s. s.name) declaring.old.functions)
        → OnOk result (AreOwn spellings.now (map (λ s. s.name) declaring.new.functions)) }
{
    match item {
        Item::Alias(definition) => declare_type(alloc, tokens, definition, declaring),
        Item::Function(function) => {
            declare_function(alloc, tokens, spellings, function, declaring)
        }
    }
}

/// A type definition: rule 1 where its name has a type already.
fn declare_type(
    alloc: Global,
    tokens: &[Token],
    definition: &TypeDef,
    declaring: &mut Declaring,
) -> Result<(), UnitFault>
    requires { IsType tokens.now definition.now.ty }
    ensures functions { declaring.new.functions ≡ declaring.old.functions }
    ensures bodies { declaring.new.bodies ≡ declaring.old.bodies }
    ensures numbers { declaring.new.numbers ≡ declaring.old.numbers }
    ensures names { OnOk result ((texts : List (List ℕ)) (types : List (ℕ × Ty)) → AreTokensSpelled texts tokens.now → HasNames texts declaring.old.types declaring.old.named types
        → IsNamed texts tokens.now types (Item.Alias definition.now) declaring.new.types declaring.new.named) }
    ensures declares { OnOk result ((u : tree.Unit) (items : List Item) (n : ℕ) → u.tokens.list ≡ tokens.now → AreTokensSpelled u.tokens.names tokens.now → drop n items ≡ Item.Alias definition.now ∷ drop (n + 1) items
        → IsDeclaring u items n declaring.old.types declaring.old.named declaring.old.functions declaring.old.announced → IsDeclaring u items (n + 1) declaring.new.types declaring.new.named declaring.new.functions declaring.new.announced) }
    ensures breaks { IfErr result (IsFault (λ rule line. (spellings : List (List ℕ)) → BreaksAt tokens.now spellings (Item.Alias definition.now) declaring.old.types declaring.old.named declaring.old.functions declaring.old.announced rule line)) }
{
    let known = declaring.named.count();
    let ty = type_of(
        alloc,
        tokens,
        definition.ty,
        &declaring.named,
        known,
        &mut declaring.types,
    )?;
    if declaring.named.define(definition.name, ty)? {
        Ok(())
    } else {
        Err(UnitFault::TwoTypes(definition.line))
    }
}

fn declare_function(
    alloc: Global,
    tokens: &[Token],
    spellings: &[Name],
    function: &FunDef,
    declaring: &mut Declaring,
) -> Result<(), UnitFault>
    requires { IsHeader tokens.now (length spellings.now) function.now.header }
    ensures functions { OnOk result (map heading_in declaring.new.functions ≡ map heading_in declaring.old.functions ++ map heading_of (given_by (Item.Function function.now))) }
    ensures results { HaveResults declaring.old.functions → OnOk result (HaveResults declaring.new.functions) }
    ensures bodies { OnOk result (declaring.new.bodies ≡ declaring.old.bodies ++ map (λ f. has_body f.kind) (given_by (Item.Function function.now))) }
    ensures numbers { declaring.old.numbers ≡ numbering 0 [] (map (λ s. s.name) declaring.old.functions) → OnOk result (declaring.new.numbers ≡ numbering 0 [] (map (λ s. s.name) declaring.new.functions)) }
    ensures names { OnOk result ((texts : List (List ℕ)) (types : List (ℕ × Ty)) → AreTokensSpelled texts tokens.now → HasNames texts declaring.old.types declaring.old.named types
        → IsNamed texts tokens.now types (Item.Function function.now) declaring.new.types declaring.new.named) }
    ensures declares { OnOk result ((u : tree.Unit) (items : List Item) (n : ℕ) → u.tokens.list ≡ tokens.now → AreTokensSpelled u.tokens.names tokens.now → drop n items ≡ Item.Function function.now ∷ drop (n + 1) items
        → IsDeclaring u items n declaring.old.types declaring.old.named declaring.old.functions declaring.old.announced → IsDeclaring u items (n + 1) declaring.new.types declaring.new.named declaring.new.functions declaring.new.announced) }
    ensures breaks { declaring.old.numbers ≡ numbering 0 [] (map (λ s. s.name) declaring.old.functions) → IfErr result (IsFault (BreaksAt tokens.now spellings.now (Item.Function function.now) declaring.old.types declaring.old.named declaring.old.functions declaring.old.announced)) }
    ensures own { declaring.old.numbers ≡ numbering 0 [] (map (λ s. s.name) declaring.old.functions) → AreOwn spellings.now (map (λ s. s.name) declaring.old.functions)
        → OnOk result (AreOwn spellings.now (map (λ s. s.name) declaring.new.functions)) }
{
    let signature = signature_of(
        alloc,
        tokens,
        function.line,
        &function.header,
        &declaring.named,
        &mut declaring.types,
    )?;
    let line = function.header.name.line;
    declare_signature(spellings, line, &function.kind, signature, declaring)
}

/// A function, whose name stands on `line`.
fn declare_signature(
    spellings: &[Name],
    line: u32,
    kind: &FunKind,
    signature: Signature,
    declaring: &mut Declaring,
) -> Result<(), UnitFault>
    ensures functions { OnOk result (declaring.new.functions ≡ declaring.old.functions ++ given_as kind.now signature) }
    ensures bodies { OnOk result (declaring.new.bodies ≡ declaring.old.bodies ++ given_as kind.now (has_body kind.now)) }
    ensures numbers { declaring.old.numbers ≡ numbering 0 [] (map (λ s. s.name) declaring.old.functions) → OnOk result (declaring.new.numbers ≡ numbering 0 [] (map (λ s. s.name) declaring.new.functions)) }
    ensures types { declaring.new.types ≡ declaring.old.types }
    ensures named { declaring.new.named ≡ declaring.old.named }
    ensures announced { OnOk result (declaring.new.announced ≡ declaring.old.announced ++ announced_as kind.now (record { line = line; signature = signature })) }
    ensures taken { IfErr result (IsFault (λ rule at. (rule ≡ 6) × (at ≡ line) × (given_as kind.now signature ≡ signature ∷ []) × IsTaken spellings.now declaring.old.numbers signature.name)) }
    ensures own { declaring.old.numbers ≡ numbering 0 [] (map (λ s. s.name) declaring.old.functions) → AreOwn spellings.now (map (λ s. s.name) declaring.old.functions)
        → OnOk result (AreOwn spellings.now (map (λ s. s.name) declaring.new.functions)) }
{
    match kind {
        FunKind::Forward => announce(line, signature, declaring),
        FunKind::Global => give(spellings, line, signature, false, declaring),
        FunKind::Defined(_) => give(spellings, line, signature, true, declaring),
    }
}

/// A function behind `forward`.
fn announce(line: u32, signature: Signature, declaring: &mut Declaring) -> Result<(), UnitFault>
    ensures functions { declaring.new.functions ≡ declaring.old.functions }
    ensures bodies { declaring.new.bodies ≡ declaring.old.bodies }
    ensures numbers { declaring.new.numbers ≡ declaring.old.numbers }
    ensures types { declaring.new.types ≡ declaring.old.types }
    ensures named { declaring.new.named ≡ declaring.old.named }
    ensures announced { OnOk result (declaring.new.announced ≡ declaring.old.announced ++ record { line = line; signature = signature } ∷ []) }
    ensures none { IfErr result (λ e. fault_of e ≡ fault.NoMemory) }
{
    declaring.announced.add(Announced { line, signature })?;
    Ok(())
}

/// A function that is given: rule 6 where its name is a call that is built in, or another
/// function's.
fn give(
    spellings: &[Name],
    line: u32,
    signature: Signature,
    has_body: bool,
    declaring: &mut Declaring,
) -> Result<(), UnitFault>
    ensures functions { OnOk result (declaring.new.functions ≡ declaring.old.functions ++ signature ∷ []) }
    ensures bodies { OnOk result (declaring.new.bodies ≡ declaring.old.bodies ++ has_body ∷ []) }
    ensures numbers { OnOk result (declaring.new.numbers ≡ (signature.name, length declaring.old.functions) ∷ declaring.old.numbers) }
    ensures types { declaring.new.types ≡ declaring.old.types }
    ensures named { declaring.new.named ≡ declaring.old.named }
    ensures announced { declaring.new.announced ≡ declaring.old.announced }
    ensures taken { IfErr result (IsFault (λ rule at. (rule ≡ 6) × (at ≡ line) × IsTaken spellings.now declaring.old.numbers signature.name)) }
    ensures free { OnOk result (IsFree spellings.now declaring.old.numbers signature.name) }
{
    let name = signature.name;
    if !is_free(spellings, name, &declaring.numbers) {
        return Err(UnitFault::OtherFunction(line));
    }
    let number = next_number(name, declaring);
    declaring.numbers.define(name, number)?;
    declaring.functions.add(signature)?;
    declaring.bodies.add(has_body)?;
    Ok(())
}

/// The number of a function whose name no other one has. Names are of 32 bits, so a `u32` counts
/// the functions.
fn next_number(name: u32, declaring: &Declaring) -> u32
    requires { newest name declaring.now.numbers ≡ None }
    ensures { result ≡ length declaring.now.functions }
{
    declaring.functions.len() as u32
}

/// Whether no function of these numbers has the name, nor is it a call that is built in.
fn is_free(spellings: &[Name], name: u32, numbers: &Scope<u32>) -> bool
    ensures free { result ≡ true → IsFree spellings.now numbers.now name }
    ensures taken { result ≡ false → IsTaken spellings.now numbers.now name }
{
    if is_built_in(spellings, name) {
        return false;
    }
    numbers.find(name).is_none()
}

fn is_built_in(spellings: &[Name], name: u32) -> bool
    ensures own { result ≡ false → IsOwnName spellings.now name }
    ensures built { result ≡ true → IsBuiltName spellings.now name }
{
    match item_at(spellings, name as usize) {
        Some(spelling) => built_in_named(spelling.as_slice()).is_some(),
        None => false,
    }
}

/// The numbers of the functions after `define`: rule 7 where one has no body here.
fn defined(alloc: Global, names: &[Named], declaring: &Declaring) -> Result<Numbers, UnitFault>
    ensures named { declaring.now.numbers ≡ numbering 0 [] (map (λ s. s.name) declaring.now.functions) → IfOk result (λ ks. map (λ k. slice_get (map (λ s. s.name) declaring.now.functions) k) ks ≡ map (λ n. Some n.name) names.now) }
    ensures bodies { IfOk result (λ ks. All (λ k. slice_get declaring.now.bodies k ≡ Some true) ks) }
    ensures none { IfErr result (IsFault (λ rule line. (rule ≡ 7) × IsUndefined declaring.now.numbers declaring.now.bodies names.now line)) }
{
    let mut defines = Seq::new(alloc);
    for named in names {
        let number = definition_of(*named, declaring)?;
        defines.add(number)?;
    }
    Ok(defines)
}

/// The number of the function of a name: rule 7 where none has its body here.
fn definition_of(named: Named, declaring: &Declaring) -> Result<u32, UnitFault>
    ensures named { declaring.now.numbers ≡ numbering 0 [] (map (λ s. s.name) declaring.now.functions) → IfOk result (λ k. slice_get (map (λ s. s.name) declaring.now.functions) k ≡ Some named.name) }
    ensures body { IfOk result (λ k. slice_get declaring.now.bodies k ≡ Some true) }
    ensures none { IfErr result (IsFault (λ rule line. (rule ≡ 7) × (line ≡ named.line) × HasNoBody declaring.now.numbers declaring.now.bodies named.name)) }
{
    match number_with_body(named.name, declaring) {
        Some(number) => Ok(number),
        None => Err(UnitFault::NoFunction(named.line)),
    }
}

/// The number of the function of a name, where its body is here.
fn number_with_body(name: u32, declaring: &Declaring) -> Option<u32>
    ensures number { IfSome result (λ k. newest name declaring.now.numbers ≡ Some k) }
    ensures body { IfSome result (λ k. slice_get declaring.now.bodies k ≡ Some true) }
    ensures none { result ≡ None → HasNoBody declaring.now.numbers declaring.now.bodies name }
{
    let number = declaring.numbers.find(name)?;
    if is_true_at(declaring.bodies.as_slice(), number) {
        Some(number)
    } else {
        None
    }
}

fn is_true_at(flags: &[bool], place: u32) -> bool
    ensures there { result ≡ true → slice_get flags.now place ≡ Some true }
    ensures not { result ≡ false → slice_get flags.now place ≢ Some true }
{
    match item_at(flags, place as usize) {
        Some(flag) => *flag,
        None => false,
    }
}

/// Whether each header behind `forward` is that of a function that is given: rule 7 where there is
/// no function of its name, 6 where that one has another header.
fn are_given(declaring: &Declaring) -> Result<(), UnitFault>
    ensures kept { OnOk result (All (λ a. IsKept declaring.now.numbers declaring.now.functions a.signature) declaring.now.announced) }
    ensures broken { IfErr result (IsFault (IsBroken declaring.now.numbers declaring.now.functions declaring.now.announced)) }
{
    for announced in declaring.announced.as_slice() {
        is_given(announced, declaring)?;
    }
    Ok(())
}

fn is_given(announced: &Announced, declaring: &Declaring) -> Result<(), UnitFault>
    ensures kept { OnOk result (IsKept declaring.now.numbers declaring.now.functions announced.now.signature) }
    ensures broken { IfErr result (IsFault (IsBroken declaring.now.numbers declaring.now.functions (announced.now ∷ []))) }
{
    let line = announced.line;
    match function_named(announced.signature.name, declaring) {
        Some(function) => {
            if is_same(&announced.signature, function) {
                Ok(())
            } else {
                Err(UnitFault::OtherFunction(line))
            }
        }
        None => Err(UnitFault::NoFunction(line)),
    }
}

fn function_named(name: u32, declaring: &Declaring) -> Option<&Signature>
    ensures { option_copied result ≡ function_at declaring.now.functions (newest name declaring.now.numbers) }
{
    match declaring.numbers.find(name) {
        Some(number) => item_at(declaring.functions.as_slice(), number as usize),
        None => None,
    }
}

/// Whether two headers have the same parameters and the same types.
fn is_same(one: &Signature, other: &Signature) -> bool
    ensures same { result ≡ true → HasSame one.now other.now }
    ensures not { result ≡ false → HasSame one.now other.now → ⊥ }
{
    one.parameters.as_slice() == other.parameters.as_slice()
        && one.params.as_slice() == other.params.as_slice()
        && one.results.as_slice() == other.results.as_slice()
}
