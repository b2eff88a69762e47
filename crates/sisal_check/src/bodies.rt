//! Functions.
ghost use Rattle.breaking_laws.specs.FormLaws.{BrokenBody};
ghost use Rattle.breaking_laws.specs.Refusals.{Never};
ghost use Rattle.sisal_check.specs.Headed.{HaveFirst, is_defined};
ghost use Rattle.sisal_check.specs.Walked.{AreBodies, IsBody as HasBody, IsBrokenAmong, IsBrokenAt, given_behind, given_of, header_of};
ghost use Rattle.sisal_tree.specs.declared.unit.FunDef.{FunDef};
ghost use Rattle.sisal_tree.specs.declared.unit.FunKind.{FunKind as Kind};
ghost use Rattle.std.specs.Prelude.{All, IfErr, IfOk, List, OnOk, Some, [], is_some, length, map, slice_get, ℕ, ◌++◌, ◌+◌, ◌∷◌, ◌≡◌, ◌≤◌};
ghost use Rattle.type_rules.specs.Faults.{IsRule};
ghost use Rattle.typed_tree.specs.declared.program.Function.{Function as TypedFunction};
ghost use Rattle.typing_laws.specs.Bodies.{define_params};
ghost use Rattle.typing_laws.specs.Judged.{IsUsedIn};
ghost use Rattle.unit_types.specs.Headings.{given_as, given_by, given_functions, has_body};
ghost use Rattle.value_names.specs.Scopes.{no_names};
ghost use Rattle.text_trees.specs.Spelled.{IsBody, IsItem, IsSpelled};

use crate::lists::all;
use crate::state::{Given, Parts, Walk, header_at};
use flow_value::{NoMemory, Seq};
use sisal_tree::{Expr, FunKind, Item};
use type_rules::TypeFault;
use typed_tree::{Function, TypedExpr};
use unit_types::Signature;
use value_names::InForce;

/// The functions of a unit that are not `forward`, in order.
pub(crate) fn functions(
    items: &[Item],
    given: &Given<'_>,
    walk: &mut Walk,
) -> Result<Seq<Function>, TypeFault>
    requires spelled { All (IsItem given.now.tokens.now (length given.now.spellings.now)) items.now }
    requires room { length (given_functions items.now) ≡ length given.now.functions.now }
    requires none { walk.old.names ≡ no_names }
    ensures heads { IfOk result (λ fs. HaveFirst given.now.functions.now fs) }
    ensures bodies { IfOk result (λ fs. map is_defined fs ≡ map (λ f. has_body f.kind) (given_functions items.now)) }
    ensures used { OnOk result (IsUsedIn (given_of given.now) walk.old.types walk.new.types) }
    ensures names { OnOk result (walk.new.names ≡ walk.old.names) }
    ensures typed { walk.old.names ≡ no_names → IfOk result (λ fs. AreBodies given.now walk.new.types (map (λ f. f.kind) (given_functions items.now)) given.now.functions.now fs) }
    ensures breaks { walk.old.names ≡ no_names → IfErr result (IsRule (λ rule at_line. IsBrokenAmong given.now walk.old.types (given_functions items.now) rule at_line)) }
{
    let mut all = Seq::new(given.alloc);
    for item in items {
        add_item(item, &mut all, given, walk)?;
    }
    Ok(all)
}

/// Adds the function of an item, if there is one.
fn add_item(
    item: &Item,
    all: &mut Seq<Function>,
    given: &Given<'_>,
    walk: &mut Walk,
) -> Result<(), TypeFault>
    requires spelled { IsItem given.now.tokens.now (length given.now.spellings.now) item.now }
    requires room { length all.old + length (given_by item.now) ≤ length given.now.functions.now }
    requires none { walk.old.names ≡ no_names }
    ensures heads { HaveFirst given.now.functions.now all.old → OnOk result (HaveFirst given.now.functions.now all.new) }
    ensures bodies { OnOk result (map is_defined all.new ≡ map is_defined all.old ++ map (λ f. has_body f.kind) (given_by item.now)) }
    ensures used { OnOk result (IsUsedIn (given_of given.now) walk.old.types walk.new.types) }
    ensures names { OnOk result (walk.new.names ≡ walk.old.names) }
    ensures typed { walk.old.names ≡ no_names → (kinds : List Kind) → AreBodies given.now walk.old.types kinds given.now.functions.now all.old → OnOk result (AreBodies given.now walk.new.types (kinds ++ map (λ f. f.kind) (given_by item.now)) given.now.functions.now all.new) }
    ensures breaks { walk.old.names ≡ no_names → IfErr result (IsRule (λ rule at_line. (f : FunDef) × (given_by item.now ≡ f ∷ []) × IsBrokenAt given.now walk.old.types f.kind (length all.old) rule at_line)) }
{
    match item {
        Item::Alias(_) => Ok(()),
        Item::Function(f) => add_function(&f.kind, all, given, walk),
    }
}

/// Adds a function, unless it is `forward`. Its header is the next one.
fn add_function(
    kind: &FunKind,
    all: &mut Seq<Function>,
    given: &Given<'_>,
    walk: &mut Walk,
) -> Result<(), TypeFault>
    requires spelled { IsBody given.now.tokens.now (length given.now.spellings.now) kind.now }
    requires room { length all.old + length (given_as kind.now kind.now) ≤ length given.now.functions.now }
    requires none { walk.old.names ≡ no_names }
    ensures heads { HaveFirst given.now.functions.now all.old → OnOk result (HaveFirst given.now.functions.now all.new) }
    ensures bodies { OnOk result (map is_defined all.new ≡ map is_defined all.old ++ given_as kind.now (has_body kind.now)) }
    ensures used { OnOk result (IsUsedIn (given_of given.now) walk.old.types walk.new.types) }
    ensures names { OnOk result (walk.new.names ≡ walk.old.names) }
    ensures typed { walk.old.names ≡ no_names → (kinds : List Kind) → AreBodies given.now walk.old.types kinds given.now.functions.now all.old → OnOk result (AreBodies given.now walk.new.types (kinds ++ given_as kind.now kind.now) given.now.functions.now all.new) }
    ensures breaks { walk.old.names ≡ no_names → IfErr result (IsRule (λ rule at_line. IsBrokenAt given.now walk.old.types kind.now (length all.old) rule at_line)) }
{
    match kind {
        FunKind::Forward => Ok(()),
        FunKind::Global => {
            let header = header_at(given.functions, all.len());
            add(header, None, all, given)
        }
        FunKind::Defined(es) => {
            let header = header_at(given.functions, all.len());
            let body = body(es.as_slice(), header, given, walk)?;
            add(header, Some(body), all, given)
        }
    }
}

/// Adds the function of a header.
fn add(
    header: &Signature,
    body: Option<Seq<TypedExpr>>,
    all: &mut Seq<Function>,
    given: &Given<'_>,
) -> Result<(), TypeFault>
    ensures heads { slice_get given.now.functions.now (length all.old) ≡ Some header.now → HaveFirst given.now.functions.now all.old → OnOk result (HaveFirst given.now.functions.now all.new) }
    ensures bodies { OnOk result (map is_defined all.new ≡ map is_defined all.old ++ is_some body ∷ []) }
    ensures adds { OnOk result ((f : TypedFunction) × (f.body ≡ body) × (all.new ≡ all.old ++ f ∷ [])) }
    ensures breaks { IfErr result (IsRule (λ rule at_line. Never rule at_line)) }
{
    all.add(Function {
        line: header.line,
        name: header.name,
        parameters: Seq::from_slice(given.alloc, header.parameters.as_slice())?,
        params: Seq::from_slice(given.alloc, header.params.as_slice())?,
        results: Seq::from_slice(given.alloc, header.results.as_slice())?,
        body,
    })?;
    Ok(())
}

/// The results of a function: rule 13, on the function's line, where they have other types than the
/// header says.
fn body(
    es: &[Expr],
    header: &Signature,
    given: &Given<'_>,
    walk: &mut Walk,
) -> Result<Seq<TypedExpr>, TypeFault>
    requires spelled { (h : ℕ) → h ≤ 4194304 → All (IsSpelled given.now.tokens.now (length given.now.spellings.now) h) es.now }
    requires few { length header.now.parameters ≤ 4194304 }
    requires none { walk.old.names ≡ no_names }
    ensures used { OnOk result (IsUsedIn (given_behind header.now.known given.now) walk.old.types walk.new.types) }
    ensures names { OnOk result (walk.new.names ≡ walk.old.names) }
    ensures typed { walk.old.names ≡ no_names → IfOk result (λ ts. HasBody (given_behind header.now.known given.now) walk.new.types (header_of header.now) es.now ts) }
    ensures breaks { walk.old.names ≡ no_names → IfErr result (IsRule (λ rule at_line. BrokenBody (given_behind header.now.known given.now) walk.old.types (header_of header.now) header.now.line es.now rule at_line)) }
{
    let outer = walk.names.mark();
    parameters(
        header.parameters.as_slice(),
        header.params.as_slice(),
        &mut walk.names,
    )?;
    let inside = Given {
        alloc: given.alloc,
        tokens: given.tokens,
        spellings: given.spellings,
        named: given.named,
        functions: given.functions,
        numbers: given.numbers,
        known: header.known,
    };
    let Parts { exprs, types } = all(es, &inside, walk)?;
    walk.names.leave(outer);
    walk.types.holds();
    if types.as_slice() != header.results.as_slice() {
        return Err(TypeFault::Rule {
            rule: 13,
            line: header.line,
        });
    }
    Ok(exprs)
}

/// Brings the parameters into force.
fn parameters(xs: &[u32], types: &[usize], names: &mut InForce) -> Result<(), NoMemory>
    requires { names.old.height + length xs.now ≤ 4294967295 }
    ensures { OnOk result (names.new ≡ define_params xs.now types.now names.old) }
{
    let mut place = 0;
    while place < xs.len() && place < types.len() {
        names.define(xs[place], types[place])?;
        place += 1;
    }
    Ok(())
}
