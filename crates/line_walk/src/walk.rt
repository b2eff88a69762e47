//! A walk over typed trees, which meets whatever the lines of their graphs carry.
ghost use Rattle.std.specs.Prelude.{◌≡◌, ◌++◌, ◌∷◌, [], length, map, take, drop, IsTrue, OnOk, IfOk, if◌then◌else◌};
ghost use Rattle.line_types.specs.Traces.{traces, graph_lines, ones, with_not, generators_traced, returns_traced, bound_of, Wired, carried_at, collected, phrase, renew};
ghost use Rattle.lowering.specs.Operations.{boolean, integer};
ghost use Rattle.lowering.specs.Loops.{many, single, loop_name};
ghost use Rattle.lower_nodes.specs.Rows.{tags_named};
ghost use Rattle.line_labels.specs.Needs.{added};
ghost use Rattle.line_walk.specs.Met.{kind_met, call_met, apply_met, exprs_met, defs_met, selector_met, arms_met, clauses_met, clause_met, with_name, row_met, extras_met, extra_met, test_met};

use crate::choices::arm_name;
use crate::loops::{
    Bound, add_generators, add_part, add_singles, behind_first, bound_of, multiples, next_flag,
};
use crate::nodes::{add_constant, add_ones, add_operands, carried_at, type_of};
use crate::turns::{are_same, columns, level_of, loop_place, renew};
use flow_value::{NoMemory, Seq};
use line_labels::Needs;
use lower_nodes::{first_tags, unless_places};
use lowering::Carried;
use std::alloc::Global;
use type_table::{BOOLEAN, INTEGER, Types};
use typed_tree::{Case, ClauseForm, Product, Source, TypedExpr, TypedKind};
use value_ops::Operation;

/// What lines carry so far, and what the names in force carry, by their levels.
#[derive(Drop)]
pub struct Walk {
    /// Where memory comes from.
    pub alloc: Global,
    /// What lines carry.
    pub needs: Needs,
    /// What the names in force carry.
    pub names: Seq<Carried>,
}

impl Walk {
    /// Meets what the lines of an expression carry, and adds what its values carry.
    #[cycle(walk)]
    #[tactic(auto, using(crate::proofs::Added::added_both))]
    fn expr(
        &mut self,
        types: &Types,
        e: &TypedExpr,
        values: &mut Seq<Carried>,
    ) -> Result<(), NoMemory>
        ensures needs { OnOk result (self.new.needs ≡ added self.old.needs (traces types.now e.now self.old.names).lines) }
        ensures values { OnOk result (values.new ≡ values.old ++ (traces types.now e.now self.old.names).values) }
        ensures names { OnOk result (self.new.names ≡ self.old.names) }
    {
        self.kind(types, &e.kind, e.types.as_slice(), values)
    }

    /// Meets the lines of a form of expression with values of these types.
    #[cycle(walk)]
    #[tactic(auto, using(crate::proofs::Added::added_both))]
    fn kind(
        &mut self,
        types: &Types,
        kind: &TypedKind,
        tys: &[usize],
        values: &mut Seq<Carried>,
    ) -> Result<(), NoMemory>
        ensures needs { OnOk result (self.new.needs ≡ added self.old.needs (kind_met types.now kind.now tys.now self.old.names).lines) }
        ensures values { OnOk result (values.new ≡ values.old ++ (kind_met types.now kind.now tys.now self.old.names).values) }
        ensures names { OnOk result (self.new.names ≡ self.old.names) }
    {
        match kind {
            TypedKind::Constant(constant) => {
                add_constant(&mut self.needs, constant, tys)?;
                add_ones(values, tys)
            }
            TypedKind::Value(level) => {
                let carried = carried_at(self.names.as_slice(), *level as usize);
                values.add(carried)
            }
            TypedKind::Group(parts) => self.exprs(types, parts.as_slice(), values),
            TypedKind::Call(function, parts) => {
                self.call(types, *function, parts.as_slice(), tys, values)
            }
            TypedKind::Apply(operation, parts) => {
                self.apply(types, operation, parts.as_slice(), tys, values)
            }
            TypedKind::Let(defs, parts) => {
                let mark = self.names.len();
                self.defs(types, defs.as_slice())?;
                self.exprs(types, parts.as_slice(), values)?;
                self.names.truncate(mark);
                Ok(())
            }
            TypedKind::If(test, arm, other) => {
                self.selector(types, test.as_slice())?;
                self.graph(types, other.as_slice())?;
                self.graph(types, arm.as_slice())?;
                add_ones(values, tys)?;
                Ok(())
            }
            TypedKind::Case(case, union, arms) => {
                let on = self.operands(types, union.as_slice())?;
                let carried = carried_at(on.as_slice(), 0);
                let tags = first_tags(self.alloc, case.choices.as_slice(), arms.len())?;
                self.arms(
                    types,
                    case,
                    tags.as_slice(),
                    type_of(carried),
                    arms.as_slice(),
                )?;
                self.needs.add(carried)?;
                add_ones(values, tys)?;
                Ok(())
            }
            TypedKind::Product(product, bounds, defs, parts) => {
                let mark = self.names.len();
                let on = self.operands(types, bounds.as_slice())?;
                self.begin_product(types, product.sources.as_slice(), on.as_slice())?;
                self.defs(types, defs.as_slice())?;
                let masks = unless_places(self.alloc, product.clauses.as_slice())?;
                let body = self.clauses(types, masks.as_slice(), parts.as_slice())?;
                self.names.truncate(mark);
                self.end_product(types, product, on.as_slice(), body.as_slice(), tys)?;
                add_ones(values, tys)?;
                Ok(())
            }
            TypedKind::Initial(turns, first, test, defs, parts) => {
                let around = self.names.len();
                self.defs(types, first.as_slice())?;
                let inside = self.names.len();
                let count = inside.saturating_sub(around);
                let masks = unless_places(self.alloc, turns.clauses.as_slice())?;
                let row = self.row(types, around, count, masks.as_slice(), parts.as_slice())?;
                self.test(types, turns.is_until, test.as_slice())?;
                self.defs(types, defs.as_slice())?;
                let is_same = self.renew_names(around, inside, turns.renewed.as_slice())?;
                self.again(
                    types,
                    is_same,
                    around,
                    count,
                    masks.as_slice(),
                    parts.as_slice(),
                )?;
                self.names.truncate(around);
                self.end_turns(
                    types,
                    turns.clauses.as_slice(),
                    around,
                    count,
                    masks.as_slice(),
                    parts.as_slice(),
                    row.as_slice(),
                    tys,
                )?;
                add_ones(values, tys)?;
                Ok(())
            }
        }
    }

    /// Meets the lines of a call of a function.
    #[cycle(walk)]
    #[tactic(auto, using(crate::proofs::Added::added_both))]
    fn call(
        &mut self,
        types: &Types,
        function: u32,
        es: &[TypedExpr],
        tys: &[usize],
        values: &mut Seq<Carried>,
    ) -> Result<(), NoMemory>
        ensures needs { OnOk result (self.new.needs ≡ added self.old.needs (call_met types.now function es.now tys.now self.old.names).lines) }
        ensures values { OnOk result (values.new ≡ values.old ++ ones tys.now) }
        ensures names { OnOk result (self.new.names ≡ self.old.names) }
    {
        let operands = self.operands(types, es)?;
        self.needs.add(Carried::Callee(function))?;
        self.needs.add_all(operands.as_slice())?;
        add_ones(values, tys)?;
        Ok(())
    }

    /// Meets the lines of an operation.
    #[cycle(walk)]
    #[tactic(auto, using(crate::proofs::Added::added_both))]
    fn apply(
        &mut self,
        types: &Types,
        operation: &Operation,
        es: &[TypedExpr],
        tys: &[usize],
        values: &mut Seq<Carried>,
    ) -> Result<(), NoMemory>
        ensures needs { OnOk result (self.new.needs ≡ added self.old.needs (apply_met types.now operation.now es.now tys.now self.old.names).lines) }
        ensures values { OnOk result (values.new ≡ values.old ++ ones tys.now) }
        ensures names { OnOk result (self.new.names ≡ self.old.names) }
    {
        let operands = self.operands(types, es)?;
        add_operands(self.alloc, &mut self.needs, operation, operands.as_slice())?;
        add_ones(values, tys)?;
        Ok(())
    }

    /// Meets the lines of expressions, and adds what their values carry.
    #[cycle(walk)]
    #[tactic(auto, using(crate::proofs::Added::added_both))]
    fn exprs(
        &mut self,
        types: &Types,
        es: &[TypedExpr],
        values: &mut Seq<Carried>,
    ) -> Result<(), NoMemory>
        ensures needs { OnOk result (self.new.needs ≡ added self.old.needs (exprs_met types.now es.now self.old.names).lines) }
        ensures values { OnOk result (values.new ≡ values.old ++ (exprs_met types.now es.now self.old.names).values) }
        ensures names { OnOk result (self.new.names ≡ self.old.names) }
    {
        for e in es {
            self.expr(types, e, values)?;
        }
        Ok(())
    }

    /// Meets the lines of operands, and gives what these carry.
    #[cycle(walk)]
    #[tactic(auto, using(crate::proofs::Added::added_both))]
    fn operands(&mut self, types: &Types, es: &[TypedExpr]) -> Result<Seq<Carried>, NoMemory>
        ensures needs { OnOk result (self.new.needs ≡ added self.old.needs (exprs_met types.now es.now self.old.names).lines) }
        ensures values { IfOk result (λ values. values ≡ (exprs_met types.now es.now self.old.names).values) }
        ensures names { OnOk result (self.new.names ≡ self.old.names) }
    {
        let mut values = self.names.fresh();
        self.exprs(types, es, &mut values)?;
        Ok(values)
    }

    /// Meets the lines of a graph with these results.
    #[cycle(walk)]
    #[tactic(auto, using(crate::proofs::Added::added_both))]
    pub fn graph(&mut self, types: &Types, es: &[TypedExpr]) -> Result<(), NoMemory>
        ensures needs { OnOk result (self.new.needs ≡ added self.old.needs (graph_lines (exprs_met types.now es.now self.old.names ∷ []))) }
        ensures names { OnOk result (self.new.names ≡ self.old.names) }
    {
        let values = self.operands(types, es)?;
        self.needs.add_all(values.as_slice())
    }

    /// Meets the lines of the test of an `if`.
    #[cycle(walk)]
    #[tactic(auto, using(crate::proofs::Added::added_both))]
    fn selector(&mut self, types: &Types, es: &[TypedExpr]) -> Result<(), NoMemory>
        ensures needs { OnOk result (self.new.needs ≡ added self.old.needs (graph_lines (selector_met types.now es.now self.old.names ∷ []))) }
        ensures names { OnOk result (self.new.names ≡ self.old.names) }
    {
        self.graph(types, es)?;
        self.needs.add(Carried::One(INTEGER))
    }

    /// Meets the lines of definitions, and brings what they define into force.
    #[cycle(walk)]
    #[tactic(auto, using(crate::proofs::Added::added_both))]
    fn defs(&mut self, types: &Types, defs: &[Seq<TypedExpr>]) -> Result<(), NoMemory>
        ensures needs { OnOk result (self.new.needs ≡ added self.old.needs (defs_met types.now defs.now self.old.names).lines) }
        ensures names { OnOk result (self.new.names ≡ (defs_met types.now defs.now self.old.names).values) }
    {
        for def in defs {
            self.def(types, def.as_slice())?;
        }
        Ok(())
    }

    /// Meets the lines of a definition, and brings what it defines into force.
    #[cycle(walk)]
    #[tactic(auto, using(crate::proofs::Added::added_both))]
    fn def(&mut self, types: &Types, es: &[TypedExpr]) -> Result<(), NoMemory>
        ensures needs { OnOk result (self.new.needs ≡ added self.old.needs (exprs_met types.now es.now self.old.names).lines) }
        ensures names { OnOk result (self.new.names ≡ self.old.names ++ (exprs_met types.now es.now self.old.names).values) }
    {
        let values = self.operands(types, es)?;
        self.names.extend(values.as_slice())
    }

    /// Meets the lines of the arms of a `tagcase` on a union of a type, by the first tags of these.
    #[cycle(walk)]
    #[tactic(auto, using(crate::proofs::Added::added_both, crate::proofs::Tables::tag_of_arm))]
    fn arms(
        &mut self,
        types: &Types,
        case: &Case,
        tags: &[u32],
        ty: usize,
        arms: &[Seq<TypedExpr>],
    ) -> Result<(), NoMemory>
        requires { tags.now ≡ tags_named 0 (length arms.now) case.now.choices }
        ensures needs { OnOk result (self.new.needs ≡ added self.old.needs (graph_lines (arms_met types.now case.now ty 0 arms.now self.old.names))) }
        ensures names { OnOk result (self.new.names ≡ self.old.names) }
    {
        for (at, arm) in arms.iter().enumerate() {
            let name = arm_name(types, case, tags, ty, at);
            self.arm(types, name, arm.as_slice())?;
        }
        Ok(())
    }

    /// Meets the lines of an arm of a `tagcase`, in which there may be a name for this.
    #[cycle(walk)]
    #[tactic(auto, using(crate::proofs::Added::added_both))]
    fn arm(
        &mut self,
        types: &Types,
        name: Option<Carried>,
        es: &[TypedExpr],
    ) -> Result<(), NoMemory>
        ensures needs { OnOk result (self.new.needs ≡ added self.old.needs (graph_lines (exprs_met types.now es.now (with_name name self.old.names) ∷ []))) }
        ensures names { OnOk result (self.new.names ≡ self.old.names) }
    {
        let mark = self.names.len();
        self.enter(name)?;
        self.graph(types, es)?;
        self.names.truncate(mark);
        Ok(())
    }

    /// Brings a name into force that carries this.
    fn enter(&mut self, name: Option<Carried>) -> Result<(), NoMemory>
        ensures needs { OnOk result (self.new.needs ≡ self.old.needs) }
        ensures names { OnOk result (self.new.names ≡ with_name name self.old.names) }
    {
        match name {
            Some(carried) => self.names.add(carried),
            None => Ok(()),
        }
    }

    /// Meets the lines of the values and masks of clauses, and gives what these carry.
    #[cycle(walk)]
    #[tactic(auto, using(crate::proofs::Added::added_both))]
    fn clauses(
        &mut self,
        types: &Types,
        masks: &[bool],
        es: &[TypedExpr],
    ) -> Result<Seq<Carried>, NoMemory>
        ensures needs { OnOk result (self.new.needs ≡ added self.old.needs (clauses_met types.now masks.now es.now self.old.names).lines) }
        ensures values { IfOk result (λ values. values ≡ (clauses_met types.now masks.now es.now self.old.names).values) }
        ensures names { OnOk result (self.new.names ≡ self.old.names) }
    {
        let mut values = self.names.fresh();
        let mut left = masks;
        for e in es {
            let (mask, behind) = next_flag(left);
            self.clause(types, mask, e, &mut values)?;
            left = behind;
        }
        Ok(values)
    }

    /// Meets the lines of a value or a mask of a clause, and adds what it carries.
    #[cycle(walk)]
    #[tactic(auto, using(crate::proofs::Added::added_both))]
    fn clause(
        &mut self,
        types: &Types,
        mask: Option<bool>,
        e: &TypedExpr,
        values: &mut Seq<Carried>,
    ) -> Result<(), NoMemory>
        ensures needs { OnOk result (self.new.needs ≡ added self.old.needs (clause_met types.now mask e.now self.old.names).lines) }
        ensures values { OnOk result (values.new ≡ values.old ++ (clause_met types.now mask e.now self.old.names).values) }
        ensures names { OnOk result (self.new.names ≡ self.old.names) }
    {
        match mask {
            Some(true) => self.with_not(types, e, values),
            _ => self.expr(types, e, values),
        }
    }

    /// Meets the lines of a mask of `unless`, and adds what it carries.
    #[cycle(walk)]
    #[tactic(auto, using(crate::proofs::Added::added_both))]
    fn with_not(
        &mut self,
        types: &Types,
        e: &TypedExpr,
        values: &mut Seq<Carried>,
    ) -> Result<(), NoMemory>
        ensures needs { OnOk result (self.new.needs ≡ added self.old.needs (with_not (traces types.now e.now) self.old.names).lines) }
        ensures values { OnOk result (values.new ≡ values.old ++ Carried.One boolean ∷ []) }
        ensures names { OnOk result (self.new.names ≡ self.old.names) }
    {
        let mut on = self.names.fresh();
        self.expr(types, e, &mut on)?;
        self.needs.add_all(on.as_slice())?;
        values.add(Carried::One(BOOLEAN))?;
        Ok(())
    }

    /// Meets the lines of generators on their bounds, and brings their names into force.
    #[tactic(auto, using(crate::proofs::FormParts::graph_added))]
    fn begin_product(
        &mut self,
        types: &Types,
        sources: &[Source],
        bounds: &[Carried],
    ) -> Result<(), NoMemory>
        ensures needs { OnOk result (self.new.needs ≡ added self.old.needs (graph_lines (generators_traced types.now sources.now bounds.now ∷ []))) }
        ensures names { OnOk result (self.new.names ≡ self.old.names ++ map single (generators_traced types.now sources.now bounds.now).values) }
    {
        let values = add_generators(self.alloc, &mut self.needs, types, sources, bounds)?;
        self.needs.add_all(values.as_slice())?;
        add_singles(&mut self.names, values.as_slice())
    }

    /// Meets what the values of the body of a loop over generators carry, and the lines of its clauses.
    fn end_product(
        &mut self,
        types: &Types,
        product: &Product,
        bounds: &[Carried],
        body: &[Carried],
        tys: &[usize],
    ) -> Result<(), NoMemory>
        ensures needs { OnOk result (self.new.needs ≡ added (added self.old.needs body.now) (graph_lines (returns_traced (bound_of types.now product.now.sources bounds.now) product.now.clauses (map many body.now) tys.now ∷ []))) }
        ensures names { OnOk result (self.new.names ≡ self.old.names) }
    {
        self.needs.add_all(body)?;
        let bound = bound_of(types, product.sources.as_slice(), bounds);
        let on = multiples(self.alloc, body)?;
        let clauses = product.clauses.as_slice();
        add_part(
            self.alloc,
            &mut self.needs,
            bound,
            clauses,
            on.as_slice(),
            tys,
        )
    }

    /// Meets the lines of a part of a `for initial` that gives the loop names, which stand behind so many
    /// names around, and what is collected besides; gives what these carry.
    #[cycle(walk)]
    #[tactic(auto, using(crate::proofs::FormParts::row_added))]
    fn row(
        &mut self,
        types: &Types,
        around: usize,
        count: usize,
        masks: &[bool],
        es: &[TypedExpr],
    ) -> Result<Seq<Carried>, NoMemory>
        ensures needs { OnOk result (self.new.needs ≡ added self.old.needs (graph_lines (row_met types.now around count masks.now es.now self.old.names ∷ []))) }
        ensures values { IfOk result (λ row. row ≡ (row_met types.now around count masks.now es.now self.old.names).values) }
        ensures names { OnOk result (self.new.names ≡ self.old.names) }
    {
        let loops = behind_first(self.names.as_slice(), around);
        let mut values = Seq::from_slice(self.alloc, loops)?;
        self.extras(types, around, count, masks, es, &mut values)?;
        self.needs.add_all(values.as_slice())?;
        Ok(values)
    }

    /// Meets the lines of what is collected besides the loop names, and adds what it carries.
    #[cycle(walk)]
    #[tactic(auto, using(crate::proofs::Added::added_both))]
    fn extras(
        &mut self,
        types: &Types,
        around: usize,
        count: usize,
        masks: &[bool],
        es: &[TypedExpr],
        values: &mut Seq<Carried>,
    ) -> Result<(), NoMemory>
        ensures needs { OnOk result (self.new.needs ≡ added self.old.needs (extras_met types.now (loop_name around count) masks.now es.now self.old.names).lines) }
        ensures values { OnOk result (values.new ≡ values.old ++ (extras_met types.now (loop_name around count) masks.now es.now self.old.names).values) }
        ensures names { OnOk result (self.new.names ≡ self.old.names) }
    {
        let mut left = masks;
        for e in es {
            let (mask, behind) = next_flag(left);
            self.extra(types, around, count, mask, e, values)?;
            left = behind;
        }
        Ok(())
    }

    /// Meets the lines of a value or a mask of a clause where it is no loop name, and adds what it carries.
    #[cycle(walk)]
    #[tactic(auto, using(crate::proofs::Added::added_both))]
    fn extra(
        &mut self,
        types: &Types,
        around: usize,
        count: usize,
        mask: Option<bool>,
        e: &TypedExpr,
        values: &mut Seq<Carried>,
    ) -> Result<(), NoMemory>
        ensures needs { OnOk result (self.new.needs ≡ added self.old.needs (extra_met types.now (loop_name around count) mask e.now self.old.names).lines) }
        ensures values { OnOk result (values.new ≡ values.old ++ (extra_met types.now (loop_name around count) mask e.now self.old.names).values) }
        ensures names { OnOk result (self.new.names ≡ self.old.names) }
    {
        match mask {
            None => Ok(()),
            Some(true) => self.with_not(types, e, values),
            Some(false) => match loop_place(level_of(types, e), around, count) {
                Some(_) => Ok(()),
                None => self.expr(types, e, values),
            },
        }
    }

    /// Meets the lines of the test of a `for initial`.
    #[cycle(walk)]
    #[tactic(auto, using(crate::proofs::Added::added_both))]
    fn test(&mut self, types: &Types, is_until: bool, es: &[TypedExpr]) -> Result<(), NoMemory>
        ensures needs { OnOk result (self.new.needs ≡ added self.old.needs (graph_lines (test_met types.now is_until es.now self.old.names ∷ []))) }
        ensures names { OnOk result (self.new.names ≡ self.old.names) }
    {
        self.graph(types, es)?;
        if is_until {
            self.needs.add(Carried::One(BOOLEAN))?;
        }
        Ok(())
    }

    /// Meets the lines of that part once more, unless they are the same.
    #[cycle(walk)]
    fn again(
        &mut self,
        types: &Types,
        is_same: bool,
        around: usize,
        count: usize,
        masks: &[bool],
        es: &[TypedExpr],
    ) -> Result<(), NoMemory>
        ensures needs { OnOk result (self.new.needs ≡ (if is_same then self.old.needs else added self.old.needs (graph_lines (row_met types.now around count masks.now es.now self.old.names ∷ [])))) }
        ensures names { OnOk result (self.new.names ≡ self.old.names) }
    {
        if is_same {
            return Ok(());
        }
        let _ = self.row(types, around, count, masks, es)?;
        Ok(())
    }

    /// Has the loop names carry what they carry after a turn, whose names stand behind so many, and tells
    /// whether that is what they carried before.
    fn renew_names(
        &mut self,
        around: usize,
        inside: usize,
        renewed: &[Option<u32>],
    ) -> Result<bool, NoMemory>
        ensures names { OnOk result (self.new.names ≡ take around (take inside self.old.names) ++ renew renewed.now (drop inside self.old.names) (drop around (take inside self.old.names))) }
        ensures same { IfOk result (λ b. IsTrue b → renew renewed.now (drop inside self.old.names) (drop around (take inside self.old.names)) ≡ drop around (take inside self.old.names)) }
        ensures needs { OnOk result (self.new.needs ≡ self.old.needs) }
    {
        let turn = Seq::from_slice(self.alloc, behind_first(self.names.as_slice(), inside))?;
        self.names.truncate(inside);
        let before = Seq::from_slice(self.alloc, behind_first(self.names.as_slice(), around))?;
        let mut after = Seq::from_slice(self.alloc, before.as_slice())?;
        renew(&mut after, renewed, turn.as_slice());
        self.names.truncate(around);
        self.names.extend(after.as_slice())?;
        Ok(are_same(after.as_slice(), before.as_slice()))
    }

    /// Meets the lines of the clauses of a `for initial`, where the loop names and what is collected
    /// besides carry this.
    fn end_turns(
        &mut self,
        types: &Types,
        clauses: &[ClauseForm],
        around: usize,
        count: usize,
        masks: &[bool],
        es: &[TypedExpr],
        row: &[Carried],
        tys: &[usize],
    ) -> Result<(), NoMemory>
        ensures needs { OnOk result (self.new.needs ≡ added self.old.needs (graph_lines (returns_traced (Wired (Carried.One integer)) clauses.now (map (carried_at (map many row.now)) (collected (loop_name around count) count masks.now (map (phrase types.now) es.now))) tys.now ∷ []))) }
        ensures names { OnOk result (self.new.names ≡ self.old.names) }
    {
        let all = multiples(self.alloc, row)?;
        let on = columns(self.alloc, types, around, count, masks, es, all.as_slice())?;
        let bound = Bound::Wired(Carried::One(INTEGER));
        add_part(
            self.alloc,
            &mut self.needs,
            bound,
            clauses,
            on.as_slice(),
            tys,
        )
    }
}
