//! The names of types.
ghost use Rattle.std.specs.Prelude.{◌≡◌, ◌-◌, [], ◌∷◌, drop, length, IfOk, true, false, None, ◌≢◌};
ghost use Rattle.name_scope.specs.Newest.{newest};
ghost use Rattle.unit_types.specs.Placing.{known_type};

use flow_value::NoMemory;
use name_scope::Scope;
use std::alloc::Global;
use std::marker::Model;

/// A type definition: its type, and how many stand before it.
#[derive(Clone, Copy)]
struct Definition {
    ty: usize,
    place: usize,
}

/// The names of the types of a text, each with its type. A name is known behind its definition
/// (SISAL Language Reference Manual 1.2, scope). Contracts see the names with their types, the
/// newest first.
#[derive(Drop)]
pub struct TypeNames {
    scope: Scope<Definition>,
}

impl Model for TypeNames {
    ghost use Rattle.std.specs.Prelude.{List, ℕ};
    ghost use Rattle.unit_types.specs.Placing.{plain, IsPlaced};

    ghost Value = { List (ℕ × ℕ) };

    ghost view = { λ n. plain n.scope };

    ghost invariant = { λ n. IsPlaced n.scope };
}

impl TypeNames {
    /// No names; takes no memory.
    pub fn new(alloc: Global) -> TypeNames
        ensures { result ≡ [] }
    {
        TypeNames {
            scope: Scope::new(alloc),
        }
    }

    /// The number of definitions.
    pub fn count(&self) -> usize
        ensures { result ≡ length self.now }
    {
        self.scope.len()
    }

    /// The type of a name among the first `known` definitions.
    pub fn find(&self, name: u32, known: usize) -> Option<usize>
        ensures { result ≡ newest name (drop (length self.now - known) self.now) }
    {
        match self.scope.find(name) {
            Some(definition) => known_type(definition, known),
            None => None,
        }
    }

    /// Defines a name; `false`, and all is as it was, where it has a type already.
    pub(crate) fn define(&mut self, name: u32, ty: usize) -> Result<bool, NoMemory>
        ensures new { IfOk result (λ b. b ≡ true → (newest name self.old ≡ None) × (self.new ≡ (name, ty) ∷ self.old)) }
        ensures old { IfOk result (λ b. b ≡ false → (newest name self.old ≢ None) × (self.new ≡ self.old)) }
    {
        if self.scope.find(name).is_some() {
            return Ok(false);
        }
        let place = self.count();
        self.scope.define(name, Definition { ty, place })?;
        Ok(true)
    }
}

/// The type of a definition, where it is among the first `known`.
fn known_type(definition: Definition, known: usize) -> Option<usize>
    ensures { result ≡ known_type definition known }
{
    if definition.place < known {
        Some(definition.ty)
    } else {
        None
    }
}
