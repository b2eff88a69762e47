//! The entries of a table, by label.
ghost use Rattle.std.specs.Prelude.{◌≡◌, ◌<◌, ◌≤◌, [], length, OnErr, IfOk, IfErr};
ghost use Rattle.lowering.specs.Types.{basics, enter, entry, labelled};
ghost use Rattle.lowering.specs.TooMany.{most_types};
ghost use Rattle.type_labels.specs.Lines.{line_of, lines_from};

use flow_value::{NoMemory, Seq};
use if1_graph::{TypeEntry, TypeTable};
use indexmap::IndexSet;
use std::alloc::Global;
use std::marker::Model;

/// At most so many entries.
const MOST_TYPES: usize = 65535;

/// Why a type has no label.
#[derive(Clone, Copy, Debug, PartialEq, Eq)]
pub enum LabelFault {
    /// It would need the 65,536th entry.
    TooMany,
    /// Want of memory.
    NoMemory,
}

/// The code, the two numbers and the name of an entry.
type Key = (u32, u32, u32, Vec<u8>);

/// The line of a type.
fn line(alloc: Global, label: u32, key: &Key) -> Result<TypeEntry, NoMemory>
    ensures { IfOk result (λ line. line ≡ line_of label (entry key.now.0 key.now.1 key.now.2 key.now.3.items)) }
{
    Ok(TypeEntry {
        label,
        code: key.0,
        first: key.1,
        second: key.2,
        name: Seq::from_slice(alloc, key.3.as_slice())?,
    })
}

/// The entries in the order of their labels, which are 1, 2, and so on.
#[derive(Drop)]
pub struct Table {
    entries: IndexSet<Key>,
}

impl Model for Table {
    ghost use Rattle.lowering.specs.Types.{Table};
    ghost use Rattle.type_labels.specs.Keys.{entries_of, table_code};
    ghost use Rattle.std.specs.Prelude.{◌≤◌, length, vec_items};

    ghost Value = { Table };

    ghost coded = { table_code };

    ghost view = { λ t. entries_of vec_items t.entries.keys };

    ghost invariant = { λ t. length t.entries.keys ≤ 65535 };
}

impl Table {
    /// The entries of the basic types, with which every table begins.
    pub fn new(alloc: Global) -> Result<Table, LabelFault>
        ensures { IfOk result (λ table. table ≡ basics) }
    {
        let mut table = Table {
            entries: IndexSet::new(alloc),
        };
        table.enter_basic(0, b"boolean")?;
        table.enter_basic(1, b"character")?;
        table.enter_basic(3, b"integer")?;
        table.enter_basic(4, b"null")?;
        Ok(table)
    }

    /// Enters a basic type.
    fn enter_basic(&mut self, code: u32, name: &[u8]) -> Result<u32, LabelFault>
        ensures ok { IfOk result (λ label. enter (entry 1 code 0 name.now) self.old ≡ labelled label self.new) }
    {
        let Ok(name) = Seq::from_slice(self.allocator(), name) else {
            return Err(LabelFault::NoMemory);
        };
        self.enter((1, code, 0, name.into_vec()))
    }

    /// The label of an entry, which is a new one where it is not there yet.
    pub(crate) fn enter(&mut self, key: Key) -> Result<u32, LabelFault>
        ensures ok { IfOk result (λ label. enter (entry key.0 key.1 key.2 key.3.items) self.old ≡ labelled label self.new) }
        ensures too_many { IfErr result (λ e. e ≡ LabelFault.TooMany → most_types < length (enter (entry key.0 key.1 key.2 key.3.items) self.old).table) }
        ensures err { OnErr result (self.new ≡ self.old) }
    {
        if self.entries.len() < MOST_TYPES {
            return match self.insert(key) {
                Ok(label) => Ok(label),
                Err(NoMemory) => Err(LabelFault::NoMemory),
            };
        }
        self.find(&key)
    }

    /// How many entries there are, at most 65,535.
    pub fn count(&self) -> usize
        ensures count { result ≡ length self.now }
        ensures few { result ≤ most_types }
    {
        self.entries.len()
    }

    /// The lines of the types, by rising label.
    pub fn lines(&self) -> Result<TypeTable, NoMemory>
        ensures { IfOk result (λ lines. lines ≡ lines_from 1 self.now) }
    {
        let alloc = *self.entries.allocator();
        let mut lines = TypeTable::with_room(alloc, self.entries.len())?;
        for place in 0..self.entries.len() {
            let Some(key) = self.entries.get_index(place) else {
                return Ok(lines);
            };
            lines.add(line(alloc, place as u32 + 1, key)?)?;
        }
        Ok(lines)
    }

    /// The allocator of the table.
    pub(crate) fn allocator(&self) -> Global {
        *self.entries.allocator()
    }

    /// The label of an entry, which is a new one where it is not there yet.
    fn insert(&mut self, key: Key) -> Result<u32, NoMemory>
        requires { length self.old < 65535 }
        ensures ok { IfOk result (λ label. enter (entry key.0 key.1 key.2 key.3.items) self.old ≡ labelled label self.new) }
        ensures err { OnErr result (self.new ≡ self.old) }
    {
        let (place, _) = self.entries.insert_full(key)?;
        Ok(place as u32 + 1)
    }

    /// The label of an entry in a table that is full.
    fn find(&self, key: &Key) -> Result<u32, LabelFault>
        requires { length self.now ≡ 65535 }
        ensures ok { IfOk result (λ label. enter (entry key.now.0 key.now.1 key.now.2 key.now.3.items) self.now ≡ labelled label self.now) }
        ensures too_many { IfErr result (λ e. most_types < length (enter (entry key.now.0 key.now.1 key.now.2 key.now.3.items) self.now).table) }
    {
        match self.entries.get_index_of(key) {
            Some(place) => Ok(place as u32 + 1),
            None => Err(LabelFault::TooMany),
        }
    }
}
