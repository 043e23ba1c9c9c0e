//! Making a workspace; spending visits, binding slots, and making cells in it.
ghost use Rattle.std.specs.Prelude.{◌≡◌, suc, ◌+◌, ◌-◌, ◌*◌, ◌≤◌, ◌<◌, cond, ◌==◌, ◌∷◌, length, take, Ok, Err, nat_le, is_ok, option_copied, IfOk, IfErr};
ghost use Rattle.std.specs.List.{slice_get};
ghost use Rattle.std.specs.Option.{option_map};
ghost use Rattle.mapping.specs.Bindings.{lookup, since, oldest, bound, capacity};
ghost use Rattle.evaluation.specs.Carried.{Pays, idle, statement_environment};
ghost use Rattle.evaluation.specs.Rules.{bound_from};
ghost use Rattle.evaluation.specs.Stores.{held, next_cell, with_cell};
ghost use Rattle.evaluation.specs.Values.{HasParts, data_of};

use crate::cells::Cells;
use crate::refusal::EvaluationRefusal;
use crate::value::{Cell, Value};
use crate::workspace::{BINDINGS, Workspace};
use mapping::mapping::{Binding, Mapping};

/// How many visits a choice has.
const VISITS: usize = 10_000;

impl<'a> Workspace<'a> {
    /// A workspace in which nothing is bound and no visit is left. If the memory is too small for the bindings of a choice, there is none,
    /// and the cells are given back as they are.
    pub fn new(memory: &'a mut [Binding<Value>], cells: Cells) -> Result<Workspace<'a>, Cells>
        ensures given { is_ok result ≡ nat_le 40016 (length memory.old) }
        ensures work { IfOk result (λ w. w ≡ idle (held cells) (length memory.old)) }
        ensures cells { IfErr result (λ rest. rest ≡ cells) }
    {
        if memory.len() < BINDINGS {
            return Err(cells);
        }
        Ok(Workspace {
            mapping: Mapping::new(memory),
            cells,
            left: 0,
        })
    }

    /// The environment of a statement, with all visits of a choice: the locals are bound to the slots from 0 on, and then the fields to
    /// those from 128 on. Nothing else is bound.
    pub fn enter(&mut self, locals: &[Value], fields: &[Value])
        requires locals { length locals.now ≤ 8 }
        requires fields { length fields.now ≤ 8 }
        ensures bound { self.new.bindings ≡ statement_environment locals.now fields.now }
        ensures state { self.new.state ≡ record { left = 10000; cells = self.old.state.cells } }
        ensures capacity { self.new.capacity ≡ self.old.capacity }
    {
        self.clear();
        self.bind_all(0, locals);
        self.bind_all(128, fields);
        self.left = VISITS;
    }

    /// Cuts off all bindings, and leaves no visit.
    fn clear(&mut self)
        ensures work { self.new ≡ idle self.old.state.cells self.old.capacity }
        ensures memory { 40016 ≤ self.new.capacity }
    {
        self.left = 0;
        self.mapping.cut(0);
    }

    /// Binds values to the slots from this one on, in their order.
    pub(crate) fn bind_all(&mut self, first: u16, values: &[Value])
        requires few { length values.now ≤ 8 }
        requires first { first ≤ 128 }
        requires room { length self.old.bindings + length values.now + 4 * self.old.state.left ≤ self.old.capacity }
        ensures bound { self.new.bindings ≡ bound_from first values.now self.old.bindings }
        ensures more { length self.new.bindings ≡ length self.old.bindings + length values.now }
        ensures state { self.new.state ≡ self.old.state }
        ensures capacity { self.new.capacity ≡ self.old.capacity }
    {
        let mut slot = first;
        for value in values {
            self.bind(slot, *value);
            slot += 1;
        }
    }

    /// How many visits are left.
    pub fn left(&self) -> usize
        ensures left { result ≡ self.now.state.left }
    {
        self.left
    }

    /// How many cells are in use.
    pub fn cells(&self) -> usize
        ensures cells { result ≡ length self.now.state.cells }
    {
        self.cells.length()
    }

    /// Cuts back to the first `earlier` cells.
    pub fn cut_cells(&mut self, earlier: usize)
        ensures cells { self.new.state.cells ≡ take earlier self.old.state.cells }
        ensures left { self.new.state.left ≡ self.old.state.left }
        ensures bindings { self.new.bindings ≡ self.old.bindings }
        ensures capacity { self.new.capacity ≡ self.old.capacity }
    {
        self.cells.cut(earlier);
    }

    /// How many bindings there are.
    pub(crate) fn length(&self) -> usize
        ensures length { result ≡ length self.now.bindings }
    {
        self.mapping.length()
    }

    /// The value of the slot among the bindings made since there were `base`.
    #[inline(always)]
    pub fn find(&self, base: usize, slot: u16) -> Option<Value>
        ensures found { result ≡ lookup slot (since base self.now.bindings) }
    {
        self.mapping.find(base, slot)
    }

    /// Pays for a visit.
    pub(crate) fn spend(&mut self) -> Result<(), EvaluationRefusal>
        ensures pays { Pays self.old result self.new }
        ensures falls { IfOk result (λ _. suc self.new.state.left ≤ self.old.state.left) }
        ensures slack { IfOk result (λ _. length self.new.bindings + 4 * suc self.new.state.left ≤ self.new.capacity) }
    {
        if self.left == 0 {
            return Err(EvaluationRefusal::VisitsSpent);
        }
        self.left -= 1;
        Ok(())
    }

    /// Binds a value to the slot.
    pub(crate) fn bind(&mut self, slot: u16, value: Value)
        requires room { suc (length self.old.bindings) + 4 * self.old.state.left ≤ self.old.capacity }
        ensures bound { self.new.bindings ≡ record { slot = slot; entry = value } ∷ self.old.bindings }
        ensures state { self.new.state ≡ self.old.state }
        ensures capacity { self.new.capacity ≡ self.old.capacity }
    {
        let _ = self.mapping.bind(slot, value);
    }

    /// Cuts back to the first `earlier` bindings.
    pub(crate) fn cut(&mut self, earlier: usize)
        ensures oldest { self.new.bindings ≡ oldest earlier self.old.bindings }
        ensures state { self.new.state ≡ self.old.state }
        ensures capacity { self.new.capacity ≡ self.old.capacity }
    {
        self.mapping.cut(earlier);
    }

    /// What the cell holds, if it is in use.
    pub(crate) fn read(&self, cell: u16) -> Option<&Cell>
        ensures held { option_map data_of (option_copied result) ≡ slice_get self.now.state.cells cell }
    {
        self.cells.lend(cell)
    }

    /// A new cell, and its number.
    pub(crate) fn make(&mut self, cell: Cell) -> Result<u16, EvaluationRefusal>
        requires parts { HasParts (data_of cell) }
        ensures number { result ≡ next_cell self.old.state.cells }
        ensures cells { self.new.state.cells ≡ with_cell self.old.state.cells (data_of cell) }
        ensures left { self.new.state.left ≡ self.old.state.left }
        ensures bindings { self.new.bindings ≡ self.old.bindings }
        ensures capacity { self.new.capacity ≡ self.old.capacity }
    {
        self.cells.make(cell)
    }
}
