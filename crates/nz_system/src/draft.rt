//! What the rows of a file give, sorted out.
ghost use Rattle.std.specs.Prelude.{◌≡◌, ◌<◌, ◌≤◌, ◌++◌, ◌∷◌, [], length, map, negsuc, pos, replicate, IfOk, OnOk};
ghost use Rattle.std.specs.List.{flat_map};
ghost use Rattle.nz_spec.specs.Vectors.{Vector, entry};
ghost use Rattle.std.specs.List.{AllByRecursion as Each};
ghost use Rattle.nz_input.specs.Files.{ItemData};
ghost use Rattle.nz_system.specs.Contributions.{at_level, sign_form, sign_forms, contributions, given};
ghost use Rattle.nz_system.specs.Meaning.{level_unit, only_if, orthant_where, level_where, orthant, of_level};
ghost use Rattle.nz_system.specs.Drafts.{with_one, with_all, blank};

use crate::NoMemory;
use crate::contribution::{Contribution, coordinate, first_entries, level_unit, number, ones};
use crate::groups::{Group, stands, stands_without};
use nz_input::{File, Item, Items, Kind};
use nz_vec::{Constraint, Constraints, Row, Rows};
use std::alloc::Global;

/// The lists of a system, without what no row gives.
#[derive(Drop)]
pub struct Draft {
    pub equations: Rows<i128>,
    pub congruences: Constraints<i128>,
    pub inequalities: Rows<i128>,
    pub generators: Rows<i128>,
    pub lattice: Rows<i128>,
    pub degrees: Rows<i128>,
    pub asked: Rows<i128>,
}

impl Draft {
    pub(crate) fn new(alloc: Global) -> Draft
        ensures { result ≡ blank }
    {
        Draft {
            equations: Rows::new(alloc),
            congruences: Constraints::new(alloc),
            inequalities: Rows::new(alloc),
            generators: Rows::new(alloc),
            lattice: Rows::new(alloc),
            degrees: Rows::new(alloc),
            asked: Rows::new(alloc),
        }
    }

    fn take(&mut self, contribution: Contribution) -> Result<(), NoMemory>
        ensures { OnOk result (self.new ≡ with_one self.old contribution) }
    {
        match contribution {
            Contribution::Zero(form) => self.equations.push(form),
            Contribution::Multiple(form, modulus) => {
                self.congruences.push(Constraint::Multiple(form, modulus))
            }
            Contribution::NotNegative(form) => self.inequalities.push(form),
            Contribution::Generator(vector) => self.generators.push(vector),
            Contribution::LatticeGenerator(vector) => self.lattice.push(vector),
            Contribution::Degree(form) => self.degrees.push(form),
            Contribution::Asked(vector) => self.asked.push(vector),
        }
    }

    fn take_sign(
        &mut self,
        alloc: Global,
        row: &Row<i64>,
        place: usize,
        behind: &[i128],
    ) -> Result<(), NoMemory>
        requires { place < length row.now }
        ensures { OnOk result (self.new ≡ with_all self.old (map Contribution.NotNegative (sign_form (length row.now) behind.now place (entry row.now place)))) }
    {
        let sign = number(row, place);
        if sign == 0 {
            return Ok(());
        }
        self.take(Contribution::NotNegative(coordinate(alloc, row.len(), place, sign, behind)?))
    }

    fn take_signs(&mut self, alloc: Global, row: &Row<i64>, behind: &[i128]) -> Result<(), NoMemory>
        ensures { OnOk result (self.new ≡ with_all self.old (map Contribution.NotNegative (sign_forms row.now behind.now (length row.now)))) }
    {
        for place in 0..row.len() {
            self.take_sign(alloc, row, place, behind)?;
        }
        Ok(())
    }

    /// Takes what a row gives; a level is there or not.
    fn take_row(
        &mut self,
        alloc: Global,
        level: bool,
        kind: Kind,
        row: &Row<i64>,
    ) -> Result<(), NoMemory>
        requires { 0 < length row.now }
        ensures { OnOk result (self.new ≡ with_all self.old (contributions level kind row.now)) }
    {
        let level_zero = if level { [0].as_slice() } else { [].as_slice() };
        let len = row.len();
        match kind {
            Kind::Equations => self.take(Contribution::Zero(first_entries(
                alloc, row, len, level_zero,
            )?)),
            Kind::Inequalities => self.take(Contribution::NotNegative(first_entries(
                alloc, row, len, level_zero,
            )?)),
            Kind::Congruences => self.take(Contribution::Multiple(
                first_entries(alloc, row, len - 1, level_zero)?,
                number(row, len - 1),
            )),
            Kind::Signs => self.take_signs(alloc, row, level_zero),
            Kind::StrictSigns => self.take_signs(alloc, row, &[-1]),
            Kind::StrictInequalities => self.take(Contribution::NotNegative(first_entries(
                alloc,
                row,
                len,
                &[-1],
            )?)),
            Kind::InhomInequalities => self.take(Contribution::NotNegative(row.widen()?)),
            Kind::InhomEquations => self.take(Contribution::Zero(row.widen()?)),
            Kind::InhomCongruences => self.take(Contribution::Multiple(
                first_entries(alloc, row, len - 1, &[])?,
                number(row, len - 1),
            )),
            Kind::Cone => self.take(Contribution::Generator(first_entries(
                alloc, row, len, level_zero,
            )?)),
            Kind::ConeAndLattice => {
                self.take(Contribution::Generator(first_entries(alloc, row, len, level_zero)?))?;
                self.take(Contribution::LatticeGenerator(first_entries(
                    alloc, row, len, level_zero,
                )?))
            }
            Kind::Vertices => self.take(Contribution::Generator(row.widen()?)),
            Kind::Grading => self.take(Contribution::Degree(first_entries(
                alloc, row, len, level_zero,
            )?)),
            Kind::Ask => self.take(Contribution::Asked(row.widen()?)),
            Kind::MonomialIdeal => Ok(()),
        }
    }

    fn take_item(&mut self, alloc: Global, level: bool, item: &Item) -> Result<(), NoMemory>
        requires { Each (λ (r : Vector). 0 < length r) item.now.rows }
        ensures { OnOk result (self.new ≡ with_all self.old (flat_map (contributions level item.now.kind) item.now.rows)) }
    {
        for place in 0..item.rows.len() {
            self.take_row(alloc, level, item.kind, item.rows.at(place))?;
        }
        Ok(())
    }

    /// Takes what the items give.
    pub(crate) fn take_items(
        &mut self,
        alloc: Global,
        level: bool,
        items: &Items,
    ) -> Result<(), NoMemory>
        requires { Each (λ (i : ItemData). Each (λ (r : Vector). 0 < length r) i.rows) items.now }
        ensures { OnOk result (self.new ≡ with_all self.old (given level items.now)) }
    {
        for place in 0..items.len() {
            self.take_item(alloc, level, items.at(place))?;
        }
        Ok(())
    }

    /// Takes x_i ≥ 0 for each i, where it is wanted.
    fn take_orthant(
        &mut self,
        alloc: Global,
        amb: u32,
        level: bool,
        wanted: bool,
    ) -> Result<(), NoMemory>
        requires { 0 < amb }
        ensures { OnOk result (self.new ≡ with_all self.old (orthant_where wanted level amb)) }
    {
        if !wanted {
            return Ok(());
        }
        let ones = ones(alloc, amb)?;
        self.take_row(alloc, level, Kind::Signs, &ones)
    }

    fn take_vertex(&mut self, alloc: Global, amb: u32, wanted: bool) -> Result<(), NoMemory>
        ensures { OnOk result (self.new ≡ with_all self.old (only_if wanted (Contribution.Generator (level_unit amb) ∷ []))) }
    {
        if !wanted {
            return Ok(());
        }
        self.take(Contribution::Generator(level_unit(alloc, amb)?))
    }

    /// Takes that the level is not negative, where there is one, and the vertex 0 where it is wanted.
    fn take_level(
        &mut self,
        alloc: Global,
        amb: u32,
        level: bool,
        with_vertex: bool,
    ) -> Result<(), NoMemory>
        ensures { OnOk result (self.new ≡ with_all self.old (level_where level with_vertex amb)) }
    {
        if !level {
            return Ok(());
        }
        self.take(Contribution::NotNegative(level_unit(alloc, amb)?))?;
        self.take_vertex(alloc, amb, with_vertex)
    }

    /// Takes what no row of the file gives.
    pub(crate) fn take_others(
        &mut self,
        alloc: Global,
        level: bool,
        file: &File,
    ) -> Result<(), NoMemory>
        ensures { OnOk result (self.new ≡ with_all self.old (orthant level file.now ++ of_level level file.now)) }
    {
        file.kept();
        let bounded = stands(Group::Bounding, &file.items);
        self.take_orthant(alloc, file.amb, level, !bounded)?;
        let with_vertex = stands_without(Group::Cone, Group::Vertices, &file.items);
        self.take_level(alloc, file.amb, level, with_vertex)?;
        Ok(())
    }
}
