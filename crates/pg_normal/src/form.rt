//! A normal form has each vertex and each arc once, with the valuations under which it occurs.
ghost use Rattle.std.specs.Prelude.{◌≡◌, ◌≢◌, ◌<◌, ◌++◌, ◌∷◌, [], length, slice_get, ◌==◌, ℕ, if◌then◌else◌, OnOk, OnErr};
ghost use Rattle.std.specs.Option.{IsSomeAnd};
ghost use Rattle.pg_normal.specs.Forms.{vertex_table, arc_table, is_arc, Implies, IsForm};

use cpog_base::Memory;
use indexmap::IndexMap;
use pg_algebra::Table;
use std::alloc::Global;
use std::marker::Model;

/// Vertices and arcs with their tables, each at the place where it was put.
#[derive(Drop)]
pub struct NormalForm {
    vertices: IndexMap<u32, Table>,
    arcs: IndexMap<(u32, u32), Table>,
}

impl Model for NormalForm {
    ghost use Rattle.std.specs.Prelude.{◌<◌, ◌^◌, length};
    ghost use Rattle.pg_normal.specs.Forms.{Form, IsForm};

    ghost Value = { Form };

    ghost view = { λ f. record { vertices = f.vertices.entries; arcs = f.arcs.entries } };

    ghost invariant = { λ f. IsForm (record { vertices = f.vertices.entries; arcs = f.arcs.entries }) × (length f.vertices.entries < 2 ^ 32) × (length f.arcs.entries < 2 ^ 32) };
}

impl NormalForm {
    /// The form without a vertex.
    pub fn new(alloc: Global) -> NormalForm
        ensures { result ≡ record { vertices = []; arcs = [] } }
    {
        NormalForm {
            vertices: IndexMap::new(alloc),
            arcs: IndexMap::new(alloc),
        }
    }

    /// How many vertices it has.
    pub fn vertices(&self) -> u32
        ensures len { result ≡ length self.now.vertices }
        ensures form { IsForm self.now }
    {
        self.vertices.len() as u32
    }

    /// How many arcs it has.
    pub fn arcs(&self) -> u32
        ensures len { result ≡ length self.now.arcs }
        ensures form { IsForm self.now }
    {
        self.arcs.len() as u32
    }

    /// The vertex at a place, from 0.
    pub fn vertex(&self, i: u32) -> u32
        requires { i < length self.now.vertices }
        ensures { IsSomeAnd (slice_get self.now.vertices i) (λ e. result ≡ e.0) }
    {
        *self.vertices.get_index(i as usize).unwrap().0
    }

    /// The ends of the arc at a place, from 0.
    pub fn arc_ends(&self, i: u32) -> (u32, u32)
        requires { i < length self.now.arcs }
        ensures { IsSomeAnd (slice_get self.now.arcs i) (λ e. result ≡ e.0) }
    {
        *self.arcs.get_index(i as usize).unwrap().0
    }

    /// The table of a vertex, and 0 where the form doesn't have it.
    pub fn vertex_table(&self, v: u32) -> Table
        ensures { result.0 ≡ vertex_table self.now v }
    {
        match self.vertices.get(&v) {
            Some(table) => *table,
            None => Table(0),
        }
    }

    /// The table of an arc, and 0 where the form doesn't have it.
    pub fn arc_table(&self, u: u32, v: u32) -> Table
        ensures { result.0 ≡ arc_table self.now u v }
    {
        match self.arcs.get(&(u, v)) {
            Some(table) => *table,
            None => Table(0),
        }
    }

    /// Puts a vertex last.
    ///
    /// # Errors
    ///
    /// `Memory` where none is left.
    pub fn add_vertex(&mut self, v: u32, table: Table) -> Result<(), Memory>
        requires new { vertex_table self.old v ≡ 0 }
        requires some { table.0 ≢ 0 }
        ensures ok { OnOk result (self.new ≡ record self.old { vertices = self.old.vertices ++ (v, table) ∷ [] }) }
        ensures tables { OnOk result ((w : ℕ) → vertex_table self.new w ≡ (if w == v then table.0 else vertex_table self.old w)) }
        ensures err { OnErr result (self.new ≡ self.old) }
    {
        // read here, so that it is known to be a word of 64 bits
        let _word = table.0;
        if self.vertices.len() >= u32::MAX as usize {
            return Err(Memory);
        }
        self.vertices.insert(v, table)?;
        Ok(())
    }

    /// Puts an arc last.
    ///
    /// # Errors
    ///
    /// `Memory` where none is left.
    pub fn add_arc(&mut self, u: u32, v: u32, table: Table) -> Result<(), Memory>
        requires new { arc_table self.old u v ≡ 0 }
        requires some { table.0 ≢ 0 }
        requires first { Implies table.0 (vertex_table self.old u) }
        requires second { Implies table.0 (vertex_table self.old v) }
        ensures ok { OnOk result (self.new ≡ record self.old { arcs = self.old.arcs ++ ((u, v), table) ∷ [] }) }
        ensures tables { OnOk result ((a b : ℕ) → arc_table self.new a b ≡ (if is_arc a b (u, v) then table.0 else arc_table self.old a b)) }
        ensures err { OnErr result (self.new ≡ self.old) }
    {
        // read here, so that it is known to be a word of 64 bits
        let _word = table.0;
        if self.arcs.len() >= u32::MAX as usize {
            return Err(Memory);
        }
        self.arcs.insert((u, v), table)?;
        Ok(())
    }
}
