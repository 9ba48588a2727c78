//! What an engine is once no more events come.

ghost use Rattle.std.specs.Prelude.{◌≡◌, ◌++◌, IfOk, OnOk};
ghost use Rattle.table_model.specs.Both.{aggregate_in_both};
ghost use Rattle.cert_model.specs.Rows.{certificate_of};
ghost use Rattle.route_tries.specs.Sizes.{AreFew, needs_of};
ghost use Rattle.route_tries.specs.Tries.{AreTriesOf};

use crate::tables::Tables;
use cert_model::RowSink;
use fib_addr::EntrySink;
use fib_prefix::Family;
use route_tries::{FamilyNeeds, Sizes, Tries, TriesError};
use std::alloc::{AllocError, Global};
use std::marker::Model;

/// The kept tables of both families, without the candidates that the routes were chosen from: what is left to be written of an
/// engine, beside the numbers of next hops. Contracts see what `Rests` lists; the routes are those of the trees.
#[derive(Drop)]
pub struct FinalFib {
    pub(crate) alloc: Global,
    pub(crate) tables: Tables,
    pub(crate) needs: FamilyNeeds,
    pub(crate) sizes: Sizes,
}

impl Model for FinalFib {
    ghost use Rattle.route_tries.specs.Sizes.{sizes_as};
    ghost use Rattle.fib_engine.specs.FinalFib.{Rests, AreSettled};
    ghost use Rattle.fib_engine.specs.Tables.{both_routes, table_of};

    ghost Value = { Rests };

    ghost view = { λ s. record { sizes = sizes_as s.sizes; routes = both_routes s.tables; table = table_of s.tables } };

    ghost invariant = { λ s. AreSettled (sizes_as s.sizes) s.tables s.needs };
}

impl FinalFib {
    /// Hands on the routes one by one, in the order of prefixes. They are read from the trees.
    ///
    /// # Errors
    ///
    /// Out of memory; then the first n routes were taken, for some n.
    pub fn emit_routes<S: EntrySink>(&self, out: &mut S) -> Result<(), AllocError>
        requires { S.ready out.old }
        ensures ready { OnOk result (S.ready out.new) }
        ensures takes { OnOk result (S.takes out.old self.now.routes out.new) }
    {
        self.tables.emit_routes(out)
    }

    /// Hands on the entries of the kept table one by one, in the order of prefixes.
    ///
    /// # Errors
    ///
    /// Out of memory; then the first n entries were taken, for some n.
    pub fn emit_table<S: EntrySink>(&self, out: &mut S) -> Result<(), AllocError>
        requires { S.ready out.old }
        ensures ready { OnOk result (S.ready out.new) }
        ensures takes { OnOk result (S.takes out.old self.now.table out.new) }
    {
        self.tables.emit_table(out)
    }

    /// Hands on the entries of the least table of the routes one by one, with the kept one as the old table; IPv4 first.
    ///
    /// # Errors
    ///
    /// Out of memory; then the first n entries were taken, for some n.
    pub fn emit_least<S: EntrySink>(&self, out: &mut S) -> Result<(), AllocError>
        requires { S.ready out.old }
        ensures ready { OnOk result (S.ready out.new) }
        ensures takes { OnOk result (S.takes out.old
            (aggregate_in_both self.now.routes self.now.table) out.new) }
    {
        self.tables.emit_least(out)
    }

    /// Passes on the rows that prove the least table least, one by one; IPv4 first. Each family's table is let go once its rows
    /// are passed on.
    ///
    /// # Errors
    ///
    /// Out of memory; then the first n rows were taken, for some n.
    pub fn certify<S: RowSink>(self, out: &mut S) -> Result<(), AllocError>
        requires { S.ready out.old }
        ensures ready { OnOk result (S.ready out.new) }
        ensures takes { OnOk result (S.takes out.old (certificate_of self.routes) out.new) }
    {
        self.tables.certify(out)
    }

    /// How many places the nodes and the leaves of tries of the routes need, each at most what its arena has.
    pub fn needs(&self) -> FamilyNeeds
        ensures needs { result ≡ needs_of self.now.sizes.direct self.now.routes }
        ensures few { AreFew result }
    {
        self.needs
    }

    /// Tries of the routes, to look addresses up. They have room.
    ///
    /// # Errors
    ///
    /// Out of memory.
    pub fn tries(&self) -> Result<Tries<'_>, AllocError>
        ensures { IfOk result (AreTriesOf self.now.sizes.direct self.now.routes) }
    {
        let v4 = self.tables.tree(Family::V4);
        let v6 = self.tables.tree(Family::V6);
        match Tries::build(self.alloc, &self.sizes, v4, v6) {
            Ok(tries) => Ok(tries),
            Err(TriesError::NoMemory) => Err(AllocError),
            Err(TriesError::Full(_)) => unreachable!(),
        }
    }
}
