//! What is written of a function so far.

ghost use Rattle.std.specs.Prelude.{◌≡◌, [], ◌∷◌, length, IfOk, OnOk};
ghost use Rattle.gc0_tree.specs.declared.Shape.{Shape as Shape'};
ghost use Rattle.temp_counts.specs.Used.{used_in};
ghost use Rattle.core_tree.specs.CoreTree.{no_code};
ghost use Rattle.core_tree.specs.CoreViews.{core_stmt_view};
ghost use Rattle.core_tables.specs.SiteTables.{choices_at};
ghost use Rattle.lowering_laws.specs.Counts.{Counts, with_temp, decided};
ghost use Rattle.lowering_laws.specs.Trees.{one, temp, decision};
ghost use Rattle.lowering_laws.specs.Tables.{branch};
ghost use Rattle.core_expressions.specs.Writing.{IsWithin, target_of, StandsFor, IsWritten};

use crate::within::Within;
use core_tables::{PlacedSite, append_choices};
use core_tree::{CoreStmt, DecisionAt, Origin, Phase};
use gc0_base::{Decision, Place, Site};
use gc0_tree::Shape;
use sqlite_items::Items;
use std::alloc::{AllocError, Global};
use temp_counts::TempCounts;

/// What is written of a function so far.
#[derive(Drop)]
pub struct Written {
    /// The statements on this level.
    pub code: Items<CoreStmt>,
    /// The decisions, whose numbers are their indices.
    pub decisions: Items<DecisionAt>,
    /// The sites, in the order of the code.
    pub placed: Items<PlacedSite>,
    /// The temporaries that the statement uses.
    pub temps: TempCounts,
}

impl Written {
    /// Nothing so far.
    pub fn new(alloc: Global) -> Written
        ensures code { result.code ≡ [] }
        ensures decisions { result.decisions ≡ [] }
        ensures placed { result.placed ≡ [] }
        ensures temps { (s : Shape') → used_in result.temps s ≡ 0 }
    {
        Written {
            code: Items::new(alloc),
            decisions: Items::new(alloc),
            placed: Items::new(alloc),
            temps: TempCounts::new(alloc),
        }
    }

    /// Writes a statement behind the code.
    pub fn push(&mut self, statement: CoreStmt) -> Result<(), AllocError>
        ensures { (c : Counts) → StandsFor self.old c → OnOk result (IsWritten self.old self.new c (one (core_stmt_view statement)) [] []) }
    {
        self.code.push(statement)
    }

    /// Notes a site of the code.
    pub fn place(&mut self, site: PlacedSite) -> Result<(), AllocError>
        ensures { (c : Counts) → StandsFor self.old c → OnOk result (IsWritten self.old self.new c no_code [] (site ∷ [])) }
    {
        self.placed.push(site)
    }

    /// Takes the next temporary of a shape, and gives its number.
    ///
    /// Errors: the number would be 2^32 or more, or there was not memory enough.
    pub fn take(&mut self, within: &Within<'_>, shape: Shape) -> Result<u32, AllocError>
        requires { IsWithin within.now }
        ensures number { (c : Counts) → StandsFor self.old c → IfOk result (λ to. to ≡ temp (target_of within.now) shape c) }
        ensures written { (c : Counts) → StandsFor self.old c → OnOk result (IsWritten self.old self.new (with_temp shape c) no_code [] []) }
    {
        let k = self.temps.take(shape)?;
        within.temps.slot(shape, k)
    }

    /// Takes the next decision for a branch, whose token stands at a place.
    ///
    /// Errors: the number would be 2^32 or more, or there was not memory enough.
    pub fn branch(&mut self, within: &Within<'_>, place: Place) -> Result<Decision, AllocError>
        ensures decision { (c : Counts) → StandsFor self.old c → IfOk result (λ d. d ≡ decision (target_of within.now) c) }
        ensures written { (c : Counts) → StandsFor self.old c → OnOk result (IsWritten self.old self.new (decided 1 c) no_code (branch place) []) }
    {
        let number = self.decisions.len();
        if number > 0xffff_ffff {
            return Err(AllocError);
        }
        self.decisions.push(DecisionAt {
            place,
            origin: Origin::Branch,
        })?;
        Ok(Decision {
            function: within.number,
            number: number as u32,
        })
    }
    /// Takes the next decisions for the choices of a formula that is produced or consumed at a
    /// site; the choices stand at these places.
    ///
    /// Errors: there was not memory enough, or there are 2^32 choices or more.
    pub fn decide(&mut self, site: Site, phase: Phase, places: &[Place]) -> Result<(), AllocError>
        ensures { (c : Counts) → StandsFor self.old c → OnOk result (IsWritten self.old self.new (decided (length places.now) c) no_code (choices_at site phase 0 places.now) []) }
    {
        append_choices(&mut self.decisions, site, phase, places)
    }
}
