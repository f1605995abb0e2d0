//! The function within which code is written.

ghost use Rattle.std.specs.Prelude.{◌≡◌, IfOk};
ghost use Rattle.gc0_base.specs.declared.site.Kind.TheVariants as kind;
ghost use Rattle.gc0_tree.specs.Views.{function_view, program_view};
ghost use Rattle.formula_choices.specs.ChoicePlaces.{AreChoices};
ghost use Rattle.temp_counts.specs.Used.{AreTemps};
ghost use Rattle.core_expressions.specs.Writing.{IsWithin, places_of};

use formula_choices::ProgramChoices;
use gc0_base::{Kind, Place, Site};
use gc0_tree::{Function, Program, SiteNumbers};
use std::alloc::{AllocError, Global};
use temp_counts::Temps;

/// What the code of a statement depends on besides the statement.
#[derive(Drop)]
pub struct Within<'a> {
    pub alloc: Global,
    pub program: &'a Program,
    pub function: &'a Function,
    pub number: u32,
    pub choices: &'a ProgramChoices,
    pub temps: &'a Temps,
    pub calls: SiteNumbers<'a>,
    pub returns: SiteNumbers<'a>,
    pub entry: SiteNumbers<'a>,
    pub again: SiteNumbers<'a>,
    pub asserts: SiteNumbers<'a>,
    pub folds: SiteNumbers<'a>,
    pub unfolds: SiteNumbers<'a>,
    pub accesses: SiteNumbers<'a>,
    pub traps: SiteNumbers<'a>,
}

impl<'a> Within<'a> {
    /// The numbers of the sites of a function, each kind sorted once.
    pub fn new(
        alloc: Global,
        program: &'a Program,
        function: &'a Function,
        number: u32,
        choices: &'a ProgramChoices,
        temps: &'a Temps,
    ) -> Result<Within<'a>, AllocError>
        requires choices { AreChoices choices.now (program_view program.now) }
        requires temps { AreTemps temps.now (program_view program.now) (function_view function.now) }
        ensures within { IfOk result (λ w. IsWithin w) }
        ensures program { IfOk result (λ w. w.program.now ≡ program.entry.now) }
        ensures function { IfOk result (λ w. w.function.now ≡ function.entry.now) }
        ensures number { IfOk result (λ w. w.number ≡ number) }
    {
        let calls = SiteNumbers::new(alloc, function, number, Kind::Requires)?;
        let returns = SiteNumbers::new(alloc, function, number, Kind::Ensures)?;
        let entry = SiteNumbers::new(alloc, function, number, Kind::Entry)?;
        let again = SiteNumbers::new(alloc, function, number, Kind::Again)?;
        let asserts = SiteNumbers::new(alloc, function, number, Kind::Assert)?;
        let folds = SiteNumbers::new(alloc, function, number, Kind::Fold)?;
        let unfolds = SiteNumbers::new(alloc, function, number, Kind::Unfold)?;
        let accesses = SiteNumbers::new(alloc, function, number, Kind::Access)?;
        let traps = SiteNumbers::new(alloc, function, number, Kind::Trap)?;
        Ok(Within {
            alloc,
            program,
            function,
            number,
            choices,
            temps,
            calls,
            returns,
            entry,
            again,
            asserts,
            folds,
            unfolds,
            accesses,
            traps,
        })
    }

    /// The site of a kind whose token stands at a place. A start is no token of the code, and has
    /// the number 0.
    pub fn site(&self, kind: Kind, place: Place) -> Site
        requires { IsWithin self.now }
        ensures { result ≡ places_of self.now kind place }
    {
        match kind {
            Kind::Start => Site {
                function: self.number,
                kind,
                ordinal: 0,
            },
            Kind::Requires => self.calls.site(place),
            Kind::Ensures => self.returns.site(place),
            Kind::Entry => self.entry.site(place),
            Kind::Again => self.again.site(place),
            Kind::Assert => self.asserts.site(place),
            Kind::Fold => self.folds.site(place),
            Kind::Unfold => self.unfolds.site(place),
            Kind::Access => self.accesses.site(place),
            Kind::Trap => self.traps.site(place),
        }
    }
}
