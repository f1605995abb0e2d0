//! The function within which code is written.

ghost use Rattle.std.specs.Prelude.{◌≡◌, IfOk};
ghost use Rattle.gc0_base.specs.declared.site.Kind.TheVariants as kind;
ghost use Rattle.stack_code.specs.Within.{IsWithin, AreOf, places_of};

use gc0_base::{Kind, Place, Site};
use gc0_tree::{Function, Program, SiteNumbers};
use std::alloc::{AllocError, Global};

/// What the code of a statement depends on besides the statement.
#[derive(Drop)]
pub struct Within<'a> {
    pub program: &'a Program,
    pub function: &'a Function,
    pub number: u32,
    pub calls: SiteNumbers<'a>,
    pub returns: SiteNumbers<'a>,
    pub first_heads: SiteNumbers<'a>,
    pub later_heads: SiteNumbers<'a>,
    pub asserts: SiteNumbers<'a>,
}

impl<'a> Within<'a> {
    pub fn new(
        alloc: Global,
        program: &'a Program,
        function: &'a Function,
        number: u32,
    ) -> Result<Within<'a>, AllocError>
        ensures numbers { IfOk result (λ w. IsWithin w) }
        ensures program { IfOk result (λ w. w.program.now ≡ program.entry.now) }
        ensures function { IfOk result (λ w. w.function.now ≡ function.entry.now) }
        ensures number { IfOk result (λ w. w.number ≡ number) }
    {
        let calls = SiteNumbers::new(alloc, function, number, Kind::Requires)?;
        let returns = SiteNumbers::new(alloc, function, number, Kind::Ensures)?;
        let first_heads = SiteNumbers::new(alloc, function, number, Kind::Entry)?;
        let later_heads = SiteNumbers::new(alloc, function, number, Kind::Again)?;
        let asserts = SiteNumbers::new(alloc, function, number, Kind::Assert)?;
        Ok(Within {
            program,
            function,
            number,
            calls,
            returns,
            first_heads,
            later_heads,
            asserts,
        })
    }

    /// The site of a call.
    pub fn call_site(&self, place: Place) -> Site
        requires { IsWithin self.now }
        ensures { result ≡ places_of self.now kind.Requires place }
    {
        self.calls.site(place)
    }

    /// The site of a return.
    pub fn return_site(&self, place: Place) -> Site
        requires { IsWithin self.now }
        ensures { result ≡ places_of self.now kind.Ensures place }
    {
        self.returns.site(place)
    }

    /// The site of the first head of a loop.
    pub fn entry_site(&self, place: Place) -> Site
        requires { IsWithin self.now }
        ensures { result ≡ places_of self.now kind.Entry place }
    {
        self.first_heads.site(place)
    }

    /// The site of the later heads of a loop.
    pub fn again_site(&self, place: Place) -> Site
        requires { IsWithin self.now }
        ensures { result ≡ places_of self.now kind.Again place }
    {
        self.later_heads.site(place)
    }

    /// The site of an assert.
    pub fn assert_site(&self, place: Place) -> Site
        requires { IsWithin self.now }
        ensures { result ≡ places_of self.now kind.Assert place }
    {
        self.asserts.site(place)
    }
}
