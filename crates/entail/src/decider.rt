//! Deciders as a trait.
ghost use Rattle.std.specs.Prelude.{◌≡◌, ℕ, [], ◌∷◌, Option, IfOk, OnErr};
ghost use Rattle.word_blast.specs.Queries.{ids};
ghost use Rattle.word_blast.specs.Valuations.{AreTruths};
ghost use Rattle.entail.specs.Questions.{IsTruth, question_of};
ghost use Rattle.entail.specs.Answers.{IsJustified, Transcript, reply_of, with_answer};

use crate::answer::Answer;
use std::alloc::{AllocError, Global};
use word_terms::{TermId, Terms};

/// Who answers whether a claim follows from facts.
pub trait Decider {
    /// How many conflicts a search is given, which never changes.
    ghost asked: { Self → ℕ };

    /// The questions so far with their answers, oldest first, where they are told.
    ghost told: { Self → Option Transcript };

    /// Whether the claim follows from the facts. `Err` is want of memory, after which the
    /// decider can be asked on.
    fn entails(
        &mut self,
        alloc: Global,
        terms: &Terms,
        facts: &[TermId],
        claim: TermId,
    ) -> Result<Answer, AllocError>
        requires facts { AreTruths terms.now.nodes (ids facts.now) }
        requires claim { IsTruth terms.now.nodes claim.0 }

        ensures justified { IfOk result (IsJustified (asked self.old) terms.now (ids facts.now) claim.0) }
        ensures asked { asked self.new ≡ asked self.old }

        // A decider that tells its questions goes on telling, and one that doesn't never does.
        ensures told { IfOk result (λ answer. told self.new ≡ with_answer (told self.old) (question_of terms.now (ids facts.now) claim.0) (reply_of answer)) }
        ensures untold { OnErr result (told self.new ≡ told self.old) };
}
