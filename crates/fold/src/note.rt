use crate::step::Step;
use std::marker::Model;

// A step of a folded net: a net has at most 64 places, so its place is below 64. Contracts see it as the step.
#[derive(Clone, Copy, Default)]
pub(crate) struct Note {
    pub(crate) step: Step,
}

impl Model for Note {
    ghost use Rattle.std.specs.Prelude.{◌<◌};
    ghost use Rattle.fold.specs.declared.step.Step.{Step};

    ghost Value = { Step };

    ghost view = { λ n. n.step };

    ghost invariant = { λ n. n.step.place < 64 };

    ghost inverse = { λ s. record { step = s } };
}
