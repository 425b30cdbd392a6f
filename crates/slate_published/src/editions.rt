// A state with the list of those that were published up to it, and the rule of the two copies of it that readers enter.
ghost use Rattle.std.specs.Prelude.{◌≡◌, IfOk, MatchResult, IsOk};
ghost use Rattle.std.specs.Arc.{arc_value};
ghost use Rattle.slate_published.specs.States.{last_of};
ghost use Rattle.slate_published.specs.Origins.{AreOfOne, ShowsOrigin};

use crate::PublishedState;
use crate::fronts::Front;
use atomic_table::{Join, Split};
use crossbeam_utils::rule::{Outcome, Protocol};
use left_right::Absorb;
use std::alloc::{AllocError, Global};
use std::marker::{Model, PhantomData};
use std::sync::Arc;

/// The last state of a beginning of the list, and that beginning. Copies share the state.
#[derive(Drop)]
pub(crate) struct Edition {
    state: Arc<PublishedState, Global>,
    front: Front,
}

impl Model for Edition {
    ghost use Rattle.std.specs.Prelude.{◌≡◌};
    ghost use Rattle.std.specs.Arc.{arc_value};
    ghost use Rattle.slate_published.specs.States.{last_of};
    ghost use Rattle.slate_published.specs.Beginnings.{Beginning};

    ghost Value = { Beginning };

    ghost view = { λ e. e.front };

    ghost invariant = { λ e. arc_value e.state ≡ last_of e.front.states };
}

impl Edition {
    /// The edition of a beginning and its last state.
    pub(crate) fn of(state: Arc<PublishedState, Global>, front: Front) -> Edition
        requires { arc_value state ≡ last_of front.states }
        ensures { result ≡ front }
    {
        Edition { state, front }
    }

    /// A copy, which shares the state. It fails where there are as many copies as there may be.
    pub(crate) fn again(&self) -> Result<Edition, AllocError>
        ensures { IfOk result (λ copy. copy ≡ self.now) }
    {
        Ok(Edition {
            state: self.state.clone()?,
            front: self.front.again(),
        })
    }

    /// The state.
    pub(crate) fn state(&self) -> &PublishedState
        ensures { result.now ≡ last_of self.now.states }
    {
        &self.state
    }

    /// The beginning that ends with it.
    pub(crate) fn front(&self) -> &Front
        ensures { result.now ≡ self.now }
    {
        &self.front
    }
}

/// Which list it is. No value of it is made.
pub(crate) struct Origin {
    marker: PhantomData<()>,
}

impl Model for Origin {
    ghost use Rattle.logbook.specs.Pages.{Book, book_coded};

    ghost Value = { Book };

    ghost coded = { book_coded };

    ghost view = { λ _. record { number = 0; log_name = 0; cells_name = 0 } };
}

impl Absorb<Edition> for Edition {
    type State = Origin;

    ghost state = { λ edition. edition.origin };

    ghost applied = { λ origin edition. edition.origin };

    fn absorb_first(&mut self, operation: &Edition, _other: &Edition) -> Result<(), AllocError> {
        *self = operation.again()?;
        Ok(())
    }

    fn absorb_second(&mut self, operation: Edition, _other: &Edition) -> Result<(), Edition> {
        *self = operation;
        Ok(())
    }
}

/// The rule of the copies: who knows of which list they are knows the right one.
pub(crate) struct SameOrigin;

impl Protocol<Edition, Option<Origin>> for SameOrigin {
    ghost use Rattle.std.specs.Prelude.{None};

    ghost holds = { AreOfOne };

    ghost first = { None };
}

/// A look at the copy that is shown, or a change of it.
pub(crate) struct Show;

impl Outcome<Edition, Option<Origin>> for Show {
    ghost then = { ShowsOrigin };
}

/// The writer tells a reader of which list the copies are.
pub(crate) struct Tell;

impl Split<Option<Origin>> for Tell {
    ghost left = { λ v. v };

    ghost right = { λ v. v };
}

impl Join<Option<Origin>> for Tell {
    ghost use Rattle.std.specs.Prelude.{None};

    ghost both = { λ v w. w };

    ghost spent = { None };
}
