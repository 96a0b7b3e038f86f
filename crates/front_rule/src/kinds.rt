//! The kinds of steps that load the word and leave it, in the order of `specs/Steps.antt`. A kind is a type without
//! values: it says which parts such a step needs, what it makes of them and tells, and that this keeps the rule.
use crate::plays::Kind;
use crate::told::{TellsKey, TellsNumber, TellsNumbers};
use std::marker::PhantomData;

/// A note is added to a pen's, a pass's or a leaf's part.
pub(crate) struct Noting;

impl Kind for Noting {
    ghost use Rattle.front_rule.specs.Steps.{CanNote, Notes};

    ghost can = { CanNote };

    ghost tells = { Notes };

    fn goes() {}
}

/// A pass takes in a note.
pub(crate) struct Learning;

impl Kind for Learning {
    ghost use Rattle.front_rule.specs.Steps.{CanLearn, Learns};

    ghost can = { CanLearn };

    ghost tells = { Learns };

    fn goes() {}
}

/// A pass looks at a leaf.
pub(crate) struct Looking;

impl Kind for Looking {
    ghost use Rattle.front_rule.specs.Steps.{CanLook, Looks};

    ghost can = { CanLook };

    ghost tells = { Looks };

    fn goes() {}
}

/// A pass sees all that the pen knows.
pub(crate) struct Catching;

impl Kind for Catching {
    ghost use Rattle.front_rule.specs.Steps.{CanCatch, Catches};

    ghost can = { CanCatch };

    ghost tells = { Catches };

    fn goes() {}
}

/// A leaf of an ended memtable is compared with a later note.
pub(crate) struct Comparing;

impl Kind for Comparing {
    ghost use Rattle.front_rule.specs.Steps.{CanCompare, Compares};

    ghost can = { CanCompare };

    ghost tells = { Compares };

    fn goes() {}
}

/// A leaf's range is cut.
pub(crate) struct Cutting<E: TellsKey> {
    of: PhantomData<E>,
}

impl<E: TellsKey> Kind for Cutting<E> {
    ghost use Rattle.front_rule.specs.Steps.{CanCut, Cuts};

    ghost can = { CanCut E.key };

    ghost tells = { Cuts E.key };

    fn goes() {}
}

/// The pen's safe place rises.
pub(crate) struct Settling<E: TellsNumber> {
    of: PhantomData<E>,
}

impl<E: TellsNumber> Kind for Settling<E> {
    ghost use Rattle.front_rule.specs.Steps.{CanSettle, Settles};

    ghost can = { CanSettle E.number };

    ghost tells = { Settles E.number };

    fn goes() {}
}

/// One more failure is told to a pass.
pub(crate) struct Failing<E: TellsNumber> {
    of: PhantomData<E>,
}

impl<E: TellsNumber> Kind for Failing<E> {
    ghost use Rattle.front_rule.specs.Steps.{CanFail, Fails};

    ghost can = { CanFail E.number };

    ghost tells = { Fails E.number };

    fn goes() {}
}

/// The pen makes a pass.
pub(crate) struct Making;

impl Kind for Making {
    ghost use Rattle.front_rule.specs.Steps.{CanMake, Makes};

    ghost can = { CanMake };

    ghost tells = { Makes };

    fn goes() {}
}

/// A pass ends.
pub(crate) struct Ending;

impl Kind for Ending {
    ghost use Rattle.front_rule.specs.Steps.{CanEnd, Ends};

    ghost can = { CanEnd };

    ghost tells = { Ends };

    fn goes() {}
}

/// The keeper's numbers rise.
pub(crate) struct Keeping<E: TellsNumbers> {
    of: PhantomData<E>,
}

impl<E: TellsNumbers> Kind for Keeping<E> {
    ghost use Rattle.front_rule.specs.Steps.{CanKeep, Keeps};

    ghost can = { CanKeep E.numbers };

    ghost tells = { Keeps E.numbers };

    fn goes() {}
}

/// The pen or a pass takes in the keeper's numbers.
pub(crate) struct Taking;

impl Kind for Taking {
    ghost use Rattle.front_rule.specs.Steps.{CanTake, Takes};

    ghost can = { CanTake };

    ghost tells = { Takes };

    fn goes() {}
}

/// The pen meets the keeper.
pub(crate) struct Meeting;

impl Kind for Meeting {
    ghost use Rattle.front_rule.specs.Steps.{CanMeet, Meets};

    ghost can = { CanMeet };

    ghost tells = { Meets };

    fn goes() {}
}
