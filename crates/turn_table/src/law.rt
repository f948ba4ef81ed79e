// The rule of the table, and what each step tells.
use crate::fed::Fed;
use crate::held::{Held, Opening};
use crate::view::View;
use atomic_table::{Join, Play, Split, TableRule};
use std::marker::PhantomData;

/// The rule.
pub struct Law<P> {
    of: PhantomData<P>,
}

impl<P: Fed> TableRule<Held<P>, View<P>, Opening<P>> for Law<P> {
    ghost use Rattle.turn_table.specs.Rule.{IsKept};
    ghost use Rattle.turn_table.specs.Views.{newcomer};

    ghost holds = { λ key table. IsKept P.touch P.value P.made key.parts table };

    ghost first = { λ key. newcomer key.parts (record { number = 0; opens = key.places.value.items }) };
}

/// A turn is taken, or is not to be had.
pub struct Take<P> {
    of: PhantomData<P>,
}

impl<P: Fed> Play<Held<P>, View<P>> for Take<P> {
    ghost use Rattle.turn_table.specs.Steps.{Takes};

    ghost then = { Takes P.made };
}

/// The turn is given up.
pub struct Release;

impl<P> Play<Held<P>, View<P>> for Release {
    ghost use Rattle.turn_table.specs.Steps.{Releases};

    ghost then = { Releases };
}

/// A round ends, and another begins.
pub struct Settle<P> {
    of: PhantomData<P>,
}

impl<P: Fed> Play<Held<P>, View<P>> for Settle<P> {
    ghost use Rattle.turn_table.specs.Steps.{Settles};

    ghost then = { λ step before found after. Settles P.touch P.value P.made before after };
}

/// One part goes to a new seat.
pub struct Part;

impl<P> Split<View<P>> for Part {
    ghost use Rattle.turn_table.specs.Views.{fewer, newcomer};

    ghost left = { fewer };

    ghost right = { λ v. newcomer 1 v.round };
}

/// All that two seats have.
pub struct Both;

impl<P> Join<View<P>> for Both {
    ghost use Rattle.std.specs.Prelude.{[]};
    ghost use Rattle.turn_table.specs.Views.{joined, newcomer};

    ghost both = { joined };

    ghost spent = { newcomer 0 (record { number = 0; opens = [] }) };
}
