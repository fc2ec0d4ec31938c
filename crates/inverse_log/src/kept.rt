//! What takes an entry back, as it is kept with the log.
ghost use Rattle.std.specs.Prelude.{◌≡◌, IsSome};
ghost use Rattle.inverse_log.specs.declared.kept.Held.TheVariants as held;
ghost use Rattle.inverse_log.specs.Steps.{kept_in};

use moves::{Inverses, Step};
use std::marker::Model;
use std::mem;

/// What takes the commands of an entry back.
#[derive(Drop)]
pub(crate) enum Held {
    /// There is nothing to take back.
    Nothing,
    /// The step back of an entry's only command.
    One(Step),
    /// What takes a batch back.
    Many(Inverses),
}

/// A box made in advance, so that keeping something in a box needs no memory.
pub(crate) type Spare = Option<Box<Held>>;

/// What takes an entry back, if it did commands and was not undone. Contracts see it as a `Held`.
///
/// Anything that owns a row, a schedule or a list is in a box: each entry has a `Kept`, and most steps are at most a
/// number.
#[derive(Drop)]
pub(crate) struct Kept {
    form: Form,
}

#[derive(Drop)]
enum Form {
    Nothing,
    Goes,
    Loses,
    Gains(u32),
    Exchanges(u32),
    Apart(Box<Held>),
}

impl Model for Kept {
    ghost use Rattle.inverse_log.specs.declared.kept.Held.{Held};
    ghost use Rattle.inverse_log.specs.Steps.{kept_in};

    ghost Value = { Held };

    ghost view = { λ k. kept_in k.form };
}

impl Kept {
    /// Nothing to take back.
    pub(crate) fn nothing() -> Kept
        ensures { result ≡ held.Nothing }
    {
        Kept {
            form: Form::Nothing,
        }
    }

    /// Keeps this. If it needs a box, it takes the spare one.
    pub(crate) fn of(held: Held, spare: &mut Spare) -> Kept
        requires { IsSome spare.old }
        ensures { result ≡ held }
    {
        let form = match held {
            Held::Nothing => Form::Nothing,
            Held::One(Step::Goes) => Form::Goes,
            Held::One(Step::Loses) => Form::Loses,
            Held::One(Step::Gains(event)) => Form::Gains(event),
            Held::One(Step::Exchanges(place)) => Form::Exchanges(place),
            Held::One(Step::Comes(row)) => Form::Apart(filled(spare, Held::One(Step::Comes(row)))),
            Held::One(Step::Was(was)) => Form::Apart(filled(spare, Held::One(Step::Was(was)))),
            Held::Many(inverses) => Form::Apart(filled(spare, Held::Many(inverses))),
        };
        Kept { form }
    }

    /// Returns what was kept, and keeps nothing from now on.
    pub(crate) fn take(&mut self) -> Held
        ensures taken { result ≡ self.old }
        ensures nothing { self.new ≡ held.Nothing }
    {
        match mem::replace(&mut self.form, Form::Nothing) {
            Form::Nothing => Held::Nothing,
            Form::Goes => Held::One(Step::Goes),
            Form::Loses => Held::One(Step::Loses),
            Form::Gains(event) => Held::One(Step::Gains(event)),
            Form::Exchanges(place) => Held::One(Step::Exchanges(place)),
            Form::Apart(held) => Box::into_inner(held),
        }
    }
}

/// The spare box with this in it.
fn filled(spare: &mut Spare, held: Held) -> Box<Held>
    requires { IsSome spare.old }
    ensures { result.value ≡ held }
{
    let mut apart = spare.take().unwrap();
    let _ = Box::replace(&mut apart, held);
    apart
}
