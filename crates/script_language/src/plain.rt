//! Calls that own no memory, in the form in which a script gives them.
ghost use Rattle.std.specs.Prelude.{◌≡◌, ◌≢◌, ◌+◌, ◌≤◌, ℕ, List, length, IfSome, IfNone};
ghost use Rattle.inverse_log.specs.declared.call.Call.{Call as CallValue};
ghost use Rattle.script_language.specs.Kept.{IsNamedIn, kept_call};
ghost use Rattle.script_language.specs.declared.kept.Form.TheVariants.{Owned};

use crate::kept::{Form, Kept, first_name, made};
use inverse_log::Call;
use moves::Name;
use std::marker::Model;

/// A call that owns no memory, in the form in which its script keeps it. Contracts see it as the call.
///
/// A call has some 140 bytes. So it is made only once, at the place that uses it, and is not moved.
#[derive(Drop)]
pub struct PlainCall<'a> {
    // the bytes of all names
    names: &'a [u8],
    kept: &'a Kept,
}

impl<'a> Model for PlainCall<'a> {
    ghost use Rattle.inverse_log.specs.declared.call.Call.{Call};
    ghost use Rattle.script_language.specs.Plain.{plain_call, IsPlain};

    ghost Value = { Call };

    ghost view = { plain_call };

    ghost invariant = { IsPlain };
}

impl<'a> PlainCall<'a> {
    /// The call that a script keeps in this form.
    pub(crate) fn of(names: &'a [u8], kept: &'a Kept) -> PlainCall<'a>
        requires form { kept.now.form ≢ Owned }
        requires within { kept.now.at + kept.now.name + kept.now.to ≤ length names.now }
        requires named { IsNamedIn names.now kept.now }
        ensures { (own : CallValue) → result ≡ kept_call names.now kept.now own }
    {
        PlainCall { names, kept }
    }

    /// Makes the call. Needs no memory.
    #[inline(always)]
    pub fn made(&self) -> Call
        ensures { result ≡ self.now }
    {
        made(self.names, self.kept)
    }

    /// Returns the schedule that the call shows; None if it is not a call `Show`.
    pub fn shown(&self) -> Option<Name>
        ensures some { IfSome result (λ name. self.now ≡ CallValue.Show name) }
        ensures none { IfNone result ((name : List ℕ) → self.now ≢ CallValue.Show name) }
    {
        match self.kept.form {
            Form::Show => Some(first_name(self.names, self.kept)),
            _ => None,
        }
    }
}

/// A call of a script: one that is not made yet, or a borrowed one if it owns memory. Neither needs memory.
#[derive(Drop)]
pub enum GivenCall<'a> {
    /// A call that owns no memory.
    Plain(PlainCall<'a>),
    /// A call that the script keeps, borrowed.
    Lent(&'a Call),
}
