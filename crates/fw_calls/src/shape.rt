//! Rows of the table of members.
ghost use Rattle.std.specs.Prelude.{◌≡◌};
ghost use Rattle.fw_calls.specs.Rows.{adds, asks, binds, member_row, removes, silent, telling};

use super::{BindingKind, BindingVerb, Member, SettingKind, SignalKind, Verb, ZoneMember};
use std::marker::Model;

/// Types in a row, as a D-Bus signature (D-Bus Specification, "Type System"). Contracts see its letters.
#[derive(Drop)]
pub struct Letters {
    letters: &'static str,
}

impl Model for Letters {
    ghost use Rattle.std.specs.Prelude.{List, ℕ};

    ghost Value = { List ℕ };

    ghost view = { λ letters. letters.letters.now };
}

impl Letters {
    fn of(letters: &'static str) -> Letters
        ensures { result ≡ letters.now }
    {
        Letters { letters }
    }

    pub fn as_str(&self) -> &'static str
        ensures { result.now ≡ self.now }
    {
        self.letters
    }
}

/// The kinds of a member's signals, in the order in which they come.
#[derive(Clone, Copy, Debug, PartialEq, Eq)]
pub enum Signals {
    None,
    One(SignalKind),
    Two(SignalKind, SignalKind),
}

/// A row of the table.
#[derive(Drop)]
pub struct Row {
    pub member: Member,
    /// The types of its arguments.
    pub arguments: Letters,
    /// The type of its answer; there are no letters where it answers no value.
    pub answers: Letters,
    pub signals: Signals,
}

pub fn member_row(
    member: Member,
    arguments: &'static str,
    answers: &'static str,
    signals: Signals,
) -> Row
    ensures { result ≡ member_row member arguments.now answers.now signals }
{
    Row {
        member,
        arguments: Letters::of(arguments),
        answers: Letters::of(answers),
        signals,
    }
}

/// A member without signals.
pub fn silent(member: Member, arguments: &'static str, answers: &'static str) -> Row
    ensures { result ≡ silent member arguments.now answers.now }
{
    member_row(member, arguments, answers, Signals::None)
}

/// A member with one kind of signals.
pub fn telling(
    member: Member,
    arguments: &'static str,
    answers: &'static str,
    signal: SignalKind,
) -> Row
    ensures { result ≡ telling member arguments.now answers.now signal }
{
    member_row(member, arguments, answers, Signals::One(signal))
}

pub fn adds(kind: SettingKind, arguments: &'static str, signal: SignalKind) -> Row
    ensures { result ≡ adds kind arguments.now signal }
{
    telling(
        Member::Zone(ZoneMember::Setting(Verb::Add, kind)),
        arguments,
        "s",
        signal,
    )
}

pub fn removes(kind: SettingKind, arguments: &'static str, signal: SignalKind) -> Row
    ensures { result ≡ removes kind arguments.now signal }
{
    telling(
        Member::Zone(ZoneMember::Setting(Verb::Remove, kind)),
        arguments,
        "s",
        signal,
    )
}

pub fn asks(kind: SettingKind, arguments: &'static str) -> Row
    ensures { result ≡ asks kind arguments.now }
{
    silent(
        Member::Zone(ZoneMember::Setting(Verb::Query, kind)),
        arguments,
        "b",
    )
}

pub fn binds(verb: BindingVerb, kind: BindingKind, signal: SignalKind) -> Row
    ensures { result ≡ binds verb kind signal }
{
    telling(
        Member::Zone(ZoneMember::Binding(verb, kind)),
        "ss",
        "s",
        signal,
    )
}
