//! The members of an object in a line of the log.
ghost use Rattle.std.specs.Prelude.{◌≡◌, List, [], ◌∷◌, ◌++◌, option_map};
ghost use Rattle.json.specs.Json.{Json};
ghost use Rattle.json.specs.Find.{as_object};
ghost use Rattle.json.specs.Value.{value_view, items_view};
ghost use Rattle.s3_day_log.specs.Inner.Members.{halt_in, halt_of as halt_of_spec, level_in, level_of as level_of_spec, list_in, number_in, number_up_to as number_up_to_spec, object_in, optional_in, optional_number_in, optional_object_in, optional_text_in, text_in, up_to as up_to_spec, value_in, values_of, whole_in, whole_number as whole_number_spec};
ghost use Rattle.s3_day_log.specs.Inner.Views.{IsFound, members_in};

use json::Value;
use s3_cards::LevelId;
use s3_operator::{HaltCode, code_of};

/// An object, whose members are found by their names. It may have members of other names too, in any order.
#[derive(Clone, Copy)]
pub(crate) struct Members<'v, 'a> {
    list: &'v [(&'a str, Value<'a>)],
}

/// The values of the members of one name.
#[derive(Clone, Copy)]
enum Found<'v, 'a> {
    /// No member has this name.
    Nothing,
    /// One member has it.
    One(&'v Value<'a>),
    /// Two members or more have it.
    Several,
}

impl<'v, 'a> Found<'v, 'a> {
    /// The values with a further one.
    fn and(self, value: &'v Value<'a>) -> Found<'v, 'a>
        ensures { (values : List Json) → IsFound values self.entry → IsFound (values ++ value_view value.now ∷ []) result }
    {
        match self {
            Found::Nothing => Found::One(value),
            Found::One(_) | Found::Several => Found::Several,
        }
    }
}

impl<'v, 'a> Members<'v, 'a> {
    /// The members of a value; `None` if it is no object.
    pub(crate) fn of(value: &'v Value<'a>) -> Option<Members<'v, 'a>>
        ensures { option_map members_in result ≡ as_object (value_view value.now) }
    {
        match value {
            Value::Object(members) => Some(Members {
                list: members.as_slice(),
            }),
            _ => None,
        }
    }

    /// The values of the members of a name.
    #[tactic(auto, using(crate::proofs::MemberLemmas::values_more))]
    fn find(self, name: &str) -> Found<'v, 'a>
        ensures { IsFound (values_of name.now (members_in self.entry)) result }
    {
        let mut found = Found::Nothing;
        for member in self.list {
            if member.0 == name {
                found = found.and(&member.1);
            }
        }
        found
    }

    /// The value of the only member with a name; `None` if no member has the name, or several have it.
    fn value(self, name: &str) -> Option<&'v Value<'a>>
        ensures { option_map (λ v. value_view v.now) result ≡ value_in name.now (members_in self.entry) }
    {
        match self.find(name) {
            Found::One(value) => Some(value),
            Found::Nothing | Found::Several => None,
        }
    }

    /// The value of the only member with a name; `Some(None)` if there is none or it is null; `None` if there are several.
    fn optional(self, name: &str) -> Option<Option<&'v Value<'a>>>
        ensures { option_map (option_map (λ v. value_view v.now)) result ≡ optional_in name.now (members_in self.entry) }
    {
        match self.find(name) {
            Found::Nothing => Some(None),
            Found::One(Value::Null) => Some(None),
            Found::One(value) => Some(Some(value)),
            Found::Several => None,
        }
    }

    /// The text of this name.
    pub(crate) fn text(self, name: &str) -> Option<&'a str>
        ensures { option_map (λ t. t.now) result ≡ text_in name.now (members_in self.entry) }
    {
        self.value(name)?.as_str()
    }

    /// The text of this name, `Some(None)` if there is none.
    pub(crate) fn optional_text(self, name: &str) -> Option<Option<&'a str>>
        ensures { option_map (option_map (λ t. t.now)) result ≡ optional_text_in name.now (members_in self.entry) }
    {
        match self.optional(name)? {
            Some(value) => Some(Some(value.as_str()?)),
            None => Some(None),
        }
    }

    /// The whole number of this name, not below zero.
    pub(crate) fn number(self, name: &str) -> Option<u64>
        ensures { result ≡ whole_in name.now (members_in self.entry) }
    {
        whole_number(self.value(name)?)
    }

    /// The number of 0 to 255 of this name.
    pub(crate) fn byte(self, name: &str) -> Option<u8>
        ensures { result ≡ number_in name.now 255 (members_in self.entry) }
    {
        let number = self.number(name)?;
        if number <= 255 {
            Some(number as u8)
        } else {
            None
        }
    }

    /// The number of 0 to 65535 of this name.
    pub(crate) fn short(self, name: &str) -> Option<u16>
        ensures { result ≡ number_in name.now 65535 (members_in self.entry) }
    {
        short_of(self.number(name)?)
    }

    /// The number of 0 to 65535 of this name, `Some(None)` if there is none.
    pub(crate) fn optional_short(self, name: &str) -> Option<Option<u16>>
        ensures { result ≡ optional_number_in name.now 65535 (members_in self.entry) }
    {
        match self.optional(name)? {
            Some(value) => Some(Some(short_value(value)?)),
            None => Some(None),
        }
    }

    /// The level, by its number.
    pub(crate) fn level(self) -> Option<LevelId>
        ensures { result ≡ level_in (members_in self.entry) }
    {
        level_of(self.number("level")?)
    }

    /// The halt, by its two letters.
    pub(crate) fn code(self) -> Option<HaltCode>
        ensures { result ≡ halt_in (members_in self.entry) }
    {
        halt_of(self.text("code")?)
    }

    /// The members of the object of this name.
    pub(crate) fn members(self, name: &str) -> Option<Members<'v, 'a>>
        ensures { option_map members_in result ≡ object_in name.now (members_in self.entry) }
    {
        Members::of(self.value(name)?)
    }

    /// The members of the object of this name, `Some(None)` if there is none.
    pub(crate) fn optional_members(self, name: &str) -> Option<Option<Members<'v, 'a>>>
        ensures { option_map (option_map members_in) result ≡ optional_object_in name.now (members_in self.entry) }
    {
        match self.optional(name)? {
            Some(value) => Some(Some(Members::of(value)?)),
            None => Some(None),
        }
    }

    /// The items of the list of this name.
    pub(crate) fn list(self, name: &str) -> Option<&'v [Value<'a>]>
        ensures { option_map (λ l. items_view l.now) result ≡ list_in name.now (members_in self.entry) }
    {
        match self.value(name)? {
            Value::Array(items) => Some(items.as_slice()),
            _ => None,
        }
    }
}

/// The whole number that a value is, if it is one below 2^64.
#[tactic(auto, using(crate::proofs::MemberLemmas::whole_is))]
fn whole_number(value: &Value<'_>) -> Option<u64>
    ensures { result ≡ whole_number_spec (value_view value.now) }
{
    value.as_u64()
}

/// A number, if it is at most 65535.
fn short_of(number: u64) -> Option<u16>
    ensures { result ≡ up_to_spec 65535 number }
{
    if number <= 65535 {
        Some(number as u16)
    } else {
        None
    }
}

/// The number that a value is, if it is one of at most 65535.
fn short_value(value: &Value<'_>) -> Option<u16>
    ensures { result ≡ number_up_to_spec 65535 (value_view value.now) }
{
    short_of(whole_number(value)?)
}

/// The level of a number.
fn level_of(number: u64) -> Option<LevelId>
    ensures { result ≡ level_of_spec number }
{
    match number {
        1 => Some(LevelId::One),
        2 => Some(LevelId::Two),
        _ => None,
    }
}

/// The halt of two letters.
fn halt_of(letters: &str) -> Option<HaltCode>
    ensures { result ≡ halt_of_spec letters.now }
{
    match letters.as_bytes() {
        [first, second] => code_of([*first, *second]),
        _ => None,
    }
}
