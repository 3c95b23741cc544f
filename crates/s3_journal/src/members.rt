//! The members of an object in a line of the journal.
ghost use Rattle.std.specs.Prelude.{◌≡◌, List, [], ◌∷◌, ◌++◌, option_map};
ghost use Rattle.json.specs.Json.{Json};
ghost use Rattle.json.specs.Find.{as_object};
ghost use Rattle.json.specs.Value.{value_view};
ghost use Rattle.s3_journal.specs.Inner.Members.{number_in, object_in, optional_in, optional_text_in, text_in, value_in, values_of, whole_in, whole_number as whole_number_spec};
ghost use Rattle.s3_journal.specs.Inner.Views.{IsFound, members_in};

use json::Value;

/// An object, whose members are found by their names. It may have members of other names too, in any order.
#[derive(Clone, Copy)]
pub(crate) struct Members<'v, 'a> {
    list: &'v [(&'a str, Value<'a>)],
}

/// The values of the members of one name.
#[derive(Clone, Copy)]
enum Found<'v, 'a> {
    /// No member has this name.
    Nothing,
    /// One member has it.
    One(&'v Value<'a>),
    /// Two members or more have it.
    Several,
}

impl<'v, 'a> Found<'v, 'a> {
    /// The values with a further one.
    fn and(self, value: &'v Value<'a>) -> Found<'v, 'a>
        ensures { (values : List Json) → IsFound values self.entry → IsFound (values ++ value_view value.now ∷ []) result }
    {
        match self {
            Found::Nothing => Found::One(value),
            Found::One(_) | Found::Several => Found::Several,
        }
    }
}

impl<'v, 'a> Members<'v, 'a> {
    /// The members of a value; `None` if it is no object.
    pub(crate) fn of(value: &'v Value<'a>) -> Option<Members<'v, 'a>>
        ensures { option_map members_in result ≡ as_object (value_view value.now) }
    {
        match value {
            Value::Object(members) => Some(Members {
                list: members.as_slice(),
            }),
            _ => None,
        }
    }

    /// The values of the members of a name.
    #[tactic(auto, using(crate::proofs::MemberLemmas::values_more))]
    fn find(self, name: &str) -> Found<'v, 'a>
        ensures { IsFound (values_of name.now (members_in self.entry)) result }
    {
        let mut found = Found::Nothing;
        for member in self.list {
            if member.0 == name {
                found = found.and(&member.1);
            }
        }
        found
    }

    /// The value of the only member with a name; `None` if no member has the name, or several have it.
    fn value(self, name: &str) -> Option<&'v Value<'a>>
        ensures { option_map (λ v. value_view v.now) result ≡ value_in name.now (members_in self.entry) }
    {
        match self.find(name) {
            Found::One(value) => Some(value),
            Found::Nothing | Found::Several => None,
        }
    }

    /// The value of the only member with a name; `Some(None)` if there is none or it is null; `None` if there are several.
    fn optional(self, name: &str) -> Option<Option<&'v Value<'a>>>
        ensures { option_map (option_map (λ v. value_view v.now)) result ≡ optional_in name.now (members_in self.entry) }
    {
        match self.find(name) {
            Found::Nothing => Some(None),
            Found::One(Value::Null) => Some(None),
            Found::One(value) => Some(Some(value)),
            Found::Several => None,
        }
    }

    /// The text of this name.
    pub(crate) fn text(self, name: &str) -> Option<&'a str>
        ensures { option_map (λ t. t.now) result ≡ text_in name.now (members_in self.entry) }
    {
        self.value(name)?.as_str()
    }

    /// The text of this name, `Some(None)` if there is none.
    pub(crate) fn optional_text(self, name: &str) -> Option<Option<&'a str>>
        ensures { option_map (option_map (λ t. t.now)) result ≡ optional_text_in name.now (members_in self.entry) }
    {
        match self.optional(name)? {
            Some(value) => Some(Some(value.as_str()?)),
            None => Some(None),
        }
    }

    /// The whole number of this name, not below zero.
    pub(crate) fn number(self, name: &str) -> Option<u64>
        ensures { result ≡ whole_in name.now (members_in self.entry) }
    {
        whole_number(self.value(name)?)
    }

    /// The number of 0 to 255 of this name.
    pub(crate) fn byte(self, name: &str) -> Option<u8>
        ensures { result ≡ number_in name.now 255 (members_in self.entry) }
    {
        let number = self.number(name)?;
        if number <= 255 {
            Some(number as u8)
        } else {
            None
        }
    }

    /// The members of the object of this name.
    pub(crate) fn members(self, name: &str) -> Option<Members<'v, 'a>>
        ensures { option_map members_in result ≡ object_in name.now (members_in self.entry) }
    {
        Members::of(self.value(name)?)
    }
}

/// The whole number that a value is, if it is one below 2^64.
#[tactic(auto, using(crate::proofs::MemberLemmas::whole_is))]
fn whole_number(value: &Value<'_>) -> Option<u64>
    ensures { result ≡ whole_number_spec (value_view value.now) }
{
    value.as_u64()
}
