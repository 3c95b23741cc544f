//! Words of command lines.

use clap::builder::{PossibleValue, ValueParser};
use clap::{Arg, ArgAction, ArgMatches, Command};
use std::alloc::{AllocError, Global};

/// A command of a command line.
#[derive(Clone, Copy)]
pub struct CommandWords {
    /// Its name.
    pub name: &'static str,
    /// What it does, as its help says it.
    pub about: &'static str,
    /// Second names of its options, which no help lists.
    pub aliases: &'static [Alias],
    /// Its exit statuses, in ascending order.
    pub statuses: &'static [Status],
    /// Examples of its use.
    pub examples: &'static [Example],
    /// Its words, in the order in which its help lists them.
    pub words: &'static [Word],
}

/// A second name of a word.
#[derive(Clone, Copy)]
pub struct Alias {
    /// The name of the word.
    pub word: &'static str,
    /// The second name.
    pub name: &'static str,
}

/// An exit status of a command.
#[derive(Clone, Copy)]
pub struct Status {
    /// The number.
    pub number: u8,
    /// What has happened when the command ends with it.
    pub meaning: &'static str,
}

/// An example of a command's use.
#[derive(Clone, Copy)]
pub struct Example {
    /// What a shell is given, perhaps with pipes and redirections.
    pub line: &'static str,
    /// What it does.
    pub purpose: &'static str,
}

/// A value that a word may have.
#[derive(Clone, Copy)]
pub struct Choice {
    /// The value.
    pub name: &'static str,
    /// What it means.
    pub help: &'static str,
}

/// A word of a command.
#[derive(Clone, Copy)]
pub struct Word {
    /// Its name, before which two hyphens are.
    pub name: &'static str,
    /// What is given with it.
    pub takes: Takes,
    /// What it is for, as the help of the command says it.
    pub help: &'static str,
}

/// The value of an option. Its placeholder in the help comes first.
#[derive(Clone, Copy)]
pub enum Takes {
    /// Nothing: the word is alone.
    Nothing,
    /// A value. The name of a file or a folder is shown as one of `FILES`.
    Value(&'static str),
    /// A value, and the word has to be given. The name of a file or a folder is shown as one of `FILES`.
    Needed(&'static str),
    /// One of some values.
    OneOf(&'static str, &'static [Choice]),
    /// One of some values, and the word has to be given.
    NeededOneOf(&'static str, &'static [Choice]),
    /// A number, the least and the greatest one.
    Number(&'static str, u32, u32),
    /// A number from 0 to 65535, and its default.
    U16Or(&'static str, &'static str),
    /// A number from 0 to 255, and its default.
    U8Or(&'static str, &'static str),
    /// A value, and the word may be given several times.
    Values(&'static str),
    /// A file, and the word may be given several times.
    Files,
    /// One file or more, which follow the command without a word.
    FollowingFiles,
    /// One value or more, which follow the command without an option.
    Following(&'static str),
    /// Nothing: the command refuses the option, which no help lists, and says what to do instead.
    Refused,
    /// Nothing: an older name of what another option does, which no help lists.
    Unlisted,
    /// The name of a file that the launcher gives; no help lists it.
    UnlistedFile,
}

impl CommandWords {
    /// The parser of the command. It is refused only if memory runs out.
    pub fn parser<'a>(&self, alloc: Global) -> Result<Command<'a>, AllocError> {
        let mut arguments = Vec::new(alloc);
        for word in self.words {
            arguments.push(self.argument(alloc, word)?)?;
        }
        let parser = self.parser_without_options(alloc);
        let parser = match self.refused() {
            Some(_) => parser.override_usage(kept_text(alloc, self.usage(alloc)?)?),
            None => parser,
        };
        parser.args(arguments)
    }

    /// A parser that has the command's name and its line of the help, and takes no options.
    pub fn parser_without_options<'a>(&self, alloc: Global) -> Command<'a> {
        Command::new(alloc, self.name).about(self.about)
    }

    /// A word as a parser has it, with its second names.
    fn argument<'a>(&self, alloc: Global, word: &Word) -> Result<Arg<'a>, AllocError> {
        let mut argument = word.argument(alloc)?;
        for alias in self.aliases {
            argument = with_alias(argument, *alias, word.name)?;
        }
        match self.refused() {
            // so that the refusal comes whatever else is given
            Some(refused) if word.takes.is_needed() => argument
                .required(false)
                .required_unless_present(refused),
            _ => Ok(argument),
        }
    }

    /// The option that the command refuses, if it has one.
    fn refused(&self) -> Option<&'static str> {
        let mut words = self.words.iter();
        let refused = words.find(|word| matches!(word.takes, Takes::Refused))?;
        Some(refused.name)
    }

    /// How the command is used. The parser has this line itself, unless an option may replace a required argument.
    fn usage(&self, alloc: Global) -> Result<String, AllocError> {
        let name = self.name;
        let mut usage = format!(in alloc; "bureau {name} [OPTIONS]")?;
        for word in self.words {
            if word.takes.is_needed() {
                word.push_use(&mut usage)?;
            }
        }
        Ok(usage)
    }
}

/// An argument with a second name, if that is one of its word.
fn with_alias<'a>(argument: Arg<'a>, alias: Alias, word: &str) -> Result<Arg<'a>, AllocError> {
    if alias.word == word {
        argument.alias(alias.name)
    } else {
        Ok(argument)
    }
}

impl Word {
    /// Appends how the word is used, after a blank.
    fn push_use(&self, usage: &mut String) -> Result<(), AllocError> {
        let shown = self.takes.shown().unwrap_or("");
        if self.takes.is_following() {
            return write!(usage, " <{shown}>...");
        }
        let name = self.name;
        write!(usage, " --{name} <{shown}>")
    }

    /// The word as a parser has it.
    fn argument<'a>(&self, alloc: Global) -> Result<Arg<'a>, AllocError> {
        let argument = self
            .takes
            .given_with(Arg::new(alloc, self.name).help(self.help));
        let argument = if self.takes.is_following() {
            argument
        } else {
            argument.long(self.name)
        };
        match self.takes.choices() {
            Some(choices) => Ok(argument.value_parser(values_of(alloc, choices)?)),
            None => Ok(argument),
        }
    }
}

/// A text that is kept as long as the process runs.
pub fn kept_text<'a>(alloc: Global, text: String) -> Result<&'a str, AllocError> {
    let mut texts = Vec::new(alloc);
    texts.push(text)?;
    let texts: &'a [String] = texts.leak();
    match texts.first() {
        Some(text) => Ok(text.as_str()),
        None => Ok(""),
    }
}

/// Some values with their help, as a parser takes them. They are kept as long as the process runs.
pub fn values_of<'a>(
    alloc: Global,
    choices: &[Choice],
) -> Result<&'a [PossibleValue<'a>], AllocError> {
    let mut values = Vec::new(alloc);
    for choice in choices {
        values.push(PossibleValue::new(choice.name).help(choice.help))?;
    }
    Ok(values.leak())
}

/// How help shows a value that is the name of a file or a folder.
pub const FILES: [&str; 3] = ["FILE", "DIR", "LOG"];

impl Takes {
    /// The values that the word may have, if it may not have every text.
    pub fn choices(self) -> Option<&'static [Choice]> {
        match self {
            Takes::OneOf(_, choices) | Takes::NeededOneOf(_, choices) => Some(choices),
            _ => None,
        }
    }

    /// How help shows a number, and the least and the greatest one, if what is given is a number.
    pub fn range(self) -> Option<(&'static str, u32, u32)> {
        match self {
            Takes::Number(shown, least, greatest) => Some((shown, least, greatest)),
            Takes::U16Or(shown, _) => Some((shown, 0, u32::from(u16::MAX))),
            Takes::U8Or(shown, _) => Some((shown, 0, u32::from(u8::MAX))),
            _ => None,
        }
    }

    /// The placeholder of the value that help shows, if the word takes one.
    pub fn shown(self) -> Option<&'static str> {
        match self {
            Takes::Nothing | Takes::Refused | Takes::Unlisted | Takes::UnlistedFile => None,
            Takes::Files | Takes::FollowingFiles => Some("FILE"),
            Takes::Value(shown)
            | Takes::Needed(shown)
            | Takes::Values(shown)
            | Takes::OneOf(shown, _)
            | Takes::NeededOneOf(shown, _)
            | Takes::Following(shown)
            | Takes::Number(shown, _, _)
            | Takes::U16Or(shown, _)
            | Takes::U8Or(shown, _) => Some(shown),
        }
    }

    /// Whether the word has to be given.
    pub fn is_needed(self) -> bool {
        matches!(
            self,
            Takes::Needed(_)
                | Takes::NeededOneOf(_, _)
                | Takes::FollowingFiles
                | Takes::Following(_)
        )
    }

    /// Whether the value follows the command without a word.
    pub fn is_following(self) -> bool {
        matches!(self, Takes::FollowingFiles | Takes::Following(_))
    }

    /// Whether no help lists the word.
    pub fn is_hidden(self) -> bool {
        matches!(self, Takes::Refused | Takes::Unlisted | Takes::UnlistedFile)
    }

    /// Whether what is given is the name of a file or a folder.
    pub fn is_file(self) -> bool {
        match self {
            Takes::Value(shown) | Takes::Needed(shown) => FILES.contains(&shown),
            Takes::Files | Takes::FollowingFiles | Takes::UnlistedFile => true,
            _ => false,
        }
    }

    /// What the parser does with the value, or with the word if it has none.
    fn action(self) -> ArgAction {
        match self {
            Takes::Nothing | Takes::Refused | Takes::Unlisted => ArgAction::SetTrue,
            Takes::Values(_) | Takes::Files | Takes::FollowingFiles | Takes::Following(_) => {
                ArgAction::Append
            }
            _ => ArgAction::Set,
        }
    }

    /// The placeholder of the value, which help doesn't show if no help lists the word.
    fn placeholder(self) -> Option<&'static str> {
        match self {
            Takes::UnlistedFile => Some("FILE"),
            _ => self.shown(),
        }
    }

    /// How the parser reads a number, if what is given is one.
    fn number<'a>(self) -> Option<ValueParser<'a>> {
        let (_, least, greatest) = self.range()?;
        Some(ValueParser::signed(i64::from(least), i64::from(greatest)))
    }

    /// The value of a word that isn't given, if it has one then.
    fn default(self) -> Option<&'static str> {
        match self {
            Takes::U16Or(_, default) | Takes::U8Or(_, default) => Some(default),
            _ => None,
        }
    }

    /// An argument whose value has this placeholder, is read as this number and has this default.
    fn with_value<'a>(self, argument: Arg<'a>) -> Arg<'a> {
        let argument = match self.placeholder() {
            Some(shown) => argument.value_name(shown),
            None => argument,
        };
        let argument = match self.number() {
            Some(number) => argument.value_parser(number),
            None => argument,
        };
        match self.default() {
            Some(default) => argument.default_value(default),
            None => argument,
        }
    }

    /// An argument with which this is given.
    fn given_with<'a>(self, argument: Arg<'a>) -> Arg<'a> {
        self.with_value(argument)
            .action(self.action())
            .required(self.is_needed())
            .hide(self.is_hidden())
    }
}

/// What a needed word gives.
pub fn value_of<'a>(matches: &ArgMatches<'a>, word: &str) -> &'a str {
    matches.get_str(word).unwrap_or("")
}
