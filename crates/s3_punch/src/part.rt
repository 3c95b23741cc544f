//! What part of a deck a card is in: statements, a source, or data. docs/OCL.md has the rules.
ghost use Rattle.std.specs.Prelude.{◌≡◌, ◌≤◌, drop, length};
ghost use Rattle.std.specs.List.{prefix_len};
ghost use Rattle.s3_punch.specs.Inner.Parts.{behind_load as behind_load_spec, behind_run as behind_run_spec, behind_statement as behind_statement_spec, behind_word, is_behind_run as is_behind_run_spec, is_blank, is_data as is_data_spec, is_mark, is_separator as is_separator_spec, is_source as is_source_spec, is_statement as is_statement_spec, keyword as keyword_spec, names_compiler as names_compiler_spec, parameters as parameters_spec, part_behind as part_behind_spec, word_of};

/// The part of a deck that a card is in.
#[derive(Clone, Copy)]
pub enum Part {
    /// Between jobs, or among the statements of a job before its LOAD.
    Statements,
    /// After the LOAD of the compiler.
    ToCompile,
    /// After the LOAD of a program.
    ToRun,
    /// The source of a program, after the RUN of the compiler.
    Source,
    /// The data of a program, after its RUN.
    Data,
}

impl Part {
    /// Whether cards of this part are data.
    pub fn is_data(self) -> bool
        ensures { result ≡ is_data_spec self }
    {
        matches!(self, Part::Data)
    }

    /// Whether cards of this part are of a source.
    pub fn is_source(self) -> bool
        ensures { result ≡ is_source_spec self }
    {
        matches!(self, Part::Source)
    }

    /// Whether cards of this part are after a RUN, up to a separator.
    fn is_behind_run(self) -> bool
        ensures { result ≡ is_behind_run_spec self }
    {
        matches!(self, Part::Source | Part::Data)
    }

    /// The part after a card that is in this part.
    pub fn behind(self, card: &[u8]) -> Part
        ensures { result ≡ part_behind_spec self card.now }
    {
        if is_separator(card) {
            Part::Statements
        } else if !self.is_behind_run() && is_statement(card) {
            self.behind_statement(card)
        } else {
            self
        }
    }

    fn behind_statement(self, card: &[u8]) -> Part
        ensures { result ≡ behind_statement_spec self card.now }
    {
        let keyword = keyword(card);
        if keyword == b"RUN".as_slice() {
            self.behind_run()
        } else if keyword == b"LOAD".as_slice() {
            self.behind_load(card)
        } else {
            self
        }
    }

    fn behind_run(self) -> Part
        ensures { result ≡ behind_run_spec self }
    {
        match self {
            Part::ToCompile => Part::Source,
            _ => Part::Data,
        }
    }

    /// The first LOAD of a job counts.
    fn behind_load(self, card: &[u8]) -> Part
        ensures { result ≡ behind_load_spec self card.now }
    {
        match self {
            Part::Statements if names_compiler(parameters(card)) => Part::ToCompile,
            Part::Statements => Part::ToRun,
            _ => self,
        }
    }
}

/// Whether a card begins `/*` or `/&`.
fn is_separator(card: &[u8]) -> bool
    ensures { result ≡ is_separator_spec card.now }
{
    card.starts_with(b"/*") || card.starts_with(b"/&")
}

/// Whether a card begins `//` and a blank; after its text a card has blanks.
fn is_statement(card: &[u8]) -> bool
    ensures { result ≡ is_statement_spec card.now }
{
    card.starts_with(b"//") && (card.len() == 2 || card.starts_with(b"// "))
}

/// The first word of a text, and the text after it.
fn split_word(text: &[u8]) -> (&[u8], &[u8])
    ensures word { result.0.now ≡ word_of text.now }
    ensures behind { result.1.now ≡ behind_word text.now }
{
    let from_word = &text[blanks_in_front(text)..];
    from_word.split_at(word_len(from_word))
}

/// How many blanks are before a text.
fn blanks_in_front(text: &[u8]) -> usize
    ensures value { result ≡ prefix_len is_blank text.now }
    ensures within { result ≤ length text.now }
{
    text.iter().take_while(|byte| **byte == b' ').count()
}

/// How many bytes a text has before its first blank.
fn word_len(text: &[u8]) -> usize
    ensures value { result ≡ prefix_len is_mark text.now }
    ensures within { result ≤ length text.now }
{
    text.iter().take_while(|byte| **byte != b' ').count()
}

/// The text of a statement after its `//`.
fn behind_slashes(card: &[u8]) -> &[u8]
    ensures { result.now ≡ drop 2 card.now }
{
    card.get(2..).unwrap_or(&[])
}

/// The first word after the `//` of a card.
fn keyword(card: &[u8]) -> &[u8]
    ensures { result.now ≡ keyword_spec card.now }
{
    split_word(behind_slashes(card)).0
}

/// The second word after the `//` of a card.
fn parameters(card: &[u8]) -> &[u8]
    ensures { result.now ≡ parameters_spec card.now }
{
    split_word(split_word(behind_slashes(card)).1).0
}

/// Whether the first of some parameters is the compiler's name.
fn names_compiler(parameters: &[u8]) -> bool
    ensures { result ≡ names_compiler_spec parameters.now }
{
    parameters == b"$RPG".as_slice() || parameters.starts_with(b"$RPG,")
}
