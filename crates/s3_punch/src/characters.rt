//! Characters as cards have them.
ghost use Rattle.std.specs.Prelude.{◌≡◌, ◌<◌, IsTrue};
ghost use Rattle.s3_cards.specs.Deck.{has_code};
ghost use Rattle.s3_punch.specs.Inner.Characters.{is_small as is_small_spec, in_table as in_table_spec, is_refused as is_refused_spec, plain_of, shown as shown_spec};

use s3_cards::to_ebcdic;

/// The tab.
pub const TAB: char = '\t';

/// Characters that no card has, each with its plain one: letters with marks, quotation marks and long hyphens.
pub const PLAIN: [(char, u8); 196] = [
    ('À', b'A'),
    ('Á', b'A'),
    ('Â', b'A'),
    ('Ã', b'A'),
    ('Ä', b'A'),
    ('Å', b'A'),
    ('à', b'A'),
    ('á', b'A'),
    ('â', b'A'),
    ('ã', b'A'),
    ('ä', b'A'),
    ('å', b'A'),
    ('Ā', b'A'),
    ('ā', b'A'),
    ('Ă', b'A'),
    ('ă', b'A'),
    ('Ą', b'A'),
    ('ą', b'A'),
    ('Ç', b'C'),
    ('ç', b'C'),
    ('Ć', b'C'),
    ('ć', b'C'),
    ('Ĉ', b'C'),
    ('ĉ', b'C'),
    ('Ċ', b'C'),
    ('ċ', b'C'),
    ('Č', b'C'),
    ('č', b'C'),
    ('Ď', b'D'),
    ('ď', b'D'),
    ('Đ', b'D'),
    ('đ', b'D'),
    ('È', b'E'),
    ('É', b'E'),
    ('Ê', b'E'),
    ('Ë', b'E'),
    ('è', b'E'),
    ('é', b'E'),
    ('ê', b'E'),
    ('ë', b'E'),
    ('Ē', b'E'),
    ('ē', b'E'),
    ('Ĕ', b'E'),
    ('ĕ', b'E'),
    ('Ė', b'E'),
    ('ė', b'E'),
    ('Ę', b'E'),
    ('ę', b'E'),
    ('Ě', b'E'),
    ('ě', b'E'),
    ('Ĝ', b'G'),
    ('ĝ', b'G'),
    ('Ğ', b'G'),
    ('ğ', b'G'),
    ('Ġ', b'G'),
    ('ġ', b'G'),
    ('Ģ', b'G'),
    ('ģ', b'G'),
    ('Ĥ', b'H'),
    ('ĥ', b'H'),
    ('Ħ', b'H'),
    ('ħ', b'H'),
    ('Ì', b'I'),
    ('Í', b'I'),
    ('Î', b'I'),
    ('Ï', b'I'),
    ('ì', b'I'),
    ('í', b'I'),
    ('î', b'I'),
    ('ï', b'I'),
    ('Ĩ', b'I'),
    ('ĩ', b'I'),
    ('Ī', b'I'),
    ('ī', b'I'),
    ('Ĭ', b'I'),
    ('ĭ', b'I'),
    ('Į', b'I'),
    ('į', b'I'),
    ('İ', b'I'),
    ('Ĵ', b'J'),
    ('ĵ', b'J'),
    ('Ķ', b'K'),
    ('ķ', b'K'),
    ('Ĺ', b'L'),
    ('ĺ', b'L'),
    ('Ļ', b'L'),
    ('ļ', b'L'),
    ('Ľ', b'L'),
    ('ľ', b'L'),
    ('Ł', b'L'),
    ('ł', b'L'),
    ('Ñ', b'N'),
    ('ñ', b'N'),
    ('Ń', b'N'),
    ('ń', b'N'),
    ('Ņ', b'N'),
    ('ņ', b'N'),
    ('Ň', b'N'),
    ('ň', b'N'),
    ('Ò', b'O'),
    ('Ó', b'O'),
    ('Ô', b'O'),
    ('Õ', b'O'),
    ('Ö', b'O'),
    ('Ø', b'O'),
    ('ò', b'O'),
    ('ó', b'O'),
    ('ô', b'O'),
    ('õ', b'O'),
    ('ö', b'O'),
    ('ø', b'O'),
    ('Ō', b'O'),
    ('ō', b'O'),
    ('Ŏ', b'O'),
    ('ŏ', b'O'),
    ('Ő', b'O'),
    ('ő', b'O'),
    ('Ŕ', b'R'),
    ('ŕ', b'R'),
    ('Ŗ', b'R'),
    ('ŗ', b'R'),
    ('Ř', b'R'),
    ('ř', b'R'),
    ('Ś', b'S'),
    ('ś', b'S'),
    ('Ŝ', b'S'),
    ('ŝ', b'S'),
    ('Ş', b'S'),
    ('ş', b'S'),
    ('Š', b'S'),
    ('š', b'S'),
    ('Ș', b'S'),
    ('ș', b'S'),
    ('Ţ', b'T'),
    ('ţ', b'T'),
    ('Ť', b'T'),
    ('ť', b'T'),
    ('Ŧ', b'T'),
    ('ŧ', b'T'),
    ('Ț', b'T'),
    ('ț', b'T'),
    ('Ù', b'U'),
    ('Ú', b'U'),
    ('Û', b'U'),
    ('Ü', b'U'),
    ('ù', b'U'),
    ('ú', b'U'),
    ('û', b'U'),
    ('ü', b'U'),
    ('Ũ', b'U'),
    ('ũ', b'U'),
    ('Ū', b'U'),
    ('ū', b'U'),
    ('Ŭ', b'U'),
    ('ŭ', b'U'),
    ('Ů', b'U'),
    ('ů', b'U'),
    ('Ű', b'U'),
    ('ű', b'U'),
    ('Ų', b'U'),
    ('ų', b'U'),
    ('Ŵ', b'W'),
    ('ŵ', b'W'),
    ('Ý', b'Y'),
    ('ý', b'Y'),
    ('ÿ', b'Y'),
    ('Ŷ', b'Y'),
    ('ŷ', b'Y'),
    ('Ÿ', b'Y'),
    ('Ź', b'Z'),
    ('ź', b'Z'),
    ('Ż', b'Z'),
    ('ż', b'Z'),
    ('Ž', b'Z'),
    ('ž', b'Z'),
    ('‘', b'\''),
    ('’', b'\''),
    ('‚', b'\''),
    ('‛', b'\''),
    ('′', b'\''),
    ('‹', b'\''),
    ('›', b'\''),
    ('“', b'"'),
    ('”', b'"'),
    ('„', b'"'),
    ('‟', b'"'),
    ('″', b'"'),
    ('«', b'"'),
    ('»', b'"'),
    ('‐', b'-'),
    ('‑', b'-'),
    ('‒', b'-'),
    ('–', b'-'),
    ('—', b'-'),
    ('―', b'-'),
    ('−', b'-'),
];

/// Whether a character is one of a to z.
pub fn is_small(character: char) -> bool
    ensures { result ≡ is_small_spec character }
{
    matches!(character, 'a'..='z')
}

/// The plain character that the table has for another one.
pub fn in_table(character: char) -> Option<u8>
    ensures { result ≡ in_table_spec character }
{
    PLAIN
        .iter()
        .find(|entry| entry.0 == character)
        .map(|entry| entry.1)
}

/// Whether a card can have a character.
#[tactic(auto, using(s3_cards::proofs::CodeLemmas::no_code_past))]
fn is_on_cards(character: char) -> bool
    ensures value { result ≡ has_code character }
    ensures ascii { IsTrue result → character < 128 }
{
    character.is_ascii() && to_ebcdic(character).is_some()
}

/// The card character that a character becomes: a small letter its capital, a card character itself, and one of the table its
/// plain one; `None` if it becomes none.
#[tactic(auto, unfolding(crate::specs::Inner::Characters::plain_of))]
pub fn plain(character: char) -> Option<u8>
    ensures { result ≡ plain_of character }
{
    if is_small(character) {
        return Some(character as u8 - b'a' + b'A');
    }
    if is_on_cards(character) {
        return Some(character as u8);
    }
    in_table(character)
}

/// Whether a character is no tab, and becomes no card character.
pub fn is_refused(character: char) -> bool
    ensures { result ≡ is_refused_spec character }
{
    character != TAB && plain(character).is_none()
}

/// The card character of a character that is no tab, or `?` if it has none, which is reported.
pub fn shown(character: char) -> u8
    ensures { result ≡ shown_spec character }
{
    plain(character).unwrap_or(b'?')
}
