//! The date of a level.
ghost use Rattle.std.specs.Prelude.{◌≡◌, IsTrue, replicate};
ghost use Rattle.std.specs.List.{list_all};
ghost use Rattle.s3_cards.specs.declared.ebcdic.TheConstants.{DIGIT_0};
ghost use Rattle.s3_cards.specs.Names.{is_digit};
ghost use Rattle.s3_operations.specs.Inner.Beginning.{IsDate};

use s3_cards::ebcdic::DIGIT_0;
use std::marker::Model;

/// The date of a level: six digits mmddyy, in EBCDIC.
#[derive(Drop)]
pub struct Date {
    digits: [u8; 6],
}

impl Model for Date {
    ghost use Rattle.std.specs.Prelude.{ℕ, List, IsTrue};
    ghost use Rattle.std.specs.List.{list_all};
    ghost use Rattle.s3_cards.specs.Names.{is_digit};

    ghost Value = { List ℕ };

    ghost view = { λ d. d.digits };

    ghost invariant = { λ d. IsTrue (list_all is_digit d.digits) };
}

impl Date {
    /// `000000`, the date before any job sets one.
    pub fn none() -> Date
        ensures { result ≡ replicate 6 DIGIT_0 }
    {
        Date {
            digits: [DIGIT_0; 6],
        }
    }

    /// The date with these digits, mmddyy in EBCDIC.
    pub fn new(digits: [u8; 6]) -> Date
        requires { IsTrue (list_all is_digit digits) }
        ensures { result ≡ digits }
    {
        Date { digits }
    }

    /// Its six digits, mmddyy in EBCDIC.
    #[tactic(auto, using(crate::proofs::Dates::digits_are_date))]
    pub fn digits(&self) -> [u8; 6]
        ensures value { result ≡ self.now }
        ensures date { IsDate result }
    {
        self.digits
    }
}
