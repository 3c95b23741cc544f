//! A list of rules.
ghost use Rattle.std.specs.Prelude.{◌≡◌, [], IfErr, IfOk, OnOk};
ghost use Rattle.std.specs.Option.{option_copied};
ghost use Rattle.s3_replies.specs.Inner.Rules.{HasRules, reply_for as reply_for_spec};
ghost use Rattle.s3_replies.specs.Inner.Reading.{IsNoMemory, IsRefused, TakesLine};

use crate::line_fault::IllFormedLine;
use crate::rule::{Rule, read_rule};
use s3_cards::{LevelId, Name, first_line};
use s3_operator::HaltCode;
use std::alloc::{AllocFailed, Global};
use std::marker::Model;

/// Why there are no rules.
#[derive(Drop)]
pub enum RulesFault {
    /// There is no memory for the rules.
    NoMemory,
    /// The lines that are malformed, one at least, in their order.
    IllFormed(Vec<IllFormedLine>),
}

impl From<AllocFailed<Rule>> for RulesFault {
    ghost use Rattle.std.specs.Prelude.{◌≡◌};
    ghost use Rattle.s3_replies.specs.declared.rules.RulesFault.TheVariants.{NoMemory};

    ghost from_gives = { λ _ fault. fault ≡ NoMemory };

    fn from(_: AllocFailed<Rule>) -> RulesFault {
        RulesFault::NoMemory
    }
}

impl From<AllocFailed<IllFormedLine>> for RulesFault {
    ghost use Rattle.std.specs.Prelude.{◌≡◌};
    ghost use Rattle.s3_replies.specs.declared.rules.RulesFault.TheVariants.{NoMemory};

    ghost from_gives = { λ _ fault. fault ≡ NoMemory };

    fn from(_: AllocFailed<IllFormedLine>) -> RulesFault {
        RulesFault::NoMemory
    }
}

/// Rules, in their order.
#[derive(Drop)]
pub struct Rules {
    rules: Vec<Rule>,
}

impl Model for Rules {
    ghost use Rattle.std.specs.Prelude.{List};
    ghost use Rattle.s3_replies.specs.declared.rule.Rule.{Rule};

    ghost Value = { List Rule };

    ghost view = { λ rules. rules.rules.items };
}

impl Rules {
    /// No rules.
    pub fn none(alloc: Global) -> Rules
        ensures { result ≡ [] }
    {
        Rules {
            rules: Vec::new(alloc),
        }
    }

    /// The rules of a text, or all its malformed lines. Lines end with a line feed, and a carriage return before it is
    /// dropped.
    pub fn read(alloc: Global, text: &[u8]) -> Result<Rules, RulesFault>
        ensures ok { IfOk result (λ rules. HasRules text.now rules []) }
        ensures err { IfErr result (λ fault. IsRefused text.now fault) }
    {
        let mut rules = Vec::new(alloc);
        let mut ill_formed = Vec::new(alloc);
        let mut number: usize = 0;
        let mut rest = text;
        while let Some((line, after)) = first_line(rest) {
            number += 1;
            take_line(&mut rules, &mut ill_formed, line, number)?;
            rest = after;
        }
        if ill_formed.is_empty() {
            Ok(Rules { rules })
        } else {
            Err(RulesFault::IllFormed(ill_formed))
        }
    }

    /// The first rule that answers a halt of a level, in a job of that program, if it is known.
    pub fn reply_for(&self, level: LevelId, code: HaltCode, program: Option<Name>) -> Option<&Rule>
        ensures { option_copied result ≡ reply_for_spec level code program self.now }
    {
        self.rules
            .iter()
            .find(|rule| rule.fits(level, code, program))
    }
}

/// Takes a line of the rules: a rule, nothing, or its fault.
fn take_line(
    rules: &mut Vec<Rule>,
    ill_formed: &mut Vec<IllFormedLine>,
    line: &[u8],
    number: usize,
) -> Result<(), RulesFault>
    ensures ok { OnOk result (TakesLine number line.now rules.old.items rules.new.items ill_formed.old.items ill_formed.new.items) }
    ensures err { IfErr result IsNoMemory }
{
    match read_rule(line, number) {
        Ok(Some(rule)) => rules.push(rule)?,
        Ok(None) => {}
        Err(fault) => ill_formed.push(IllFormedLine { number, fault })?,
    }
    Ok(())
}
