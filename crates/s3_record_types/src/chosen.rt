//! Which records of a file are chosen.
ghost use Rattle.std.specs.Prelude.{◌≡◌, true, false, find, IfNone, IfSome};
ghost use Rattle.std.specs.List.{list_all};
ghost use Rattle.s3_meaning.specs.Selection.{code_holds as code_holds_spec};
ghost use Rattle.s3_record_types.specs.Inner.Chosen.{IsFaultIn, IsFaultOf, LacksCode, codes_in, codes_of as codes_of_spec, is_chosen, is_kind, is_of as is_of_spec, type_in as type_in_spec};
ghost use Rattle.s3_record_types.specs.Inner.Codes.{with_codes};

use crate::codes::{byte_at, code_holds, codes_hold, put_codes};
use crate::kind::RecordKind;
use s3_lines::indicator::Indicator;
use s3_lines::sheet::RecordCode;

/// Which records of a file are chosen.
#[derive(Drop)]
pub enum ChosenRecords {
    /// All of them.
    All,
    /// Those of the type with this indicator, among the types of the file, in the order of the source.
    OfType(Indicator, Vec<RecordKind>),
}

/// Why a record isn't of the type that is chosen.
#[derive(Clone, Copy)]
pub enum TypeFault {
    /// It hasn't this code of the type; the byte at the code's position.
    Code(RecordCode, u8),
    /// It has the codes of the type with this indicator, which the source has before the type that is chosen.
    Earlier(Indicator),
    /// The source has no type with the indicator.
    NoType,
}

impl ChosenRecords {
    /// Whether a record is chosen: the first type all of whose codes it has is the chosen one.
    pub fn has(&self, bytes: &[u8]) -> bool
        ensures { result ≡ is_chosen self.now bytes.now }
    {
        match self {
            ChosenRecords::All => true,
            ChosenRecords::OfType(indicator, kinds) => is_of(*indicator, kinds, bytes),
        }
    }

    /// Puts the codes of the chosen type into a record: of the first type with its indicator. Codes that are negated change nothing.
    pub fn put_codes(&self, bytes: &mut [u8])
        ensures { bytes.new ≡ with_codes bytes.old (codes_of_spec self.now) }
    {
        match self {
            ChosenRecords::All => {}
            ChosenRecords::OfType(indicator, kinds) => put_codes(
                bytes,
                codes_of(*indicator, kinds),
            ),
        }
    }

    /// Why a record isn't chosen, if it isn't.
    pub fn fault_in(&self, bytes: &[u8]) -> Option<TypeFault>
        ensures none { IfNone result (is_chosen self.now bytes.now ≡ true) }
        ensures some { IfSome result (IsFaultIn self.now bytes.now) }
    {
        match self {
            ChosenRecords::All => None,
            ChosenRecords::OfType(indicator, kinds) => fault_of(*indicator, kinds, bytes),
        }
    }
}

/// Whether the first type whose codes a record all has is the type of an indicator.
fn is_of(indicator: Indicator, kinds: &[RecordKind], bytes: &[u8]) -> bool
    ensures { result ≡ is_of_spec indicator kinds.now bytes.now }
{
    match type_in(kinds, bytes) {
        Some(found) => indicator.is(found),
        None => false,
    }
}

/// The indicator of the first type all of whose codes a record has.
fn type_in(kinds: &[RecordKind], bytes: &[u8]) -> Option<Indicator>
    ensures { result ≡ type_in_spec kinds.now bytes.now }
{
    for kind in kinds {
        if codes_hold(bytes, &kind.codes) {
            return Some(kind.indicator);
        }
    }
    None
}

/// The codes of the first type of an indicator; none if there is no such type.
fn codes_of(indicator: Indicator, kinds: &[RecordKind]) -> &[RecordCode]
    ensures { result.now ≡ codes_in (find (is_kind indicator) kinds.now) }
{
    for kind in kinds {
        if indicator.is(kind.indicator) {
            return &kind.codes;
        }
    }
    &[]
}

/// Why a record isn't of the type of an indicator, if it isn't.
fn fault_of(indicator: Indicator, kinds: &[RecordKind], bytes: &[u8]) -> Option<TypeFault>
    ensures none { IfNone result (is_of_spec indicator kinds.now bytes.now ≡ true) }
    ensures some { IfSome result (IsFaultOf indicator kinds.now bytes.now) }
{
    if is_of(indicator, kinds, bytes) {
        None
    } else {
        Some(reason_of(indicator, kinds, bytes))
    }
}

/// Why a record isn't of the type of an indicator.
fn reason_of(indicator: Indicator, kinds: &[RecordKind], bytes: &[u8]) -> TypeFault
    requires { is_of_spec indicator kinds.now bytes.now ≡ false }
    ensures { IsFaultOf indicator kinds.now bytes.now result }
{
    match lacking(codes_of(indicator, kinds), bytes) {
        Some(code) => TypeFault::Code(code, byte_at(bytes, code.position)),
        None => match type_in(kinds, bytes) {
            Some(found) => TypeFault::Earlier(found),
            None => TypeFault::NoType,
        },
    }
}

/// The first of some codes that a record hasn't.
#[tactic(auto, using(crate::proofs::PutLemmas::one_more_held))]
fn lacking(codes: &[RecordCode], bytes: &[u8]) -> Option<RecordCode>
    ensures none { IfNone result (list_all (code_holds_spec bytes.now) codes.now ≡ true) }
    ensures some { IfSome result (LacksCode codes.now bytes.now) }
{
    for code in codes {
        if !code_holds(bytes, code) {
            return Some(*code);
        }
    }
    None
}
