//! Types of records.

use s3_lines::indicator::Indicator;
use s3_lines::sheet::RecordCode;

/// A type of records.
#[derive(Drop)]
pub struct RecordKind {
    /// Its record identifying indicator.
    pub indicator: Indicator,
    /// The record identification codes that each of its records has, those of AND lines too.
    pub codes: Vec<RecordCode>,
}
