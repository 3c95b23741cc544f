//! The values at the start of a job.
ghost use Rattle.std.specs.Prelude.{◌≡◌, ◌+◌, ◌^◌, ◌<◌, ◌≤◌, true, pos, length, replicate, IfOk};
ghost use Rattle.s3_lines.specs.Ranges.{shape_in_range};
ghost use Rattle.s3_meaning.specs.Environment.{date_part as date_part_spec};
ghost use Rattle.s3_operations.specs.Inner.Held.{IsSound, Changes, digits_and_decimals, form_in_shape};
ghost use Rattle.s3_operations.specs.Inner.Beginning.{Begins, IsDate, IsZeros, are_fields_in_range, with_date};

use crate::constants::{add_constants, slots_of};
use crate::indicators::Indicators;
use crate::texts::{Span, Texts};
use crate::values::Values;
use s3_decimal::{Dec, Form};
use s3_lines::sheet::Shape;
use s3_program::program::{Defined, Program};
use std::alloc::{AllocError, Global};

/// The slots of UDATE, UMONTH, UDAY and UYEAR; every program has PAGE first and then these.
const DATE: usize = 1;

const MONTH: usize = 2;

const DAY: usize = 3;

const YEAR: usize = 4;

/// The form of a field. A field of characters has the form of a digit.
fn form_of(shape: Shape) -> Form
    requires { shape_in_range shape ≡ true }
    ensures { digits_and_decimals result ≡ form_in_shape shape }
{
    match shape {
        Shape::Numeric(digits, decimals) => Form { digits, decimals },
        Shape::Alphanumeric(_) => Form {
            digits: 1,
            decimals: 0,
        },
    }
}

/// A zero for each field, and its form, with space for so many slots.
fn zeros(
    alloc: Global,
    fields: &[Defined<Shape>],
    slots: usize,
) -> Result<(Vec<i64>, Vec<Form>), AllocError>
    requires { are_fields_in_range fields.now ≡ true }
    ensures { IfOk result (λ zeros. IsZeros fields.now zeros.0.items zeros.1.items) }
{
    let mut numbers = Vec::with_capacity(alloc, slots)?;
    let mut forms = Vec::with_capacity(alloc, slots)?;
    for field in fields {
        numbers.push(0)?;
        forms.push(form_of(field.meaning))?;
    }
    Ok((numbers, forms))
}

/// Makes numbers zero.
fn clear(numbers: &mut [i64])
    ensures { numbers.new ≡ replicate (length numbers.old) (pos 0) }
{
    numbers.fill(0);
}

/// The number that two bytes of a date write.
fn date_part(date: &[u8; 6], at: usize) -> u32
    requires { at + 1 < 6 }
    ensures { result ≡ date_part_spec date.now at }
{
    u32::from(date[at]) % 16 * 10 + u32::from(date[at + 1]) % 16
}

/// A whole number of so many digits.
fn whole(value: u32, digits: u8) -> Dec
    requires some { 1 ≤ digits }
    requires few { digits ≤ 15 }
    requires below { value < 10 ^ digits }
    ensures value { result.value ≡ pos value }
    ensures digits { result.digits ≡ digits }
    ensures decimals { result.decimals ≡ 0 }
{
    Dec {
        value: i64::from(value),
        digits,
        decimals: 0,
    }
}

impl Values {
    ghost use Rattle.std.specs.Prelude.{◌≡◌, ◌<◌, ◌≤◌, ◌++◌, Some, drop, length, pos, replicate, slice_get};
    ghost use Rattle.s3_cards.specs.declared.ebcdic.TheConstants.{BLANK};
    ghost use Rattle.s3_operations.specs.Inner.Texts.{with_part};
    ghost use Rattle.s3_operations.specs.declared.texts.Span.{Span};

    /// The fields of the date get their numbers.
    fn put_date(&mut self, program: &Program, date: &[u8; 6])
        requires sound { IsSound program.now self.old }
        requires date { IsDate date.now }
        ensures { Changes program.now self.old self.new (λ source. with_date date.now) }
    {
        let month = date_part(date, 0);
        let day = date_part(date, 2);
        let year = date_part(date, 4);
        self.put_number(program, YEAR, whole(year, 2));
        self.put_number(program, DAY, whole(day, 2));
        self.put_number(program, MONTH, whole(month, 2));
        self.put_number(program, DATE, whole(month * 10000 + day * 100 + year, 6));
    }

    /// The values at the start of a job, with its switches, U1 the highest bit, and its date, mmddyy in EBCDIC. All memory of
    /// a run is taken here.
    pub fn new(
        alloc: Global,
        program: &Program,
        switches: u8,
        date: [u8; 6],
    ) -> Result<Values, AllocError>
        requires { IsDate date }
        ensures { IfOk result (Begins program.now switches date) }
    {
        let (mut numbers, mut forms) = zeros(alloc, program.fields.as_slice(), slots_of(program))?;
        add_constants(&mut numbers, &mut forms, program)?;
        let texts = Texts::of(alloc, program)?;
        let mut values = Values {
            numbers,
            forms,
            texts,
            indicators: Indicators::at_first(switches),
            division: None,
        };
        values.put_date(program, &date);
        Ok(values)
    }

    /// The values at the start of another job of the same program, with its switches and its date. It takes no memory.
    pub fn begin_again(&mut self, program: &Program, switches: u8, date: [u8; 6])
        requires sound { IsSound program.now self.old }
        requires date { IsDate date }
        ensures { Begins program.now switches date self.new }
    {
        let fields = program.fields.len();
        self.zero_before(fields);
        self.blank_before(fields);
        self.indicators = Indicators::at_first(switches);
        self.division = None;
        self.put_date(program, &date);
    }

    /// Makes the numbers of the slots before another one zero.
    fn zero_before(&mut self, slot: usize)
        requires { slot ≤ length self.old.numbers.items }
        ensures zeros { self.new.numbers.items ≡ replicate slot (pos 0) ++ drop slot self.old.numbers.items }
        ensures alone { self.new ≡ record self.old { numbers = self.new.numbers } }
    {
        clear(&mut self.numbers[0..slot]);
    }

    /// Makes the texts of the slots before another one blank. They lie before the text of that slot.
    fn blank_before(&mut self, slot: usize)
        requires { slot < length self.old.texts.spans }
        ensures blank { (span : Span) → slice_get self.old.texts.spans slot ≡ Some span → self.new.texts ≡ with_part self.old.texts (record { from = 0; to = span.from }) (replicate span.from BLANK) }
        ensures alone { self.new ≡ record self.old { texts = self.new.texts } }
    {
        let end = self.texts.span(slot).from;
        self.texts.clear(Span { from: 0, to: end });
    }
}
