//! What records are sorted by.
ghost use Rattle.std.specs.Prelude.{◌≡◌};
ghost use Rattle.s3_pack_care.specs.Inner.Keys.{fits as fits_spec, most_bytes as most_bytes_spec};

/// How the bytes of a field are compared.
#[derive(Clone, Copy)]
pub enum Form {
    /// As characters: byte by byte, by their codes.
    Characters,
    /// As a zoned number with its sign, of at most 15 bytes.
    Zoned,
    /// As a packed number with its sign, of at most 8 bytes.
    Packed,
}

/// A field of a record by which records are sorted.
#[derive(Clone, Copy)]
pub struct SortField {
    /// The first byte of the field, from 1.
    pub from: u16,
    /// The last byte of the field.
    pub to: u16,
    /// How its bytes are compared.
    pub form: Form,
    /// Whether the greatest comes first.
    pub descending: bool,
}

/// How many bytes a field of this form may have.
fn most_bytes(form: Form) -> u16
    ensures { result ≡ most_bytes_spec form }
{
    match form {
        Form::Characters => 1024,
        Form::Zoned => 15,
        Form::Packed => 8,
    }
}

impl SortField {
    /// Whether the field lies in records of this length, and has some bytes and no more than its form allows.
    pub fn fits(self, record_length: u16) -> bool
        ensures { result ≡ fits_spec self record_length }
    {
        0 < self.from
            && self.from <= self.to
            && self.to <= record_length
            && self.to.saturating_sub(self.from) < most_bytes(self.form)
    }
}
