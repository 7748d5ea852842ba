//! The ends of records.

ghost use Rattle.std.specs.Prelude.{◌≡◌};
ghost use Rattle.csv.specs.Machine.{ends_at_end, in_field, start_record, step};
ghost use Rattle.csv.specs.Reading.{default_config};
ghost use Rattle.order_file.specs.Spot.{state_of};

/// Where in a record a byte is.
#[derive(Clone, Copy, PartialEq, Eq)]
pub enum Spot {
    /// Before a record.
    RecordStart,
    /// After a carriage return that ended one.
    AfterReturn,
    /// At the start of a field after a comma.
    FieldStart,
    InField,
    InQuotes,
    /// After a quote in quotes, which ends them, or is the first of two that mean one.
    AfterQuote,
}

/// A byte outside quotes.
#[inline(always)]
fn in_field(byte: u8) -> Spot
    ensures { state_of result ≡ (in_field default_config byte).0 }
{
    match byte {
        b',' => Spot::FieldStart,
        b'\r' => Spot::AfterReturn,
        b'\n' => Spot::RecordStart,
        _ => Spot::InField,
    }
}

/// A byte between two records.
#[inline(always)]
fn between(byte: u8) -> Spot
    ensures { state_of result ≡ (start_record default_config byte).0 }
{
    match byte {
        b'"' => Spot::InQuotes,
        b'\r' | b'\n' => Spot::RecordStart,
        _ => in_field(byte),
    }
}

impl Spot {
    /// The next spot, after this byte.
    #[inline(always)]
    pub fn after(self, byte: u8) -> Spot
        ensures { state_of result ≡ (step default_config (state_of self) byte).0 }
    {
        match self {
            Spot::RecordStart | Spot::AfterReturn => between(byte),
            Spot::InField => in_field(byte),
            Spot::InQuotes => {
                if byte == b'"' {
                    Spot::AfterQuote
                } else {
                    Spot::InQuotes
                }
            }
            Spot::FieldStart => {
                if byte == b'"' {
                    Spot::InQuotes
                } else {
                    in_field(byte)
                }
            }
            Spot::AfterQuote => {
                if byte == b'"' {
                    Spot::InQuotes
                } else {
                    in_field(byte)
                }
            }
        }
    }

    /// Whether a record is open here.
    #[inline(always)]
    pub fn is_open(self) -> bool
        ensures { result ≡ ends_at_end (state_of self) }
    {
        !matches!(self, Spot::RecordStart | Spot::AfterReturn)
    }
}
