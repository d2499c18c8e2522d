//! What the fields of a head say of the body (RFC 9112, chapter 6).
ghost use Rattle.std.specs.Prelude.{◌≡◌, length, map, All};
ghost use Rattle.httparse.specs.Spans.{header_bytes, IsHeaderWithin};
ghost use Rattle.pl_head.specs.Fields.{with_field};
ghost use Rattle.pl_head.specs.Form.{form_of, number_of};

use httparse::spans::HeaderSpan;

/// The most digits of a length, so that none passes 64 bits.
const MOST_DIGITS: usize = 19;

/// What the fields say.
#[derive(Clone, Copy, Debug, PartialEq, Eq)]
pub enum Form {
    /// A `Transfer-Encoding`, two fields `Content-Length`, or one that isn't 1 to 19 digits.
    Refused,
    /// Neither of these fields.
    Without,
    /// The one `Content-Length`, in bytes.
    Length(u64),
}

/// The number of 1 to 19 digits.
fn read_length(value: &[u8]) -> Option<u64>
    ensures { result ≡ number_of value.now }
{
    if value.is_empty() || value.len() > MOST_DIGITS {
        return None;
    }
    let mut number: u64 = 0;
    for digit in value {
        if !digit.is_ascii_digit() {
            return None;
        }
        number = number * 10 + u64::from(*digit - b'0');
    }
    Some(number)
}

/// The form with one field more.
fn add_field(form: Form, name: &[u8], value: &[u8]) -> Form
    ensures { result ≡ with_field form (name.now, value.now) }
{
    if name.eq_ignore_ascii_case(b"transfer-encoding") {
        return Form::Refused;
    }
    if name.eq_ignore_ascii_case(b"content-length") {
        return match (form, read_length(value)) {
            (Form::Without, Some(number)) => Form::Length(number),
            _ => Form::Refused,
        };
    }
    form
}

/// The form that all fields give, by the places of their names and values in `buf`. Names are
/// compared without ASCII case.
pub fn read_form(buf: &[u8], fields: &[HeaderSpan]) -> Form
    requires { All (IsHeaderWithin (length buf.now)) fields.now }
    ensures { result ≡ form_of (map (header_bytes buf.now) fields.now) }
{
    let mut form = Form::Without;
    for field in fields {
        form = add_field(form, field.name.of(buf), field.value.of(buf));
    }
    form
}
