//! A line of text of at most 160 bytes, made without memory.
ghost use Rattle.std.specs.Prelude.{◌≡◌, ◌+◌, ◌≤◌, ◌++◌, length, decimal};
ghost use Rattle.arrayvec.specs.ArrayString.{array_string_len};

use arrayvec::ArrayString;
use itoa::Buffer;

/// A line of the output, its LF included.
pub type Line = ArrayString<160>;

/// Appends a number, which has at most 20 digits.
pub(crate) fn push_number(line: &mut Line, number: u64)
    requires { array_string_len line.old + 20 ≤ 160 }
    ensures bytes { line.new.bytes ≡ line.old.bytes ++ decimal number }
    ensures length { array_string_len line.new ≤ array_string_len line.old + 20 }
{
    line.push_str(Buffer::new().format(number));
}
