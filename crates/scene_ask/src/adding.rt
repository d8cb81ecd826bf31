//! Adds the words of an answer to its line.
ghost use Rattle.std.specs.Prelude.{◌≡◌, ◌+◌, ◌*◌, ◌≤◌, ◌^◌, ◌<◌, ◌++◌, ◌∷◌, length, decimal};
ghost use Rattle.arrayvec.specs.ArrayVec.{array_vec_len};
ghost use Rattle.gui_base.specs.Corners.{rect_of};
ghost use Rattle.line_texts.specs.Quoting.{escaped, inside_quotes, quoted};
ghost use Rattle.scene_ask.specs.Asking.{integer, count, counts_say, area_says};

use arrayvec::ArrayVec;
use gui_base::Area;
use gui_edge::text::push_bytes;
use itoa::Buffer;

/// A line of an answer: its number, a name, and a text of 1,000 bytes between quotes fit.
pub(crate) type AnswerLine = ArrayVec<u8, 2100>;

/// Adds a number after a space.
pub(crate) fn push_integer(text: &mut AnswerLine, n: i32)
    requires { array_vec_len text.old + 12 ≤ 2100 }
    ensures items { text.new.items ≡ text.old.items ++ integer n }
    ensures len { array_vec_len text.new ≤ array_vec_len text.old + 12 }
{
    push_bytes(text, b" ");
    let mut buffer = Buffer::new();
    push_bytes(text, buffer.format(n).as_bytes());
}

/// Adds a number that is not below 0 after a space.
pub(crate) fn push_count(text: &mut AnswerLine, n: u64)
    requires { array_vec_len text.old + 21 ≤ 2100 }
    ensures items { text.new.items ≡ text.old.items ++ count n }
    ensures len { array_vec_len text.new ≤ array_vec_len text.old + 21 }
{
    push_bytes(text, b" ");
    let mut buffer = Buffer::new();
    push_bytes(text, buffer.format(n).as_bytes());
}

/// Adds two counts.
pub(crate) fn push_span(text: &mut AnswerLine, across: u32, down: u32)
    requires { array_vec_len text.old + 42 ≤ 2100 }
    ensures items { text.new.items ≡ text.old.items ++ counts_say across down }
    ensures len { array_vec_len text.new ≤ array_vec_len text.old + 42 }
{
    push_count(text, u64::from(across));
    push_count(text, u64::from(down));
}

/// Adds two numbers.
fn push_two(text: &mut AnswerLine, x: i32, y: i32)
    requires { array_vec_len text.old + 24 ≤ 2100 }
    ensures items { text.new.items ≡ text.old.items ++ (integer x ++ integer y) }
    ensures len { array_vec_len text.new ≤ array_vec_len text.old + 24 }
{
    push_integer(text, x);
    push_integer(text, y);
}

/// Adds the corners of an area.
pub(crate) fn push_area(text: &mut AnswerLine, area: Area)
    requires { array_vec_len text.old + 48 ≤ 2100 }
    ensures items { text.new.items ≡ text.old.items ++ area_says (rect_of area) }
    ensures len { array_vec_len text.new ≤ array_vec_len text.old + 48 }
{
    push_two(text, area.x1, area.y1);
    push_two(text, area.x2, area.y2);
}

/// Adds a text between quotes after a space.
pub(crate) fn push_quoted(text: &mut AnswerLine, said: &[u8])
    requires { array_vec_len text.old + 2 * length said.now + 3 ≤ 2100 }
    ensures items { text.new.items ≡ text.old.items ++ 32 ∷ quoted said.now }
    ensures len { array_vec_len text.new ≤ array_vec_len text.old + 2 * length said.now + 3 }
{
    push_bytes(text, b" \"");
    push_inside(text, said);
    push_bytes(text, b"\"");
}

/// Adds what stands between the quotes.
fn push_inside(text: &mut AnswerLine, said: &[u8])
    requires { array_vec_len text.old + 2 * length said.now ≤ 2100 }
    ensures items { text.new.items ≡ text.old.items ++ inside_quotes said.now }
    ensures len { array_vec_len text.new ≤ array_vec_len text.old + 2 * length said.now }
{
    for byte in said {
        push_escaped(text, *byte);
    }
}

/// Adds a byte as it stands between quotes.
fn push_escaped(text: &mut AnswerLine, byte: u8)
    requires { array_vec_len text.old + 2 ≤ 2100 }
    ensures items { text.new.items ≡ text.old.items ++ escaped byte }
    ensures len { array_vec_len text.new ≤ array_vec_len text.old + 2 }
{
    match byte {
        b'"' => push_bytes(text, b"\\\""),
        b'\\' => push_bytes(text, b"\\\\"),
        b'\n' => push_bytes(text, b"\\n"),
        _ => push_bytes(text, &[byte]),
    }
}
