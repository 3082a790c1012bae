// The part of a line that counts: trimmed, cut at its first `;` and trimmed.
ghost use Rattle.std.specs.Prelude.{◌≤◌, ◌≡◌, length};
ghost use Rattle.scan.specs.declared.class.Class.TheVariants.{Solid};
ghost use Rattle.scan.specs.Scan.{first};
ghost use Rattle.source.specs.Line.{line_of, spanned, trimmed};

use scan::class::Class;
use scan::scan::{first, last};

// A stretch of a text: from its first byte to the one behind its last.
#[derive(Clone, Copy, PartialEq, Eq, Debug)]
pub struct Span {
    pub from: usize,
    pub to: usize,
}

// The comment is cut before the second trim, so that blanks before it do not count either.
pub fn line(raw: &[u8]) -> Span
    ensures raw_value { spanned result raw.now ≡ line_of raw.now }
    ensures from_value { result.from ≡ first Solid raw.now }
    ensures from_le_to { result.from ≤ result.to }
    ensures to_in_bounds { result.to ≤ length raw.now }
{
    let whole = trim(raw);
    let trimmed = &raw[whole.from..whole.to];
    let end = first(Class::Is(b';'), trimmed);
    let rest = trim(&trimmed[..end]);
    Span {
        from: whole.from + rest.from,
        to: whole.from + rest.to,
    }
}

fn trim(text: &[u8]) -> Span
    ensures text_value { spanned result text.now ≡ trimmed text.now }
    ensures from_value { result.from ≡ first Solid text.now }
    ensures from_le_to { result.from ≤ result.to }
    ensures to_in_bounds { result.to ≤ length text.now }
{
    let from = first(Class::Solid, text);
    let to = from + last(Class::Solid, &text[from..]);
    Span { from, to }
}
