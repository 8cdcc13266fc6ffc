// The next line of what is read: the source's bytes, what is left of a macro, or a string.
ghost use Rattle.std.specs.Prelude.{◌≡◌, ◌+◌, ◌<◌, ◌≤◌, ◌-◌, length, get_or, take, drop};
ghost use Rattle.rules.specs.Lines.{is_closing};
ghost use Rattle.texts.specs.Lines.Lines.{first_line, next_line, TopInside, is_pair};

// A part of the store, from a place up to another.
#[derive(Clone, Copy, Debug, PartialEq, Eq)]
pub struct StorePart {
    pub at: usize,
    pub end: usize,
}

// Where the next line comes from.
#[derive(Clone, Copy, Debug, PartialEq, Eq)]
pub enum Top {
    // so many gathered bytes of the source
    Source(usize),
    // what is left of a macro
    Lines(StorePart),
    // a string that was called by its name: one line
    Whole(StorePart),
}

// The place of the first newline, or the length.
pub fn line_end(text: &[u8]) -> usize
    ensures { (result ≡ length (first_line text.now)) × (result ≤ length text.now) }
{
    text.iter()
        .position(|byte| *byte == b'\n')
        .unwrap_or(text.len())
}

// The line reader: the bytes before the first newline.
pub fn first_line(text: &[u8]) -> &[u8]
    ensures { result.now ≡ first_line text.now }
{
    &text[..line_end(text)]
}

// A macro's body, in the middle of the store, is handed to the line reader.
pub fn body_line(store: &[u8], at: usize, end: usize) -> &[u8]
    requires { (at ≤ end) × (end ≤ length store.now) }
    ensures { result.now ≡ first_line (take (end - at) (drop at store.now)) }
{
    first_line(&store[at..end])
}

// The next line, from whichever is on top.
pub fn next_line<'a>(source: &'a [u8], store: &'a [u8], top: Top) -> &'a [u8]
    requires { TopInside source.now store.now top }
    ensures { result.now ≡ next_line source.now store.now top }
{
    match top {
        Top::Source(count) => &source[..count],
        Top::Lines(part) => body_line(store, part.at, part.end),
        Top::Whole(part) => &store[part.at..part.end],
    }
}

// Whether a line is exactly the two bytes of `pair`.
pub fn is_pair(line: &[u8], pair: &[u8; 2]) -> bool
    ensures { result ≡ is_pair line.now (get_or pair.now 0 0) (get_or pair.now 1 0) }
{
    line == pair.as_slice()
}

// "A definition closes at a line that is exactly two periods. It is compared raw."
pub fn closes_body(line: &[u8]) -> bool
    ensures { result ≡ is_closing line.now }
{
    is_pair(line, b"..")
}
