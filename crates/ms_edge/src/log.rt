ghost use Rattle.std.specs.Prelude.{◌≡◌, ◌+◌, ◌<◌, ◌≤◌, [], ◌∷◌, ◌++◌, All, length, vec_len, vec_capacity};
ghost use Rattle.std.specs.Option.{option_copied};
ghost use Rattle.ms_edge.specs.FilesInMemory.{held_under};
ghost use Rattle.ms_edge.specs.Span.{IsWithin, entries_in};

/// Where a name and its bytes lie in one buffer, the bytes behind the name.
#[derive(Clone, Copy)]
pub struct Span {
    pub start: usize,
    pub middle: usize,
    pub end: usize,
}

/// The bytes of the last span with this name.
pub fn last_of<'a>(spans: &[Span], buffer: &'a [u8], name: &[u8]) -> Option<&'a [u8]>
    requires { All (IsWithin (length buffer.now)) spans.now }
    ensures { option_copied result ≡ held_under (entries_in buffer.now spans.now) name.now }
{
    let mut held = None;
    for span in spans {
        if &buffer[span.start..span.middle] == name {
            held = Some(&buffer[span.middle..span.end]);
        }
    }
    held
}

/// Appends an entry, for which there is room in both vectors.
pub fn append(spans: &mut Vec<Span>, buffer: &mut Vec<u8>, name: &[u8], bytes: &[u8])
    requires within { All (IsWithin (length buffer.old.items)) spans.old.items }
    requires span_room { vec_len spans.old < vec_capacity spans.old }
    requires byte_room { vec_len buffer.old + (length name.now + length bytes.now) ≤ vec_capacity buffer.old }
    ensures entries { entries_in buffer.new.items spans.new.items ≡ entries_in buffer.old.items spans.old.items ++ (name.now, bytes.now) ∷ [] }
    ensures within { All (IsWithin (length buffer.new.items)) spans.new.items }
    ensures span_count { vec_len spans.new ≡ vec_len spans.old + 1 }
    ensures byte_count { vec_len buffer.new ≡ vec_len buffer.old + (length name.now + length bytes.now) }
    ensures span_capacity { vec_capacity spans.old ≤ vec_capacity spans.new }
    ensures byte_capacity { vec_capacity buffer.old ≤ vec_capacity buffer.new }
{
    let start = buffer.len();
    let middle = start + name.len();
    let end = middle + bytes.len();
    extend(buffer, name);
    extend(buffer, bytes);
    let span = Span { start, middle, end };
    push_span(spans, span);
}

/// Appends the bytes, for which there is room.
fn extend(buffer: &mut Vec<u8>, bytes: &[u8])
    requires { vec_len buffer.old + length bytes.now ≤ vec_capacity buffer.old }
    ensures items { buffer.new.items ≡ buffer.old.items ++ bytes.now }
    ensures count { vec_len buffer.new ≡ vec_len buffer.old + length bytes.now }
    ensures capacity { vec_capacity buffer.old ≤ vec_capacity buffer.new }
{
    buffer.extend_from_slice(bytes).unwrap();
}

/// Appends the span, for which there is room.
fn push_span(spans: &mut Vec<Span>, span: Span)
    requires { vec_len spans.old < vec_capacity spans.old }
    ensures items { spans.new.items ≡ spans.old.items ++ span ∷ [] }
    ensures count { vec_len spans.new ≡ vec_len spans.old + 1 }
    ensures capacity { vec_capacity spans.old ≤ vec_capacity spans.new }
{
    spans.push(span).unwrap();
}
