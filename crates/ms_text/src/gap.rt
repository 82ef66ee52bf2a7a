ghost use Rattle.std.specs.Prelude.{◌≡◌, ℕ, ◌+◌, ◌<◌, ◌≤◌, ◌++◌, List, length, take, drop, codes, IfSome, IfNone};
ghost use Rattle.std.specs.List.{prefix_len};
ghost use Rattle.ms_text.specs.Gap.{is_blank, is_line_byte, NeverCloses, IsGap, BeginsWithPiece, BeginsNoPiece};

// How many bytes stand before the next line feed or the end.
fn line_length(rest: &[u8]) -> usize
    ensures run { result ≡ prefix_len is_line_byte rest.now }
    ensures within { result ≤ length rest.now }
{
    rest.iter().take_while(|byte| **byte != b'\n').count()
}

// How many bytes stand before the first `*/`.
fn body_length(rest: &[u8]) -> Option<usize>
    ensures closed { IfSome result (λ n. (behind : List ℕ) × (rest.now ≡ take n rest.now ++ (codes "*/" ++ behind))) }
    ensures within { IfSome result (λ n. n + 2 ≤ length rest.now) }
    ensures first { IfSome result (λ n. NeverCloses (take n rest.now)) }
    ensures open { IfNone result (NeverCloses rest.now) }
{
    let mut length = 0;
    while length + 1 < rest.len() {
        if rest[length] == b'*' && rest[length + 1] == b'/' {
            return Some(length);
        }
        length += 1;
    }
    None
}

fn is_blank(byte: u8) -> bool
    ensures { result ≡ is_blank byte }
{
    byte == b' ' || byte == b'\t' || byte == b'\r' || byte == b'\n'
}

// The length of the blank or the whole comment at the front.
fn piece_length(rest: &[u8]) -> Option<usize>
    ensures some { IfSome result (λ n. BeginsWithPiece (take n rest.now) (drop n rest.now)) }
    ensures bounds { IfSome result (λ n. (0 < n) × (n ≤ length rest.now)) }
    ensures none { IfNone result (BeginsNoPiece rest.now) }
{
    if rest.is_empty() {
        None
    } else if is_blank(rest[0]) {
        Some(1)
    } else if rest[0] == b'#' {
        Some(1 + line_length(&rest[1..]))
    } else if rest.starts_with(b"/*") {
        match body_length(&rest[2..]) {
            Some(length) => Some(length + 4),
            None => None,
        }
    } else {
        None
    }
}

/// How many bytes at the front are blanks and comments.
pub fn gap_length(rest: &[u8]) -> usize
    ensures bound { result ≤ length rest.now }
    ensures gap { IsGap (take result rest.now) (drop result rest.now) }
    ensures whole { BeginsNoPiece (drop result rest.now) }
{
    let mut length = 0;
    while let Some(piece) = piece_length(&rest[length..]) {
        length += piece;
    }
    length
}
