//! Lines of a text.
ghost use Rattle.std.specs.Prelude.{◌≡◌, ◌≢◌, ◌<◌, ℕ, ◌∷◌, length, slice_index, IfSome, IfNone};
ghost use Rattle.text_model.specs.Lines.{lines};
ghost use Rattle.input_texts.specs.Ends.{without_cr};

/// The first place of a byte.
pub fn find(bytes: &[u8], wanted: u8) -> Option<usize>
    ensures within { IfSome result (λ i. i < length bytes.now) }
    ensures found { IfSome result (λ i. slice_index bytes.now i ≡ wanted) }
    ensures before { IfSome result (λ i. (k : ℕ) → k < i → slice_index bytes.now k ≢ wanted) }
    ensures none { IfNone result ((k : ℕ) → k < length bytes.now → slice_index bytes.now k ≢ wanted) }
{
    for (i, b) in bytes.iter().enumerate() {
        if *b == wanted {
            return Some(i);
        }
    }
    None
}

fn chomp(line: &[u8]) -> &[u8]
    ensures { result.now ≡ without_cr line.now }
{
    let n = line.len();
    if n > 0 && line[n - 1] == b'\r' {
        &line[..n - 1]
    } else {
        line
    }
}

/// The first line, without its ending, and the bytes after it.
pub fn next_line(bytes: &[u8]) -> (&[u8], &[u8])
    requires { 0 < length bytes.now }
    ensures line { lines bytes.now ≡ result.0.now ∷ lines result.1.now }
    ensures shorter { length result.1.now < length bytes.now }
{
    match find(bytes, b'\n') {
        Some(end) => (chomp(&bytes[..end]), &bytes[end + 1..]),
        None => (bytes, &bytes[bytes.len()..]),
    }
}
